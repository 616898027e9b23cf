//! The ten rules and their order.

/// The rules, in the order in which they are tried.
#[derive(Clone, Copy, PartialEq, Eq, Debug)]
pub enum Rule {
    /// A name is declared twice, taken by a local though it is in use, or handled twice; or there
    /// are two device declarations.
    Duplicate,
    /// A name isn't declared, or a local is used before its `let` or after its block.
    Unknown,
    /// A name is used as another kind; or the module samples without a sensor, or emits without an
    /// actuator.
    Kind,
    /// An expression is higher than 32, or a block is in more than 15 others.
    Depth,
    /// A handler has more than 16 locals, its parameter among them.
    Locals,
    /// A count of a `repeat` isn't 1 to 256.
    Repeat,
    /// A handler can send more than 16 times.
    Packets,
    /// The cost is above 262,144.
    Cost,
    /// There are more than 512 nodes, or more than 255 inputs or outputs.
    Nodes,
    /// An array's length isn't 1 to 1,024, or there are more than 1,024 cells.
    Cells,
}

/// All rules in their order.
pub const RULES: [Rule; 10] = [
    Rule::Duplicate,
    Rule::Unknown,
    Rule::Kind,
    Rule::Depth,
    Rule::Locals,
    Rule::Repeat,
    Rule::Packets,
    Rule::Cost,
    Rule::Nodes,
    Rule::Cells,
];
