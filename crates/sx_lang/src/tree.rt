//! The tree of a module: declarations, handlers, statements and expressions.

use crate::names::Name;

/// The kind of device that a driver module has.
#[derive(Clone, Copy, PartialEq, Eq, Debug)]
pub enum DeviceKind {
    /// A device that gives values.
    Sensor,
    /// A device that takes values.
    Actuator,
}

/// An operator with one operand.
#[derive(Clone, Copy, PartialEq, Eq, Debug)]
pub enum UnOp {
    /// `-`, the negative modulo 65,536.
    Neg,
    /// `~`, each of the 16 bits inverted.
    Inv,
    /// `!`, 1 where the operand is 0, else 0.
    Not,
}

/// An operator with two operands.
#[derive(Clone, Copy, PartialEq, Eq, Debug)]
pub enum BinOp {
    /// `+`, the sum modulo 65,536.
    Add,
    /// `-`, the difference modulo 65,536.
    Sub,
    /// `|`, bit by bit.
    Or,
    /// `^`, bit by bit.
    Xor,
    /// `*`, the product modulo 65,536.
    Mul,
    /// `&`, bit by bit.
    And,
    /// `==`, 1 or 0.
    Eq,
    /// `!=`, 1 or 0.
    Ne,
    /// `<` of unsigned numbers, 1 or 0.
    Lt,
    /// `<=` of unsigned numbers, 1 or 0.
    Le,
    /// `>` of unsigned numbers, 1 or 0.
    Gt,
    /// `>=` of unsigned numbers, 1 or 0.
    Ge,
}

/// An expression, which is worth a 16-bit word.
#[derive(Drop)]
pub enum Expr {
    /// This number.
    Number(u16),
    /// A local or a variable.
    Read(Name),
    /// An element of an array.
    At(Name, Box<Expr>),
    /// An operator and its operand.
    Unary(UnOp, Box<Expr>),
    /// An operator and its operands, the left one first.
    Binary(BinOp, Box<Expr>, Box<Expr>),
}

/// A statement of a handler.
#[derive(Drop)]
pub enum Stmt {
    /// A new local and its first value.
    Let(Name, Expr),
    /// A value for a local or a variable.
    Assign(Name, Expr),
    /// A value for the array's element at the first expression.
    Element(Name, Expr, Expr),
    /// The first block where the condition isn't 0, else the second.
    If(Expr, Vec<Stmt>, Vec<Stmt>),
    /// The block, this many times.
    Repeat(u16, Vec<Stmt>),
    /// A value for an output.
    Send(Name, Expr),
    /// A value for the module's actuator.
    Emit(Expr),
}

/// What a module declares.
#[derive(Drop)]
pub enum Decl {
    /// The module's device.
    Device(DeviceKind),
    /// An input.
    Input(Name),
    /// An output.
    Output(Name),
    /// A variable and its first value.
    Var(Name, u16),
    /// An array and its length.
    Array(Name, u16),
}

/// What a module does at an event.
#[derive(Drop)]
pub struct Handler {
    /// The input whose events it handles; none where it handles the sensor's samples.
    pub input: Option<Name>,
    /// The local that holds the event's value.
    pub param: Name,
    /// Its statements.
    pub body: Vec<Stmt>,
}

/// A module: its declarations and its handlers, in order.
#[derive(Drop)]
pub struct Module {
    /// What it declares.
    pub decls: Vec<Decl>,
    /// What it does at events.
    pub handlers: Vec<Handler>,
}
