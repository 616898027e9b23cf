//! The lines of a schedule as values, and the rules that a text can break.

/// One line of a schedule. Nodes, devices and modules are given by their indices in the lists of
/// names, and packets by their numbers, from 0.
#[derive(Drop)]
pub enum Line {
    /// A line without a word, or a comment.
    Blank,
    /// This many steps of a node, 1 to 65,535, ending after a reset.
    Run {
        node: u8,
        steps: u16,
    },
    /// One step of a node, and further ones while a module runs.
    Finish {
        node: u8,
    },
    /// 1 to 1,024 bytes are written from an address on.
    Put {
        node: u8,
        at: u16,
        bytes: Vec<u8>,
    },
    /// A register but R3 gets a value.
    Set {
        node: u8,
        reg: u8,
        value: u16,
    },
    /// 1 to 384 bytes become a new packet.
    Take {
        node: u8,
        at: u16,
        len: u16,
    },
    /// A packet is written from an address on.
    Give {
        packet: u32,
        node: u8,
        at: u16,
    },
    /// 1 to 384 bytes become a new packet.
    Forge {
        bytes: Vec<u8>,
    },
    /// A sensor gets a value below 32,768.
    Sense {
        device: u8,
        value: u16,
    },
    /// An interrupt on a line, 0 to 14.
    Irq {
        node: u8,
        line: u8,
    },
    /// A node is reset.
    Reset {
        node: u8,
    },
    /// The deployer asks a module to attest itself.
    Ask {
        module: u8,
    },
    /// A packet is a module's answer, for a boot.
    Answer {
        module: u8,
        boot: u32,
        packet: u32,
    },
    /// A module's image is put into memory and protected.
    Load {
        module: u8,
    },
    /// A module is called with an entry and the addresses of its windows.
    Call {
        module: u8,
        entry: u16,
        input: u16,
        output: u16,
    },
}

/// Why a text gives no line.
#[derive(Clone, Copy, PartialEq, Eq, Debug)]
pub enum LineError {
    /// The number of the first rule that the text breaks: 3, its first word is unknown; 7, its
    /// number of words is wrong; and then field by field 4, a name or register is unknown; 5, a
    /// number is none or out of range; 6, a word isn't the hexadecimal text of as many bytes as are
    /// allowed; and last 8, a text isn't assembled to 1 to 1,024 bytes.
    Fault(u8),
    /// Memory ran out for the bytes of a `put` or `forge` that breaks no rule, or to assemble the
    /// text of an `asm` that breaks none but perhaps rule 8.
    OutOfMemory,
}

/// The first word is unknown.
pub(crate) const NO_KIND: LineError = LineError::Fault(3);
/// A name or a register is unknown.
pub(crate) const NO_NAME: LineError = LineError::Fault(4);
/// A word is no number, or one that is out of range.
pub(crate) const NO_NUMBER: LineError = LineError::Fault(5);
/// A word isn't the hexadecimal text of as many bytes as are allowed.
pub(crate) const NO_BYTES: LineError = LineError::Fault(6);
/// The number of words is wrong.
pub(crate) const WRONG_COUNT: LineError = LineError::Fault(7);
/// A text isn't assembled to 1 to 1,024 bytes.
pub(crate) const NO_CODE: LineError = LineError::Fault(8);
