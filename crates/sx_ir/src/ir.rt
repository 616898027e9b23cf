//! Operations, and code that is made of them.

ghost use Rattle.std.specs.Prelude.{◌≡◌, ◌<◌, length, Some, slice_get};

/// An operation on words that leaves one word on the stack. Where it takes two, the top word is the
/// right operand.
#[derive(Clone, Copy, PartialEq, Eq, Debug)]
pub enum IrOp {
    /// The sum modulo 65,536.
    Add,
    /// The difference modulo 65,536.
    Sub,
    /// The product modulo 65,536.
    Mul,
    /// And, bit by bit.
    And,
    /// Or, bit by bit.
    Or,
    /// Exclusive or, bit by bit.
    Xor,
    /// Whether they are equal, 1 or 0.
    Eq,
    /// Whether the lower one is below the top one, 1 or 0.
    Lt,
    /// The negative modulo 65,536.
    Neg,
    /// Each of the 16 bits inverted.
    Inv,
    /// 1 where the word is 0, else 0.
    Not,
}

/// An operation of stack code. Words and bytes of the private section are named by their offsets,
/// operations by their places, ends and handlers by their indices.
#[derive(Clone, Copy, PartialEq, Eq, Debug)]
pub enum Ir {
    /// Pushes this word.
    Push(u16),
    /// Pushes the word at this offset.
    Load(u16),
    /// Takes the top word and stores it at this offset.
    Store(u16),
    /// Takes an index and pushes that element of the array at this offset with this many words, 0
    /// past its end.
    LoadAt(u16, u16),
    /// Takes a value and then an index, and stores that element of the array at this offset with
    /// this many words; past its end nothing is stored.
    StoreAt(u16, u16),
    /// Takes its operands and pushes the result.
    Op(IrOp),
    /// Goes on at this place.
    Jump(u16),
    /// Takes the top word, and goes on at this place where it is 0.
    JumpZero(u16),
    /// Compares the word at this offset with this word, and goes on at this place where they are
    /// equal.
    JumpEqual(u16, u16, u16),
    /// Makes the packet of this end from the top word, which stays, where the end is open and its
    /// number below 65,535.
    Packet(u8),
    /// Takes the top word.
    Drop,
    /// Takes the top word and writes it to the actuator.
    Emit,
    /// The end of a handler's part.
    Stop,
    /// Pushes the caller's R12, R13, R14 or R15.
    Saved(u8),
    /// The violation `illegal` where the return address lies in the public section.
    Inside,
    /// Pushes 1 where the window at this saved register, of this length, passes the end of memory
    /// or meets the private section, else 0.
    Meets(u8, u16),
    /// Copies this many bytes from the in-window to an offset.
    CopyIn(u16, u16),
    /// Takes the out-window's offset, and copies this many bytes to it from this offset of the
    /// private section.
    CopyOut(u16, u16),
    /// Wraps: the key's offset, 0 for the module's own key; header and length; body and length. The
    /// cipher and then the tag are put after the header.
    Seal(u16, u16, u8, u16, u8),
    /// Unwraps, with the same operands, and pushes 1, or 0 where the tag differs.
    Open(u16, u16, u8, u16, u8),
    /// Opens this end with the copied packet's key and connection field, and number 0.
    SetEnd(u8),
    /// Reads the sensor's word and pushes it.
    Sense,
    /// Sets the count of pieces to 0 and does this handler's part, up to its `Stop`.
    Handler(u8),
    /// Takes the number of pieces and the status, and returns to the caller.
    Leave,
}

/// Stack code, and the first place and the place after the last of each handler's part.
#[derive(Drop)]
pub struct Code {
    /// The operations; the place of one is its index.
    pub ops: Vec<Ir>,
    /// For each handler, the first place of its part and the place after its last.
    pub parts: Vec<(u16, u16)>,
}

impl Code {
    /// The first place of a handler's part, and the place after its last.
    pub fn part(&self, handler: u8) -> (u16, u16)
        requires { handler < length self.now.parts.items }
        ensures { slice_get self.now.parts.items handler ≡ Some result }
    {
        self.parts[usize::from(handler)]
    }
}
