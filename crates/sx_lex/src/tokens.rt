//! Tokens, their kinds and their places.

use sx_lang::names::Name;

/// What a token is.
#[derive(Clone, Copy, PartialEq, Eq)]
pub enum Kind {
    /// A number of decimal digits, or of `0x` and hexadecimal digits, by its value.
    Number(u16),
    /// A name that is none of the language's own words.
    Name(Name),
    /// `sensor`
    Sensor,
    /// `actuator`
    Actuator,
    /// `input`
    Input,
    /// `output`
    Output,
    /// `var`
    Var,
    /// `array`
    Array,
    /// `on`
    On,
    /// `sample`
    Sample,
    /// `let`
    Let,
    /// `if`
    If,
    /// `else`
    Else,
    /// `repeat`
    Repeat,
    /// `send`
    Send,
    /// `emit`
    Emit,
    /// `;`
    Semicolon,
    /// `=`
    Equals,
    /// `(`
    Open,
    /// `)`
    Close,
    /// `[`
    OpenSquare,
    /// `]`
    CloseSquare,
    /// `{`
    OpenBrace,
    /// `}`
    CloseBrace,
    /// `==`
    EqualsEquals,
    /// `!=`
    NotEquals,
    /// `<`
    Less,
    /// `<=`
    LessEquals,
    /// `>`
    Greater,
    /// `>=`
    GreaterEquals,
    /// `+`
    Plus,
    /// `-`
    Minus,
    /// `|`
    Bar,
    /// `^`
    Caret,
    /// `*`
    Star,
    /// `&`
    Ampersand,
    /// `~`
    Tilde,
    /// `!`
    Bang,
    /// What begins no token of the language. It is the last of its text.
    Bad,
}

/// A place in a text: line and byte column from 1. One above 4,294,967,295 is given as that number.
#[derive(Clone, Copy, PartialEq, Eq, Debug)]
pub struct Place {
    /// The line.
    pub line: u32,
    /// The byte of the line.
    pub column: u32,
}

/// A token and the place of its first byte.
#[derive(Clone, Copy, PartialEq, Eq)]
pub struct Placed {
    /// What the token is.
    pub kind: Kind,
    /// Where its first byte is.
    pub place: Place,
}

/// The tokens of a text in their order, and the place where the reading ended: after the text's
/// last byte, or at the token `Bad`.
#[derive(Drop)]
pub struct Tokens {
    /// The tokens.
    pub list: Vec<Placed>,
    /// Where the reading ended.
    pub end: Place,
}
