//! The packets as structs.

/// An event: a word that is sent over a connection.
#[derive(Clone, Copy, PartialEq, Eq, Debug)]
pub struct EventPacket {
    /// The connection field: the connection's number in the low byte, the epoch in the high one.
    pub link: u16,
    /// How many events were sent before it over the connection in this epoch.
    pub number: u16,
    /// The word, encrypted.
    pub cipher: [u8; 2],
    /// The tag of header and cipher under the connection key.
    pub mac: [u8; 16],
}

/// A connection key for one end of the connection.
#[derive(Clone, Copy, PartialEq, Eq, Debug)]
pub struct SetKeyPacket {
    /// The connection field: the connection's number in the low byte, the epoch in the high one.
    pub link: u16,
    /// The end: 0 the sending one, 1 the receiving one.
    pub end: u16,
    /// The connection key, encrypted.
    pub cipher: [u8; 16],
    /// The tag of header and cipher under the key of the module that holds the end.
    pub mac: [u8; 16],
}
