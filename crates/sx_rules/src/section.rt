//! The section of a module: the bounds of its parts, its id and its key.

/// The places of a module's two parts. A part goes from its start up to but not including its end.
#[derive(Clone, Copy, Debug, PartialEq, Eq)]
pub struct Layout {
    /// The first byte of the public part, which holds the code; its first word is the entry.
    pub pub_from: u16,
    /// The byte after the public part.
    pub pub_to: u16,
    /// The first byte of the private part, which holds the data.
    pub priv_from: u16,
    /// The byte after the private part.
    pub priv_to: u16,
}

/// A protected module.
#[derive(Clone, Copy, Debug, PartialEq, Eq)]
pub struct Section {
    /// Where it is.
    pub layout: Layout,
    /// The number of the software provider, from which the module's key is derived.
    pub provider: u16,
    /// From 1 to 65,535, and never given twice in a boot.
    pub id: u16,
    /// The module's key.
    pub key: [u8; 16],
}
