//! The key that was derived last.

ghost use Rattle.std.specs.Prelude.{◌≡◌, ◌==◌, ◌&&◌};

/// The key of a module at a boot, kept because its derivation hashes the module's text.
#[derive(Clone, Copy)]
pub struct DerivedKey {
    pub module: u8,
    pub boot: u32,
    pub key: [u8; 16],
}

impl DerivedKey {
    /// Whether it is the key of this module at this boot.
    pub fn is_of(&self, module: u8, boot: u32) -> bool
        ensures { result ≡ ((self.now.«module» == «module») && (self.now.boot == boot)) }
    {
        self.module == module && self.boot == boot
    }
}
