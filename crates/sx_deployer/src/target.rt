//! The modules that the deployer asks and gives keys.

ghost use Rattle.std.specs.Prelude.{◌≡◌, IfOk};
ghost use Rattle.sx_deployer.specs.Keeping.{known};

use std::alloc::{AllocError, Global};
use sx_mean::events::End;

/// A module as the deployer knows it.
#[derive(Drop)]
pub struct Target {
    /// The key of the module's node.
    pub node_key: [u8; 16],
    /// The number of the module's provider.
    pub provider: u16,
    /// The bytes of the public section, then the layout.
    pub identity: Vec<u8>,
    /// The ends of connections that the module holds, in order.
    pub ends: Vec<End>,
}

impl Target {
    /// A target that is equal to this one. The error says that memory ran out.
    pub fn copy(&self) -> Result<Target, AllocError>
        ensures { IfOk result (λ t. known t ≡ known self.now) }
    {
        Ok(Target {
            node_key: self.node_key,
            provider: self.provider,
            identity: self.identity.clone()?,
            ends: self.ends.clone()?,
        })
    }
}
