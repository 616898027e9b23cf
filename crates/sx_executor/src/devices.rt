//! What an instruction did at devices.

ghost use Rattle.std.specs.Prelude.{◌≡◌};

use crate::executor::Executor;
use spec_machine::Touch;
use sx_bus::Bus;

impl<B: Bus> Executor<B> {
    /// What the instruction did at devices.
    pub fn touches(&self) -> [Touch; 2]
        ensures { result ≡ self.now.touches }
    {
        self.touches
    }
}
