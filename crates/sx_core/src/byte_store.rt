//! MOV of a register's byte onto memory, which code on bytes does most.

ghost use Rattle.std.specs.Prelude.{◌≡◌, ℕ, true, false, IfSome};
ghost use Rattle.sx_isa.specs.declared.instruction.Op2.TheVariants.{Mov};
ghost use Rattle.sx_isa.specs.declared.instruction.Instr.TheVariants.{Two};
ghost use Rattle.sx_isa.specs.declared.instruction.Operand.TheVariants.{Reg};
ghost use Rattle.sx_isa.specs.Extending.{extended};
ghost use Rattle.spec_machine.specs.Registers.{at_pc};
ghost use Rattle.spec_machine.specs.Rows.{two};
ghost use Rattle.sx_executor.specs.Shortcuts.{byte_double_of};
ghost use Rattle.sx_core.specs.Quickly.{EndsStep};
ghost use Rattle.sx_core.specs.Places.{place_of};

use crate::at_hand::moved_to;
use crate::place::address_of;
use crate::quick::Stepped;
use sx_bus::Bus;
use sx_executor::{ByteDouble, Executor};
use sx_isa::Op2;

/// A store of a register's byte at the extension word, or at a base plus that word.
#[derive(Clone, Copy)]
pub struct ByteStore {
    /// The register whose byte is stored.
    pub src: u8,
    /// The register that the extension word is added to, if there is one.
    pub base: Option<u8>,
}

/// The store that a form is, if it is one.
#[inline(always)]
pub fn store_of(form: ByteDouble) -> Option<ByteStore>
    ensures { IfSome result (λ store. (x : ℕ) → extended (byte_double_of form) x 0
        ≡ Two Mov true (Reg store.src) (place_of store.base x)) }
{
    match form {
        ByteDouble::OntoAbsolute { op: Op2::Mov, src } => Some(ByteStore { src, base: None }),
        ByteDouble::OntoIndexed {
            op: Op2::Mov,
            src,
            base,
        } => Some(ByteStore {
            src,
            base: Some(base),
        }),
        _ => None,
    }
}

/// The store with the extension word `x`. PC goes to `after`, the address after the first word,
/// before operands are read; `next` is the address after the whole.
#[inline(always)]
pub fn store_byte<B: Bus>(
    executor: &mut Executor<B>,
    store: ByteStore,
    x: u16,
    after: u16,
    next: u16,
) -> Stepped
    ensures { EndsStep (two Mov false (Reg store.src) (place_of store.base x)
        (at_pc executor.old.regs after) next) executor.old result executor.new }
{
    executor.set_pc(after);
    let value = executor.operand(false, store.src);
    executor.set_pc(next);
    let at = address_of(executor, store.base, x);
    moved_to(executor, false, at, value)
}
