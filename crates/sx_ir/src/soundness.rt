//! Whether templates can be made for code.

ghost use Rattle.std.specs.Prelude.{◌≡◌, ◌+◌, ◌-◌, ◌*◌, ◌<◌, length};
ghost use Rattle.std.specs.List.{list_all};
ghost use Rattle.sx_ir.specs.Meaning.{is_saved};
ghost use Rattle.sx_ir.specs.Sound.{are_sealed, has_slot, is_even, is_free, is_key, is_sound};
ghost use Rattle.sx_ir.specs.Sound.{is_sound_op, is_sound_part, may_change};

use crate::ir::{Code, Ir};
use crate::sizes::bytes;
use spec_invocation::protocol::{KEY_SIZE, TAG_SIZE};
use sx_mean::offsets::{SCRATCH, SLOT_SIZE, STACK_TO, end_at};
use sx_rules::Layout;

fn is_free(size: u32, offset: u32, count: u32) -> bool
    requires offset { offset < 131072 }
    requires count { count < 131072 }
    ensures { result ≡ is_free size offset count }
{
    let end = offset + count;
    let beside = end <= u32::from(SCRATCH) || u32::from(STACK_TO) <= offset;
    end <= size && 2 <= offset && beside
}

fn may_change(size: u32, offset: u32, count: u32) -> bool
    requires offset { offset < 131072 }
    requires count { count < 131072 }
    ensures { result ≡ may_change size offset count }
{
    is_free(size, offset, count) && (offset + count <= 6 || 14 <= offset)
}

fn is_even(offset: u16) -> bool
    ensures { result ≡ is_even offset }
{
    offset % 2 == 0
}

fn has_slot(size: u32, end: u8) -> bool
    ensures { result ≡ has_slot size end }
{
    u32::from(end_at(end)) + u32::from(SLOT_SIZE) <= size
}

fn is_saved(register: u8) -> bool
    ensures { result ≡ is_saved register }
{
    12 <= register && register <= 15
}

fn is_key(size: u32, offset: u16) -> bool
    ensures { result ≡ is_key size offset }
{
    offset == 0 || is_free(size, u32::from(offset), u32::from(KEY_SIZE))
}

fn are_sealed(size: u32, key: u16, header: u16, header_len: u8, body: u16, body_len: u8) -> bool
    ensures { result ≡ are_sealed size key header header_len body body_len }
{
    is_key(size, key)
        && (is_free(
            size,
            u32::from(header),
            u32::from(header_len) + u32::from(body_len) + u32::from(TAG_SIZE),
        ) && (is_free(size, u32::from(body), u32::from(body_len))
            && (header_len <= 32 && body_len <= 32)))
}

fn is_sound_op(ops: u32, parts: u64, size: u32, op: &Ir) -> bool
    ensures { result ≡ is_sound_op ops parts size op.now }
{
    match op {
        Ir::Push(_)
        | Ir::Op(_)
        | Ir::Drop
        | Ir::Emit
        | Ir::Stop
        | Ir::Inside
        | Ir::Sense
        | Ir::Leave => true,
        Ir::Load(at) => is_even(*at) && is_free(size, u32::from(*at), 2),
        Ir::Store(at) => is_even(*at) && may_change(size, u32::from(*at), 2),
        Ir::LoadAt(at, n) => is_even(*at) && is_free(size, u32::from(*at), 2 * u32::from(*n)),
        Ir::StoreAt(at, n) => is_even(*at) && may_change(size, u32::from(*at), 2 * u32::from(*n)),
        Ir::Jump(place) | Ir::JumpZero(place) => u32::from(*place) < ops,
        Ir::JumpEqual(at, _, place) => {
            is_even(*at) && (is_free(size, u32::from(*at), 2) && u32::from(*place) < ops)
        }
        Ir::Packet(end) | Ir::SetEnd(end) => has_slot(size, *end),
        Ir::Saved(register) => is_saved(*register),
        Ir::Meets(register, n) => is_saved(*register) && 2 <= *n,
        Ir::CopyIn(n, to) => 1 <= *n && may_change(size, u32::from(*to), u32::from(*n)),
        Ir::CopyOut(n, from) => 1 <= *n && is_free(size, u32::from(*from), u32::from(*n)),
        Ir::Seal(key, header, header_len, body, body_len) => {
            let cipher = u32::from(*header) + u32::from(*header_len);
            are_sealed(size, *key, *header, *header_len, *body, *body_len)
                && may_change(size, cipher, u32::from(*body_len) + u32::from(TAG_SIZE))
        }
        Ir::Open(key, header, header_len, body, body_len) => {
            are_sealed(size, *key, *header, *header_len, *body, *body_len)
                && may_change(size, u32::from(*body), u32::from(*body_len))
        }
        Ir::Handler(part) => u64::from(*part) < parts,
    }
}

fn are_sound_ops(ops: &[Ir], parts: u64, size: u32) -> bool
    requires { length ops.now < 65536 }
    ensures { result ≡ list_all (is_sound_op (length ops.now) parts size) ops.now }
{
    let count = ops.len() as u32;
    ops.iter().all(|op| is_sound_op(count, parts, size, op))
}

fn is_sound_part(ops: u64, part: (u16, u16)) -> bool
    ensures { result ≡ is_sound_part ops part }
{
    u64::from(part.0) < ops && u64::from(part.1) <= ops
}

fn are_sound_parts(ops: u64, parts: &[(u16, u16)]) -> bool
    ensures { result ≡ list_all (is_sound_part ops) parts.now }
{
    parts.iter().all(|part| is_sound_part(ops, *part))
}

/// Whether templates can be made for code in sections of this layout. It holds exactly where the
/// code has fewer than 65,536 operations; each place, part, end's slot and register that it names
/// is there; each offset with its length lies in the private section, beside its first word, the
/// stack's place and what only templates use, and is even where it names words; no operation writes
/// the caller's saved registers; a wrap's header and body have at most 32 bytes each; and the text
/// has room in the public section. It is for programs that make stack code of their own: that of
/// the compiler is sound by proof.
pub fn sound(code: &Code, layout: &Layout) -> bool
    ensures { result ≡ is_sound code.now.ops.items code.now.parts.items layout.now }
{
    if code.ops.len() >= 65536 {
        return false;
    }
    let private = u32::from(layout.priv_to.saturating_sub(layout.priv_from));
    let public = u64::from(layout.pub_to.saturating_sub(layout.pub_from));
    are_sound_ops(&code.ops, code.parts.len() as u64, private)
        && (are_sound_parts(code.ops.len() as u64, &code.parts) && bytes(code) <= public)
}
