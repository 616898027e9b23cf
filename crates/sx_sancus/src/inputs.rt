//! What wrap and unwrap begin with.

ghost use Rattle.std.specs.Prelude.{◌≡◌, ◌≤◌, [], ◌∷◌, true, false, IfOk, IfErr, OnOk};
ghost use Rattle.std.specs.Prelude.{slice_index, length, List, ℕ};
ghost use Rattle.std.specs.Bool.{OnFalse};
ghost use Rattle.std.specs.List.{list_any};
ghost use Rattle.sx_rules.specs.declared.access.Violation.TheVariants as bad;
ghost use Rattle.spec_machine.specs.declared.kinds.Exchange.{Exchange};
ghost use Rattle.spec_machine.specs.Plan.{Plan};
ghost use Rattle.spec_machine.specs.Ranges.{passes_end, meets_device};
ghost use Rattle.spec_machine.specs.ModuleRows.{own_key, buffers, with_key, with_inputs};
ghost use Rattle.spec_machine.specs.Run.{Outcome};
ghost use Rattle.spec_machine.specs.Answers.{followed};
ghost use Rattle.sx_sancus.specs.Told.{ran_of};
ghost use Rattle.sx_sancus.specs.Parts.{IsNamedBuffer, IsSixteenBytes, IsKeyPlace, IsOff, IsApart};
ghost use Rattle.sx_sancus.specs.Parts.{tested_buffers};

use crate::access::{read_block, read_text};
use crate::text::Text;
use sx_bus::{Bus, Windows};
use sx_executor::{Buffer, Executor};
use sx_rules::{Section, Violation};

/// The buffers that R9 to R15 name; there is no key's where R9 is 0.
#[derive(Clone, Copy)]
struct Buffers {
    key: Buffer,
    header: Buffer,
    text: Buffer,
    output: Buffer,
    tag: Buffer,
}

/// Whether the module's own key is used.
pub fn own_key(regs: &[u16; 16]) -> bool
    ensures { result ≡ own_key regs.now }
{
    regs[9] == 0
}

impl Buffers {
    /// The buffers, or the violation `Range` where one passes the end of memory.
    fn of_registers(regs: &[u16; 16]) -> Result<Buffers, Violation>
        ensures range { IfErr result (λ why. (why ≡ bad.Range)
            × (list_any (λ b. passes_end b.at b.count) (buffers regs.now) ≡ true)) }
        ensures within { OnOk result
            (list_any (λ b. passes_end b.at b.count) (buffers regs.now) ≡ false) }
        ensures key { IfOk result (λ b. IsKeyPlace regs.now b.key) }
        ensures header { IfOk result (λ b. IsNamedBuffer regs.now 10 11 b.header) }
        ensures text { IfOk result (λ b. IsNamedBuffer regs.now 12 13 b.text) }
        ensures output { IfOk result (λ b. IsNamedBuffer regs.now 14 13 b.output) }
        ensures tag { IfOk result (λ b. IsSixteenBytes regs.now 15 b.tag) }
    {
        let key_count = if own_key(regs) { 0 } else { 16 };
        Ok(Buffers {
            key: Buffer::new(regs[9], key_count)?,
            header: Buffer::new(regs[10], regs[11])?,
            text: Buffer::new(regs[12], regs[13])?,
            output: Buffer::new(regs[14], regs[13])?,
            tag: Buffer::new(regs[15], 16)?,
        })
    }

    /// Whether one of them meets a device.
    fn meet_device(&self, places: &[u16]) -> bool
        ensures any { result ≡ list_any (λ b. meets_device places.now b.at b.count)
            (self.now.key ∷ self.now.header ∷ self.now.text ∷ self.now.output ∷ self.now.tag ∷ []) }
        ensures key { OnFalse result (IsOff places.now self.now.key) }
        ensures header { OnFalse result (IsOff places.now self.now.header) }
        ensures text { OnFalse result (IsOff places.now self.now.text) }
        ensures output { OnFalse result (IsOff places.now self.now.output) }
        ensures tag { OnFalse result (IsOff places.now self.now.tag) }
    {
        self.key.meets_device(places)
            || self.header.meets_device(places)
            || self.text.meets_device(places)
            || self.output.meets_device(places)
            || self.tag.meets_device(places)
    }
}

/// The buffers, once they were tested: header and text have at most 32 bytes, no buffer passes the
/// end of memory, and none meets a device.
fn tested(regs: &[u16; 16], windows: &Windows) -> Result<Buffers, Violation>
    ensures then { (rest : Outcome)
        → tested_buffers regs.now windows.now rest ≡ followed result (λ b. rest) }
    ensures key { IfOk result (λ b. IsKeyPlace regs.now b.key) }
    ensures header { IfOk result (λ b. IsNamedBuffer regs.now 10 11 b.header) }
    ensures text { IfOk result (λ b. IsNamedBuffer regs.now 12 13 b.text) }
    ensures output { IfOk result (λ b. IsNamedBuffer regs.now 14 13 b.output) }
    ensures tag { IfOk result (λ b. IsSixteenBytes regs.now 15 b.tag) }
    ensures short { IfOk result (λ b. (b.header.count ≤ 32) × (b.text.count ≤ 32)) }
    ensures key_apart { IfOk result (λ b. IsApart windows.now b.key) }
    ensures header_apart { IfOk result (λ b. IsApart windows.now b.header) }
    ensures text_apart { IfOk result (λ b. IsApart windows.now b.text) }
    ensures output_apart { IfOk result (λ b. IsApart windows.now b.output) }
    ensures tag_apart { IfOk result (λ b. IsApart windows.now b.tag) }
{
    if regs[11] > 32 || regs[13] > 32 {
        return Err(Violation::Range);
    }
    let buffers = Buffers::of_registers(regs)?;
    if buffers.meet_device(windows.places()) {
        return Err(Violation::Device);
    }
    Ok(buffers)
}

/// What both instructions read, and where they write.
#[derive(Drop)]
pub struct Inputs {
    /// The key to wrap or unwrap with.
    pub key: [u8; 16],
    /// The header.
    pub header: Text,
    /// The body or the cipher.
    pub text: Text,
    /// Where the cipher or the body is written.
    pub output: Buffer,
    /// Where the tag is written or read.
    pub tag: Buffer,
}

/// The key of the module, or the one at R9.
fn read_key<B: Bus>(
    executor: &Executor<B>,
    place: Buffer,
    own: &Section,
) -> Result<[u8; 16], Violation>
    requires at { IsKeyPlace executor.now.regs place }
    requires memory { IsApart executor.now.devices place }
    ensures { (caller : ℕ) (base : List ℕ) (exchange : Exchange) (rest : List ℕ → Plan)
        → ran_of (λ g. with_key g own.now rest) executor.now caller base exchange
        ≡ followed result (λ key. ran_of (λ g. rest key) executor.now caller base exchange) }
{
    if own_key(executor.regs()) {
        Ok(own.key)
    } else {
        read_block(executor, place)
    }
}

/// Reads what both instructions read, once all buffers were tested; any plan may follow. The error
/// is the first violation: `Range`, `Device` or `Read`.
pub fn read_inputs<B: Bus>(executor: &Executor<B>, own: &Section) -> Result<Inputs, Violation>
    ensures then { (caller : ℕ) (base : List ℕ) (exchange : Exchange)
        (rest : List ℕ → List ℕ → List ℕ → Plan)
        → ran_of (λ g. with_inputs g own.now rest) executor.now caller base exchange
        ≡ followed result
        (λ i. ran_of (λ g. rest i.key i.header i.text) executor.now caller base exchange) }
    ensures header { IfOk result (λ i. length i.header ≤ 32) }
    ensures text { IfOk result (λ i. length i.text ≡ slice_index executor.now.regs 13) }
    ensures short { IfOk result (λ i. length i.text ≤ 32) }
    ensures output { IfOk result (λ i. IsNamedBuffer executor.now.regs 14 13 i.output) }
    ensures tag { IfOk result (λ i. IsSixteenBytes executor.now.regs 15 i.tag) }
    ensures output_apart { IfOk result (λ i. IsApart executor.now.devices i.output) }
    ensures tag_apart { IfOk result (λ i. IsApart executor.now.devices i.tag) }
{
    let buffers = tested(executor.regs(), executor.windows())?;
    let key = read_key(executor, buffers.key, own)?;
    let header = read_text(executor, buffers.header)?;
    let text = read_text(executor, buffers.text)?;
    Ok(Inputs {
        key,
        header,
        text,
        output: buffers.output,
        tag: buffers.tag,
    })
}
