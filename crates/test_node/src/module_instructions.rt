//! Instructions worked by hand, over a tag that is the sum of all bytes.

ghost use Rattle.std.specs.Prelude.{◌≡◌, true};
ghost use Rattle.spec_machine.specs.Modules.{is_code};

use spec_machine::Exchange;
use std::alloc::Global;
use std::process::Abort;
use std::test::Fail;
use sx_bus::{FlatBus, Kind, Windows};
use sx_core::step_plain;
use sx_executor::Executor;
use sx_rules::{Layout, Violation};
use sx_sancus::{SancusEvent, step_sancus};
use sx_tag::Weak;

const OWN: Layout = Layout {
    pub_from: 0x600,
    pub_to: 0x608,
    priv_from: 0x700,
    priv_to: 0x740,
};

const OTHER: Layout = Layout {
    pub_from: 0x800,
    pub_to: 0x808,
    priv_from: 0x900,
    priv_to: 0x940,
};

const NO_EXCHANGE: Exchange = Exchange {
    ad: [0; 32],
    ad_len: 0,
    body: [0; 32],
    body_len: 0,
    own_key: false,
};

const CALLER: u16 = 9;

/// An executor with a sensor at 0x1000, and what was exchanged.
#[derive(Drop)]
struct Parts {
    executor: Executor<FlatBus>,
    exchange: Exchange,
}

fn admit(rt: &impl Abort, executor: &mut Executor<FlatBus>, layout: Layout, key: [u8; 16]) -> u16 {
    match executor.test(layout) {
        Ok(()) => executor.admit(layout, 7, key),
        Err(_) => panic!(rt; "refused"),
    }
}

impl Parts {
    /// With the modules 1 at OWN, whose key is sixteen ones, and 2 at OTHER.
    fn new(rt: &impl Abort, alloc: Global) -> Result<Parts, Fail> {
        let windows = Windows::new(alloc, &[(0x1000, Kind::Sensor)])?;
        let mut executor = Executor::new(FlatBus::new(alloc)?, windows);
        assert!(rt; admit(rt, &mut executor, OWN, [1; 16]) == 1);
        assert!(rt; admit(rt, &mut executor, OTHER, [2; 16]) == 2);
        Ok(Parts {
            executor,
            exchange: NO_EXCHANGE,
        })
    }

    /// Begins an instruction at OWN: of the module there, or for `own` 0 of code outside every
    /// module.
    fn begin(&mut self, own: u16) {
        self.executor.set_pc(OWN.pub_from);
        if own == 0 {
            self.executor.begin(0);
        } else {
            let pc = self.executor.register(0);
            self.executor.begin(self.executor.holder(pc));
        }
    }

    /// Runs an instruction at OWN, with R9 to R15 as given.
    fn run(&mut self, own: u16, code: u8, operands: [u16; 7]) -> Result<SancusEvent, Violation>
        requires { is_code code ≡ true }
    {
        self.begin(own);
        for r in 0..7u8 {
            self.executor.set_word(9 + r, operands[r as usize]);
        }
        step_sancus(
            &mut self.executor,
            code,
            CALLER,
            &mut Weak,
            &[0; 16],
            0,
            &mut self.exchange,
        )
    }

    /// Writes bytes as code at OWN.
    fn put(&mut self, own: u16, mut at: u16, bytes: &[u8]) {
        self.begin(own);
        for byte in bytes {
            let _ = self.executor.store(false, at, u16::from(*byte));
            at = at.wrapping_add(1);
        }
    }

    fn holds(&self, mut at: u16, bytes: &[u8]) -> bool {
        for byte in bytes {
            if self.executor.byte(at) != *byte {
                return false;
            }
            at = at.wrapping_add(1);
        }
        true
    }

    /// PC and R15.
    fn answer(&self) -> [u16; 2] {
        [self.executor.register(0), self.executor.register(15)]
    }
}

fn is_code(code: u8) -> bool
    ensures { result ≡ is_code code }
{
    code < 8 && code != 3
}

/// Each violation of wrap, and what R10 to R15 hold before it.
const VIOLATIONS: [([u16; 6], Violation); 7] = [
    // the body passes the end of memory, also beside a header on the device
    ([0x710, 6, 0xFFFF, 2, 0x720, 0x730], Violation::Range),
    ([0x1000, 6, 0xFFFF, 2, 0x720, 0x730], Violation::Range),
    // 33 bytes of header, and of body
    ([0x710, 33, 0x710, 2, 0x720, 0x730], Violation::Range),
    ([0x710, 6, 0x710, 33, 0x720, 0x730], Violation::Range),
    // the header meets the device, also beside a body in another's private section
    ([0xFFB, 6, 0x900, 2, 0x720, 0x730], Violation::Device),
    ([0x710, 6, 0x900, 2, 0x720, 0x730], Violation::Read),
    // the cipher's place is the module's code
    ([0x710, 6, 0x710, 2, 0x600, 0x730], Violation::Write),
];

fn wrap_violates(rt: &impl Abort, parts: &mut Parts) {
    for (operands, violation) in VIOLATIONS.as_slice() {
        let [head, head_len, body, body_len, cipher, tag] = *operands;
        let operands = [0, head, head_len, body, body_len, cipher, tag];
        assert!(rt; parts.run(1, 4, operands) == Err(*violation));
    }
}

/// An unwrap whose place is the module's code violates with a wrong tag too, and a body may end
/// where the memory ends.
fn violates_with_any_tag(rt: &impl Abort, parts: &mut Parts) {
    let closed = [0, 0x710, 6, 0x710, 2, 0x600, 0x730];
    assert!(rt; parts.run(1, 5, closed) == Err(Violation::Write));
    let last = [0, 0x710, 0, 0xFFFE, 2, 0x720, 0x730];
    assert!(rt; parts.run(1, 4, last) == Ok(SancusEvent::Wrapped));
    assert!(rt; parts.exchange.own_key);
}

#[test]
fn violations(rt: HostRuntime) -> Result<(), Fail> {
    let mut parts = Parts::new(&rt, rt.alloc())?;
    wrap_violates(&rt, &mut parts);
    violates_with_any_tag(&rt, &mut parts);
    Ok(())
}

/// Among plain instructions a module instruction is none.
fn is_no_plain_instruction(rt: &impl Abort, parts: &mut Parts) {
    parts.begin(0);
    assert!(rt; step_plain(&mut parts.executor, 0x1380) == Err(Violation::Illegal));
}

#[test]
fn a_module_instruction_is_not_plain(rt: HostRuntime) -> Result<(), Fail> {
    let mut parts = Parts::new(&rt, rt.alloc())?;
    is_no_plain_instruction(&rt, &mut parts);
    Ok(())
}

/// Wraps two bytes under a key that isn't the module's own.
fn wraps(rt: &impl Abort, parts: &mut Parts) {
    parts.put(0, 0x200, &[0xC4; 16]);
    parts.put(0, 0x210, &[3, 0, 1, 0, 1, 0]);
    parts.put(0, 0x220, &[7, 0]);
    let wrapped = parts.run(1, 4, [0x200, 0x210, 6, 0x220, 2, 0x230, 0x240]);
    assert!(rt; wrapped == Ok(SancusEvent::Wrapped));
    assert!(rt; parts.holds(0x230, &[0x99, 0x9E, 0]));
    assert!(rt; parts.holds(0x240, &[0xD6; 16]));
    assert!(rt; parts.answer() == [0x602, 1]);
    let made = parts.exchange;
    assert!(rt; [made.ad_len, made.ad[0], made.body_len, made.body[0]] == [6, 3, 2, 7]);
    assert!(rt; !made.own_key);
}

/// Unwraps what was wrapped, and once more under a wrong tag.
fn unwraps(rt: &impl Abort, parts: &mut Parts) {
    let unwrap = [0x200, 0x210, 6, 0x230, 2, 0x250, 0x240];
    assert!(rt; parts.run(1, 5, unwrap) == Ok(SancusEvent::Unwrapped));
    assert!(rt; parts.holds(0x250, &[7, 0]) && parts.executor.register(15) == 1);
    parts.put(0, 0x24F, &[0xD7]);
    parts.put(0, 0x250, &[5]);
    parts.exchange = NO_EXCHANGE;
    assert!(rt; parts.run(1, 5, unwrap) == Ok(SancusEvent::Quiet));
    assert!(rt; parts.holds(0x250, &[5, 0]));
    assert!(rt; parts.answer() == [0x602, 0] && parts.exchange == NO_EXCHANGE);
}

#[test]
fn wrap_and_unwrap(rt: HostRuntime) -> Result<(), Fail> {
    let mut parts = Parts::new(&rt, rt.alloc())?;
    wraps(&rt, &mut parts);
    unwraps(&rt, &mut parts);
    Ok(())
}

/// Who runs attest, get-id or get-caller-id, which of them by its code, the address that it's
/// given, and its answer.
const ANSWERS: [(u16, u8, u16, u16); 8] = [
    (1, 2, 0x807, 2),
    (1, 2, 0x607, 0),
    (1, 2, 0x808, 0),
    (0, 2, 0x807, 0),
    (0, 6, 0x807, 2),
    (1, 6, 0x808, 0),
    (1, 7, 0, CALLER),
    (0, 7, 0, 0),
];

/// PC and R15 after an instruction that tells nothing.
fn answered(parts: &mut Parts, own: u16, code: u8, at: u16) -> Option<[u16; 2]> {
    if !is_code(code) {
        return None;
    }
    match parts.run(own, code, [at, 0x200, 0, 0, 0, 0, 0]) {
        Ok(SancusEvent::Quiet) => Some(parts.answer()),
        _ => None,
    }
}

fn attests(rt: &impl Abort, parts: &mut Parts) {
    // the key's sum is 0x10, the label 0x41, and the sum of the layout of OTHER 0x6A
    parts.put(0, 0x200, &[0xBB; 16]);
    for (own, code, at, answer) in ANSWERS.as_slice() {
        assert!(rt; answered(parts, *own, *code, *at) == Some([0x602, *answer]));
    }
}

#[test]
fn attest_and_ids(rt: HostRuntime) -> Result<(), Fail> {
    let mut parts = Parts::new(&rt, rt.alloc())?;
    attests(&rt, &mut parts);
    Ok(())
}

/// Whether the module 3 has this key.
fn has_key(parts: &Parts, key: [u8; 16]) -> bool {
    match parts.executor.section(3) {
        Some(section) => section.key == key,
        None => false,
    }
}

/// R14 and R15.
fn found(parts: &Parts) -> [u16; 2] {
    [parts.executor.register(14), parts.executor.register(15)]
}

/// A module goes, with its private bytes.
fn unprotects(rt: &impl Abort, parts: &mut Parts) {
    parts.put(1, 0x73F, &[5, 6]);
    assert!(rt; parts.run(0, 0, [0; 7]) == Ok(SancusEvent::Quiet));
    assert!(rt; parts.executor.register(15) == 0);
    assert!(rt; parts.run(1, 0, [0; 7]) == Ok(SancusEvent::Removed(1)));
    assert!(rt; parts.executor.register(15) == 1 && parts.holds(0x73F, &[0, 6]));
    assert!(rt; parts.executor.section(1).is_none());
}

/// Another is protected over its place, once.
fn protects(rt: &impl Abort, parts: &mut Parts) {
    let protect = [7, 0x600, 0x608, 0x700, 0x742, 0, 0];
    assert!(rt; parts.run(0, 1, protect) == Ok(SancusEvent::Protected(3)));
    assert!(rt; found(parts) == [0, 3] && parts.holds(0x740, &[0]));
    // the provider's key is sixteen times 0x4B + 7; its sum 0x20, 0x4B and the layout's sum 0x64
    assert!(rt; has_key(parts, [0xCF; 16]));
    assert!(rt; parts.run(0, 1, protect) == Ok(SancusEvent::Quiet));
    assert!(rt; found(parts) == [2, 0]);
}

#[test]
fn protect_and_unprotect(rt: HostRuntime) -> Result<(), Fail> {
    let mut parts = Parts::new(&rt, rt.alloc())?;
    unprotects(&rt, &mut parts);
    protects(&rt, &mut parts);
    Ok(())
}
