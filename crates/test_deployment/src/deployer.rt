//! A deployer that judges answers, gives keys and renews them, with tags that are sums of bytes.

ghost use Rattle.std.specs.Prelude.{◌≡◌, ◌<◌, IfOk, length};
ghost use Rattle.sx_deployer.specs.Keeping as spec;

use std::alloc::{AllocError, Global};
use std::process::Abort;
use sx_deployer::{Deployer, Target, Verdict};
use sx_lang::sides::Side;
use sx_mean::events::End;
use sx_tag::Weak;

const SECRET: [u8; 16] = [0, 1, 2, 3, 4, 5, 6, 7, 8, 9, 10, 11, 12, 13, 14, 15];

const NODE_KEY: [u8; 16] = [
    16, 17, 18, 19, 20, 21, 22, 23, 24, 25, 26, 27, 28, 29, 30, 31,
];

const UP: End = End {
    link: 1,
    side: Side::From,
    port: 0,
};

fn target(alloc: Global) -> Result<Target, AllocError>
    ensures { IfOk result (λ t. length t.ends.items ≡ 1) }
{
    Ok(Target {
        node_key: NODE_KEY,
        provider: 7,
        identity: vec![in alloc; 3]?,
        ends: vec![in alloc; UP]?,
    })
}

fn deployer(alloc: Global) -> Result<Deployer<Weak>, AllocError>
    ensures { IfOk result (λ d. (length d.targets ≡ 1) × (d.state.asks ≡ 0)
        × (length (spec.target_at d 0).ends ≡ 1)) }
{
    let mut targets = Vec::new(alloc);
    targets.push(target(alloc)?)?;
    Ok(Deployer::new(SECRET, targets))
}

// The tags and keys are sums, added by hand.

fn judges(rt: &impl Abort, d: &mut Deployer<Weak>)
    requires one { length d.old.targets ≡ 1 }
    requires new { d.old.state.asks ≡ 0 }
{
    assert!(rt; d.answer(&Weak, 0, 0, &[0x48; 16]) == Verdict::Denied);
    let ask = d.ask(&Weak, 0);
    assert!(rt; &ask[..3] == [2, 0, 0].as_slice());
    assert!(rt; d.answer(&Weak, 0, 0, &[0x49; 16]) == Verdict::Denied);
    assert!(rt; d.answer(&Weak, 0, 0, &[0x48; 15]) == Verdict::Denied);
    assert!(rt; d.answer(&Weak, 0, 0, &[0x48; 16]) == Verdict::Attested);
    assert!(rt; d.attested(0) == Some(0));
}

#[test]
fn an_answer_is_judged(rt: HostRuntime) -> Result<(), AllocError> {
    judges(&rt, &mut deployer(rt.alloc())?);
    Ok(())
}

fn renews(rt: &impl Abort, d: &mut Deployer<Weak>)
    requires one { length d.old.targets ≡ 1 }
    requires new { d.old.state.asks ≡ 0 }
    ensures { d.new.targets ≡ d.old.targets }
{
    d.ask(&Weak, 0);
    d.answer(&Weak, 0, 0, &[0x48; 16]);
    d.ask(&Weak, 0);
    assert!(rt; d.answer(&Weak, 0, 0, &[0x49; 16]) == Verdict::Denied);
    assert!(rt; d.epoch(1) == 0);
    assert!(rt; d.answer(&Weak, 0, 1, &[0x49; 16]) == Verdict::Attested);
}

/// The epochs of four connections, of which the module has the second.
fn has_epochs(rt: &impl Abort, d: &Deployer<Weak>, want: [u8; 4]) {
    assert!(rt; [d.epoch(0), d.epoch(1), d.epoch(63), d.epoch(255)] == want);
}

#[test]
fn a_module_is_renewed(rt: HostRuntime) -> Result<(), AllocError> {
    let mut d = deployer(rt.alloc())?;
    renews(&rt, &mut d);
    has_epochs(&rt, &d, [0, 1, 0, 0]);
    has_epochs(&rt, &d.copy(rt.alloc())?, [0, 1, 0, 0]);
    gives_attested(&rt, &d, &[(3, 1), (6, 0xF9), (37, 0xCD)]);
    Ok(())
}

/// The packet has these bytes at these places.
fn holds(rt: &impl Abort, packet: &[u8; 38], want: &[(usize, u8)]) {
    for (place, byte) in want {
        assert!(rt; packet.get(*place) == Some(byte));
    }
}

/// The set-key packet for the module's end at a boot and in an epoch has these bytes at these
/// places.
fn gives(rt: &impl Abort, d: &Deployer<Weak>, boot: u32, epoch: u8, want: &[(usize, u8)]) {
    holds(
        rt,
        &d.packet(&Weak, 0, boot, UP, epoch).unwrap_or([0; 38]),
        want,
    );
}

/// The set-key packet that the attested module's end is due has these bytes at these places.
fn gives_attested(rt: &impl Abort, d: &Deployer<Weak>, want: &[(usize, u8)])
    requires one { length d.now.targets ≡ 1 }
    requires end { length (spec.target_at d.now 0).ends ≡ 1 }
{
    let packet = if d.attested(0).is_some() {
        d.set_key(&Weak, 0, 0)
    } else {
        [0; 38]
    };
    holds(rt, &packet, want);
}

#[test]
fn keys_of_two_epochs(rt: HostRuntime) -> Result<(), AllocError> {
    let d = deployer(rt.alloc())?;
    let header = [(0, 1), (1, 0), (2, 1), (3, 0), (4, 0), (5, 0)];
    gives(&rt, &d, 0, 0, &header);
    gives(&rt, &d, 0, 0, &[(6, 0xFF), (21, 0xFF), (22, 0x2C)]);
    gives(&rt, &d, 1, 1, &[(3, 1), (6, 0xF9), (37, 0xCD)]);
    Ok(())
}
