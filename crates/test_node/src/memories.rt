//! Each call once: what no clause says is that the constructors can succeed.

use std::process::Abort;
use std::test::Fail;
use sx_bus::{Bus, Copied, FlatBus, Kind, Windows};

fn writes_and_wipes<B: Bus>(rt: &impl Abort, bus: &mut B) {
    bus.put(0xFFFF, 7);
    bus.put(0, 8);
    assert!(rt; [bus.get(0xFFFF), bus.get(0), bus.get(1)] == [7, 8, 0]);
    bus.stays_in_range();
    bus.wipe();
    assert!(rt; bus.get(0xFFFF) == 0);
}

#[test]
fn flat_memory(rt: HostRuntime) -> Result<(), Fail> {
    let mut bus = FlatBus::new(rt.alloc())?;
    writes_and_wipes(&rt, &mut bus);
    Ok(())
}

/// What is at bytes beside a sensor's word and an actuator's, the first at 0x1000.
const FOUND: [(u16, Option<u8>); 5] = [
    (0x0FFF, None),
    (0x1000, Some(0)),
    (0x1001, Some(0)),
    (0x1003, Some(1)),
    (0x1004, None),
];

fn finds(rt: &impl Abort, windows: &Windows) {
    assert!(rt; windows.places() == [0x1000, 0x1002].as_slice());
    for (place, device) in FOUND.as_slice() {
        assert!(rt; windows.at(*place) == *device);
    }
}

#[test]
fn devices(rt: HostRuntime) -> Result<(), Fail> {
    let mut windows = Windows::new(
        rt.alloc(),
        &[(0x1000, Kind::Sensor), (0x1002, Kind::Actuator)],
    )?;
    finds(&rt, &windows);
    windows.sense(0, 7);
    assert!(rt; windows.get(0).fresh && windows.get(0).value == 7);
    windows.clear(0);
    assert!(rt; !windows.get(0).fresh);
    windows.sense(0, 9);
    windows.reset();
    assert!(rt; !windows.get(0).fresh && windows.get(0).value == 9);
    Ok(())
}

/// A write to the second memory, a copy of the first, isn't seen in the first.
fn writes_alone(rt: &impl Abort, bus: &FlatBus, copy: &mut FlatBus) {
    copy.put(0, 1);
    assert!(rt; [bus.get(0), bus.get(0xFFFF)] == [0, 7]);
    assert!(rt; [copy.get(0), copy.get(0xFFFF)] == [1, 7]);
}

#[test]
fn copies_of_memories(rt: HostRuntime) -> Result<(), Fail> {
    let mut bus = FlatBus::new(rt.alloc())?;
    bus.put(0xFFFF, 7);
    let mut copy = bus.copy(rt.alloc())?;
    writes_alone(&rt, &bus, &mut copy);
    Ok(())
}

#[test]
fn copies_of_devices(rt: HostRuntime) -> Result<(), Fail> {
    let windows = Windows::new(rt.alloc(), &[(0x1000, Kind::Sensor)])?;
    let mut copy = windows.copy(rt.alloc())?;
    copy.sense(0, 7);
    assert!(rt; !windows.get(0).fresh && copy.get(0).fresh);
    Ok(())
}
