//! Each call once. What no clause says is that `new` and `copy` can succeed.

use std::process::Abort;
use std::test::Fail;
use sx_bus::{Bus, Copied, FlatBus};
use sx_paged::PagedBus;

// The calls of a memory are in functions without a clause, so that a test carries nothing of
// what its earlier calls say.

fn put<B: Bus>(bus: &mut B, at: u16, byte: u8) {
    bus.put(at, byte);
}

fn get<B: Bus>(bus: &B, at: u16) -> u8 {
    bus.get(at)
}

fn bytes_on_two_pages<B: Bus>(bus: &B) -> [u8; 3] {
    let mut bytes = [0x77; 3];
    bus.copy_bytes(0x40FE, &mut bytes);
    bytes
}

fn wipe<B: Bus>(bus: &mut B) {
    bus.stays_in_range();
    bus.wipe();
}

fn has_pages_where_written(rt: &impl Abort, bus: &mut PagedBus) {
    assert!(rt; bus.present() == 0);
    put(bus, 0x4000, 0x26);
    assert!(rt; bus.present() == 1);
    put(bus, 0x40FF, 0x45);
    assert!(rt; bus.present() == 1);
    assert!(rt; [get(bus, 0x4000), get(bus, 0x4001), get(bus, 0xFFFF)] == [0x26, 0, 0]);
    assert!(rt; bytes_on_two_pages(bus) == [0, 0x45, 0]);
    wipe(bus);
    assert!(rt; bus.present() == 0 && get(bus, 0x40FF) == 0);
}

#[test]
fn pages_are_present_where_written(rt: HostRuntime) -> Result<(), Fail> {
    let mut bus = PagedBus::new(rt.alloc())?;
    has_pages_where_written(&rt, &mut bus);
    Ok(())
}

fn writes_over_all_pages<B: Bus>(bus: &mut B) -> u32 {
    let mut sum = 0u32;
    let mut number = 1u32;
    for _ in 0..2000 {
        number = number.wrapping_mul(1664525).wrapping_add(1013904223);
        let address = (number / 65536) as u16;
        sum = sum.wrapping_mul(31).wrapping_add(get(bus, address) as u32);
        put(bus, address, (number % 256) as u8);
    }
    sum
}

fn read_alike(rt: &impl Abort, paged: &mut PagedBus, flat: &mut FlatBus) {
    for _ in 0..2 {
        assert!(rt; writes_over_all_pages(paged) == writes_over_all_pages(flat));
        assert!(rt; paged.present() == 256);
        wipe(paged);
        wipe(flat);
    }
}

#[test]
fn reads_as_the_flat_memory(rt: HostRuntime) -> Result<(), Fail> {
    let mut paged = PagedBus::new(rt.alloc())?;
    let mut flat = FlatBus::new(rt.alloc())?;
    read_alike(&rt, &mut paged, &mut flat);
    Ok(())
}

fn writes_alone(rt: &impl Abort, bus: &PagedBus, copy: &mut PagedBus) {
    put(copy, 0x4000, 1);
    put(copy, 0x5000, 1);
    assert!(rt; [get(bus, 0x4000), get(bus, 0x5000)] == [7, 0]);
    assert!(rt; [bus.present(), copy.present()] == [1, 2]);
}

#[test]
fn a_copy_has_pages_of_its_own(rt: HostRuntime) -> Result<(), Fail> {
    let mut bus = PagedBus::new(rt.alloc())?;
    put(&mut bus, 0x4000, 7);
    let mut copy = bus.copy(rt.alloc())?;
    writes_alone(&rt, &bus, &mut copy);
    Ok(())
}
