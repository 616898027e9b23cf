//! The access table's rows, and what a table knows of its sections by pages and words.

use std::process::Abort;
use sx_rules::{Access, Layout, Refusal, Table};

const KEY: [u8; 16] = [0; 16];

fn layout(bounds: [u16; 4]) -> Layout {
    let [pub_from, pub_to, priv_from, priv_to] = bounds;
    Layout {
        pub_from,
        pub_to,
        priv_from,
        priv_to,
    }
}

const MODULE: Layout = Layout {
    pub_from: 0x600,
    pub_to: 0x608,
    priv_from: 0x700,
    priv_to: 0x710,
};

// The calls of a table are in functions without a clause, so that a test carries nothing of what
// its earlier calls say.

fn admit(table: &mut Table, layout: Layout, places: &[u16]) -> Result<u16, Refusal> {
    table.admit(layout, 1, KEY, places)
}

fn remove(table: &mut Table, id: u16) -> bool {
    table.remove(id)
}

/// Whether code may read, write and run a byte.
fn rights(table: &Table, code: u16, at: u16) -> [bool; 3] {
    [
        table.may(code, Access::Read, at),
        table.may(code, Access::Write, at),
        table.may(code, Access::Run, at),
    ]
}

/// The rights of the module 1, and of other code, to bytes in and after its sections.
const RIGHTS: [([bool; 3], [bool; 3], u16); 5] = [
    ([true, false, true], [true, false, true], 0x600),
    ([true, false, true], [true, false, true], 0x601),
    ([true, false, true], [true, false, false], 0x602),
    ([true, true, false], [false, false, false], 0x70F),
    ([true, true, true], [true, true, true], 0x710),
];

/// The access table's rows.
fn answers_by_the_table(rt: &impl Abort, table: &Table) {
    for (own, other, at) in RIGHTS.as_slice() {
        assert!(rt; rights(table, 1, *at) == *own);
        assert!(rt; rights(table, 2, *at) == *other);
        assert!(rt; rights(table, 0, *at) == *other);
    }
}

fn knows_its_sections(rt: &impl Abort, table: &Table) {
    assert!(rt; [table.holder(0x607), table.holder(0x608)] == [1, 0]);
    assert!(rt; table.outside_private(0x6FF) && !table.outside_private(0x700));
    assert!(rt; table.in_order(0, 0x600) && !table.in_order(0, 0x602));
    assert!(rt; table.extends(1, 0x602) && !table.extends(0, 0x602));
}

#[test]
fn access_table(rt: HostRuntime) {
    let mut table = Table::new();
    assert!(rt; admit(&mut table, MODULE, &[]) == Ok(1));
    answers_by_the_table(&rt, &table);
    knows_its_sections(&rt, &table);
}

/// Who holds a byte, with a module on three pages and one that shares the last of them.
const HOLDERS: [(u16, u16); 5] = [(0x5FD, 0), (0x5FE, 1), (0x6FF, 1), (0x702, 2), (0x710, 0)];

fn are_held(rt: &impl Abort, table: &Table) {
    for (at, id) in HOLDERS.as_slice() {
        assert!(rt; table.holder(*at) == *id);
    }
}

/// Whether no section meets the page of a byte, with these two.
const OPEN: [(u16, bool); 5] = [
    (0x4FF, true),
    (0x500, false),
    (0x6FF, false),
    (0x8FF, false),
    (0x900, true),
];

fn are_open(rt: &impl Abort, table: &Table) {
    for (at, open) in OPEN.as_slice() {
        assert!(rt; table.is_open(*at) == *open);
    }
}

fn knows_its_words(rt: &impl Abort, table: &Table) {
    let write = Access::Write;
    assert!(rt; table.may_word(1, write, 0x801) && !table.may_word(2, write, 0x801));
    assert!(rt; table.outside_private_word(0x7FF) && !table.outside_private_word(0x800));
    assert!(rt; table.extends_word(2, 0x702) && !table.extends_word(2, 0x701));
}

/// The two modules, of which the first goes at the end.
fn knows_its_pages(rt: &impl Abort, table: &mut Table) {
    assert!(rt; table.is_open(0x600));
    assert!(rt; admit(table, layout([0x5FE, 0x702, 0x800, 0x810]), &[]) == Ok(1));
    assert!(rt; admit(table, layout([0x702, 0x710, 0x810, 0x820]), &[]) == Ok(2));
    are_held(rt, table);
    are_open(rt, table);
    knows_its_words(rt, table);
    assert!(rt; remove(table, 1));
    assert!(rt; table.is_open(0x600) && !table.is_open(0x700));
    assert!(rt; [table.holder(0x700), table.holder(0x702)] == [0, 2]);
}

#[test]
fn pages(rt: HostRuntime) {
    let mut table = Table::new();
    knows_its_pages(&rt, &mut table);
}
