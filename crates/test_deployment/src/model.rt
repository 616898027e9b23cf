//! The lighting application's runs, as their traces are written.

use std::alloc::{AllocError, Global};
use std::process::Abort;
use std::test::Fail;
use sx_deploy::deployment::Deployment;
use sx_model::model::Model;
use sx_trace::items::Item;
use sx_trace::reading::read_item;

#[derive(Debug, Drop)]
struct NoItem;

/// The modules are loaded, attested and connected, and a reading of 120 reaches the lamp.
const CONNECTED: &str = "protect a eye
protect a logic
protect b lamp
ask eye 0
packet 0 18
vouch eye 0
done eye 1 1
packet 1 16
attested eye 0
packet 2 38
open eye up from
done eye 1 0
ask logic 1
packet 3 18
vouch logic 1
done logic 1 1
packet 4 16
attested logic 0
packet 5 38
packet 6 38
open logic up to
done logic 1 0
open logic down from
done logic 1 0
ask lamp 2
packet 7 18
vouch lamp 2
done lamp 1 1
packet 8 16
attested lamp 0
packet 9 38
open lamp down to
done lamp 1 0
sense light 120
read eye 120
done eye 1 1
packet 10 24
take logic up 0 120
done logic 1 1
packet 11 24
take lamp down 0 1";

/// The lamp is lit.
const LIT: &str = "out lamp 1
done lamp 1 0";

/// After a reset the lamp's old packets are refused.
const REPLAYED: &str = "reset b asked
protect b lamp
done lamp 7 0
done lamp 5 0";

/// After a reset the lamp is attested again, its connection is renewed, and a reading of 50 puts it
/// out.
const RENEWED: &str = "reset b asked
protect b lamp
ask lamp 3
packet 12 18
vouch lamp 3
done lamp 1 1
packet 13 16
attested lamp 1
packet 14 38
packet 15 38
open lamp down to 1
done lamp 1 0
open logic down from 1
done logic 1 0
sense light 50
read eye 50
done eye 1 1
packet 16 24
take logic up 1 50
done logic 1 1
packet 17 24
take lamp down 65536 0
out lamp 0
done lamp 1 0";

/// The items of a text's lines.
fn items(alloc: Global, d: &Deployment, text: &str) -> Result<Vec<Item>, Fail> {
    let mut items = Vec::new(alloc);
    for line in text.lines() {
        if d.names.valid() {
            items.push(read_item(&d.names, line.as_bytes()).ok_or(NoItem)?)?;
        }
    }
    Ok(items)
}

/// The items of the run that lights the lamp.
pub(crate) fn connected(alloc: Global, d: &Deployment) -> Result<Vec<Item>, Fail> {
    let mut all = items(alloc, d, CONNECTED)?;
    for item in &items(alloc, d, LIT)? {
        all.push(*item)?;
    }
    Ok(all)
}

/// Takes an item, and says whether it's allowed.
fn takes(model: &mut Model, d: &Deployment, item: &Item) -> Result<bool, AllocError> {
    if d.app.valid() && model.taken() <= 1_000 {
        model.step(&d.app, item)
    } else {
        Ok(false)
    }
}

/// Takes items up to the first that isn't allowed, and says how many it took.
fn taken(model: &mut Model, d: &Deployment, items: &[Item]) -> Result<u64, AllocError> {
    let before = model.taken();
    for item in items {
        if !takes(model, d, item)? {
            break;
        }
    }
    Ok(model.taken().wrapping_sub(before))
}

/// With which epochs the logic's two ends and the lamp's end are open.
fn epochs(model: &Model) -> [Option<u8>; 3] {
    [
        model.open_epoch(1, 0),
        model.open_epoch(1, 1),
        model.open_epoch(2, 0),
    ]
}

/// How many words went over `up`, and over `down` in two epochs.
fn sent(model: &Model) -> [u32; 3] {
    [model.sent(0, 0), model.sent(1, 0), model.sent(1, 1)]
}

/// Lines that follow one another, how many of their items are allowed, and the epochs and words
/// after them.
type Step<'a> = (&'a str, u64, [Option<u8>; 3], [u32; 3]);

const LIT_ONCE: [Option<u8>; 3] = [Some(0), Some(0), Some(0)];

/// The lamp is lit and put out.
const RENEWAL: [Step; 7] = [
    ("", 0, [None, None, None], [0, 0, 0]),
    (CONNECTED, 41, LIT_ONCE, [1, 1, 0]),
    // another value than the one that was taken
    ("out lamp 2", 0, LIT_ONCE, [1, 1, 0]),
    ("done lamp 1 0", 0, LIT_ONCE, [1, 1, 0]),
    (LIT, 2, LIT_ONCE, [1, 1, 0]),
    (RENEWED, 24, [Some(0), Some(1), Some(1)], [2, 1, 1]),
    (
        "take lamp down 1 1",
        0,
        [Some(0), Some(1), Some(1)],
        [2, 1, 1],
    ),
];

const REPLAY: [Step; 4] = [
    (CONNECTED, 41, LIT_ONCE, [1, 1, 0]),
    (LIT, 2, LIT_ONCE, [1, 1, 0]),
    (REPLAYED, 4, [Some(0), Some(0), None], [1, 1, 0]),
    ("open lamp down to", 0, [Some(0), Some(0), None], [1, 1, 0]),
];

/// Whether a step's lines do so.
fn does(alloc: Global, d: &Deployment, model: &mut Model, step: &Step) -> Result<bool, Fail> {
    let items = items(alloc, d, step.0)?;
    let count = taken(model, d, &items)?;
    Ok(count == step.1 && epochs(model) == step.2 && sent(model) == step.3)
}

fn runs(rt: &impl Abort, alloc: Global, d: &Deployment, steps: &[Step]) -> Result<(), Fail> {
    let mut model = Model::new(alloc, &d.app)?;
    for step in steps {
        assert!(rt; does(alloc, d, &mut model, step)?);
    }
    Ok(())
}

pub(crate) fn both_run(rt: &impl Abort, alloc: Global, d: &Deployment) -> Result<(), Fail> {
    runs(rt, alloc, d, &RENEWAL)?;
    runs(rt, alloc, d, &REPLAY)
}
