//! The state at power-on.

ghost use Rattle.std.specs.Prelude.{◌≡◌, ◌<◌, [], IfOk, None, false, map, replicate};
ghost use Rattle.sx_mean.specs.View.{app_as};
ghost use Rattle.sx_model.specs.State.{FIELDS, power_on};

use crate::state::{Reading, Standing, State, Words};
use std::alloc::{AllocError, Global};
use sx_mean::apps::{App, AppDevice, Link, Part};

fn no_boots(alloc: Global, nodes: u8) -> Result<Vec<u32>, AllocError>
    ensures { IfOk result (λ boots. boots.items ≡ replicate nodes 0) }
{
    vec![in alloc; 0; usize::from(nodes)]
}

fn first_reading() -> Reading
    ensures { result ≡ record { value = 0; fresh = false } }
{
    Reading {
        value: 0,
        fresh: false,
    }
}

fn first_readings(alloc: Global, devices: &[AppDevice]) -> Result<Vec<Reading>, AllocError>
    ensures { IfOk result (λ readings. readings.items
        ≡ map (λ d. record { value = 0; fresh = false }) devices.now) }
{
    devices.iter().map(|_| first_reading()).collect(alloc)
}

fn first_standing(alloc: Global) -> Standing
    ensures { result ≡ record { present = None; asked = None; vouched = []; attested = None } }
{
    Standing {
        present: None,
        asked: None,
        vouched: Vec::new(alloc),
        attested: None,
    }
}

fn first_standings(alloc: Global, parts: &[Part]) -> Result<Vec<Standing>, AllocError>
    ensures { IfOk result (λ modules. modules.items
        ≡ map (λ q. record { present = None; asked = None; vouched = []; attested = None })
        parts.now) }
{
    parts.iter().map(|_| first_standing(alloc)).collect(alloc)
}

fn first_epochs(alloc: Global, links: &[Link]) -> Result<Vec<u8>, AllocError>
    ensures { IfOk result (λ epochs. epochs.items ≡ map (λ l. 0) links.now) }
{
    links.iter().map(|_| 0).collect(alloc)
}

fn no_words(alloc: Global) -> Words
    ensures { result ≡ [] }
{
    Words {
        words: Vec::new(alloc),
    }
}

/// How many connection fields there are. This is a function, and no constant, so that a proof sees no
/// number: with the number, a list of so many is written out.
#[tactic(auto, unfolding(crate::specs::State::FIELDS))]
fn fields() -> usize
    ensures { result ≡ FIELDS }
{
    65_536
}

fn none_sent(alloc: Global, fields: usize) -> Result<Vec<Words>, AllocError>
    ensures { IfOk result (λ sent. sent.items ≡ replicate fields []) }
{
    let mut sent = Vec::new(alloc);
    for _field in 0..fields {
        sent.push(no_words(alloc))?;
    }
    Ok(sent)
}

/// At power-on nothing was asked or sent, and no module is present.
pub(crate) fn power_on(alloc: Global, app: &App) -> Result<State, AllocError>
    ensures { IfOk result (λ state. state ≡ power_on (app_as app.now)) }
{
    let boots = no_boots(alloc, app.nodes)?;
    let devices = first_readings(alloc, &app.devices)?;
    let modules = first_standings(alloc, &app.parts)?;
    let epochs = first_epochs(alloc, &app.links)?;
    let sent = none_sent(alloc, fields())?;
    Ok(State {
        boots,
        devices,
        modules,
        epochs,
        sent,
        asks: 0,
    })
}
