//! What is read of a deployment that is accepted.

use std::alloc::Global;
use std::process::Abort;
use std::test::Fail;
use sx_deploy::deployment::Deployment;
use sx_lang::sides::Side;
use sx_mean::events::End;
use sx_rules::Layout;

const PLACES: [u16; 2] = [0x1000, 0x1000];

const PROVIDERS: [u16; 3] = [7, 7, 7];

const LAYOUTS: [Layout; 3] = [
    Layout {
        pub_from: 0x4000,
        pub_to: 0x4980,
        priv_from: 0x1000,
        priv_to: 0x1218,
    },
    Layout {
        pub_from: 0x6000,
        pub_to: 0x6c00,
        priv_from: 0x2000,
        priv_to: 0x2232,
    },
    Layout {
        pub_from: 0x4000,
        pub_to: 0x4980,
        priv_from: 0x1000,
        priv_to: 0x1218,
    },
];

/// The ends of the module in the middle.
const MIDDLE: [End; 2] = [
    End {
        link: 0,
        side: Side::To,
        port: 0,
    },
    End {
        link: 1,
        side: Side::From,
        port: 0,
    },
];

/// Whether its parts are as the text says.
fn is_laid_out(d: &Deployment) -> bool {
    d.places.as_slice() == PLACES.as_slice()
        && d.providers.as_slice() == PROVIDERS.as_slice()
        && d.layouts.as_slice() == LAYOUTS.as_slice()
}

pub(crate) fn is_as_written(rt: &impl Abort, alloc: Global, d: &Deployment) -> Result<(), Fail> {
    let ends = d.ends(alloc, 1)?;
    let is_valid = d.app.valid() && d.names.valid();
    assert!(rt; is_valid && is_laid_out(d) && ends.as_slice() == MIDDLE.as_slice());
    Ok(())
}
