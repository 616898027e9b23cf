//! What is asked of the applications.

use crate::applications::{DOSE, DOSE_MENDED, HEAT, LIGHTING, PARKING, VOTE};
use crate::sketches::{Sketch, app, property};
use std::alloc::Global;
use std::process::Abort;
use std::test::Fail;
use sx_search::decide::{Decided, decide};
use sx_watch::topics::TopicKind::{self, Out, Raw, Read, Reset, Sense};

/// A property: what its inputs hear of, its text, and whether it holds.
type Asked<'a> = (&'a [(TopicKind, u8)], &'a str, bool);

/// Whether each property that holds is shown, and no other.
fn are_decided(
    rt: &impl Abort,
    alloc: Global,
    sketch: &Sketch,
    asked: &[Asked],
) -> Result<(), Fail> {
    let app = app(alloc, sketch)?;
    for (topics, text, holds) in asked {
        let decided = decide(alloc, &app, &property(alloc, text, topics)?)?;
        assert!(rt; matches!(decided, Decided::Holds) == *holds);
    }
    Ok(())
}

const OF_LIGHTING: [Asked; 4] = [
    // a lamp is switched on only after a reading above 100
    (
        &[(Sense, 0), (Out, 2)],
        "actuator; input light; input lamp; var bright; \
            on light(v) { if v > 100 { bright = 1; } } \
            on lamp(v) { if (v == 1) & !bright { emit 1; } }",
        true,
    ),
    // it gets 0 or 1
    (
        &[(Out, 2)],
        "actuator; input lamp; on lamp(v) { if v > 1 { emit 1; } }",
        true,
    ),
    // it is on only while the last reading is above 100
    (
        &[(Sense, 0), (Out, 2)],
        "actuator; input light; input lamp; var bright; on light(v) { bright = v > 100; } \
            on lamp(v) { if (v == 1) & !bright { emit 1; } }",
        false,
    ),
    // other code doesn't write to the bulb either
    (
        &[(Sense, 0), (Out, 2), (Raw, 1)],
        "actuator; input light; input lamp; input bulb; var bright; \
            on light(v) { if v > 100 { bright = 1; } } \
            on lamp(v) { if v & !bright { emit 1; } } on bulb(v) { if v & !bright { emit 1; } }",
        false,
    ),
];

#[test]
fn lighting(rt: HostRuntime) -> Result<(), Fail> {
    are_decided(&rt, rt.alloc(), &LIGHTING, &OF_LIGHTING)
}

const OF_PARKING: [Asked; 5] = [
    // an alarm for the first spot only after a car was there
    (
        &[(Sense, 0), (Out, 5)],
        "actuator; input spot1; input dvio; var car; on spot1(v) { if v > 100 { car = 1; } } \
            on dvio(v) { if (v & 1) & !car { emit 1; } }",
        true,
    ),
    // the board shows at most 2
    (
        &[(Out, 6)],
        "actuator; input dfree; on dfree(v) { if v > 2 { emit 1; } }",
        true,
    ),
    // it shows 0 only after a car was on each spot
    (
        &[(Sense, 0), (Sense, 1), (Out, 6)],
        "actuator; input spot1; input spot2; input dfree; var one; var two; \
            on spot1(v) { if v > 100 { one = 1; } } on spot2(v) { if v > 100 { two = 1; } } \
            on dfree(v) { if (v == 0) & !(one & two) { emit 1; } }",
        true,
    ),
    // an alarm only while a car is on the first spot
    (
        &[(Read, 0), (Out, 5)],
        "actuator; input p1; input dvio; var car; on p1(v) { car = v > 100; } \
            on dvio(v) { if (v & 1) & !car { emit 1; } }",
        false,
    ),
    // an alarm only after the clock showed above 120
    (
        &[(Sense, 2), (Out, 5)],
        "actuator; input clock; input dvio; var late; on clock(t) { if t > 120 { late = 1; } } \
            on dvio(v) { if v & !late { emit 1; } }",
        false,
    ),
];

#[test]
fn parking(rt: HostRuntime) -> Result<(), Fail> {
    are_decided(&rt, rt.alloc(), &PARKING, &OF_PARKING)
}

const SINGLE_DOSE: &str = "actuator; input pump; on pump(v) { if v > 40 { emit 1; } }";

const SUM_OF_DOSES: &str = "actuator; input pump; var total; \
    on pump(v) { total = total + v; if (v > 40) | (total > 40) { emit 1; } }";

const OF_DOSE: [Asked; 1] = [(&[(Out, 2)], SINGLE_DOSE, false)];

const OF_DOSE_MENDED: [Asked; 4] = [
    (&[(Out, 2)], SINGLE_DOSE, true),
    // all doses since the last reset of the pump's node
    (
        &[(Reset, 1), (Out, 2)],
        "actuator; input b; input pump; var total; on b(v) { total = 0; } \
            on pump(v) { total = total + v; if (v > 40) | (total > 40) { emit 1; } }",
        true,
    ),
    // all doses, if nobody resets that node
    (
        &[(Reset, 1), (Out, 2)],
        "actuator; input b; input pump; var total; var over; on b(v) { over = 1; } on pump(v) { \
            total = total + v; if ((v > 40) | (total > 40)) & !over { emit 1; } }",
        true,
    ),
    // all doses, also over resets
    (&[(Out, 2)], SUM_OF_DOSES, false),
];

#[test]
fn doses(rt: HostRuntime) -> Result<(), Fail> {
    are_decided(&rt, rt.alloc(), &DOSE, &OF_DOSE)?;
    are_decided(&rt, rt.alloc(), &DOSE_MENDED, &OF_DOSE_MENDED)
}

const OF_HEAT: [Asked; 2] = [
    // the heater goes on only after a reading below 200, if all readings have ten bits
    (
        &[(Sense, 0), (Out, 2)],
        "actuator; input temp; input heater; var cold; var over; \
            on temp(v) { if v > 1023 { over = 1; } if v < 200 { cold = 1; } } \
            on heater(v) { if v & !cold & !over { emit 1; } }",
        true,
    ),
    // the same for all readings
    (
        &[(Sense, 0), (Out, 2)],
        "actuator; input temp; input heater; var cold; \
            on temp(v) { if v < 200 { cold = 1; } } on heater(v) { if v & !cold { emit 1; } }",
        false,
    ),
];

const OF_VOTE: [Asked; 3] = [
    // the siren sounds only after two detectors had high readings
    (
        &[(Sense, 0), (Sense, 1), (Sense, 2), (Out, 4)],
        "actuator; input smoke1; input smoke2; input smoke3; input siren; array high[3]; \
            on smoke1(v) { if v > 500 { high[0] = 1; } } \
            on smoke2(v) { if v > 500 { high[1] = 1; } } \
            on smoke3(v) { if v > 500 { high[2] = 1; } } \
            on siren(v) { if v & (high[0] + high[1] + high[2] < 2) { emit 1; } }",
        true,
    ),
    // it gets 0 or 1
    (
        &[(Out, 4)],
        "actuator; input siren; on siren(v) { if v > 1 { emit 1; } }",
        true,
    ),
    // it sounds only while two are high
    (
        &[(Sense, 0), (Sense, 1), (Sense, 2), (Out, 4)],
        "actuator; input smoke1; input smoke2; input smoke3; input siren; array high[3]; \
            on smoke1(v) { high[0] = v > 500; } on smoke2(v) { high[1] = v > 500; } \
            on smoke3(v) { high[2] = v > 500; } \
            on siren(v) { if v & (high[0] + high[1] + high[2] < 2) { emit 1; } }",
        false,
    ),
];

#[test]
fn heat(rt: HostRuntime) -> Result<(), Fail> {
    are_decided(&rt, rt.alloc(), &HEAT, &OF_HEAT)
}

#[test]
fn votes(rt: HostRuntime) -> Result<(), Fail> {
    are_decided(&rt, rt.alloc(), &VOTE, &OF_VOTE)
}
