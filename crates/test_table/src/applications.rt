//! The applications.

use crate::sketches::Sketch;
use sx_lang::tree::DeviceKind::{Actuator, Sensor};

const SENDS: &str = "sensor; output level; sample(v) { send level(v); }";

const SHOWS: &str = "actuator; input show; on show(v) { emit v; }";

/// A light sensor, a threshold, and a lamp.
pub(crate) const LIGHTING: Sketch = Sketch {
    nodes: 2,
    devices: &[(0, Sensor), (1, Actuator)],
    parts: &[
        (0, Some(0), SENDS),
        (
            0,
            None,
            "input level; output bright; var limit = 100; \
                on level(v) { if v > limit { send bright(1); } else { send bright(0); } }",
        ),
        (1, Some(1), SHOWS),
    ],
    links: &[(0, 0, 1, 0), (1, 0, 2, 0)],
};

const SPOT: &str = "sensor; output occupied; var last = 2; \
    sample(v) { let car = v > 100; if car != last { last = car; send occupied(car); } }";

const VIOLATIONS: &str = "input spot1; input spot2; input tick; output alarm; \
    var limit = 120; var now = 0; var shown = 0; array occupied[2]; array came[2]; \
    on spot1(car) { occupied[0] = car; came[0] = now; } \
    on spot2(car) { occupied[1] = car; came[1] = now; } \
    on tick(t) { now = t; let i = 0; let late = 0; repeat 2 { \
    if occupied[i] & (t - came[i] > limit) { late = late | (i + 1); } i = i + 1; } \
    if late != shown { shown = late; send alarm(late); } }";

const COUNT: &str = "input spot1; input spot2; output free; array occupied[2]; \
    on spot1(car) { occupied[0] = car; send free(2 - occupied[0] - occupied[1]); } \
    on spot2(car) { occupied[1] = car; send free(2 - occupied[0] - occupied[1]); }";

/// Two parking spots and a clock, with alarms and a board.
pub(crate) const PARKING: Sketch = Sketch {
    nodes: 3,
    devices: &[
        (0, Sensor),
        (1, Sensor),
        (1, Sensor),
        (2, Actuator),
        (2, Actuator),
    ],
    parts: &[
        (0, Some(0), SPOT),
        (1, Some(1), SPOT),
        (1, Some(2), SENDS),
        (0, None, VIOLATIONS),
        (1, None, COUNT),
        (2, Some(3), SHOWS),
        (2, Some(4), SHOWS),
    ],
    links: &[
        (0, 0, 3, 0),
        (0, 0, 4, 0),
        (1, 0, 3, 1),
        (1, 0, 4, 1),
        (2, 0, 3, 2),
        (3, 0, 5, 0),
        (4, 0, 6, 0),
    ],
};

const ASKS: &str = "sensor; output dose; sample(v) { if v > 0 { send dose(v); } }";

const DOUBLES: &str = "input dose; output order; on dose(v) { send order(v * 2); }";

/// An infusion pump whose sum of doses can wrap.
pub(crate) const DOSE: Sketch = Sketch {
    nodes: 2,
    devices: &[(0, Sensor), (1, Actuator)],
    parts: &[
        (0, Some(0), ASKS),
        (0, None, DOUBLES),
        (
            1,
            Some(1),
            "actuator; input order; var limit = 40; var given; \
                on order(v) { if given + v <= limit { given = given + v; emit v; } }",
        ),
    ],
    links: &[(0, 0, 1, 0), (1, 0, 2, 0)],
};

/// The same with the limit for each dose, too.
pub(crate) const DOSE_MENDED: Sketch = Sketch {
    nodes: 2,
    devices: &[(0, Sensor), (1, Actuator)],
    parts: &[
        (0, Some(0), ASKS),
        (0, None, DOUBLES),
        (
            1,
            Some(1),
            "actuator; input order; var limit = 40; var given; \
                on order(v) { if (v <= limit) & (given + v <= limit) { \
                given = given + v; emit v; } }",
        ),
    ],
    links: &[(0, 0, 1, 0), (1, 0, 2, 0)],
};

/// A heater that goes on where the mean of four readings is low.
pub(crate) const HEAT: Sketch = Sketch {
    nodes: 2,
    devices: &[(0, Sensor), (1, Actuator)],
    parts: &[
        (0, Some(0), SENDS),
        (
            0,
            None,
            "input level; output heat; var limit = 200; var at; var full; array last[4]; \
                on level(v) { last[at] = v; at = at + 1; if at == 4 { at = 0; full = 1; } \
                let sum = 0; let i = 0; repeat 4 { sum = sum + last[i]; i = i + 1; } \
                if full { send heat(sum < 4 * limit); } }",
        ),
        (1, Some(1), SHOWS),
    ],
    links: &[(0, 0, 1, 0), (1, 0, 2, 0)],
};

/// Three smoke detectors, a vote, and a siren.
pub(crate) const VOTE: Sketch = Sketch {
    nodes: 4,
    devices: &[(0, Sensor), (1, Sensor), (2, Sensor), (3, Actuator)],
    parts: &[
        (0, Some(0), SENDS),
        (1, Some(1), SENDS),
        (2, Some(2), SENDS),
        (
            3,
            None,
            "input one; input two; input three; output alarm; var limit = 500; array high[3]; \
                on one(v) { high[0] = v > limit; \
                let n = 0; let i = 0; repeat 3 { n = n + high[i]; i = i + 1; } \
                send alarm(n >= 2); } \
                on two(v) { high[1] = v > limit; \
                let n = 0; let i = 0; repeat 3 { n = n + high[i]; i = i + 1; } \
                send alarm(n >= 2); } \
                on three(v) { high[2] = v > limit; \
                let n = 0; let i = 0; repeat 3 { n = n + high[i]; i = i + 1; } \
                send alarm(n >= 2); }",
        ),
        (3, Some(3), SHOWS),
    ],
    links: &[(0, 0, 3, 0), (1, 0, 3, 1), (2, 0, 3, 2), (3, 0, 4, 0)],
};
