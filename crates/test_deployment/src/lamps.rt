//! The deployment that the tests are about: three modules on two nodes, a sensor's driver, its
//! reader, and an actuator's driver. It is read once, since each place that drops one is dear.

ghost use Rattle.std.specs.Prelude.{IfOk, IsTrue};
ghost use Rattle.sx_trace.specs.ValidNames.{are_valid};

use crate::deploy::is_as_written;
use crate::model::both_run;
use crate::properties::{are_refused, are_watched};
use crate::sched::{a_sense_is_written, are_written};
use crate::trace::are_items;
use std::alloc::Global;
use std::process::Abort;
use std::test::Fail;
use sx_bulk::HEAD;
use sx_deploy::deployment::{Deployment, read_deployment};
use sx_entries::fault::DeployError;

fn lamps(alloc: Global) -> Result<Deployment, DeployError>
    ensures { IfOk result (λ d. IsTrue (are_valid d.names)) }
{
    read_deployment(alloc, HEAD.as_bytes())
}

/// What is read of it, the lines of items and of schedules with its names, its runs,
/// and its properties.
fn all_hold(rt: &impl Abort, alloc: Global, d: &Deployment) -> Result<(), Fail>
    requires { IsTrue (are_valid d.now.names) }
{
    are_items(rt, &d.names);
    are_written(rt, &d.names);
    a_sense_is_written(rt, &d.names);
    is_as_written(rt, alloc, d)?;
    are_watched(rt, alloc, d)?;
    are_refused(rt, alloc, d);
    both_run(rt, alloc, d)
}

#[test]
fn the_lighting(rt: HostRuntime) -> Result<(), Fail> {
    all_hold(&rt, rt.alloc(), &lamps(rt.alloc())?)
}
