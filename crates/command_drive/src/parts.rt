//! Parts of an honest run: each is done, and then all that it says is written.

ghost use Rattle.std.specs.Prelude.{◌≡◌, ◌<◌, [], false, IsErr, IsTrue, Ok};
ghost use Rattle.sx_trace.specs.ValidNames.{are_valid};
ghost use Rattle.sx_deploy.specs.SeenDeployment.{deployed_as};
ghost use Rattle.sx_drive.specs.Driving.{GoesOn, IsDrivenSensor, LosesNothing, all_said, reading};
ghost use Rattle.sx_drive.specs.Honest.{Driven, setup};
ghost use Rattle.command_drive.specs.Parts.{AreNamed, EndsPart, PlaysPart, SaysAll, TellsPart};
ghost use Rattle.command_drive.specs.Parts.{TellsSaid};
ghost use Rattle.command_promise.specs.declared.status.Status.TheVariants.{OutOfMemory};

use crate::saying::put_said;
use command_promise::{Status, Turned, finish};
use std::alloc::AllocError;
use sx_bus::Copied;
use sx_deploy::deployment::Deployment;
use sx_drive::honest::Honest;
use sx_drive::said::{Drove, Said};
use sx_io::Sink;
use sx_tag::Tag;
use sx_trace::names::Names;

/// Goes on after a part of the run that was written; stops if a line of it was left out, or
/// memory ran out.
#[tactic(auto, unfolding(crate::specs::Output::long_line))]
fn end_part<K: Sink>(output: &mut K, drove: Result<Drove, AllocError>) -> Turned
    ensures ends { EndsPart K.tells (K.at output.old) (K.at output.new) drove result }
    ensures memory { result ≡ Turned.Stop OutOfMemory → IsErr drove }
{
    match drove {
        Ok(Drove::Done) => Turned::On,
        Ok(Drove::Long) => Turned::Stop(finish(output, b"fault drive long\n", Status::TooLong)),
        Err(_) => Turned::Stop(Status::OutOfMemory),
    }
}

/// Writes what a part of the run said; if memory ran out, what was said before.
fn tell<K: Sink>(
    output: &mut K,
    names: &Names,
    said: &[Said],
    drove: Result<Drove, AllocError>,
) -> Turned
    requires names { IsTrue (are_valid names.now) }
    requires named { AreNamed names.now (all_said said.now) }
    ensures tells { (a : Driven) → SaysAll (all_said said.now) drove a
        → TellsPart K.tells (K.at output.old) (K.at output.new) names.now a result }
    ensures on { result ≡ Turned.On → drove ≡ Ok Drove.Done }
    ensures made { TellsSaid K.tells (K.at output.old) (K.at output.new) names.now
        (all_said said.now) result }
{
    match put_said(output, names, said) {
        Turned::On => end_part(output, drove),
        Turned::Stop(status) => Turned::Stop(status),
    }
}

/// Sets all modules up, and writes the lines of this with what they show.
pub(crate) fn set_up<K: Sink, B: Copied, T: Tag>(
    output: &mut K,
    deployment: &Deployment,
    honest: &mut Honest<B, T>,
    said: &mut Vec<Said>,
) -> Turned
    requires names { IsTrue (are_valid (deployed_as deployment.now).names) }
    requires going { GoesOn T.mac deployment.now honest.old }
    requires memory { honest.old.ran_out ≡ false }
    requires none { said.old.items ≡ [] }
    ensures plays { PlaysPart T.mac deployment.now K.tells (K.at output.old) (K.at output.new)
        honest.old honest.new result setup }
    ensures goes_on { result ≡ Turned.On → GoesOn T.mac deployment.now honest.new }
    ensures memory { result ≡ Turned.On → honest.new.ran_out ≡ false }
    ensures made { TellsSaid K.tells (K.at output.old) (K.at output.new) deployment.now.names
        (all_said said.new.items) result }
    ensures lossless { LosesNothing honest.old.world honest.new.world []
        (all_said said.new.items) }
{
    let drove = honest.setup(deployment, said);
    tell(output, &deployment.names, said, drove)
}

/// Does a reading, and writes the lines of this with what they show.
pub(crate) fn read<K: Sink, B: Copied, T: Tag>(
    output: &mut K,
    deployment: &Deployment,
    honest: &mut Honest<B, T>,
    device: u8,
    value: u16,
    said: &mut Vec<Said>,
) -> Turned
    requires names { IsTrue (are_valid (deployed_as deployment.now).names) }
    requires going { GoesOn T.mac deployment.now honest.old }
    requires memory { honest.old.ran_out ≡ false }
    requires driven { IsDrivenSensor (deployed_as deployment.now) device }
    requires value { value < 32768 }
    requires none { said.old.items ≡ [] }
    ensures plays { PlaysPart T.mac deployment.now K.tells (K.at output.old) (K.at output.new)
        honest.old honest.new result (reading device value) }
    ensures goes_on { result ≡ Turned.On → GoesOn T.mac deployment.now honest.new }
    ensures memory { result ≡ Turned.On → honest.new.ran_out ≡ false }
    ensures made { TellsSaid K.tells (K.at output.old) (K.at output.new) deployment.now.names
        (all_said said.new.items) result }
    ensures lossless { LosesNothing honest.old.world honest.new.world []
        (all_said said.new.items) }
{
    let drove = honest.reading(deployment, device, value, said);
    tell(output, &deployment.names, said, drove)
}
