//! The modules are loaded, attested and given their keys, and readings are taken.

ghost use Rattle.std.specs.Prelude.{◌≡◌, ◌<◌, length, IfOk, OnOk};
ghost use Rattle.sx_deploy.specs.Law.{IsSoundDeployment};
ghost use Rattle.sx_deploy.specs.SeenDeployment.{deployed_as};
ghost use Rattle.sx_sched.specs.Lines.{Ask};
ghost use Rattle.spec_invocation.specs.Protocol.{attest_entry};
ghost use Rattle.sx_drive.specs.Honest.{each, packets_of, says, then_};
ghost use Rattle.sx_drive.specs.Honest as honest;
ghost use Rattle.sx_drive.specs.Driving.{Does, GoesOn, IsCallee, IsDrivenSensor, callee_of};
ghost use Rattle.sx_drive.specs.Driving.{reading};

use crate::callee::{Callee, callee_at, driver_of};
use crate::delivering::{OUT_WINDOW, packets_of};
use crate::honest::Honest;
use crate::said::Said;
use spec_invocation::protocol::{ATTEST_ENTRY, SAMPLE_ENTRY, SET_KEY_ENTRY, TAG_SIZE};
use std::alloc::AllocError;
use sx_bus::Copied;
use sx_deploy::deployment::Deployment;
use sx_sched::lines::Line;
use sx_tag::Tag;

/// How many modules a deployment has.
fn modules(deployment: &Deployment) -> u8
    requires sound { IsSoundDeployment (deployed_as deployment.now) }
    ensures { result ≡ length deployment.now.app.parts.items }
{
    deployment.app.parts.len() as u8
}

impl<B: Copied, T: Tag> Honest<B, T> {
    /// The packets that the last line showed.
    fn packets(&self) -> Result<Vec<u32>, AllocError>
        ensures { IfOk result (λ packets. packets.items ≡ packets_of self.now.shown) }
    {
        packets_of(self.alloc, &self.shown)
    }

    /// Hands a module each packet that the last line showed.
    fn hand_shown(
        &mut self,
        deployment: &Deployment,
        entry: u16,
        callee: Callee,
        said: &mut Vec<Said>,
    ) -> Result<(), AllocError>
        requires going { GoesOn T.mac deployment.now self.old }
        requires there { IsCallee (deployed_as deployment.now) (callee_of callee) }
        ensures does { Does T.mac deployment.now result self.old self.new said.old.items
            said.new.items (λ set h.
            each (honest.hands set entry (callee_of callee)) (packets_of h.shown) h) }
        ensures goes_on { OnOk result (GoesOn T.mac deployment.now self.new) }
        ensures ran_out { self.new.ran_out ≡ self.old.ran_out }
    {
        let packets = self.packets()?;
        self.hand_each(deployment, entry, callee, &packets, said)
    }

    /// Asks a module, and hands it the packet that it is sent.
    fn challenge(
        &mut self,
        deployment: &Deployment,
        callee: Callee,
        said: &mut Vec<Said>,
    ) -> Result<(), AllocError>
        requires going { GoesOn T.mac deployment.now self.old }
        requires there { IsCallee (deployed_as deployment.now) (callee_of callee) }
        ensures does { Does T.mac deployment.now result self.old self.new said.old.items
            said.new.items (λ set h. then_ (says set (Ask callee.part) h) (λ h2.
            each (honest.hands set attest_entry (callee_of callee)) (packets_of h2.shown) h2)) }
        ensures goes_on { OnOk result (GoesOn T.mac deployment.now self.new) }
        ensures ran_out { self.new.ran_out ≡ self.old.ran_out }
    {
        self.say(
            deployment,
            Line::Ask {
                module: callee.part,
            },
            said,
        )?;
        self.hand_shown(deployment, ATTEST_ENTRY, callee, said)
    }

    /// Loads a module and asks it, and hands it the packet that it is sent: it attests itself.
    fn ask(
        &mut self,
        deployment: &Deployment,
        callee: Callee,
        said: &mut Vec<Said>,
    ) -> Result<(), AllocError>
        requires going { GoesOn T.mac deployment.now self.old }
        requires there { IsCallee (deployed_as deployment.now) (callee_of callee) }
        ensures does { Does T.mac deployment.now result self.old self.new said.old.items
            said.new.items (λ set. honest.asks set (callee_of callee)) }
        ensures goes_on { OnOk result (GoesOn T.mac deployment.now self.new) }
        ensures ran_out { self.new.ran_out ≡ self.old.ran_out }
    {
        self.say(
            deployment,
            Line::Load {
                module: callee.part,
            },
            said,
        )?;
        self.challenge(deployment, callee, said)
    }

    /// Gives each packet to the deployer, as a module's answer.
    fn answer_each(
        &mut self,
        deployment: &Deployment,
        callee: Callee,
        packets: &[u32],
        said: &mut Vec<Said>,
    ) -> Result<(), AllocError>
        requires going { GoesOn T.mac deployment.now self.old }
        requires there { IsCallee (deployed_as deployment.now) (callee_of callee) }
        ensures does { Does T.mac deployment.now result self.old self.new said.old.items
            said.new.items (λ set. each (honest.answers set (callee_of callee)) packets.now) }
        ensures goes_on { OnOk result (GoesOn T.mac deployment.now self.new) }
        ensures ran_out { self.new.ran_out ≡ self.old.ran_out }
    {
        for packet in packets {
            let answer = Line::Answer {
                module: callee.part,
                boot: 0,
                packet: *packet,
            };
            self.say(deployment, answer, said)?;
        }
        Ok(())
    }

    /// Gives each packet that the last line showed to the deployer, as a module's answer.
    fn answer_shown(
        &mut self,
        deployment: &Deployment,
        callee: Callee,
        said: &mut Vec<Said>,
    ) -> Result<(), AllocError>
        requires going { GoesOn T.mac deployment.now self.old }
        requires there { IsCallee (deployed_as deployment.now) (callee_of callee) }
        ensures does { Does T.mac deployment.now result self.old self.new said.old.items
            said.new.items (λ set h.
            each (honest.answers set (callee_of callee)) (packets_of h.shown) h) }
        ensures goes_on { OnOk result (GoesOn T.mac deployment.now self.new) }
        ensures ran_out { self.new.ran_out ≡ self.old.ran_out }
    {
        let packets = self.packets()?;
        self.answer_each(deployment, callee, &packets, said)
    }

    /// Takes a module's answer and gives it to the deployer, and hands the module each set-key
    /// packet that is sent then.
    fn open(
        &mut self,
        deployment: &Deployment,
        callee: Callee,
        said: &mut Vec<Said>,
    ) -> Result<(), AllocError>
        requires going { GoesOn T.mac deployment.now self.old }
        requires there { IsCallee (deployed_as deployment.now) (callee_of callee) }
        ensures does { Does T.mac deployment.now result self.old self.new said.old.items
            said.new.items (λ set. honest.opens set (callee_of callee)) }
        ensures goes_on { OnOk result (GoesOn T.mac deployment.now self.new) }
        ensures ran_out { self.new.ran_out ≡ self.old.ran_out }
    {
        let take = Line::Take {
            node: callee.node,
            at: OUT_WINDOW,
            len: TAG_SIZE,
        };
        self.say(deployment, take, said)?;
        self.answer_shown(deployment, callee, said)?;
        self.hand_shown(deployment, SET_KEY_ENTRY, callee, said)
    }

    /// Sets a module up.
    fn set_up(
        &mut self,
        deployment: &Deployment,
        callee: Callee,
        said: &mut Vec<Said>,
    ) -> Result<(), AllocError>
        requires going { GoesOn T.mac deployment.now self.old }
        requires there { IsCallee (deployed_as deployment.now) (callee_of callee) }
        ensures does { Does T.mac deployment.now result self.old self.new said.old.items
            said.new.items (λ set. honest.sets_up set (callee_of callee)) }
        ensures goes_on { OnOk result (GoesOn T.mac deployment.now self.new) }
        ensures ran_out { self.new.ran_out ≡ self.old.ran_out }
    {
        self.ask(deployment, callee, said)?;
        self.open(deployment, callee, said)
    }

    /// Sets the m-th module up, where there is one.
    fn set_up_at(
        &mut self,
        deployment: &Deployment,
        m: u8,
        said: &mut Vec<Said>,
    ) -> Result<(), AllocError>
        requires going { GoesOn T.mac deployment.now self.old }
        ensures does { Does T.mac deployment.now result self.old self.new said.old.items
            said.new.items
            (λ set. honest.if_there (honest.sets_up set) (honest.callee_at set.app m)) }
        ensures goes_on { OnOk result (GoesOn T.mac deployment.now self.new) }
        ensures ran_out { self.new.ran_out ≡ self.old.ran_out }
    {
        match callee_at(deployment, m) {
            Some(callee) => self.set_up(deployment, callee, said),
            None => Ok(()),
        }
    }

    /// Sets all modules up, in order.
    pub(crate) fn set_up_all(
        &mut self,
        deployment: &Deployment,
        said: &mut Vec<Said>,
    ) -> Result<(), AllocError>
        requires going { GoesOn T.mac deployment.now self.old }
        ensures does { Does T.mac deployment.now result self.old self.new said.old.items
            said.new.items honest.setup }
        ensures goes_on { OnOk result (GoesOn T.mac deployment.now self.new) }
        ensures ran_out { self.new.ran_out ≡ self.old.ran_out }
    {
        for m in 0..modules(deployment) {
            self.set_up_at(deployment, m, said)?;
        }
        Ok(())
    }

    /// Calls the driver of a sensor, and takes what it makes.
    fn sample(
        &mut self,
        deployment: &Deployment,
        device: u8,
        said: &mut Vec<Said>,
    ) -> Result<(), AllocError>
        requires going { GoesOn T.mac deployment.now self.old }
        ensures does { Does T.mac deployment.now result self.old self.new said.old.items
            said.new.items
            (λ set. honest.if_there (honest.samples set) (honest.driver_of set.app device)) }
        ensures goes_on { OnOk result (GoesOn T.mac deployment.now self.new) }
        ensures ran_out { self.new.ran_out ≡ self.old.ran_out }
    {
        match driver_of(deployment, device) {
            Some(callee) => {
                self.call(deployment, SAMPLE_ENTRY, callee, said)?;
                self.collect(deployment, callee.node, said)
            }
            None => Ok(()),
        }
    }

    /// Gives a sensor a value, calls its driver, and delivers packets until none waits.
    pub(crate) fn read(
        &mut self,
        deployment: &Deployment,
        device: u8,
        value: u16,
        said: &mut Vec<Said>,
    ) -> Result<(), AllocError>
        requires going { GoesOn T.mac deployment.now self.old }
        requires driven { IsDrivenSensor (deployed_as deployment.now) device }
        requires value { value < 32768 }
        ensures does { Does T.mac deployment.now result self.old self.new said.old.items
            said.new.items (reading device value) }
        ensures goes_on { OnOk result (GoesOn T.mac deployment.now self.new) }
        ensures ran_out { self.new.ran_out ≡ self.old.ran_out }
    {
        self.say(deployment, Line::Sense { device, value }, said)?;
        self.sample(deployment, device, said)?;
        self.settle(deployment, said)
    }
}
