//! The lines of a schedule as acts.

ghost use Rattle.sx_deploy.specs.Law.{IsSoundDeployment};
ghost use Rattle.sx_deploy.specs.SeenDeployment.{deployed_as};
ghost use Rattle.sx_sched.specs.InForm.{IsLine};
ghost use Rattle.sx_sched.specs.Seen.{line_of};
ghost use Rattle.sx_world.specs.Held.{DoesAct};
ghost use Rattle.sx_observe.specs.InMemory.{setting_in};
ghost use Rattle.sx_world.specs.Ready.{IsReady};
ghost use Rattle.spec_run.specs.Run.{after_line};

use crate::running::Running;
use std::alloc::AllocError;
use sx_bus::Copied;
use sx_observe::settings::Setting;
use sx_sched::lines::Line;
use sx_tag::Tag;
use sx_trace::items::Item;

impl<B: Copied, T: Tag> Running<B, T> {
    /// Performs a line in a setting.
    pub(crate) fn perform(
        &mut self,
        setting: &Setting<'_>,
        line: &Line,
        items: &mut Vec<Item>,
    ) -> Result<(), AllocError>
        requires sound { IsSoundDeployment (deployed_as setting.now.deployment.now) }
        requires ready { IsReady (deployed_as setting.now.deployment.now) setting.now.sites.now
            self.old }
        requires form { IsLine (deployed_as setting.now.deployment.now).names (line_of line.now) }
        ensures { DoesAct (setting_in T.mac setting.now) result self.old self.new
            items.old.items items.new.items
            (λ w. after_line (setting_in T.mac setting.now) w (line_of line.now)) }
    {
        match line {
            Line::Blank => Ok(()),
            Line::Run { node, steps } => {
                self.steps_of(setting, *node, u32::from(*steps), false, None, items)
            }
            Line::Finish { node } => self.finish(setting, *node, items),
            Line::Put { node, at, bytes } => self.put_on(*node, *at, bytes, items),
            Line::Set { node, reg, value } => self.set_on(*node, *reg, *value, items),
            Line::Take { node, at, len } => self.take(*node, *at, *len, items),
            Line::Give { packet, node, at } => self.give(*packet, *node, *at, items),
            Line::Forge { bytes } => self.new_packet(bytes, items),
            Line::Sense { device, value } => self.sense(setting.deployment, *device, *value, items),
            Line::Irq { node, line } => self.irq(setting, *node, *line, items),
            Line::Reset { node } => self.reset(*node, items),
            Line::Ask { module } => self.ask(*module, items),
            Line::Answer {
                module,
                boot,
                packet,
            } => self.answer(setting.deployment, *module, *boot, *packet, items),
            Line::Load { module } => self.load(setting, *module, items),
            Line::Call {
                module,
                entry,
                input,
                output,
            } => self.call(setting, *module, *entry, *input, *output, items),
        }
    }
}
