//! The ends of connections that a module holds.
ghost use Rattle.std.specs.Prelude.{◌≡◌, ◌++◌, IfOk};
ghost use Rattle.std.specs.Option.{option_to_list};
ghost use Rattle.sx_mean.specs.View.{app_as};
ghost use Rattle.sx_deploy.specs.Ends.{AreHeld, ends_held};

use crate::deployment::Deployment;
use crate::ties::byte;
use std::alloc::{AllocError, Global};
use sx_mean::apps::Link;
use sx_mean::connections::{receiving, sending};
use sx_mean::events::End;

fn push_end(ends: &mut Vec<End>, end: Option<End>) -> Result<(), AllocError>
    ensures { IfOk result (λ _. ends.new.items ≡ ends.old.items ++ option_to_list end) }
{
    match end {
        Some(end) => {
            ends.push(end)?;
            Ok(())
        }
        None => Ok(()),
    }
}

fn ends_in(alloc: Global, links: &[Link], place: u8) -> Result<Vec<End>, AllocError>
    ensures { IfOk result (λ ends. ends.items ≡ ends_held links.now place) }
{
    let mut ends = Vec::new(alloc);
    for number in 0..links.len() {
        let link = &links[number];
        push_end(&mut ends, sending(byte(number), place, link))?;
        push_end(&mut ends, receiving(byte(number), place, link))?;
    }
    Ok(ends)
}

impl Deployment {
    /// The ends that the module of this number holds, in connection order, `From` before `To`. A
    /// number of a connection above 255 is given as 255; a deployment that is read has at most 64
    /// connections. The error says that memory ran out.
    pub fn ends(&self, alloc: Global, module: u8) -> Result<Vec<End>, AllocError>
        ensures { IfOk result (λ ends. AreHeld (app_as self.now.app) «module» ends.items) }
    {
        ends_in(alloc, &self.app.links, module)
    }
}
