//! Which ends get keys after an answer that was accepted.

ghost use Rattle.std.specs.Prelude.{◌≡◌, ◌+◌, ◌<◌, ◌≤◌, ◌++◌, length, IfOk, OnOk};
ghost use Rattle.std.specs.Option.{option_to_list};
ghost use Rattle.sx_deployer.specs.Granting.{grant, grants_of};
ghost use Rattle.sx_world.specs.Granted.{across_at, across_from, boot_in, grant_if_any, granted};
ghost use Rattle.sx_world.specs.Granted.{own_at, own_from};

use std::alloc::{AllocError, Global};
use std::marker::Model;
use sx_deployer::Deployer;
use sx_lang::sides::Side;
use sx_mean::apps::{App, Link};
use sx_mean::connections::{receiving, sending};
use sx_mean::events::End;
use sx_tag::Tag;

/// What a set-key packet is for: an end of a module at a boot of its node, and the connection's
/// epoch.
#[derive(Drop)]
pub(crate) struct Grant {
    pub(crate) holder: u8,
    pub(crate) boot: u32,
    pub(crate) end: End,
    pub(crate) epoch: u8,
}

impl Model for Grant {
    ghost use Rattle.sx_deployer.specs.Granting.{Grant as Given};

    ghost Value = { Given };

    ghost view = { λ g. record { holder = g.holder; boot = g.boot; «end» = g.«end»; epoch = g.epoch } };
}

/// For an end of a module at a boot, in the connection's present epoch.
fn grant_for<T: Tag>(deployer: &Deployer<T>, holder: u8, boot: u32, end: End) -> Grant
    ensures { result ≡ grant deployer.now.state.epochs holder boot «end» }
{
    Grant {
        holder,
        boot,
        end,
        epoch: deployer.epoch(end.link),
    }
}

/// Adds the grant for an end of a module, if it has the end.
fn add_end<T: Tag>(
    deployer: &Deployer<T>,
    m: u8,
    boot: u32,
    end: Option<End>,
    grants: &mut Vec<Grant>,
) -> Result<(), AllocError>
    ensures { OnOk result (grants.new.items ≡ grants.old.items
        ++ grants_of deployer.now.state.epochs m boot (option_to_list «end»)) }
{
    match end {
        Some(end) => {
            grants.push(grant_for(deployer, m, boot, end))?;
            Ok(())
        }
        None => Ok(()),
    }
}

/// Adds the grants for a module's ends of the n-th connection.
fn add_ends<T: Tag>(
    deployer: &Deployer<T>,
    m: u8,
    boot: u32,
    n: u8,
    link: &Link,
    grants: &mut Vec<Grant>,
) -> Result<(), AllocError>
    ensures { OnOk result (grants.new.items ≡ grants.old.items
        ++ own_at deployer.now.state.epochs m boot n link.now) }
{
    add_end(deployer, m, boot, sending(n, m, link), grants)?;
    add_end(deployer, m, boot, receiving(n, m, link), grants)
}

/// Adds the grants for a module's own ends.
fn add_own<T: Tag>(
    deployer: &Deployer<T>,
    m: u8,
    boot: u32,
    links: &[Link],
    grants: &mut Vec<Grant>,
) -> Result<(), AllocError>
    requires { length links.now ≤ 256 }
    ensures { OnOk result (grants.new.items ≡ grants.old.items
        ++ own_from deployer.now.state.epochs m boot 0 links.now) }
{
    for n in 0..links.len() {
        add_ends(deployer, m, boot, n as u8, &links[n], grants)?;
    }
    Ok(())
}

/// The boot at which the k-th of this many modules was last attested, if it was.
fn attested<T: Tag>(deployer: &Deployer<T>, parts: usize, k: u8) -> Option<u32>
    requires { parts ≤ length deployer.now.targets }
    ensures { result ≡ boot_in deployer.now parts k }
{
    if usize::from(k) < parts {
        deployer.attested(k)
    } else {
        None
    }
}

/// The grant for an end of a module, where that was attested.
fn grant_to<T: Tag>(deployer: &Deployer<T>, parts: usize, k: u8, end: End) -> Option<Grant>
    requires { parts ≤ length deployer.now.targets }
    ensures { result ≡ grant_if_any deployer.now.state.epochs k «end» (boot_in deployer.now parts k) }
{
    match attested(deployer, parts, k) {
        Some(boot) => Some(grant_for(deployer, k, boot, end)),
        None => None,
    }
}

/// The grant for the end of the n-th connection that is in another module, where one end is in this
/// module.
fn across<T: Tag>(deployer: &Deployer<T>, parts: usize, m: u8, n: u8, link: &Link) -> Option<Grant>
    requires { parts ≤ length deployer.now.targets }
    ensures { result ≡ across_at deployer.now parts m n link.now }
{
    if link.from == link.to {
        return None;
    }
    if link.from == m {
        let end = End {
            link: n,
            side: Side::To,
            port: link.input,
        };
        return grant_to(deployer, parts, link.to, end);
    }
    if link.to == m {
        let end = End {
            link: n,
            side: Side::From,
            port: link.output,
        };
        return grant_to(deployer, parts, link.from, end);
    }
    None
}

fn add_grant(grant: Option<Grant>, grants: &mut Vec<Grant>) -> Result<(), AllocError>
    ensures { OnOk result (grants.new.items ≡ grants.old.items ++ option_to_list grant) }
{
    match grant {
        Some(grant) => {
            grants.push(grant)?;
            Ok(())
        }
        None => Ok(()),
    }
}

/// Adds the grants for the other ends of a module's connections.
fn add_across<T: Tag>(
    deployer: &Deployer<T>,
    parts: usize,
    m: u8,
    links: &[Link],
    grants: &mut Vec<Grant>,
) -> Result<(), AllocError>
    requires parts { parts ≤ length deployer.now.targets }
    requires links { length links.now ≤ 256 }
    ensures { OnOk result (grants.new.items ≡ grants.old.items
        ++ across_from deployer.now parts m 0 links.now) }
{
    for n in 0..links.len() {
        add_grant(across(deployer, parts, m, n as u8, &links[n]), grants)?;
    }
    Ok(())
}

/// The grants after an accepted answer of a module that was last attested at a boot, if any: those
/// for the module's own ends, and where it was attested before those for the ends beyond.
pub(crate) fn granted<T: Tag>(
    alloc: Global,
    deployer: &Deployer<T>,
    app: &App,
    m: u8,
    boot: u32,
    last: Option<u32>,
) -> Result<Vec<Grant>, AllocError>
    requires parts { length app.now.parts.items ≤ length deployer.now.targets }
    requires links { length app.now.links.items ≤ 256 }
    ensures { IfOk result (λ v. v.items ≡ granted deployer.now (length app.now.parts.items)
        app.now.links.items m boot last) }
{
    let mut grants = Vec::new(alloc);
    add_own(deployer, m, boot, &app.links, &mut grants)?;
    if last.is_some() {
        add_across(deployer, app.parts.len(), m, &app.links, &mut grants)?;
    }
    Ok(grants)
}
