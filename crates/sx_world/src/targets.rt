//! The deployed modules as the deployer knows them.

ghost use Rattle.std.specs.Prelude.{◌≡◌, ℕ, ◌<◌, ◌≤◌, length, map, slice_get, Some, IfOk};
ghost use Rattle.sx_deployer.specs.Keeping.{known};
ghost use Rattle.sx_tag.specs.Keys.{identity};
ghost use Rattle.sx_tag.specs.Mac.{Mac};
ghost use Rattle.sx_world.specs.Held.{targets_from};
ghost use Rattle.sx_observe.specs.InMemory.{setting_at};
ghost use Rattle.spec_run.specs.Setting.{Site as Placed};

use std::alloc::{AllocError, Global};
use sx_deploy::deployment::Deployment;
use sx_deployer::Target;
use sx_observe::sites::Site;
use sx_tag::layout_bytes;

/// The identity of the module at a site: its text, and then its layout.
#[tactic(auto, unfolding(sx_tag::specs::Keys::identity))]
fn identity(alloc: Global, site: &Site) -> Result<Vec<u8>, AllocError>
    ensures { IfOk result (λ bytes. bytes.items ≡ identity site.now.text site.now.layout.pub_from
        site.now.layout.pub_to
        site.now.layout.priv_from site.now.layout.priv_to) }
{
    let l = &site.layout;
    let mut bytes = site.text.to_vec(alloc)?;
    bytes.extend_from_slice(&layout_bytes(l.pub_from, l.pub_to, l.priv_from, l.priv_to))?;
    Ok(bytes)
}

/// The module at the m-th site.
fn target_at(
    alloc: Global,
    deployment: &Deployment,
    sites: &[Site],
    m: usize,
) -> Result<Target, AllocError>
    requires links { length deployment.now.app.links.items ≤ 256 }
    requires few { length sites.now ≤ 256 }
    requires nodes { (k : ℕ) (site : Placed) → slice_get sites.now k ≡ Some site
        → site.node < length deployment.now.keys.items }
    requires site { m < length sites.now }
    ensures { IfOk result (λ t. (mac : Mac) → slice_get
        (targets_from (setting_at mac deployment.now sites.now) 0 sites.now) m
        ≡ Some (known t)) }
{
    let site = &sites[m];
    Ok(Target {
        node_key: deployment.keys[usize::from(site.node)],
        provider: site.provider,
        identity: identity(alloc, site)?,
        ends: deployment.ends(alloc, m as u8)?,
    })
}

/// The modules at these sites.
pub(crate) fn targets_of(
    alloc: Global,
    deployment: &Deployment,
    sites: &[Site],
) -> Result<Vec<Target>, AllocError>
    requires links { length deployment.now.app.links.items ≤ 256 }
    requires few { length sites.now ≤ 256 }
    requires nodes { (k : ℕ) (site : Placed) → slice_get sites.now k ≡ Some site
        → site.node < length deployment.now.keys.items }
    ensures { IfOk result (λ targets. (mac : Mac)
        → map known targets.items ≡ targets_from (setting_at mac deployment.now sites.now) 0
        sites.now) }
{
    let mut targets = Vec::new(alloc);
    for m in 0..sites.len() {
        targets.push(target_at(alloc, deployment, sites, m)?)?;
    }
    Ok(targets)
}
