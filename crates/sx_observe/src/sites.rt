//! Where the deployed modules are, and which of them a section of a node is.

ghost use Rattle.std.specs.Prelude.{◌≡◌, ◌-◌, ◌<◌, ◌≤◌, length, map, slice_get, bytes_eq};
ghost use Rattle.std.specs.Prelude.{Some, IfOk};
ghost use Rattle.sx_deploy.specs.Law.{IsSoundDeployment};
ghost use Rattle.sx_deploy.specs.SeenDeployment.{deployed_as};
ghost use Rattle.spec_machine.specs.Memory.{bytes_from};
ghost use Rattle.spec_run.specs.Accepted.{sites_of};
ghost use Rattle.spec_run.specs.Setting.{deployed, is_at_site, module_of, same_layout};

use std::alloc::{AllocError, Global};
use std::marker::Model;
use sx_bus::Copied;
use sx_deploy::deployment::Deployment;
use sx_image::Image;
use sx_node::Node;
use sx_rules::{Layout, Section};
use sx_tag::Tag;

/// Where a module is deployed: its node, its layout, its provider, and the text of its image.
#[derive(Drop)]
pub struct Site {
    /// The index of its node.
    pub node: u8,
    /// The bounds of its two sections.
    pub layout: Layout,
    /// The number of its provider.
    pub provider: u16,
    /// The bytes of its public section.
    pub text: Vec<u8>,
}

impl Model for Site {
    ghost use Rattle.spec_run.specs.Setting.{Site as Placed};

    ghost Value = { Placed };

    ghost view = { λ s. record {
      node = s.node;
      layout = s.layout;
      provider = s.provider;
      text =
          s.text.items;
    } };
}

fn same_layout(a: &Layout, b: &Layout) -> bool
    ensures { result ≡ same_layout a.now b.now }
{
    a.pub_from == b.pub_from
        && a.pub_to == b.pub_to
        && a.priv_from == b.priv_from
        && a.priv_to == b.priv_to
}

/// Whether the public section of this layout holds the text.
fn has_text<B: Copied, T: Tag>(node: &Node<B, T>, layout: &Layout, text: &[u8]) -> bool
    ensures { result ≡ bytes_eq (bytes_from node.now.mem layout.now.pub_from
        (layout.now.pub_to - layout.now.pub_from)) text.now }
{
    let count = layout.pub_to.saturating_sub(layout.pub_from);
    usize::from(count) == text.len() && node.holds(layout.pub_from, text)
}

/// Whether a section of a node is of the site's identity.
fn is_at_site<B: Copied, T: Tag>(n: u8, node: &Node<B, T>, x: &Section, site: &Site) -> bool
    ensures { result ≡ is_at_site n node.now.mem x.now site.now }
{
    site.node == n
        && same_layout(&x.layout, &site.layout)
        && x.provider == site.provider
        && has_text(node, &x.layout, &site.text)
}

/// The deployed module that a section of a node is.
fn deployed<B: Copied, T: Tag>(sites: &[Site], n: u8, node: &Node<B, T>, x: &Section) -> Option<u8>
    requires { length sites.now ≤ 256 }
    ensures { result ≡ deployed sites.now n node.now.mem x.now }
{
    for m in 0..sites.len() {
        if is_at_site(n, node, x, &sites[m]) {
            return Some(m as u8);
        }
    }
    None
}

/// The deployed module that the live section of a node with the id is.
pub(crate) fn module_of<B: Copied, T: Tag>(
    sites: &[Site],
    n: u8,
    node: &Node<B, T>,
    id: u16,
) -> Option<u8>
    requires { length sites.now ≤ 256 }
    ensures { result ≡ module_of sites.now n node.now id }
{
    match node.section(id) {
        Some(section) => deployed(sites, n, node, &section),
        None => None,
    }
}

/// The site of the m-th module, with the text of its image.
fn site_at(
    alloc: Global,
    deployment: &Deployment,
    images: &[Image],
    m: usize,
) -> Result<Site, AllocError>
    requires sound { IsSoundDeployment (deployed_as deployment.now) }
    requires images { length images.now ≡ length deployment.now.app.parts.items }
    requires part { m < length images.now }
    ensures { IfOk result (λ site. slice_get (sites_of (deployed_as deployment.now).app.parts
        (deployed_as deployment.now).layouts
        (deployed_as deployment.now).providers (map (λ i. i.text.items) images.now)) m
        ≡ Some site) }
{
    Ok(Site {
        node: deployment.app.parts[m].node,
        layout: deployment.layouts[m],
        provider: deployment.providers[m],
        text: images[m].text.to_vec(alloc)?,
    })
}

/// The sites of a deployment's modules, with the texts of their images.
pub fn sites_of(
    alloc: Global,
    deployment: &Deployment,
    images: &[Image],
) -> Result<Vec<Site>, AllocError>
    requires sound { IsSoundDeployment (deployed_as deployment.now) }
    requires images { length images.now ≡ length deployment.now.app.parts.items }
    ensures { IfOk result (λ sites. sites.items ≡ sites_of (deployed_as deployment.now).app.parts
        (deployed_as deployment.now).layouts
        (deployed_as deployment.now).providers (map (λ i. i.text.items) images.now)) }
{
    let mut sites = Vec::new(alloc);
    for m in 0..images.len() {
        sites.push(site_at(alloc, deployment, images, m)?)?;
    }
    Ok(sites)
}
