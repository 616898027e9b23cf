//! Looking names up in the declarations.

ghost use Rattle.std.specs.Prelude.{◌≡◌, count_by, length};
ghost use Rattle.std.specs.List.{list_any};
ghost use Rattle.sx_check.specs.Names.{declares, is_actuator, is_declared, is_device, is_repeated};
ghost use Rattle.sx_check.specs.Names.{is_sensor};
ghost use Rattle.sx_check.specs.Uses.{declares_as};
ghost use Rattle.sx_check.specs.Bounds.{is_input, is_misfit, is_output};

use sx_lang::names::Name;
use sx_lang::tree::{Decl, DeviceKind};

/// What a name is used as.
#[derive(Clone, Copy)]
pub enum Role {
    /// A word that is read or assigned.
    Word,
    /// An array of which an element is read or assigned.
    Element,
    /// An output that is sent to.
    Sending,
    /// An input that is handled.
    Handling,
}

/// Whether the declaration gives this name to something.
pub fn is_of(d: &Decl, x: &Name) -> bool
    ensures { result ≡ declares x.now d.now }
{
    match d {
        Decl::Device(_) => false,
        Decl::Input(y) | Decl::Output(y) | Decl::Var(y, _) | Decl::Array(y, _) => x == y,
    }
}

fn is_of_role(d: &Decl, role: Role, x: &Name) -> bool
    ensures { result ≡ declares_as role x.now d.now }
{
    match (role, d) {
        (Role::Word, Decl::Var(y, _)) => x == y,
        (Role::Element, Decl::Array(y, _)) => x == y,
        (Role::Sending, Decl::Output(y)) => x == y,
        (Role::Handling, Decl::Input(y)) => x == y,
        _ => false,
    }
}

/// Whether a declaration gives this name to something, looked for in all of them.
pub fn lists_name(decls: &[Decl], x: &Name) -> bool
    ensures { result ≡ is_declared decls.now x.now }
{
    for d in decls {
        if is_of(d, x) {
            return true;
        }
    }
    false
}

/// Whether a declaration gives this name to something that can be used so, looked for in all of
/// them.
pub fn lists_role(decls: &[Decl], role: Role, x: &Name) -> bool
    ensures { result ≡ list_any (declares_as role x.now) decls.now }
{
    for d in decls {
        if is_of_role(d, role, x) {
            return true;
        }
    }
    false
}

fn times_named(decls: &[Decl], x: &Name) -> usize
    ensures { result ≡ count_by (declares x.now) decls.now }
{
    let mut times = 0;
    for d in decls {
        if is_of(d, x) {
            times += 1;
        }
    }
    times
}

fn is_a_device(d: &Decl) -> bool
    ensures { result ≡ is_device d.now }
{
    matches!(d, Decl::Device(_))
}

/// The number of declarations of devices.
pub fn devices(decls: &[Decl]) -> usize
    ensures { result ≡ count_by is_device decls.now }
{
    let mut times = 0;
    for d in decls {
        if is_a_device(d) {
            times += 1;
        }
    }
    times
}

fn is_there_twice(decls: &[Decl], d: &Decl) -> bool
    ensures { result ≡ is_repeated decls.now d.now }
{
    match d {
        Decl::Device(_) => devices(decls) > 1,
        Decl::Input(x) | Decl::Output(x) | Decl::Var(x, _) | Decl::Array(x, _) => {
            times_named(decls, x) > 1
        }
    }
}

/// Whether a name, or a device, is declared twice, with each name looked for in all declarations.
pub fn lists_repeated(decls: &[Decl]) -> bool
    ensures { result ≡ list_any (is_repeated decls.now) decls.now }
{
    for d in decls {
        if is_there_twice(decls, d) {
            return true;
        }
    }
    false
}

fn is_a_sensor(d: &Decl) -> bool
    ensures { result ≡ is_sensor d.now }
{
    matches!(d, Decl::Device(DeviceKind::Sensor))
}

/// Whether the module declares a sensor.
pub fn has_sensor(decls: &[Decl]) -> bool
    ensures { result ≡ list_any is_sensor decls.now }
{
    for d in decls {
        if is_a_sensor(d) {
            return true;
        }
    }
    false
}

fn is_an_actuator(d: &Decl) -> bool
    ensures { result ≡ is_actuator d.now }
{
    matches!(d, Decl::Device(DeviceKind::Actuator))
}

/// Whether the module declares an actuator.
pub fn has_actuator(decls: &[Decl]) -> bool
    ensures { result ≡ list_any is_actuator decls.now }
{
    for d in decls {
        if is_an_actuator(d) {
            return true;
        }
    }
    false
}

fn is_an_input(d: &Decl) -> bool
    ensures { result ≡ is_input d.now }
{
    matches!(d, Decl::Input(_))
}

/// The number of inputs.
pub fn inputs(decls: &[Decl]) -> usize
    ensures { result ≡ count_by is_input decls.now }
{
    let mut times = 0;
    for d in decls {
        if is_an_input(d) {
            times += 1;
        }
    }
    times
}

fn is_an_output(d: &Decl) -> bool
    ensures { result ≡ is_output d.now }
{
    matches!(d, Decl::Output(_))
}

/// The number of outputs.
pub fn outputs(decls: &[Decl]) -> usize
    ensures { result ≡ count_by is_output decls.now }
{
    let mut times = 0;
    for d in decls {
        if is_an_output(d) {
            times += 1;
        }
    }
    times
}

fn is_a_misfit(d: &Decl) -> bool
    ensures { result ≡ is_misfit d.now }
{
    match d {
        Decl::Device(_) | Decl::Input(_) | Decl::Output(_) | Decl::Var(_, _) => false,
        Decl::Array(_, length) => *length < 1 || *length > 1024,
    }
}

/// Whether an array's length isn't 1 to 1,024.
pub fn has_misfit(decls: &[Decl]) -> bool
    ensures { result ≡ list_any is_misfit decls.now }
{
    for d in decls {
        if is_a_misfit(d) {
            return true;
        }
    }
    false
}
