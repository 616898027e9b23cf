//! Which rule is broken, and where.
ghost use Rattle.std.specs.Prelude.{◌≡◌};
ghost use Rattle.sx_entries.specs.Fault.{cut, nth};

use std::fmt;

/// What an entry of a deployment is.
#[derive(Clone, Copy, PartialEq, Eq, Debug, Drop)]
pub enum Sort {
    /// The document's own keys.
    Top,
    /// The array `node`.
    Node,
    /// The array `device`.
    Device,
    /// The array `module`.
    Module,
    /// The array `connection`.
    Connection,
}

/// Where a rule is broken. A number above 4,294,967,295 is given as that number.
#[derive(Clone, Copy, PartialEq, Eq, Debug, Drop)]
pub enum Place {
    /// In the text as a whole.
    Nowhere,
    /// In all the entries of a sort, or at the top.
    Kind(Sort),
    /// In the entry of this number, from 0.
    Entry(Sort, u32),
    /// In the source of the module of this number, at a line and a column.
    Source(u32, u32, u32),
    /// In the source of the module of this number, which breaks this rule of the language.
    Broken(u32, u8),
}

impl fmt::Display for Sort {
    ghost use Rattle.std.specs.Prelude.{Some};
    ghost use Rattle.sx_entries.specs.Text.{sort_text};

    ghost output = { λ sort. Some (sort_text sort) };

    fn fmt<W: fmt::Write>(&self, f: &mut fmt::Formatter<W>) -> fmt::Result {
        match self {
            Sort::Top => write!(f, "top"),
            Sort::Node => write!(f, "node"),
            Sort::Device => write!(f, "device"),
            Sort::Module => write!(f, "module"),
            Sort::Connection => write!(f, "connection"),
        }
    }
}

impl fmt::Display for Place {
    ghost use Rattle.std.specs.Prelude.{Some};
    ghost use Rattle.sx_entries.specs.Text.{place_text};

    ghost output = { λ place. Some (place_text place) };

    fn fmt<W: fmt::Write>(&self, f: &mut fmt::Formatter<W>) -> fmt::Result {
        match self {
            Place::Nowhere => write!(f, "-"),
            Place::Kind(sort) => write!(f, "{sort}"),
            Place::Entry(sort, n) => write!(f, "{sort} {n}"),
            Place::Source(n, line, column) => write!(f, "module {n} {line} {column}"),
            Place::Broken(n, rule) => write!(f, "module {n} {rule}"),
        }
    }
}

/// A broken rule, and where.
#[derive(Clone, Copy, PartialEq, Eq, Debug, Drop)]
pub struct DeployFault {
    /// The rule's number, from 1 to 10.
    pub rule: u8,
    /// Where the rule is broken.
    pub place: Place,
}

impl fmt::Display for DeployFault {
    ghost use Rattle.std.specs.Prelude.{Some};
    ghost use Rattle.sx_entries.specs.Text.{fault_text};

    ghost output = { λ fault. Some (fault_text fault) };

    fn fmt<W: fmt::Write>(&self, f: &mut fmt::Formatter<W>) -> fmt::Result {
        let rule = self.rule;
        let place = self.place;
        write!(f, "D{rule} {place}")
    }
}

/// Why a text gives no deployment.
#[derive(Clone, Copy, PartialEq, Eq, Debug, Drop)]
pub enum DeployError {
    /// The text breaks a rule.
    Fault(DeployFault),
    /// Memory ran out.
    OutOfMemory,
}

/// The number of an entry, as a place gives it.
pub fn cut(index: usize) -> u32
    ensures { result ≡ cut index }
{
    index.min(u32::MAX as usize) as u32
}

/// The place of an entry.
pub fn nth(sort: Sort, index: usize) -> Place
    ensures { result ≡ nth sort index }
{
    Place::Entry(sort, cut(index))
}
