//! A property: a module, and what each of its inputs hears of.

use crate::topics::Topic;
use sx_check::checked::Checked;

/// A property of an application. Contracts see it as a `PropertyTree`.
#[derive(Drop)]
pub struct Property {
    /// The module that hears of items, and emits where the property is broken.
    pub code: Checked,
    /// The topic that each of its inputs hears of, by the number of the input.
    pub topics: Vec<Topic>,
}
