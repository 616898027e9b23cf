//! A property that follows the items of a trace.

ghost use Rattle.std.specs.Prelude.{◌≡◌, ◌<◌, [], IfOk, List, None, OnErr, OnOk, Some, false};
ghost use Rattle.std.specs.Prelude.{option_map, true};
ghost use Rattle.std.specs.List.{list_any, position_from};
ghost use Rattle.sx_check.specs.Source.{source_tree};
ghost use Rattle.sx_mean.specs.React.{input_names, nth};
ghost use Rattle.sx_trace.specs.declared.items.Item.{Item as Listed};
ghost use Rattle.sx_watch.specs.Topics.{heard_of, same_topic};
ghost use Rattle.sx_watch.specs.Watched.{PropertyTree, is_emit, watched};
ghost use Rattle.sx_watch.specs.Watching.{Follows, Heeds, hears, noticed_as, property_as};

use crate::finding::is_same_topic;
use crate::property::Property;
use crate::topics::{Topic, TopicKind};
use std::alloc::{AllocError, Global};
use sx_check::checked::Checked;
use sx_mean::events::{Act, SourceEvent};
use sx_mean::reactions::{input_name, react};
use sx_mean::stores::Store;
use sx_trace::items::Item;

/// What is heard of an item.
#[derive(Clone, Copy)]
pub struct Heard {
    /// What the item is about.
    pub topic: Topic,
    /// Its value, 0 where it has none.
    pub value: u16,
}

/// A property that follows the items of a trace.
#[derive(Drop)]
pub struct Watcher {
    /// The property.
    pub property: Property,
    /// Its cells after the items so far.
    pub store: Store,
}

fn made(kind: TopicKind, index: u8, value: u16) -> Option<Heard>
    ensures { result
        ≡ Some (record { topic = record { kind = kind; index = index }; value = value }) }
{
    let topic = Topic::new(kind, index);
    Some(Heard { topic, value })
}

fn heard_of(item: &Item) -> Option<Heard>
    ensures { option_map noticed_as result ≡ heard_of item.now }
{
    match *item {
        Item::Reset { node, .. } => made(TopicKind::Reset, node, 0),
        Item::Protect { module, .. } => made(TopicKind::Protect, module?, 0),
        Item::Sense { device, value } => made(TopicKind::Sense, device, value),
        Item::Read { module, value } => made(TopicKind::Read, module, value),
        Item::Drain { device } => made(TopicKind::Drain, device, 0),
        Item::Attested { module, .. } => made(TopicKind::Attested, module, 0),
        Item::Take { link, value, .. } => made(TopicKind::Take, link, value),
        Item::Out { module, value } => made(TopicKind::Out, module, value),
        Item::Raw { device, value } => made(TopicKind::Raw, device, value),
        _ => None,
    }
}

/// The input that hears of the topic.
fn place_of(topics: &[Topic], topic: Topic) -> Option<usize>
    ensures { result ≡ position_from (same_topic topic) 0 topics.now }
{
    let mut place: usize = 0;
    for other in topics {
        if is_same_topic(topic, *other) {
            return Some(place);
        }
        place += 1;
    }
    None
}

fn has_emit(acts: &[Act]) -> bool
    ensures { result ≡ list_any is_emit acts.now }
{
    for act in acts {
        if let Act::Emit(_) = act {
            return true;
        }
    }
    false
}

/// Whether the module has an input of this number. One that keeps the rules has at most 255 inputs.
fn has_input(code: &Checked, number: usize) -> bool
    ensures small { result ≡ true → number < 256 }
    ensures none { result ≡ false
        → nth (input_names (source_tree code.now).decls) number ≡ None }
{
    let module = code.module();
    number < 256 && input_name(&module.decls, number as u8).is_some()
}

/// Gives a value to an input, if there is one, and tells whether its handler emits.
fn give(
    alloc: Global,
    code: &Checked,
    store: &mut Store,
    input: Option<usize>,
    value: u16,
) -> Result<bool, AllocError>
    ensures broken { IfOk result (λ broken. broken
        ≡ list_any is_emit
        (hears (source_tree code.now) store.old.cells.items input value).acts) }
    ensures cells { OnOk result (store.new.cells.items
        ≡ (hears (source_tree code.now) store.old.cells.items input value).cells) }
    ensures unchanged { OnErr result (store.new ≡ store.old) }
{
    let Some(place) = input else {
        return Ok(false);
    };
    if !has_input(code, place) {
        return Ok(false);
    }
    let acts = react(alloc, code, store, SourceEvent::Input(place as u8, value))?;
    Ok(has_emit(&acts))
}

impl Watcher {
    /// A property before a trace. The error says that memory ran out.
    pub fn new(alloc: Global, property: Property) -> Result<Watcher, AllocError>
        ensures { IfOk result (λ w. Follows (property_as property) [] w) }
    {
        let store = Store::initial(alloc, &property.code)?;
        Ok(Watcher { property, store })
    }

    fn hear(&mut self, alloc: Global, item: &Item) -> Result<bool, AllocError>
        ensures property { self.new.property ≡ self.old.property }
        ensures broken { IfOk result (λ broken. broken ≡ list_any is_emit (watched
            (property_as self.old.property) self.old.store.cells.items item.now).acts) }
        ensures cells { OnOk result (self.new.store.cells.items ≡ (watched
            (property_as self.old.property) self.old.store.cells.items item.now).cells) }
        ensures unchanged { OnErr result (self.new ≡ self.old) }
    {
        let Some(heard) = heard_of(item) else {
            return Ok(false);
        };
        let input = place_of(&self.property.topics, heard.topic);
        give(
            alloc,
            &self.property.code,
            &mut self.store,
            input,
            heard.value,
        )
    }

    /// Follows the next item, and tells whether it breaks the property. After the error, which says
    /// that memory ran out, the property follows the items that it followed before.
    #[tactic(auto, using(crate::proofs::Following::heeds))]
    pub fn item(&mut self, alloc: Global, item: &Item) -> Result<bool, AllocError>
        ensures heeds { (p : PropertyTree) (items : List Listed) → Follows p items self.old
            → IfOk result (λ broken. Heeds p items item.now self.new broken) }
        ensures unchanged { OnErr result (self.new ≡ self.old) }
    {
        self.hear(alloc, item)
    }
}
