//! From the text of a property to the property.

ghost use Rattle.std.specs.Prelude.{◌≡◌, IsTrue};
ghost use Rattle.sx_lang.specs.View.{module_of};
ghost use Rattle.sx_mean.specs.View.{app_as};
ghost use Rattle.sx_trace.specs.ValidNames.{are_valid};
ghost use Rattle.sx_watch.specs.Read.{Gives, GivesOne, apart, made, no_module};
ghost use Rattle.sx_watch.specs.Parts.{IsMeant};
ghost use Rattle.sx_watch.specs.Text.{IsProperty, judged};

use crate::finding::{first_second, first_unknown, topics_of};
use crate::property::Property;
use crate::rewriting::{Head, rewrite};
use crate::topics::Topic;
use std::alloc::{AllocError, Global};
use sx_check::checks::check;
use sx_check::rules::Rule;
use sx_lang::tree::Module;
use sx_lex::reading::tokens_of;
use sx_lex::tokens::{Place, Placed};
use sx_mean::apps::App;
use sx_parse::error::{ParseError, ParseFault};
use sx_parse::parse::parse_tokens;
use sx_trace::names::Names;

/// The first rule that a text breaks, and where.
#[derive(Clone, Copy, PartialEq, Eq, Debug)]
pub enum PropertyFault {
    /// The first token that can't follow those before it, or the end.
    Syntax(Place),
    /// The first handler whose words name nothing of the deployment, by the place of its name.
    Unknown(Place),
    /// The first second handler for one topic, by the place of its name.
    Twice(Place),
    /// The first rule of the language that the property breaks.
    Language(Rule),
}

/// Why a text is no property.
#[derive(Drop, Debug)]
pub enum PropertyError {
    /// It breaks a rule.
    Fault(PropertyFault),
    /// Memory ran out.
    OutOfMemory,
}

impl From<AllocError> for PropertyError {
    ghost use Rattle.sx_watch.specs.declared.reading.PropertyError.TheVariants.{OutOfMemory};

    ghost from_gives = { λ _ e. e ≡ OutOfMemory };

    fn from(_error: AllocError) -> Self {
        PropertyError::OutOfMemory
    }
}

/// The property with this module, if it keeps the rules of the language.
fn checked(tree: Module, topics: Vec<Topic>) -> Result<Property, PropertyError>
    ensures { Gives result (made (module_of tree) topics.items) }
{
    match check(tree) {
        Ok(code) => Ok(Property { code, topics }),
        Err((rule, _)) => Err(PropertyError::Fault(PropertyFault::Language(rule))),
    }
}

/// The property with this module, if no two of its handlers have one topic.
fn told_apart(
    alloc: Global,
    names: &Names,
    app: &App,
    heads: &[Head],
    tree: Module,
) -> Result<Property, PropertyError>
    requires { IsTrue (are_valid names.now) }
    ensures { Gives result (apart names.now (app_as app.now) heads.now (module_of tree)) }
{
    match first_second(alloc, names, app, heads)? {
        Some(head) => Err(PropertyError::Fault(PropertyFault::Twice(head.place))),
        None => checked(tree, topics_of(alloc, names, app, heads)?),
    }
}

/// The property with this module and these heads, or the first rule that it breaks.
fn judged(
    alloc: Global,
    names: &Names,
    app: &App,
    heads: &[Head],
    tree: Module,
) -> Result<Property, PropertyError>
    requires { IsTrue (are_valid names.now) }
    ensures { Gives result (judged names.now (app_as app.now) heads.now (module_of tree)) }
{
    match first_unknown(names, app, heads) {
        Some(head) => Err(PropertyError::Fault(PropertyFault::Unknown(head.place))),
        None => told_apart(alloc, names, app, heads, tree),
    }
}

/// That a property's tokens are no module's, by their first fault.
fn no_module(error: ParseError) -> PropertyError
    ensures { result ≡ no_module error }
{
    match error {
        ParseError::Fault(ParseFault { line, column }) => {
            PropertyError::Fault(PropertyFault::Syntax(Place { line, column }))
        }
        ParseError::OutOfMemory => PropertyError::OutOfMemory,
    }
}

/// What tokens mean that end here.
fn meant(
    alloc: Global,
    names: &Names,
    app: &App,
    tokens: &[Placed],
    end: Place,
) -> Result<Property, PropertyError>
    requires { IsTrue (are_valid names.now) }
    ensures { GivesOne result (IsMeant names.now (app_as app.now) tokens.now end) }
{
    let module = rewrite(alloc, tokens)?;
    match parse_tokens(alloc, &module.tokens, end) {
        Ok(tree) => judged(alloc, names, app, &module.heads, tree),
        Err(error) => Err(no_module(error)),
    }
}

/// The property that a text means for the deployment with these names and this application, or the
/// first rule that it breaks. `OutOfMemory` says that memory ran out.
pub fn read_property(
    alloc: Global,
    names: &Names,
    app: &App,
    text: &[u8],
) -> Result<Property, PropertyError>
    requires { IsTrue (are_valid names.now) }
    ensures { GivesOne result (IsProperty names.now (app_as app.now) text.now) }
{
    let tokens = tokens_of(alloc, text)?;
    meant(alloc, names, app, &tokens.list, tokens.end)
}
