//! From a text to a query: first the number of words, then word by word.

ghost use Rattle.std.specs.Prelude.{◌≡◌, ◌+◌, ◌<◌, ◌≤◌, IfOk, IsTrue, OnOk, length};
ghost use Rattle.sx_trace.specs.Names.{NameLists};
ghost use Rattle.sx_trace.specs.ValidNames.{are_valid};
ghost use Rattle.sx_sched.specs.Words.{words_of};
ghost use Rattle.command_snap.specs.Asked.{IsAsked, lines_before};
ghost use Rattle.command_snap.specs.Input.{bytes_query, items_query, judged_query, node_of};
ghost use Rattle.command_snap.specs.Input.{number_in, query_of_kind, registers_query, rule_number};

use sx_io::number;
use sx_sched::words::{four_words, is_comment, one_word, split_word, two_words};
use sx_trace::names::Names;

/// The rules that a line of queries can break, by which it is refused.
#[derive(Clone, Copy)]
pub(crate) enum QueryRule {
    /// A line has more than 4,096 bytes.
    TooLong = 1,
    /// 64 lines come before it.
    TooMany = 2,
    /// The first word is none of the kinds of query.
    NoKind = 3,
    /// The number of words is wrong.
    WrongCount = 4,
    /// A word is no name of a node.
    NoName = 5,
    /// A word is no number in its range.
    NoNumber = 6,
}

impl QueryRule {
    /// The number that is printed.
    pub(crate) fn number(self) -> u8
        ensures { result ≡ rule_number self }
    {
        self as u8
    }
}

/// There are at most this many lines of queries, blank ones counted.
pub(crate) const MOST_LINES: u32 = 64;

/// What a line asks. `at` is how many lines of the schedule were performed.
#[derive(Clone, Copy, PartialEq, Eq)]
pub(crate) enum Query {
    /// Nothing: a line without a word, or a comment.
    Blank,
    /// The registers of a node.
    Registers {
        node: u8,
        at: u32,
    },
    /// 1 to 64 bytes of a node's memory from an address on, none past 0xFFFF.
    Bytes {
        node: u8,
        from: u16,
        len: u16,
        at: u32,
    },
    /// The items of the last of the lines.
    Items {
        at: u32,
    },
}

impl Query {
    /// How many lines come before what is asked.
    pub(crate) fn lines_before(self) -> u32
        ensures { result ≡ lines_before self }
    {
        match self {
            Query::Blank => 0,
            Query::Registers { at, .. } | Query::Bytes { at, .. } => at,
            Query::Items { at } => at.saturating_sub(1),
        }
    }
}

/// The index of a node. The error is `NoName`.
fn node_of(names: &Names, word: &[u8]) -> Result<u8, QueryRule>
    requires { IsTrue (are_valid names.now) }
    ensures index { result ≡ node_of names.now word.now }
    ensures within { IfOk result (λ node. node < length names.now.nodes) }
{
    names.node(word).ok_or(QueryRule::NoName)
}

/// A number from low to high. The error is `NoNumber`.
fn number_in(low: u32, high: u32, word: &[u8]) -> Result<u32, QueryRule>
    ensures number { result ≡ number_in low high word.now }
    ensures within { IfOk result (λ n. n ≤ high) }
    ensures above { IfOk result (λ n. low ≤ n) }
{
    match number(word, u64::from(high)) {
        Some(n) if u64::from(low) <= n => Ok(n as u32),
        _ => Err(QueryRule::NoNumber),
    }
}

fn registers_query(names: &Names, last: u32, words: &[u8]) -> Result<Query, QueryRule>
    requires { IsTrue (are_valid names.now) }
    ensures query { result ≡ registers_query names.now last (words_of words.now) }
    ensures asked { IfOk result (IsAsked names.now last) }
{
    let (name, at) = two_words(words).ok_or(QueryRule::WrongCount)?;
    let node = node_of(names, name)?;
    let at = number_in(0, last, at)?;
    Ok(Query::Registers { node, at })
}

fn bytes_query(names: &Names, last: u32, words: &[u8]) -> Result<Query, QueryRule>
    requires { IsTrue (are_valid names.now) }
    ensures query { result ≡ bytes_query names.now last (words_of words.now) }
    ensures asked { IfOk result (IsAsked names.now last) }
{
    let (name, from, len, at) = four_words(words).ok_or(QueryRule::WrongCount)?;
    let node = node_of(names, name)?;
    let from = number_in(0, 65_535, from)?;
    let len = number_in(1, 64, len)?;
    let at = number_in(0, last, at)?;
    if from + len > 65_536 {
        return Err(QueryRule::NoNumber);
    }
    Ok(Query::Bytes {
        node,
        from: from as u16,
        len: len as u16,
        at,
    })
}

fn items_query(last: u32, words: &[u8]) -> Result<Query, QueryRule>
    ensures query { result ≡ items_query last (words_of words.now) }
    ensures asked { (names : NameLists) → IfOk result (IsAsked names last) }
{
    let word = one_word(words).ok_or(QueryRule::WrongCount)?;
    let at = number_in(1, last, word)?;
    Ok(Query::Items { at })
}

/// The query of the kind of its first word.
fn query_of_kind(names: &Names, last: u32, first: &[u8], words: &[u8]) -> Result<Query, QueryRule>
    requires { IsTrue (are_valid names.now) }
    ensures query { result ≡ query_of_kind names.now last first.now (words_of words.now) }
    ensures asked { IfOk result (IsAsked names.now last) }
{
    if first == b"regs".as_slice() {
        return registers_query(names, last, words);
    }
    if first == b"bytes".as_slice() {
        return bytes_query(names, last, words);
    }
    if first == b"items".as_slice() {
        return items_query(last, words);
    }
    Err(QueryRule::NoKind)
}

/// The query of the line with this number, counted from 1, about a schedule with so many lines; or
/// the first rule that it breaks.
#[tactic(auto, unfolding(crate::specs::Input::judged_query))]
pub(crate) fn judge_query(
    names: &Names,
    last: u32,
    number: u32,
    text: &[u8],
) -> Result<Query, QueryRule>
    requires { IsTrue (are_valid names.now) }
    ensures query { result ≡ judged_query names.now last number text.now }
    ensures asked { IfOk result (IsAsked names.now last) }
    ensures few { OnOk result (number ≤ MOST_LINES) }
{
    if number > MOST_LINES {
        return Err(QueryRule::TooMany);
    }
    let Some((first, words)) = split_word(text) else {
        return Ok(Query::Blank);
    };
    if is_comment(first) {
        return Ok(Query::Blank);
    }
    query_of_kind(names, last, first, words)
}
