//! The answers to queries. Those that are held together are made in the order of their lines, by one
//! world that goes forward, and kept until they are asked for.

ghost use Rattle.std.specs.Prelude.{◌≡◌, ℕ, ◌≤◌, IfOk, IfSome, IsTrue, List, OnOk, [], length, take};
ghost use Rattle.std.specs.List.{All};
ghost use Rattle.sx_trace.specs.Names.{NameLists};
ghost use Rattle.sx_trace.specs.ValidNames.{are_valid};
ghost use Rattle.sx_sched.specs.Lines.{Line};
ghost use Rattle.sx_deploy.specs.SeenDeployment.{deployed_as};
ghost use Rattle.spec_run.specs.Accepted.{setting};
ghost use Rattle.spec_run.specs.Setting.{Setting};
ghost use Rattle.sx_snap.specs.Checkpoints.{IsTimeline, StandsAfter};
ghost use Rattle.command_snap.specs.Asked.{IsAsked, lines_before};
ghost use Rattle.command_snap.specs.Answers.{answer_text};
ghost use Rattle.command_snap.specs.Foreseen.{AreAnswers};

use crate::answers::{Range, bytes_line, items_text, registers_line};
use crate::queries::{MOST_LINES, Query, judge_query};
use std::alloc::{AllocError, Global};
use sx_bus::Copied;
use sx_deploy::deployment::Deployment;
use sx_io::Lines;
use sx_snap::Timeline;
use sx_tag::Tag;
use sx_trace::names::Names;
use sx_world::world::World;

/// The answer to a query, in the world after the lines that come before what it asks.
#[tactic(auto, unfolding(crate::specs::Answers::answer_text))]
fn answer_in<B: Copied, T: Tag>(
    alloc: Global,
    deployment: &Deployment,
    timeline: &Timeline<B, T>,
    world: &World<B, T>,
    query: Query,
) -> Result<Vec<u8>, AllocError>
    requires timeline { IsTimeline T.mac (deployed_as deployment.now) timeline.now }
    requires asked { IsAsked (deployed_as deployment.now).names (length timeline.now.lines) query }
    requires stands { StandsAfter (setting T.mac (deployed_as deployment.now) timeline.now.sites)
        (take (lines_before query) timeline.now.lines) world.now }
    ensures { IfOk result (λ text. text.items ≡ answer_text (deployed_as deployment.now).names
        (setting T.mac (deployed_as deployment.now) timeline.now.sites) timeline.now.lines query) }
{
    let names = &deployment.names;
    match query {
        Query::Blank => Ok(Vec::new(alloc)),
        Query::Registers { node, at } => registers_line(alloc, names, node, at, world.node(node)),
        Query::Bytes {
            node,
            from,
            len,
            at,
        } => {
            let range = Range {
                number: node,
                from,
                len,
            };
            bytes_line(alloc, names, range, at, world.node(node))
        }
        Query::Items { at } => {
            let items = timeline.items_in(deployment, world.copy(alloc)?, at)?;
            items_text(alloc, names, at, &items)
        }
    }
}

/// The answer to a query, by a world of its own.
pub(crate) fn answer<B: Copied, T: Tag>(
    alloc: Global,
    deployment: &Deployment,
    timeline: &Timeline<B, T>,
    query: Query,
) -> Result<Vec<u8>, AllocError>
    requires timeline { IsTimeline T.mac (deployed_as deployment.now) timeline.now }
    requires asked { IsAsked (deployed_as deployment.now).names (length timeline.now.lines) query }
    ensures { IfOk result (λ text. text.items ≡ answer_text (deployed_as deployment.now).names
        (setting T.mac (deployed_as deployment.now) timeline.now.sites) timeline.now.lines query) }
{
    let world = timeline.seek(deployment, query.lines_before())?;
    answer_in(alloc, deployment, timeline, &world, query)
}

/// A query and the text of its answer.
#[derive(Drop)]
pub(crate) struct Answered {
    pub(crate) query: Query,
    pub(crate) text: Vec<u8>,
}

/// No more answers are made before they are asked for once these have more bytes.
const MOST_KEPT: usize = 65_536;

/// How many lines come before what the first of these asks, if there is one.
fn first_before(queries: &[Query]) -> u32
    ensures { (names : NameLists) (last : ℕ) → All (IsAsked names last) queries.now
        → result ≤ last }
{
    match queries.first() {
        Some(query) => query.lines_before(),
        None => 0,
    }
}

/// Answers to queries, the first of them if all would take too many bytes.
fn answer_together<B: Copied, T: Tag>(
    alloc: Global,
    deployment: &Deployment,
    timeline: &Timeline<B, T>,
    queries: &[Query],
) -> Result<Vec<Answered>, AllocError>
    requires timeline { IsTimeline T.mac (deployed_as deployment.now) timeline.now }
    requires asked { All (IsAsked (deployed_as deployment.now).names (length timeline.now.lines))
        queries.now }
    ensures { IfOk result (λ answers. AreAnswers (deployed_as deployment.now).names
        (setting T.mac (deployed_as deployment.now) timeline.now.sites) timeline.now.lines
        answers.items) }
{
    let mut answers = Vec::new(alloc);
    let mut bytes = 0;
    let mut reached = first_before(queries);
    let mut world = timeline.seek(deployment, reached)?;
    for query in queries {
        if bytes > MOST_KEPT {
            return Ok(answers);
        }
        let at = query.lines_before();
        timeline.advance(deployment, &mut world, reached, at)?;
        reached = at;
        let text = answer_in(alloc, deployment, timeline, &world, *query)?;
        bytes += text.len();
        answers.push(Answered {
            query: *query,
            text,
        })?;
    }
    Ok(answers)
}

/// The query of this number and those that are held after it, up to the first that breaks a rule,
/// in the order of their lines.
fn held_queries(
    alloc: Global,
    names: &Names,
    last: u32,
    lines: &Lines,
    number: u32,
    query: Query,
) -> Result<Vec<Query>, AllocError>
    requires names { IsTrue (are_valid names.now) }
    requires asked { IsAsked names.now last query }
    ensures { IfOk result (λ queries. All (IsAsked names.now last) queries.items) }
{
    let mut ahead = lines.copy();
    let mut into = [0; 4096];
    let mut queries = Vec::new(alloc);
    queries.push(query)?;
    for before in number..MOST_LINES {
        let Some(n) = ahead.next_held(&mut into) else {
            break;
        };
        let Ok(next) = judge_query(names, last, before + 1, &into[..n]) else {
            break;
        };
        queries.push(next)?;
    }
    queries.sort_unstable_by_key(|query| query.lines_before());
    Ok(queries)
}

/// Answers to queries that were held together.
#[derive(Drop)]
pub(crate) struct Foreseen {
    alloc: Global,
    /// How many of the queries are still to be asked.
    left: usize,
    pub(crate) answers: Vec<Answered>,
}

impl Foreseen {
    pub(crate) fn new(alloc: Global) -> Foreseen
        ensures { result.answers.items ≡ [] }
    {
        Foreseen {
            alloc,
            left: 0,
            answers: Vec::new(alloc),
        }
    }

    /// Prepares for the next query, which has this number: unless it was held with those before it,
    /// answers are made to it and to those that are held with it.
    pub(crate) fn prepare<B: Copied, T: Tag>(
        &mut self,
        deployment: &Deployment,
        timeline: &Timeline<B, T>,
        lines: &Lines,
        number: u32,
        query: Query,
    ) -> Result<(), AllocError>
        requires names { IsTrue (are_valid (deployed_as deployment.now).names) }
        requires timeline { IsTimeline T.mac (deployed_as deployment.now) timeline.now }
        requires asked { IsAsked (deployed_as deployment.now).names (length timeline.now.lines)
            query }
        requires answers { AreAnswers (deployed_as deployment.now).names
            (setting T.mac (deployed_as deployment.now) timeline.now.sites) timeline.now.lines
            self.old.answers.items }
        ensures { OnOk result (AreAnswers (deployed_as deployment.now).names
            (setting T.mac (deployed_as deployment.now) timeline.now.sites) timeline.now.lines
            self.new.answers.items) }
    {
        if self.left > 0 {
            self.left -= 1;
            return Ok(());
        }
        let names = &deployment.names;
        let last = timeline.count() as u32;
        let queries = held_queries(self.alloc, names, last, lines, number, query)?;
        self.answers = answer_together(self.alloc, deployment, timeline, &queries)?;
        self.left = queries.len().saturating_sub(1);
        Ok(())
    }

    /// The answer to a query, if it was made.
    pub(crate) fn text(&self, query: Query) -> Option<&[u8]>
        ensures { (names : NameLists) (set : Setting) (lines : List Line)
            → AreAnswers names set lines self.now.answers.items
            → IfSome result (λ text. text.now ≡ answer_text names set lines query) }
    {
        for answer in &self.answers {
            if answer.query == query {
                return Some(&answer.text);
            }
        }
        None
    }
}
