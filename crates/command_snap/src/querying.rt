//! The queries after the mark. Each is judged and its answer written before the next is read.

ghost use Rattle.std.specs.Prelude.{◌≡◌, ◌≢◌, ◌+◌, ◌<◌, ◌≤◌, ◌∷◌, IsOk, IsTrue, List};
ghost use Rattle.std.specs.Prelude.{length};
ghost use Rattle.sx_io.specs.Reading.{Answer, Line};
ghost use Rattle.command_promise.specs.declared.status.Status.TheVariants.{OutOfMemory};
ghost use Rattle.command_promise.specs.Told.{CommandEnds, Output, behind, command_at};
ghost use Rattle.command_promise.specs.Parts.{DoesPart, Rest};
ghost use Rattle.command_promise.specs.Head.{head_lines};
ghost use Rattle.sx_trace.specs.ValidNames.{are_valid};
ghost use Rattle.sx_deploy.specs.SeenDeployment.{deployed_as};
ghost use Rattle.spec_run.specs.Accepted.{setting};
ghost use Rattle.sx_snap.specs.Checkpoints.{IsTimeline};
ghost use Rattle.command_snap.specs.Input.{judged_query};
ghost use Rattle.command_snap.specs.Asked.{IsAsked};
ghost use Rattle.command_snap.specs.Foreseen.{AreAnswers};
ghost use Rattle.command_snap.specs.Kept.{QueriesWant};
ghost use Rattle.command_snap.specs.Answers.{answer_text};
ghost use Rattle.command_snap.specs.Output.{answers_from, query_fault};

use crate::answering::{Foreseen, answer};
use crate::queries::{MOST_LINES, Query, QueryRule, judge_query};
use command_promise::{Status, Turned, finish, put_text};
use command_text::fault::finish_fault;
use std::alloc::Global;
use sx_bus::Copied;
use sx_deploy::deployment::Deployment;
use sx_io::{LineRead, Lines, Sink, Source};
use sx_snap::Timeline;
use sx_tag::Tag;

/// Writes which rule the query of this number breaks. It takes no memory.
fn break_query<K: Sink>(output: &mut K, rule: QueryRule, number: u32) -> Status
    ensures ends { CommandEnds K.tells (K.at output.old) (K.at output.new) result
        (query_fault rule number) }
    ensures memory { result ≢ OutOfMemory }
{
    finish_fault(
        output,
        b"fault query Y",
        rule.number(),
        number,
        Status::NoQuery,
    )
}

/// Writes the answer to a query.
fn tell<K: Sink, B: Copied, T: Tag>(
    alloc: Global,
    output: &mut K,
    deployment: &Deployment,
    timeline: &Timeline<B, T>,
    foreseen: &Foreseen,
    query: Query,
) -> Turned
    requires timeline { IsTimeline T.mac (deployed_as deployment.now) timeline.now }
    requires asked { IsAsked (deployed_as deployment.now).names (length timeline.now.lines) query }
    requires answers { AreAnswers (deployed_as deployment.now).names
        (setting T.mac (deployed_as deployment.now) timeline.now.sites) timeline.now.lines
        foreseen.now.answers.items }
    ensures { (left : List Answer → Output) → DoesPart K.tells (K.at output.old)
        (K.at output.new) (λ more. behind (answer_text (deployed_as deployment.now).names
        (setting T.mac (deployed_as deployment.now) timeline.now.sites) timeline.now.lines query)
        (left more)) result left }
{
    if let Some(text) = foreseen.text(query) {
        return put_text(output, text);
    }
    match answer(alloc, deployment, timeline, query) {
        Ok(text) => put_text(output, &text),
        Err(_) => Turned::Stop(Status::OutOfMemory),
    }
}

/// Answers the query of this number, or writes which rule it breaks.
fn turn<K: Sink, B: Copied, T: Tag>(
    alloc: Global,
    output: &mut K,
    deployment: &Deployment,
    timeline: &Timeline<B, T>,
    lines: &Lines,
    foreseen: &mut Foreseen,
    said: &[u8],
    number: u32,
) -> Turned
    requires names { IsTrue (are_valid (deployed_as deployment.now).names) }
    requires timeline { IsTimeline T.mac (deployed_as deployment.now) timeline.now }
    requires answers { AreAnswers (deployed_as deployment.now).names
        (setting T.mac (deployed_as deployment.now) timeline.now.sites) timeline.now.lines
        foreseen.old.answers.items }
    ensures does { let ask = answers_from (deployed_as deployment.now).names
        (setting T.mac (deployed_as deployment.now) timeline.now.sites) timeline.now.lines in
        DoesPart K.tells (K.at output.old) (K.at output.new)
        (λ more. ask number (Line said.now ∷ more)) result (ask (number + 1)) }
    ensures answers { result ≡ Turned.On → AreAnswers (deployed_as deployment.now).names
        (setting T.mac (deployed_as deployment.now) timeline.now.sites) timeline.now.lines
        foreseen.new.answers.items }
    ensures few { result ≡ Turned.On → number ≤ MOST_LINES }
    ensures memory { result ≡ Turned.Stop OutOfMemory → IsOk (judged_query
        (deployed_as deployment.now).names (length timeline.now.lines) number said.now) }
{
    match judge_query(&deployment.names, timeline.count() as u32, number, said) {
        Ok(query) => match foreseen.prepare(deployment, timeline, lines, number, query) {
            Ok(()) => tell(alloc, output, deployment, timeline, foreseen, query),
            Err(_) => Turned::Stop(Status::OutOfMemory),
        },
        Err(rule) => Turned::Stop(break_query(output, rule, number)),
    }
}

/// Answers the queries to the end of the input, or to the first that breaks a rule.
pub(crate) fn answer_queries<S: Source, K: Sink, B: Copied, T: Tag>(
    alloc: Global,
    lines: &mut Lines,
    input: &mut S,
    output: &mut K,
    deployment: &Deployment,
    timeline: &Timeline<B, T>,
) -> Status
    requires names { IsTrue (are_valid (deployed_as deployment.now).names) }
    requires timeline { IsTimeline T.mac (deployed_as deployment.now) timeline.now }
    ensures rest { Rest S.tells K.tells head_lines lines.old
        (command_at (S.at input.old) (K.at output.old))
        (command_at (S.at input.new) (K.at output.new)) result
        (answers_from (deployed_as deployment.now).names
        (setting T.mac (deployed_as deployment.now) timeline.now.sites) timeline.now.lines 1) }
    ensures wanted { result ≡ OutOfMemory → QueriesWant (deployed_as deployment.now).names
        (length timeline.now.lines) S.tells (S.at input.old) (S.at input.new)
        lines.old lines.new }
{
    let mut into = [0; 4096];
    let mut number: u32 = 1;
    let mut foreseen = Foreseen::new(alloc);
    'queries: loop {
        match lines.next(input, &mut into) {
            LineRead::End => return finish(output, b"end\n", Status::Done),
            LineRead::TooLong => return break_query(output, QueryRule::TooLong, number),
            LineRead::Failed => return finish(output, b"fault read\n", Status::ReadFailed),
            LineRead::Text(n) => match turn(
                alloc,
                output,
                deployment,
                timeline,
                lines,
                &mut foreseen,
                &into[..n],
                number,
            ) {
                Turned::On => number += 1,
                Turned::Stop(status) => return status,
            },
        }
    }
}
