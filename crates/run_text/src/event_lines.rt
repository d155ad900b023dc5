//! The lines of a section of events.
ghost use Rattle.std.specs.Prelude.{◌≡◌, ◌<◌, ◌+◌, ◌^◌, length};
ghost use Rattle.litmus_reader.specs.Front.{words};
ghost use Rattle.run_text.specs.Events.{event_by_form, event_of, events_by, events_of, execution_event_of, execution_events_of, kind_of, plain_kind, valued_kind};
ghost use Rattle.run_text.specs.Answered.{IsAnswer};
ghost use Rattle.run_text.specs.Lines.{lines_of};

use crate::error::SectionError;
use crate::numbers::{number_up_to, small_number, thread_of};
use crate::section::Section;
use crate::words::{has_words, line_len, next_word};
use run_judge::{RunEvent, RunKind};
use std::alloc::Global;

/// A kind without a value.
fn plain_kind(verb: &[u8]) -> Option<RunKind>
    ensures { result ≡ plain_kind verb.now }
{
    if verb == b"push".as_slice() {
        Some(RunKind::Push)
    } else if verb == b"drain".as_slice() {
        Some(RunKind::Drain)
    } else if verb == b"fence".as_slice() {
        Some(RunKind::Fence)
    } else {
        None
    }
}

/// A kind with a value.
fn valued_kind(verb: &[u8], value: u64) -> Option<RunKind>
    ensures { result ≡ valued_kind verb.now value }
{
    if verb == b"read".as_slice() {
        Some(RunKind::Read { value })
    } else if verb == b"exchange".as_slice() {
        Some(RunKind::Exchange { value })
    } else {
        None
    }
}

/// The kind that a word and the words after it tell.
fn kind_of(verb: &[u8], rest: &[u8]) -> Option<RunKind>
    ensures { result ≡ kind_of verb.now (words rest.now) }
{
    match next_word(rest) {
        None => plain_kind(verb),
        Some(value) => match next_word(value.rest) {
            None => valued_kind(verb, number_up_to(u64::MAX, value.word)?),
            Some(_) => None,
        },
    }
}

/// The form of the lines of a section.
#[derive(Clone, Copy)]
enum Form {
    /// `P<t> <iteration> <place>` and a kind.
    Run,
    /// `P<t> <place>` and a kind.
    Execution,
}

/// The event of a run that a line tells, if it tells one.
fn run_event_in(line: &[u8]) -> Option<RunEvent>
    ensures { result ≡ event_of (words line.now) }
{
    let thread = next_word(line)?;
    let iteration = next_word(thread.rest)?;
    let place = next_word(iteration.rest)?;
    let verb = next_word(place.rest)?;
    Some(RunEvent {
        thread: thread_of(thread.word)?,
        iteration: small_number(iteration.word)?,
        place: small_number(place.word)?,
        kind: kind_of(verb.word, verb.rest)?,
    })
}

/// The event of an execution that a line tells, if it tells one.
fn execution_event_in(line: &[u8]) -> Option<RunEvent>
    ensures { result ≡ execution_event_of (words line.now) }
{
    let thread = next_word(line)?;
    let place = next_word(thread.rest)?;
    let verb = next_word(place.rest)?;
    Some(RunEvent {
        thread: thread_of(thread.word)?,
        iteration: 0,
        place: small_number(place.word)?,
        kind: kind_of(verb.word, verb.rest)?,
    })
}

/// The event that a line of this form tells, if it tells one.
fn event_in(form: Form, line: &[u8]) -> Option<RunEvent>
    ensures { result ≡ event_by_form form (words line.now) }
{
    match form {
        Form::Run => run_event_in(line),
        Form::Execution => execution_event_in(line),
    }
}

/// The events of the lines of a section, which are of this form. Lines without words are skipped, and the first other
/// line that is no event is told.
fn events_by(alloc: Global, form: Form, section: &Section) -> Result<Vec<RunEvent>, SectionError>
    requires { section.now.line + length section.now.lines.now < 2 ^ 32 }
    ensures { IsAnswer (λ events. events.items)
        (events_by (event_by_form form) section.now.line (lines_of section.now.lines.now)) result }
{
    let text = section.lines;
    let mut events = Vec::new(alloc);
    let mut at = 0;
    let mut line = section.line;
    while at < text.len() {
        let len = line_len(&text[at..]);
        let this = &text[at..at + len];
        if let Some(event) = event_in(form, this) {
            events.push(event)?;
        } else if has_words(this) {
            return Err(SectionError::Bad { line });
        }
        at += len;
        line += 1;
    }
    Ok(events)
}

/// The events of the lines of a section of a run. Lines without words are skipped, and the first other line that is no
/// event is told.
pub fn events(alloc: Global, section: &Section) -> Result<Vec<RunEvent>, SectionError>
    requires { section.now.line + length section.now.lines.now < 2 ^ 32 }
    ensures { IsAnswer (λ events. events.items) (events_of section.now.line (lines_of section.now.lines.now)) result }
{
    events_by(alloc, Form::Run, section)
}

/// The events of the lines of a section of an execution, all of iteration 0. Lines without words are skipped, and the
/// first other line that is no event is told.
pub fn execution_events(alloc: Global, section: &Section) -> Result<Vec<RunEvent>, SectionError>
    requires { section.now.line + length section.now.lines.now < 2 ^ 32 }
    ensures { IsAnswer (λ events. events.items)
        (execution_events_of section.now.line (lines_of section.now.lines.now)) result }
{
    events_by(alloc, Form::Execution, section)
}
