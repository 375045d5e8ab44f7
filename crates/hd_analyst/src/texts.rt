//! Answers of many lines.
ghost use Rattle.std.specs.Prelude.{◌≡◌, ◌<◌, Some, All, length, map, string_bytes, IfOk};
ghost use Rattle.std.specs.List.{flat_map};
ghost use Rattle.hd_terms.specs.Dump.{object_at};
ghost use Rattle.hd_terms.specs.IntoRows.{into_rows};
ghost use Rattle.hd_terms.specs.Listed.{first_items, AreFallen, AreMembers};
ghost use Rattle.hd_terms.specs.RootRows.{root_rows};
ghost use Rattle.hd_terms.specs.SlotRows.{slot_rows};
ghost use Rattle.hd_lines.specs.Replies.{AnswersChain, AnswersClasses, AnswersIds, AnswersMoved, AnswersObject, AnswersTop, IsFreed, total_line, answered, into_line, log_lines, root_line, slot_line, with_newline};
ghost use Rattle.hd_queries.specs.ChainFound.{IsWithin};
ghost use Rattle.hd_analyst.specs.ChainLines.{lines_of};
ghost use Rattle.hd_analyst.specs.EventRows.{event_rows};
ghost use Rattle.hd_analyst.specs.Replying.{IsWritten};

use crate::class_lines::ClassLines;
use crate::link_lines::{LinkLines, start_text};
use crate::object_lines::{ObjectLines, ObjectRow};
use crate::places::Places;
use crate::row_lines::{IdLines, IntoLines, RootLines, SlotLines};
use hd_graph::Graph;
use hd_log::Front;
use hd_queries::Chain;
use hd_state::{Mark, State};
use hd_terms::{Group, NoMemory, Strength};
use hd_words::{
    EventLines, EventRow, MovedLines, lines_text, lines_text_from, put_decimal, put_lines,
};
use std::alloc::{AllocError, Global};

/// How an answer is shown.
#[derive(Clone, Copy)]
pub struct Showing {
    /// Whether lines show names.
    pub names: bool,
    /// How many lines are written at most; without a number all.
    pub most: Option<u32>,
}

/// The answer to `slots` for the object of a number: `ok N`, and a line for each of its slots.
pub(crate) fn slots_text(
    alloc: Global,
    state: &State,
    object: u32,
    showing: Showing,
) -> Result<String, NoMemory>
    requires { object < length state.now.dump.objects }
    ensures { IfOk result (λ text. string_bytes text ≡ answered (first_items showing.most (map (slot_line state.now.dump showing.names object) (slot_rows state.now.dump state.now.log (object_at state.now.dump object))))) }
{
    let rows = state.slots(alloc, object)?;
    let mut format = SlotLines {
        places: Places::new(state.graph()),
        names: showing.names,
        object,
    };
    let text = lines_text(alloc, &mut format, rows.as_slice(), showing.most)?;
    Ok(text)
}

/// The answer to `into` for the object of a number: `ok N`, and a line for each reference to it.
pub(crate) fn into_text(
    alloc: Global,
    state: &State,
    object: u32,
    showing: Showing,
) -> Result<String, NoMemory>
    requires { object < length state.now.dump.objects }
    ensures { IfOk result (λ text. string_bytes text ≡ answered (first_items showing.most (map (into_line state.now.dump showing.names) (into_rows state.now.dump state.now.log object)))) }
{
    let rows = state.into(alloc, object)?;
    let mut format = IntoLines {
        places: Places::new(state.graph()),
        names: showing.names,
    };
    let text = lines_text(alloc, &mut format, rows.as_slice(), showing.most)?;
    Ok(text)
}

/// The answer to `roots`: `ok N`, and a line for each root of the dump and each that a live edit adds.
pub(crate) fn roots_text(alloc: Global, state: &State, showing: Showing) -> Result<String, NoMemory>
    ensures { IfOk result (λ text. string_bytes text ≡ answered (first_items showing.most (map (root_line state.now.dump showing.names) (root_rows state.now.dump state.now.log)))) }
{
    let rows = state.roots(alloc)?;
    let mut format = RootLines {
        graph: state.graph(),
        names: showing.names,
    };
    let text = lines_text(alloc, &mut format, rows.as_slice(), showing.most)?;
    Ok(text)
}

/// The answer to `chain` for the object of a number: `ok 0` where it is unreachable, else `ok N`, a line for the root, and a
/// line for each link.
pub(crate) fn chain_text(
    alloc: Global,
    state: &State,
    object: u32,
    showing: Showing,
) -> Result<String, NoMemory>
    requires { object < length state.now.dump.objects }
    ensures { IfOk result (λ text. IsWritten (AnswersChain state.now.dump showing.names state.now.log (Some object)) showing.most (string_bytes text)) }
{
    match state.chain(alloc, object)? {
        Some(chain) => {
            let text = found_text(alloc, state.graph(), &chain, showing)?;
            Ok(text)
        }
        None => {
            let mut format = LinkLines {
                places: Places::new(state.graph()),
                names: showing.names,
            };
            let text = lines_text(alloc, &mut format, &[], showing.most)?;
            Ok(text)
        }
    }
}

/// `ok N`, the line of a chain's root, and a line for each link.
fn found_text(
    alloc: Global,
    graph: &Graph,
    chain: &Chain,
    showing: Showing,
) -> Result<String, AllocError>
    requires start { chain.now.start < length graph.now.objects }
    requires within { All (IsWithin (length graph.now.objects)) chain.now.links.items }
    ensures { IfOk result (λ text. string_bytes text ≡ answered (first_items showing.most (lines_of graph.now showing.names chain.now))) }
{
    let start = start_text(alloc, graph, showing.names, chain)?;
    let mut format = LinkLines {
        places: Places::new(graph),
        names: showing.names,
    };
    lines_text_from(
        alloc,
        start.as_str(),
        &mut format,
        chain.links.as_slice(),
        showing.most,
    )
}

/// The answer to `classes`: `ok N`, and a line for each group that has objects of the strength.
pub(crate) fn classes_text(
    alloc: Global,
    state: &State,
    strength: Strength,
    showing: Showing,
) -> Result<String, NoMemory>
    ensures { IfOk result (λ text. IsWritten (AnswersClasses state.now.dump state.now.log strength) showing.most (string_bytes text)) }
{
    let rows = state.classes(alloc, strength)?;
    let mut format = ClassLines {
        graph: state.graph(),
    };
    let text = lines_text(alloc, &mut format, rows.as_slice(), showing.most)?;
    Ok(text)
}

/// The answer to `members`: `ok N`, and the ID of each object of the group that has the strength.
pub(crate) fn members_text(
    alloc: Global,
    state: &State,
    group: Group,
    strength: Strength,
    showing: Showing,
) -> Result<String, NoMemory>
    ensures { IfOk result (λ text. IsWritten (AnswersIds state.now.dump showing.names (AreMembers state.now.dump state.now.log group strength)) showing.most (string_bytes text)) }
{
    let ids = state.members(alloc, group, strength, showing.most)?;
    let mut format = IdLines {
        graph: state.graph(),
        names: showing.names,
    };
    let text = lines_text(alloc, &mut format, ids.as_slice(), showing.most)?;
    Ok(text)
}

/// The answer to `fell`: `ok N`, and the ID of each object that became unreachable since the mark.
pub(crate) fn fell_text(
    alloc: Global,
    state: &State,
    mark: &Mark,
    showing: Showing,
) -> Result<String, NoMemory>
    requires { mark.now.dump ≡ state.now.dump }
    ensures { IfOk result (λ text. IsWritten (AnswersIds state.now.dump showing.names (AreFallen state.now.dump mark.now.log state.now.log)) showing.most (string_bytes text)) }
{
    let ids = state.fell(alloc, mark, showing.most)?;
    let mut format = IdLines {
        graph: state.graph(),
        names: showing.names,
    };
    let text = lines_text(alloc, &mut format, ids.as_slice(), showing.most)?;
    Ok(text)
}

/// The answer to `object` for the object of a number: `ok 1`, and its group, recorded bytes, strength and name.
pub(crate) fn object_text(
    alloc: Global,
    state: &State,
    object: u32,
    showing: Showing,
) -> Result<String, NoMemory>
    requires { object < length state.now.dump.objects }
    ensures { IfOk result (λ text. IsWritten (AnswersObject state.now.dump state.now.log (Some object)) showing.most (string_bytes text)) }
{
    let row = ObjectRow {
        object,
        strength: state.strength(object),
    };
    let mut format = ObjectLines {
        graph: state.graph(),
    };
    let text = lines_text(alloc, &mut format, &[row], showing.most)?;
    Ok(text)
}

/// The answer to `top`: the lines of `classes`, those with the most bytes first.
pub(crate) fn top_text(
    alloc: Global,
    state: &State,
    strength: Strength,
    showing: Showing,
) -> Result<String, NoMemory>
    ensures { IfOk result (λ text. IsWritten (AnswersTop state.now.dump state.now.log strength) showing.most (string_bytes text)) }
{
    let rows = state.top(alloc, strength)?;
    let mut format = ClassLines {
        graph: state.graph(),
    };
    let text = lines_text(alloc, &mut format, rows.as_slice(), showing.most)?;
    Ok(text)
}

/// `total COUNT BYTES`.
fn total_text(alloc: Global, count: u64, bytes: u64) -> Result<String, AllocError>
    ensures { IfOk result (λ text. string_bytes text ≡ total_line count bytes) }
{
    let mut text = String::new(alloc);
    text.push_str("total ")?;
    put_decimal(&mut text, count)?;
    text.push(' ')?;
    put_decimal(&mut text, bytes)?;
    Ok(text)
}

/// The answer to `freed`: how many objects became unreachable since the mark, and their bytes; and a line for each group of
/// these.
pub(crate) fn freed_text(
    alloc: Global,
    state: &State,
    mark: &Mark,
    showing: Showing,
) -> Result<String, NoMemory>
    requires { mark.now.dump ≡ state.now.dump }
    ensures { IfOk result (λ text. IsWritten (IsFreed state.now.dump mark.now.log state.now.log) showing.most (string_bytes text)) }
{
    let freed = state.freed(alloc, mark)?;
    let start = total_text(alloc, freed.total.count, freed.total.bytes)?;
    let mut format = ClassLines {
        graph: state.graph(),
    };
    let text = lines_text_from(
        alloc,
        start.as_str(),
        &mut format,
        freed.rows.as_slice(),
        showing.most,
    )?;
    Ok(text)
}

/// The answer to `moved`: a line for each pair of strengths between which objects moved since the mark.
pub(crate) fn moved_text(
    alloc: Global,
    state: &State,
    mark: &Mark,
    showing: Showing,
) -> Result<String, NoMemory>
    requires { mark.now.dump ≡ state.now.dump }
    ensures { IfOk result (λ text. IsWritten (AnswersMoved state.now.dump state.now.log (Some mark.now.log)) showing.most (string_bytes text)) }
{
    let rows = state.moved(alloc, mark)?;
    let text = lines_text(alloc, &mut MovedLines, rows.as_slice(), showing.most)?;
    Ok(text)
}

/// The events of a log, each with its number, and whether it is live.
fn event_rows(alloc: Global, front: &Front) -> Result<Vec<EventRow>, NoMemory>
    ensures { IfOk result (λ rows. rows.items ≡ event_rows front.now) }
{
    let flags = front.flags();
    let mut rows = Vec::with_capacity(alloc, front.len() as usize)?;
    for number in 0..front.len() {
        rows.push(EventRow {
            number,
            event: front.event(number),
            live: flags[number as usize],
        })?;
    }
    Ok(rows)
}

/// The answer to `events`: `ok N`, and a line for each event of the log.
pub(crate) fn events_text(
    alloc: Global,
    state: &State,
    showing: Showing,
) -> Result<String, NoMemory>
    ensures { IfOk result (λ text. string_bytes text ≡ answered (first_items showing.most (log_lines state.now.log))) }
{
    let rows = event_rows(alloc, state.front())?;
    let text = lines_text(alloc, &mut EventLines, rows.as_slice(), showing.most)?;
    Ok(text)
}

/// A line for each event of a log, each with its newline: the lines of the reply to `events`, without the `ok N`.
///
/// # Errors
///
/// Memory ran out.
pub fn log_text(alloc: Global, front: &Front) -> Result<String, NoMemory>
    ensures { IfOk result (λ text. string_bytes text ≡ flat_map with_newline (log_lines front.now)) }
{
    let rows = event_rows(alloc, front)?;
    let mut text = String::new(alloc);
    put_lines(&mut text, &mut EventLines, rows.as_slice())?;
    Ok(text)
}
