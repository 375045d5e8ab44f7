//! Replies to queries.
ghost use Rattle.std.specs.Prelude.{◌≡◌, All, IfOk, MatchOption, None, Some, false, slice_get, string_bytes, true};
ghost use Rattle.std.specs.Option.{option_map};
ghost use Rattle.hd_terms.specs.declared.errors.Refusal.TheVariants as refusals;
ghost use Rattle.hd_terms.specs.Edges.{index_of};
ghost use Rattle.hd_lines.specs.Replies.{AnswersStrength, refused, refusal_name};
ghost use Rattle.hd_state.specs.Situation.{Situation};
ghost use Rattle.hd_analyst.specs.Replying.{IsAnswerIn, IsQueryReply, IsWritten};

use crate::fixed_buffer::FixedBuffer;
use crate::found_lines::find_text;
use crate::reply::{LONGEST_REPLY, put_head, put_line, put_refused, refusal_text};
use crate::texts::{
    Showing, chain_text, classes_text, events_text, fell_text, freed_text, into_text, members_text,
    moved_text, object_text, roots_text, slots_text, top_text,
};
use hd_lines::Query;
use hd_state::{Mark, State};
use hd_terms::{NoMemory, Refusal};
use hd_words::strength_text;
use std::alloc::Global;

/// A query, as a line asks it.
#[derive(Clone, Copy)]
pub struct Question<'a> {
    /// The query.
    pub query: Query,
    /// The last word of the line, which `find` looks for.
    pub text: &'a [u8],
}

/// The reply to a query over a state, with marks of states over the same graph.
///
/// # Errors
///
/// Memory ran out.
pub fn reply_text(
    alloc: Global,
    state: &State,
    marks: &[Mark],
    question: Question<'_>,
    showing: Showing,
) -> Result<Vec<u8>, NoMemory>
    requires { All (λ (mark : Situation). mark.dump ≡ state.now.dump) marks.now }
    ensures { IfOk result (λ text. IsQueryReply state.now marks.now showing question.entry.text.now question.entry.query text.items) }
{
    let mut buffer = FixedBuffer::new(alloc)?;
    match answer_query(alloc, state, marks, question, showing, &mut buffer)? {
        Some(text) => Ok(text.into_bytes()),
        None => {
            let text = buffer.as_slice().to_vec(alloc)?;
            Ok(text)
        }
    }
}

/// Answers a query: a short reply replaces the bytes of `out`, a long one is given back. `strength` takes no memory.
///
/// # Errors
///
/// Memory ran out.
pub(crate) fn answer_query(
    alloc: Global,
    state: &State,
    marks: &[Mark],
    question: Question<'_>,
    showing: Showing,
    out: &mut FixedBuffer<LONGEST_REPLY>,
) -> Result<Option<String>, NoMemory>
    requires { All (λ (mark : Situation). mark.dump ≡ state.now.dump) marks.now }
    ensures { IfOk result (λ text. IsAnswerIn state.now marks.now showing question.entry.text.now question.entry.query (option_map string_bytes text) out.new) }
{
    let text = match question.query {
        Query::Strength(id) => {
            put_strength(out, state, id, showing.most);
            return Ok(None);
        }
        Query::Chain(id) => match find_object(state, id, out) {
            Some(object) => chain_text(alloc, state, object, showing)?,
            None => return Ok(None),
        },
        Query::Slots(id) => match find_object(state, id, out) {
            Some(object) => slots_text(alloc, state, object, showing)?,
            None => return Ok(None),
        },
        Query::Into(id) => match find_object(state, id, out) {
            Some(object) => into_text(alloc, state, object, showing)?,
            None => return Ok(None),
        },
        Query::Object(id) => match find_object(state, id, out) {
            Some(object) => object_text(alloc, state, object, showing)?,
            None => return Ok(None),
        },
        Query::Roots => roots_text(alloc, state, showing)?,
        Query::Classes(strength) => classes_text(alloc, state, strength, showing)?,
        Query::Members(group, strength) => members_text(alloc, state, group, strength, showing)?,
        Query::Fell(number) => match find_mark(marks, number, out) {
            Some(mark) => fell_text(alloc, state, mark, showing)?,
            None => return Ok(None),
        },
        Query::Events => events_text(alloc, state, showing)?,
        Query::Top(strength) => top_text(alloc, state, strength, showing)?,
        Query::Freed(number) => match find_mark(marks, number, out) {
            Some(mark) => freed_text(alloc, state, mark, showing)?,
            None => return Ok(None),
        },
        Query::Moved(number) => match find_mark(marks, number, out) {
            Some(mark) => moved_text(alloc, state, mark, showing)?,
            None => return Ok(None),
        },
        Query::Find => find_text(alloc, state, question.text, showing)?,
    };
    Ok(Some(text))
}

/// The number of the object of an ID; without one `no NoSuchObject` replaces the bytes of `out`.
fn find_object(state: &State, id: u64, out: &mut FixedBuffer<LONGEST_REPLY>) -> Option<u32>
    ensures { MatchOption result
        ((index_of state.now.dump.objects id ≡ None) × (out.new ≡ refused (refusal_name refusals.NoSuchObject)))
        (λ object. index_of state.now.dump.objects id ≡ Some object) }
{
    let object = state.graph().index_of(id);
    if object.is_none() {
        put_refused(out, refusal_text(Refusal::NoSuchObject));
    }
    object
}

/// The mark of a number; without one `no NoSuchMark` replaces the bytes of `out`.
fn find_mark<'a>(
    marks: &'a [Mark],
    number: u32,
    out: &mut FixedBuffer<LONGEST_REPLY>,
) -> Option<&'a Mark>
    ensures { MatchOption result
        ((slice_get marks.now number ≡ None) × (out.new ≡ refused (refusal_name refusals.NoSuchMark)))
        (λ mark. slice_get marks.now number ≡ Some mark.now) }
{
    let mark = marks.get(number as usize);
    if mark.is_none() {
        put_refused(out, refusal_text(Refusal::NoSuchMark));
    }
    mark
}

/// Puts the reply to `strength`.
fn put_strength(out: &mut FixedBuffer<LONGEST_REPLY>, state: &State, id: u64, most: Option<u32>)
    ensures { IsWritten (AnswersStrength state.now.dump state.now.log (index_of state.now.dump.objects id)) most out.new }
{
    let Some(object) = find_object(state, id, out) else {
        return;
    };
    let strength = state.strength(object);
    if is_none_wanted(most) {
        put_head(out, 0);
    } else {
        put_line(out, strength_text(strength).as_bytes());
    }
}

/// Whether no line of an answer is wanted.
fn is_none_wanted(most: Option<u32>) -> bool
    ensures yes { result ≡ true → most ≡ Some 0 }
    ensures no { result ≡ false → most ≡ Some 0 → ⊥ }
{
    match most {
        Some(count) => count == 0,
        None => false,
    }
}
