//! What can be read from a list of packed events: the live ones, and why it doesn't take one more.
ghost use Rattle.std.specs.Prelude.{◌≡◌, ◌^◌, ◌<◌, ◌↔◌, [], ◌∷◌, ◌++◌, length, slice_get, None, Some, IfOk, IsTrue, MatchBool};
ghost use Rattle.hd_terms.specs.declared.Event.{Event};
ghost use Rattle.hd_terms.specs.Desks.{Continues, Differs};
ghost use Rattle.hd_terms.specs.Log.{IsLawful, begins_with, edit_of, full_fault, last_live, live_flags, log_fault, own, own_live, undo_fault};
ghost use Rattle.hd_terms.specs.EditedDump.{adds_root, is_root, live_edit_at};
ghost use Rattle.hd_terms.specs.Appending.{append_refusal, root_refusal};
ghost use Rattle.hd_log.specs.Flags.{cleared, is_edit, UndoesWithin};

use crate::packed_event::PackedEvent;
use hd_terms::{Edit, Event, LogFault, Refusal, What};
use std::alloc::{AllocError, Global};

/// The most events of a log.
const LARGEST_LOG: usize = 4096;

/// Whether the event is an edit, and no undo.
fn is_edit(what: What) -> bool
    ensures { result ≡ is_edit what }
{
    match what {
        What::Do(_) => true,
        What::Undo(_) => false,
    }
}

/// Why an analyst may not take back event k, if there is a reason. The flags say which events are live.
fn undo_fault(events: &[PackedEvent], live: &[bool], k: u32, who: u8) -> Option<LogFault>
    requires { live.now ≡ live_flags events.now }
    ensures { result ≡ undo_fault events.now k who (slice_get events.now k) }
{
    if k as usize >= events.len() {
        return Some(LogFault::NoSuchEvent);
    }
    let event = events[k as usize].event();
    if !is_edit(event.what) {
        return Some(LogFault::NoSuchEvent);
    }
    if event.who != who {
        return Some(LogFault::NotYours);
    }
    if !live[k as usize] {
        return Some(LogFault::NotLive);
    }
    None
}

/// Why a log takes no more, if there is a reason.
fn full_fault(events: &[PackedEvent]) -> Option<LogFault>
    ensures { result ≡ full_fault events.now }
{
    if events.len() >= LARGEST_LOG {
        Some(LogFault::LogFull)
    } else {
        None
    }
}

/// Why a log doesn't take an event, the first reason, if there is one. The flags say which events are live.
pub fn log_fault(events: &[PackedEvent], live: &[bool], event: Event) -> Option<LogFault>
    requires { live.now ≡ live_flags events.now }
    ensures { result ≡ log_fault events.now event }
{
    if let What::Undo(k) = event.what {
        let fault = undo_fault(events, live, k, event.who);
        if fault.is_some() {
            return fault;
        }
    }
    full_fault(events)
}

/// Whether the event is an edit that adds a root.
fn is_add(what: What) -> bool
    ensures { result ≡ adds_root (edit_of what) }
{
    matches!(what, What::Do(Edit::Add(_)))
}

/// Whether event k is live and adds a root. The flags say which events are live.
fn adds_root(events: &[PackedEvent], live: &[bool], k: u32) -> bool
    requires event { k < length events.now }
    requires flags { live.now ≡ live_flags events.now }
    ensures { result ≡ adds_root (live_edit_at events.now k) }
{
    let event = events[k as usize].event();
    live[k as usize] && is_add(event.what)
}

/// Whether `r` is the number of a root: one of the dump's, of which there are `roots`, or that of a live event that adds one.
/// The flags say which events are live.
pub fn is_root(events: &[PackedEvent], live: &[bool], roots: u64, r: u64) -> bool
    requires few { length events.now < 2 ^ 32 }
    requires flags { live.now ≡ live_flags events.now }
    ensures { result ≡ is_root roots events.now r }
{
    if r < roots {
        return true;
    }
    let k = r - roots;
    k < events.len() as u64 && adds_root(events, live, k as u32)
}

/// Why an edit can't be done to the roots, if there is a reason. The flags say which events are live.
fn root_refusal(events: &[PackedEvent], live: &[bool], roots: u64, edit: Edit) -> Option<Refusal>
    requires few { length events.now < 2 ^ 32 }
    requires flags { live.now ≡ live_flags events.now }
    ensures { result ≡ root_refusal roots events.now edit }
{
    match edit {
        Edit::Drop(r) if !is_root(events, live, roots, r) => Some(Refusal::NoSuchRoot),
        Edit::Cut(_, _) | Edit::Clear(_) | Edit::Drop(_) | Edit::Add(_) => None,
        Edit::ClearAll(_) | Edit::CutAll(_, _) => None,
    }
}

/// Why a log doesn't take an event over a dump of `roots` roots, the first reason, if there is one. The flags say which events
/// are live.
pub fn append_refusal(
    events: &[PackedEvent],
    live: &[bool],
    roots: u64,
    event: Event,
) -> Option<Refusal>
    requires few { length events.now < 2 ^ 32 }
    requires flags { live.now ≡ live_flags events.now }
    ensures { result ≡ append_refusal roots events.now event }
{
    if let What::Do(edit) = event.what {
        let refusal = root_refusal(events, live, roots, edit);
        if refusal.is_some() {
            return refusal;
        }
    }
    match log_fault(events, live, event) {
        Some(fault) => Some(Refusal::Log(fault)),
        None => None,
    }
}

/// Clears the flag of the event that an event takes back, if it takes one back.
fn clear_undone(flags: &mut Vec<bool>, event: Event)
    requires { UndoesWithin event (length flags.old.items) }
    ensures { flags.new.items ≡ cleared event.what flags.old.items }
{
    if let What::Undo(k) = event.what {
        flags[k as usize] = false;
    }
}

/// Of each event of a log with one more, whether it is live, by the flags of the events before.
pub fn flags_with(
    alloc: Global,
    events: &[PackedEvent],
    live: &[bool],
    event: Event,
) -> Result<Vec<bool>, AllocError>
    requires lawful { IsLawful events.now }
    requires flags { live.now ≡ live_flags events.now }
    requires takes { log_fault events.now event ≡ None }
    ensures { IfOk result (λ v. v.items ≡ live_flags (events.now ++ event ∷ [])) }
{
    let mut flags = Vec::with_capacity(alloc, events.len() + 1)?;
    flags.extend_from_slice(live)?;
    clear_undone(&mut flags, event);
    flags.push(is_edit(event.what))?;
    Ok(flags)
}

/// The number of event k, where it is a live one of an analyst. The flags say which events are live.
fn own_live(events: &[PackedEvent], live: &[bool], k: u32, who: u8) -> Option<u32>
    requires event { k < length events.now }
    requires flags { live.now ≡ live_flags events.now }
    ensures { (e : Event) → slice_get events.now k ≡ Some e → result ≡ own_live events.now who (k, e) }
{
    let owner = events[k as usize].who();
    if live[k as usize] && owner == who {
        Some(k)
    } else {
        None
    }
}

/// The number of an analyst's last live event, if there is one. The flags say which events are live.
pub fn last_live(events: &[PackedEvent], live: &[bool], who: u8) -> Option<u32>
    requires few { length events.now < 2 ^ 32 }
    requires flags { live.now ≡ live_flags events.now }
    ensures { result ≡ last_live events.now who }
{
    let mut last = None;
    for k in 0..events.len() as u32 {
        if let Some(own) = own_live(events, live, k, who) {
            last = Some(own);
        }
    }
    last
}

/// Whether two events are one.
fn is_same(event: PackedEvent, other: PackedEvent) -> bool
    ensures { IsTrue result ↔ (event ≡ other) }
{
    event == other
}

/// Whether a list of events begins with another. It compares all of them, even where one differs, so no comparison waits for
/// the one before.
pub fn begins_with(events: &[PackedEvent], front: &[PackedEvent]) -> bool
    ensures { IsTrue result ↔ begins_with events.now front.now }
{
    if front.len() > events.len() {
        return false;
    }
    let mut same = true;
    for (i, event) in front.iter().enumerate() {
        same &= is_same(events[i], *event);
    }
    same
}

/// Whether no event is an analyst's.
fn are_others(events: &[PackedEvent], who: u8) -> bool
    ensures { IsTrue result ↔ (own who events.now ≡ []) }
{
    for (i, event) in events.iter().enumerate() {
        if event.who() == who {
            return false;
        }
    }
    true
}

/// Whether a list of events begins with what an analyst has seen, and has no further event of the analyst.
pub fn continues(events: &[PackedEvent], seen: &[PackedEvent], who: u8) -> bool
    ensures { MatchBool result (Continues who seen.now events.now) (Differs who seen.now events.now) }
{
    if !begins_with(events, seen) {
        return false;
    }
    are_others(&events[seen.len()..], who)
}
