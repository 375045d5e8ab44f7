//! All that an append does while it holds the lock.
ghost use Rattle.std.specs.Prelude.{◌≡◌, ◌↔◌, Contains, IfErr, IfOk, IsTrue, MatchBool};
ghost use Rattle.hd_terms.specs.Desks.{IsForeign};
ghost use Rattle.hd_terms.specs.Schedule.{numbers_from};
ghost use Rattle.hd_terms.specs.Appending.{with_event};
ghost use Rattle.hd_board.specs.Appends.{IsFound, IsTaken, RefusesAppend};

use crate::faults::AppendFault;
use hd_log::Front;
use hd_terms::Event;
use std::alloc::Global;

/// Whether a board of `count` desks, numbered from `first` on, has a desk of this number.
pub fn is_member(first: u8, count: u8, who: u8) -> bool
    ensures { IsTrue result ↔ Contains (numbers_from first count) who }
{
    first <= who && who - first < count
}

/// Whether an analyst who has seen one log can find another, on a board of `count` desks numbered from `first` on.
pub fn is_found(first: u8, count: u8, who: u8, seen: &Front, log: &Front) -> bool
    ensures { MatchBool result (IsFound (numbers_from first count) who seen.now log.now) (IsForeign (numbers_from first count) who seen.now log.now) }
{
    is_member(first, count, who) && log.continues(seen, who)
}

/// Appends an event to a log, on a board of `count` desks numbered from `first` on, over a dump of `roots` roots. The analyst has
/// seen an earlier log. The answer is the log with the event; a refusal leaves the log.
///
/// # Errors
///
/// Why the event isn't appended, the first reason in the order of [`AppendFault`].
pub fn append_to(
    alloc: Global,
    log: &mut Front,
    first: u8,
    count: u8,
    roots: u64,
    seen: &Front,
    event: Event,
) -> Result<Front, AppendFault>
    ensures ok { IfOk result (λ answer. IsTaken roots (numbers_from first count) seen.now log.old event
        × (answer ≡ with_event log.old event) × (log.new ≡ answer)) }
    ensures err { IfErr result (λ fault. RefusesAppend roots (numbers_from first count) seen.now log.old event fault × (log.new ≡ log.old)) }
{
    if !is_found(first, count, event.who, seen, log) {
        return Err(AppendFault::Foreign(log.share()?));
    }
    if let Some(refusal) = log.append_refusal(roots, &event) {
        return Err(AppendFault::Refused(refusal, log.share()?));
    }
    let Ok(longer) = log.extend(alloc, event) else {
        return Err(AppendFault::OutOfMemory);
    };
    let answer = longer.share()?;
    *log = longer;
    Ok(answer)
}
