//! What closing a board checks: that its log fits its desks, and that none is missing.
ghost use Rattle.std.specs.Prelude.{ℕ, ◌≤◌, ◌+◌, ◌↔◌, drop, All, Contains, IsTrue, MatchBool};
ghost use Rattle.hd_terms.specs.declared.Event.{Event};
ghost use Rattle.hd_terms.specs.Desks.{IsForeign};
ghost use Rattle.hd_terms.specs.Log.{IsLawful};
ghost use Rattle.hd_terms.specs.Schedule.{numbers_from};
ghost use Rattle.hd_board.specs.Appends.{IsFound};
ghost use Rattle.hd_board.specs.Closing.{HasDesk};
ghost use Rattle.hd_board.specs.Replicas.{Replica};

use crate::append::{is_found, is_member};
use crate::desk::Desk;
use hd_log::Front;

/// Whether each desk has a number of the board and can find its log.
pub fn all_find(log: &Front, first: u8, count: u8, desks: &[Desk]) -> bool
    ensures { MatchBool result (All (λ (d : Replica). IsFound (numbers_from first count) d.who d.seen log.now) desks.now)
        ((d : Replica) × Contains desks.now d × IsForeign (numbers_from first count) d.who d.seen log.now) }
{
    for desk in desks {
        if !is_found(first, count, desk.who(), desk.seen(), log) {
            return false;
        }
    }
    true
}

/// Whether all events from this number on are by the board's analysts.
pub fn are_members(log: &Front, from: u32, first: u8, count: u8) -> bool
    ensures members { IsTrue result ↔ All (λ (e : Event). Contains (numbers_from first count) e.who) (drop from log.now) }
    ensures lawful { IsLawful log.now }
{
    for i in from..log.len() {
        if !is_member(first, count, log.event(i).who) {
            return false;
        }
    }
    true
}

/// Whether one of the desks has this number.
fn has_desk(desks: &[Desk], who: u8) -> bool
    ensures { IsTrue result ↔ HasDesk desks.now who }
{
    for desk in desks {
        if desk.who() == who {
            return true;
        }
    }
    false
}

/// Whether each number of the board is a desk's.
pub fn has_all(first: u8, count: u8, desks: &[Desk]) -> bool
    requires { first + count ≤ 256 }
    ensures { MatchBool result ((who : ℕ) → Contains (numbers_from first count) who → HasDesk desks.now who)
        ((who : ℕ) × Contains (numbers_from first count) who × (HasDesk desks.now who → ⊥)) }
{
    for i in 0..count {
        if !has_desk(desks, first + i) {
            return false;
        }
    }
    true
}
