//! A lawful log as it stands at one time.
ghost use Rattle.std.specs.Prelude.{◌≡◌, ◌⊎◌, ◌↔◌, ◌<◌, ◌≤◌, ◌++◌, ◌∷◌, [], None, Some, length, slice_get, IfErr, IfOk, IsNone, IsTrue, MatchBool};
ghost use Rattle.hd_terms.specs.declared.errors.LogFault.TheVariants.{OutOfMemory};
ghost use Rattle.hd_terms.specs.Log.{IsLawful, begins_with, largest_log, last_live, live_flags, log_fault};
ghost use Rattle.hd_terms.specs.Desks.{Continues, Differs};
ghost use Rattle.hd_terms.specs.EditedDump.{is_root};
ghost use Rattle.hd_terms.specs.Appending.{append_refusal};

use crate::events;
use crate::packed_event::PackedEvent;
use hd_terms::{Event, LogFault, NoMemory, Refusal, lawful_logs};
use std::alloc::Global;
use std::marker::Model;
use std::sync::Arc;

/// A log of events as it stands at one time. It is lawful: it has 4,096 events at most, and each undo takes back an
/// earlier, live edit of the same analyst. Beside the events it has of each whether it is live. Fronts that are shared from
/// one have the same events, kept once.
#[derive(Drop)]
pub struct Front {
    events: Arc<Vec<PackedEvent>>,
    live: Arc<Vec<bool>>,
}

impl Model for Front {
    ghost use Rattle.std.specs.Prelude.{List};
    ghost use Rattle.std.specs.Arc.{arc_value};
    ghost use Rattle.hd_terms.specs.declared.Event.{Event};
    ghost use Rattle.hd_log.specs.FrontInside.{IsFront};

    ghost Value = { List Event };

    ghost view = { λ f. (arc_value f.events).items };

    ghost invariant = { λ f. IsFront (arc_value f.events).items (arc_value f.live).items };
}

impl Front {
    /// The log with no event.
    pub fn empty(alloc: Global) -> Result<Front, NoMemory>
        ensures { IfOk result (λ f. f ≡ []) }
    {
        let events = Arc::new(alloc, Vec::new(alloc))?;
        let live = Arc::new(alloc, Vec::new(alloc))?;
        Ok(Front { events, live })
    }

    /// An equal front: a further owner of the same events.
    pub fn share(&self) -> Result<Front, NoMemory>
        ensures { IfOk result (λ f. f ≡ self.now) }
    {
        let events = Arc::try_clone(&self.events)?;
        let live = Arc::try_clone(&self.live)?;
        Ok(Front { events, live })
    }

    /// How many events there are, from 0 to 4,096.
    pub fn len(&self) -> u32
        ensures len { result ≡ length self.now }
        ensures most { length self.now ≤ largest_log }
        ensures lawful { IsLawful self.now }
    {
        self.events.len() as u32
    }

    /// The event of a number. Numbers count from 0.
    pub fn event(&self, i: u32) -> Event
        requires { i < length self.now }
        ensures { slice_get self.now i ≡ Some result }
    {
        self.events[i as usize].event()
    }

    /// Why the log doesn't take an event, the first reason, or `None` where it takes it. It takes no memory.
    pub fn next_fault(&self, event: &Event) -> Option<LogFault>
        ensures fault { result ≡ log_fault self.now event.now }
        ensures lawful { IsNone result ↔ IsLawful (self.now ++ event.now ∷ []) }
    {
        events::log_fault(&self.events, &self.live, *event)
    }

    /// Whether `r` is the number of a root over a dump of `roots` roots: one of the dump's, or that of a live event that adds
    /// one. It takes no memory.
    pub fn is_root(&self, roots: u64, r: u64) -> bool
        ensures { result ≡ is_root roots self.now r }
    {
        events::is_root(&self.events, &self.live, roots, r)
    }

    /// Why an event can't be appended over a dump of `roots` roots, the first reason, or `None` where it can: what an undo
    /// names, the root that a drop names, and last that the log is full. It takes no memory.
    pub fn append_refusal(&self, roots: u64, event: &Event) -> Option<Refusal>
        ensures refusal { result ≡ append_refusal roots self.now event.now }
        ensures lawful { IsNone result → log_fault self.now event.now ≡ None }
    {
        lawful_logs();
        events::append_refusal(&self.events, &self.live, roots, *event)
    }

    /// The log with one more event, or why there is none: the log's own reason, or else that memory ran out.
    pub fn extend(&self, alloc: Global, event: Event) -> Result<Front, LogFault>
        ensures ok { IfOk result (λ f. (log_fault self.now event ≡ None) × (f ≡ self.now ++ event ∷ [])) }
        ensures err { IfErr result (λ e. (log_fault self.now event ≡ Some e) ⊎ ((log_fault self.now event ≡ None) × (e ≡ OutOfMemory))) }
    {
        if let Some(fault) = self.next_fault(&event) {
            return Err(fault);
        }
        let live = events::flags_with(alloc, &self.events, &self.live, event)?;
        let mut events = Vec::with_capacity(alloc, self.events.len() + 1)?;
        events.extend_from_slice(&self.events)?;
        events.push(PackedEvent::new(event))?;
        let events = Arc::new(alloc, events)?;
        let live = Arc::new(alloc, live)?;
        Ok(Front { events, live })
    }

    /// Of each event, whether it is live: an edit that no event takes back. It takes no memory.
    pub fn flags(&self) -> &[bool]
        ensures { result.now ≡ live_flags self.now }
    {
        &self.live
    }

    /// The number of an analyst's last live event, if there is one. It takes no memory.
    pub fn last_live(&self, who: u8) -> Option<u32>
        ensures { result ≡ last_live self.now who }
    {
        events::last_live(&self.events, &self.live, who)
    }

    /// Whether the log begins with the events of a front. It takes no memory.
    pub fn begins_with(&self, front: &Front) -> bool
        ensures { IsTrue result ↔ begins_with self.now front.now }
    {
        events::begins_with(&self.events, &front.events)
    }

    /// Whether the log continues what an analyst has seen: it begins with it, and has no further event of the analyst. It takes
    /// no memory.
    pub fn continues(&self, seen: &Front, who: u8) -> bool
        ensures { MatchBool result (Continues who seen.now self.now) (Differs who seen.now self.now) }
    {
        events::continues(&self.events, &seen.events, who)
    }
}
