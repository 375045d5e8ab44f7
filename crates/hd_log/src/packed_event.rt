//! An event of a log, in 16 bytes.
ghost use Rattle.std.specs.Prelude.{◌≡◌, ◌↔◌, IsTrue};
ghost use Rattle.hd_log.specs.Actions.{cut_of, clear_all_of, what_by};

use hd_terms::{Edit, Event, RefKind, Slot, SlotKind, What};
use std::marker::Model;

/// What an event does, in one byte: a cut of a slot of one of the kinds, another edit, or an undo.
#[derive(Clone, Copy, PartialEq, Eq)]
enum Action {
    CutField,
    CutElement,
    CutStatic,
    CutConst,
    CutOfClass,
    CutSuper,
    CutLoader,
    CutSigners,
    CutDomain,
    Clear,
    Drop,
    Add,
    ClearAllSoft,
    ClearAllWeak,
    ClearAllFinal,
    ClearAllPhantom,
    CutAll,
    Undo,
}

impl Action {
    /// A cut of a slot of this kind.
    fn cut(kind: SlotKind) -> Action
        ensures { result ≡ cut_of kind }
    {
        match kind {
            SlotKind::Field => Action::CutField,
            SlotKind::Element => Action::CutElement,
            SlotKind::Static => Action::CutStatic,
            SlotKind::Const => Action::CutConst,
            SlotKind::OfClass => Action::CutOfClass,
            SlotKind::Super => Action::CutSuper,
            SlotKind::Loader => Action::CutLoader,
            SlotKind::Signers => Action::CutSigners,
            SlotKind::Domain => Action::CutDomain,
        }
    }

    /// A clear of all reference objects of this kind.
    fn clear_all(kind: RefKind) -> Action
        ensures { result ≡ clear_all_of kind }
    {
        match kind {
            RefKind::Soft => Action::ClearAllSoft,
            RefKind::Weak => Action::ClearAllWeak,
            RefKind::Final => Action::ClearAllFinal,
            RefKind::Phantom => Action::ClearAllPhantom,
        }
    }

    /// What an event with this action does. `id` is the ID or the root's number that it names; `number` is that of the slot
    /// or the field that it cuts, or of the event that it takes back.
    fn what(self, id: u64, number: u32) -> What
        ensures { result ≡ what_by self id number }
    {
        match self {
            Action::CutField => What::Do(Edit::Cut(id, Slot::Field(number))),
            Action::CutElement => What::Do(Edit::Cut(id, Slot::Element(number))),
            Action::CutStatic => What::Do(Edit::Cut(id, Slot::Static(number))),
            Action::CutConst => What::Do(Edit::Cut(id, Slot::Const(number))),
            Action::CutOfClass => What::Do(Edit::Cut(id, Slot::OfClass)),
            Action::CutSuper => What::Do(Edit::Cut(id, Slot::Super)),
            Action::CutLoader => What::Do(Edit::Cut(id, Slot::Loader)),
            Action::CutSigners => What::Do(Edit::Cut(id, Slot::Signers)),
            Action::CutDomain => What::Do(Edit::Cut(id, Slot::Domain)),
            Action::Clear => What::Do(Edit::Clear(id)),
            Action::Drop => What::Do(Edit::Drop(id)),
            Action::Add => What::Do(Edit::Add(id)),
            Action::ClearAllSoft => What::Do(Edit::ClearAll(RefKind::Soft)),
            Action::ClearAllWeak => What::Do(Edit::ClearAll(RefKind::Weak)),
            Action::ClearAllFinal => What::Do(Edit::ClearAll(RefKind::Final)),
            Action::ClearAllPhantom => What::Do(Edit::ClearAll(RefKind::Phantom)),
            Action::CutAll => What::Do(Edit::CutAll(id, number)),
            Action::Undo => What::Undo(number),
        }
    }
}

/// An event in 16 bytes. `id` is the ID or the root's number that it names, and `number` that of the slot or the field that it
/// cuts, or of the event that it takes back. What an event hasn't is 0, so equal events are kept in equal fields.
#[derive(Clone, Copy, PartialEq, Eq)]
pub struct PackedEvent {
    id: u64,
    number: u32,
    who: u8,
    action: Action,
}

const _: () = prove!(std::mem::size_of::<PackedEvent>() == 16);

impl Model for PackedEvent {
    ghost use Rattle.hd_terms.specs.declared.Event.{Event};

    ghost Value = { Event };

    ghost use Rattle.hd_log.specs.PackedEvents.{event_of, packed_of, IsPacked};

    ghost view = { event_of };

    ghost invariant = { IsPacked };

    ghost inverse = { packed_of };

    ghost inverse_ok = { λ a h. h.same };
}

impl PackedEvent {
    /// This event.
    pub fn new(event: Event) -> PackedEvent
        ensures { result ≡ event }
    {
        let (action, id, number) = match event.what {
            What::Do(Edit::Cut(id, slot)) => {
                let (kind, number) = slot.parts();
                (Action::cut(kind), id, number)
            }
            What::Do(Edit::Clear(id)) => (Action::Clear, id, 0),
            What::Do(Edit::Drop(root)) => (Action::Drop, root, 0),
            What::Do(Edit::Add(id)) => (Action::Add, id, 0),
            What::Do(Edit::ClearAll(kind)) => (Action::clear_all(kind), 0, 0),
            What::Do(Edit::CutAll(id, field)) => (Action::CutAll, id, field),
            What::Undo(k) => (Action::Undo, 0, k),
        };
        PackedEvent {
            id,
            number,
            who: event.who,
            action,
        }
    }

    /// The event.
    pub fn event(&self) -> Event
        ensures { result ≡ self.now }
    {
        let what = self.action.what(self.id, self.number);
        Event {
            who: self.who,
            what,
        }
    }

    /// The number of the analyst who made it.
    pub fn who(&self) -> u8
        ensures { result ≡ self.now.who }
    {
        self.who
    }
}
