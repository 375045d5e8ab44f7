//! A slot taken apart into its kind and its number, and put together again.
ghost use Rattle.std.specs.Prelude.{◌≡◌};
ghost use Rattle.hd_terms.specs.SlotKinds.{slot_of, slot_parts};

use crate::Slot;

/// What a slot is, without its number.
#[derive(Clone, Copy, PartialEq, Eq)]
pub enum SlotKind {
    Field,
    Element,
    Static,
    Const,
    OfClass,
    Super,
    Loader,
    Signers,
    Domain,
}

impl SlotKind {
    /// The slot of this kind and a number. Where an object has only one slot of the kind, any number will do.
    pub fn slot(self, number: u32) -> Slot
        ensures { result ≡ slot_of self number }
    {
        match self {
            SlotKind::Field => Slot::Field(number),
            SlotKind::Element => Slot::Element(number),
            SlotKind::Static => Slot::Static(number),
            SlotKind::Const => Slot::Const(number),
            SlotKind::OfClass => Slot::OfClass,
            SlotKind::Super => Slot::Super,
            SlotKind::Loader => Slot::Loader,
            SlotKind::Signers => Slot::Signers,
            SlotKind::Domain => Slot::Domain,
        }
    }
}

impl Slot {
    /// Its kind and its number, 0 where it has none.
    pub fn parts(self) -> (SlotKind, u32)
        ensures parts { result ≡ slot_parts self }
        ensures whole { slot_of result.0 result.1 ≡ self }
    {
        match self {
            Slot::Field(number) => (SlotKind::Field, number),
            Slot::Element(number) => (SlotKind::Element, number),
            Slot::Static(number) => (SlotKind::Static, number),
            Slot::Const(number) => (SlotKind::Const, number),
            Slot::OfClass => (SlotKind::OfClass, 0),
            Slot::Super => (SlotKind::Super, 0),
            Slot::Loader => (SlotKind::Loader, 0),
            Slot::Signers => (SlotKind::Signers, 0),
            Slot::Domain => (SlotKind::Domain, 0),
        }
    }
}
