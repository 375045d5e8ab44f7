//! What is kept of one object, in 16 bytes.
ghost use Rattle.std.specs.Prelude.{◌≡◌, ◌+◌, ◌*◌, ◌/◌, ◌%◌, ◌^◌, ◌<◌};
ghost use Rattle.hd_terms.specs.Settled.{unreached};
ghost use Rattle.hd_terms.specs.declared.Support.TheVariants as supports;
ghost use Rattle.hd_supports.specs.PackedReached.{reached_by_root, edge_from, kind_of};

use hd_terms::{Slot, SlotKind, Strength, Support};
use std::marker::Model;

/// What an object owes its strength to, in one byte: nothing, a root, or an edge from a slot of one of the kinds.
#[derive(Clone, Copy)]
enum How {
    Nothing,
    Root,
    Field,
    Element,
    Static,
    Const,
    OfClass,
    Super,
    Loader,
    Signers,
    Domain,
}

impl How {
    /// An edge from a slot of this kind.
    fn edge_from(kind: SlotKind) -> How
        ensures { result ≡ edge_from kind }
    {
        match kind {
            SlotKind::Field => How::Field,
            SlotKind::Element => How::Element,
            SlotKind::Static => How::Static,
            SlotKind::Const => How::Const,
            SlotKind::OfClass => How::OfClass,
            SlotKind::Super => How::Super,
            SlotKind::Loader => How::Loader,
            SlotKind::Signers => How::Signers,
            SlotKind::Domain => How::Domain,
        }
    }

    /// The kind of the slot, if it is an edge.
    fn kind(self) -> Option<SlotKind>
        ensures { result ≡ kind_of self }
    {
        match self {
            How::Nothing | How::Root => None,
            How::Field => Some(SlotKind::Field),
            How::Element => Some(SlotKind::Element),
            How::Static => Some(SlotKind::Static),
            How::Const => Some(SlotKind::Const),
            How::OfClass => Some(SlotKind::OfClass),
            How::Super => Some(SlotKind::Super),
            How::Loader => Some(SlotKind::Loader),
            How::Signers => Some(SlotKind::Signers),
            How::Domain => Some(SlotKind::Domain),
        }
    }
}

/// The lower 32 bits of a number.
fn low_half(number: u64) -> u32
    ensures { result ≡ number % 2 ^ 32 }
{
    (number % (1 << 32)) as u32
}

/// The upper 32 bits of a number.
fn high_half(number: u64) -> u32
    ensures { result ≡ number / 2 ^ 32 }
{
    (number >> 32) as u32
}

/// The number with these halves.
fn joined(high: u32, low: u32) -> u64
    ensures { result ≡ high * 2 ^ 32 + low }
{
    (u64::from(high) << 32) + u64::from(low)
}

/// What is kept of one object. Of an edge `high` is the source and `low` the number of its slot; of a root they are the
/// halves of its number. The halves of the stamp leave it 48 bits: it is at most 4,097 times the number of objects.
#[derive(Clone, Copy)]
pub struct PackedReached {
    stamp_low: u32,
    stamp_high: u16,
    how: How,
    strength: Strength,
    low: u32,
    high: u32,
}

const _: () = prove!(std::mem::size_of::<PackedReached>() == 16);

impl Model for PackedReached {
    ghost use Rattle.hd_terms.specs.Settled.{Reached};

    ghost Value = { Reached };

    ghost use Rattle.hd_supports.specs.Packing.{reached_of, packed_of, IsPacked};

    ghost view = { reached_of };

    ghost invariant = { IsPacked };

    ghost inverse = { packed_of };

    ghost inverse_ok = { λ a h. h.same };
}

impl PackedReached {
    /// An object of a strength that it owes to a support. The stamp orders objects of one strength.
    pub fn new(strength: Strength, support: Support, stamp: u64) -> PackedReached
        requires { stamp < 2 ^ 48 }
        ensures { result ≡ record { strength = strength; support = support; stamp = stamp } }
    {
        let (how, high, low) = match support {
            Support::Nothing => (How::Nothing, 0, 0),
            Support::Root(root) => (How::Root, high_half(root), low_half(root)),
            Support::Edge { source, slot } => {
                let (kind, number) = slot.parts();
                (How::edge_from(kind), source, number)
            }
        };
        PackedReached {
            stamp_low: low_half(stamp),
            stamp_high: high_half(stamp) as u16,
            how,
            strength,
            low,
            high,
        }
    }

    /// An object that nothing reaches.
    pub fn unreached() -> PackedReached
        ensures { result ≡ unreached }
    {
        PackedReached::new(Strength::Unreachable, Support::Nothing, 0)
    }

    /// An object that a root holds.
    pub fn by_root(root: u64) -> PackedReached
        ensures { result ≡ reached_by_root root }
    {
        PackedReached::new(Strength::Strong, Support::Root(root), 0)
    }

    /// An object that an edge from a slot of another gives a strength.
    pub fn by_edge(strength: Strength, source: u32, slot: Slot, stamp: u64) -> PackedReached
        requires { stamp < 2 ^ 48 }
        ensures { result ≡ record { strength = strength; support = supports.Edge source slot; stamp = stamp } }
    {
        PackedReached::new(strength, Support::Edge { source, slot }, stamp)
    }

    /// The strength.
    pub fn strength(&self) -> Strength
        ensures { result ≡ self.now.strength }
    {
        self.strength
    }

    /// What it is owed to.
    pub fn support(&self) -> Support
        ensures { result ≡ self.now.support }
    {
        if let Some(kind) = self.how.kind() {
            let slot = kind.slot(self.low);
            return Support::Edge {
                source: self.high,
                slot,
            };
        }
        match self.how {
            How::Root => Support::Root(joined(self.high, self.low)),
            _ => Support::Nothing,
        }
    }

    /// The number that orders objects of one strength.
    pub fn stamp(&self) -> u64
        ensures stamp { result ≡ self.now.stamp }
        ensures small { result < 2 ^ 48 }
    {
        joined(u32::from(self.stamp_high), self.stamp_low)
    }
}
