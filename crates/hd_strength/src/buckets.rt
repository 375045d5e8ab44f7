//! Offers by what they give, those of one strength first in, first out.
ghost use Rattle.std.specs.Prelude.{◌≡◌, ◌≤◌, [], slice_get, IfNone, IfSome, OnOk};
ghost use Rattle.hd_terms.specs.Ranks.{rank};
ghost use Rattle.hd_terms.specs.declared.Strength.{Strength as OneStrength};
ghost use Rattle.hd_strength.specs.Buckets.{bucket, AddsTo, TakesFirst};

use hd_terms::{NoMemory, Strength};
use std::alloc::Global;
use std::collections::VecDeque;

/// What the reference in a slot of an object would give its target: the object's number, and the slot's index.
#[derive(Clone, Copy)]
pub struct Offer {
    pub source: u32,
    pub index: u32,
}

/// Offers in a bucket for each strength, in the order in which they were made.
pub struct Buckets {
    pub strong: VecDeque<Offer>,
    pub soft: VecDeque<Offer>,
    pub weak: VecDeque<Offer>,
    pub finals: VecDeque<Offer>,
    pub phantom: VecDeque<Offer>,
}

impl Drop for Buckets {
    /// Drops the fields. A derived drop would be proved anew at each place that lets go of one.
    fn drop(self) {
        let Self {
            strong,
            soft,
            weak,
            finals,
            phantom,
        } = self;
    }
}

impl Buckets {
    /// Buckets with no offer.
    pub fn new(alloc: Global) -> Buckets
        ensures { (s : OneStrength) → bucket result s ≡ [] }
    {
        Buckets {
            strong: VecDeque::new(alloc),
            soft: VecDeque::new(alloc),
            weak: VecDeque::new(alloc),
            finals: VecDeque::new(alloc),
            phantom: VecDeque::new(alloc),
        }
    }

    /// Adds an offer of something.
    pub fn push(&mut self, strength: Strength, offer: Offer) -> Result<(), NoMemory>
        requires { 1 ≤ rank strength }
        ensures { OnOk result (AddsTo self.old self.new strength offer) }
    {
        match strength {
            Strength::Strong => self.strong.push_back(offer)?,
            Strength::Soft => self.soft.push_back(offer)?,
            Strength::Weak => self.weak.push_back(offer)?,
            Strength::Final => self.finals.push_back(offer)?,
            Strength::Phantom => self.phantom.push_back(offer)?,
            Strength::Unreachable => unreachable!(),
        }
        Ok(())
    }

    /// The earliest offer of a strength.
    pub fn first(&self, strength: Strength) -> Option<Offer>
        ensures { result ≡ slice_get (bucket self.now strength) 0 }
    {
        match strength {
            Strength::Strong => self.strong.front().copied(),
            Strength::Soft => self.soft.front().copied(),
            Strength::Weak => self.weak.front().copied(),
            Strength::Final => self.finals.front().copied(),
            Strength::Phantom => self.phantom.front().copied(),
            Strength::Unreachable => None,
        }
    }

    /// Takes out the earliest offer of a strength.
    pub fn pop(&mut self, strength: Strength) -> Option<Offer>
        ensures none { IfNone result (bucket self.old strength ≡ []) }
        ensures same { IfNone result ((s : OneStrength) → bucket self.new s ≡ bucket self.old s) }
        ensures some { IfSome result (λ offer. TakesFirst self.old self.new strength offer) }
    {
        match strength {
            Strength::Strong => self.strong.pop_front(),
            Strength::Soft => self.soft.pop_front(),
            Strength::Weak => self.weak.pop_front(),
            Strength::Final => self.finals.pop_front(),
            Strength::Phantom => self.phantom.pop_front(),
            Strength::Unreachable => None,
        }
    }
}
