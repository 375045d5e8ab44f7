//! Offers of strengths to objects, the greatest first, those of one strength first in, first out.
ghost use Rattle.std.specs.Prelude.{◌≡◌, [], IfNone, IfSome, OnOk};
ghost use Rattle.hd_repair.specs.Offering.{AddsOffer, IsMost, JoinsOffers, NoneOf, TakesOne};
ghost use Rattle.hd_repair.specs.OffersInside.{IsFirstOf};

use hd_terms::{NoMemory, Strength, Support};
use std::alloc::Global;
use std::collections::VecDeque;
use std::marker::Model;

/// What a root or an edge would give an object.
#[derive(Clone, Copy)]
pub struct Offer {
    /// The number of the object.
    pub target: u32,
    pub strength: Strength,
    /// The support that gives it.
    pub support: Support,
}

/// An offer in the queue of its strength.
#[derive(Clone, Copy)]
pub(crate) struct Queued {
    target: u32,
    support: Support,
}

/// Takes out the earliest offer of a strength's queue.
fn pop_queued(queue: &mut VecDeque<Queued>, strength: Strength) -> Option<Offer>
    ensures none { IfNone result ((queue.old.items ≡ []) × (queue.new.items ≡ [])) }
    ensures some { IfSome result (λ offer. IsFirstOf strength offer queue.old.items queue.new.items) }
{
    let queued = queue.pop_front()?;
    Some(Offer {
        target: queued.target,
        strength,
        support: queued.support,
    })
}

/// Offers, in a queue for each strength.
pub(crate) struct Offers {
    strong: VecDeque<Queued>,
    soft: VecDeque<Queued>,
    weak: VecDeque<Queued>,
    finals: VecDeque<Queued>,
    phantom: VecDeque<Queued>,
}

impl Drop for Offers {
    /// Drops the fields. A derived drop would be proved anew at each place that lets go of one.
    fn drop(self) {
        let Self {
            strong,
            soft,
            weak,
            finals,
            phantom,
        } = self;
    }
}

impl Model for Offers {
    ghost use Rattle.std.specs.Prelude.{List};
    ghost use Rattle.hd_repair.specs.declared.offers.Offer.{Offer};

    ghost Value = { List Offer };

    ghost use Rattle.hd_repair.specs.OffersInside.{offers_in};

    ghost view = { offers_in };
}

impl Offers {
    /// No offer.
    pub(crate) fn new(alloc: Global) -> Offers
        ensures { result ≡ [] }
    {
        Offers {
            strong: VecDeque::new(alloc),
            soft: VecDeque::new(alloc),
            weak: VecDeque::new(alloc),
            finals: VecDeque::new(alloc),
            phantom: VecDeque::new(alloc),
        }
    }

    /// Adds an offer. One of no strength is left out.
    pub(crate) fn push(&mut self, offer: Offer) -> Result<(), NoMemory>
        ensures { OnOk result (AddsOffer self.old self.new offer) }
    {
        let queued = Queued {
            target: offer.target,
            support: offer.support,
        };
        match offer.strength {
            Strength::Strong => self.strong.push_back(queued)?,
            Strength::Soft => self.soft.push_back(queued)?,
            Strength::Weak => self.weak.push_back(queued)?,
            Strength::Final => self.finals.push_back(queued)?,
            Strength::Phantom => self.phantom.push_back(queued)?,
            Strength::Unreachable => {}
        }
        Ok(())
    }

    /// The greatest strength that is offered.
    pub(crate) fn most(&self) -> Option<Strength>
        ensures none { IfNone result (self.now ≡ []) }
        ensures some { IfSome result (IsMost self.now) }
    {
        if self.strong.len() > 0 {
            return Some(Strength::Strong);
        }
        if self.soft.len() > 0 {
            return Some(Strength::Soft);
        }
        if self.weak.len() > 0 {
            return Some(Strength::Weak);
        }
        if self.finals.len() > 0 {
            return Some(Strength::Final);
        }
        if self.phantom.len() > 0 {
            return Some(Strength::Phantom);
        }
        None
    }

    /// The queue of the offers that give the most.
    fn greatest(&self) -> &VecDeque<Queued> {
        if !self.strong.is_empty() {
            return &self.strong;
        }
        if !self.soft.is_empty() {
            return &self.soft;
        }
        if !self.weak.is_empty() {
            return &self.weak;
        }
        if !self.finals.is_empty() {
            return &self.finals;
        }
        &self.phantom
    }

    /// The target of an offer of those that give the most, at an index from the earliest on.
    pub(crate) fn coming(&self, i: usize) -> Option<u32> {
        let queued = self.greatest().get(i)?;
        Some(queued.target)
    }

    /// Takes out the earliest offer of a strength.
    pub(crate) fn pop(&mut self, strength: Strength) -> Option<Offer>
        ensures none { IfNone result ((self.new ≡ self.old) × NoneOf self.old strength) }
        ensures some { IfSome result (λ offer. TakesOne self.old self.new strength offer) }
    {
        match strength {
            Strength::Strong => pop_queued(&mut self.strong, strength),
            Strength::Soft => pop_queued(&mut self.soft, strength),
            Strength::Weak => pop_queued(&mut self.weak, strength),
            Strength::Final => pop_queued(&mut self.finals, strength),
            Strength::Phantom => pop_queued(&mut self.phantom, strength),
            Strength::Unreachable => None,
        }
    }

    /// Adds other offers behind these.
    pub(crate) fn append(&mut self, mut others: Offers) -> Result<(), NoMemory>
        ensures { OnOk result (JoinsOffers self.old others self.new) }
    {
        self.strong.append(&mut others.strong)?;
        self.soft.append(&mut others.soft)?;
        self.weak.append(&mut others.weak)?;
        self.finals.append(&mut others.finals)?;
        self.phantom.append(&mut others.phantom)?;
        Ok(())
    }
}
