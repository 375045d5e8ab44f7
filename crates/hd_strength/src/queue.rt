//! The objects that wait to pass their strength on.
ghost use Rattle.std.specs.Prelude.{◌≡◌, ◌<◌, ◌++◌, [], ◌∷◌, length, IfNone, IfSome, OnOk};
ghost use Rattle.hd_strength.specs.Queue.{Begins, IsTaken};

use hd_terms::NoMemory;
use std::alloc::Global;
use std::collections::VecDeque;
use std::marker::Model;

/// Which of the objects that wait is taken next, and the objects in the order in which they came.
#[derive(Drop)]
enum Order {
    /// The one that came first: the search is breadth first.
    FirstCome(VecDeque<u32>),
    /// The one that came last: the search is depth first.
    LastCome(Vec<u32>),
}

/// The objects that are reached and have yet to pass their strength on, in the order in which they came.
pub(crate) struct Queue {
    order: Order,
}

impl Drop for Queue {
    /// Drops the fields. A derived drop would be proved anew at each place that lets go of one.
    fn drop(self) {
        let Self { order } = self;
    }
}

impl Model for Queue {
    ghost use Rattle.std.specs.Prelude.{ℕ, List};
    ghost use Rattle.hd_strength.specs.Queue.{objects_in};

    ghost Value = { List ℕ };

    ghost view = { λ a. objects_in a.order };
}

impl Queue {
    /// A queue with no object yet. The flag says whether the one that came first will be taken next, or the one that came last.
    pub(crate) fn new(alloc: Global, breadth_first: bool) -> Queue
        ensures { result ≡ [] }
    {
        let order = if breadth_first {
            Order::FirstCome(VecDeque::new(alloc))
        } else {
            Order::LastCome(Vec::new(alloc))
        };
        Queue { order }
    }

    /// Adds an object.
    #[inline(always)]
    pub(crate) fn push(&mut self, o: u32) -> Result<(), NoMemory>
        ensures { OnOk result (self.new ≡ self.old ++ o ∷ []) }
    {
        match &mut self.order {
            Order::FirstCome(objects) => objects.push_back(o)?,
            Order::LastCome(objects) => objects.push(o)?,
        }
        Ok(())
    }

    /// Takes out the object that is next.
    #[inline(always)]
    pub(crate) fn take(&mut self) -> Option<u32>
        ensures none { IfNone result (self.old ≡ []) }
        ensures same { IfNone result (self.new ≡ []) }
        ensures some { IfSome result (λ o. IsTaken self.old self.new o) }
    {
        match &mut self.order {
            Order::FirstCome(objects) => objects.pop_front(),
            Order::LastCome(objects) => objects.pop(),
        }
    }

    /// How many objects are taken in a round: those that wait now where the one that came first is taken next, and else at most
    /// `most`. It is at least one, though none may wait.
    pub(crate) fn round_len(&self, most: usize) -> usize
        requires { 0 < most }
        ensures { 0 < result }
    {
        match &self.order {
            Order::FirstCome(objects) => objects.len().max(1),
            Order::LastCome(_) => most,
        }
    }

    /// How many objects wait.
    pub(crate) fn len(&self) -> usize
        ensures { result ≡ length self.now }
    {
        match &self.order {
            Order::FirstCome(objects) => objects.len(),
            Order::LastCome(objects) => objects.len(),
        }
    }

    /// Objects that will be taken next, in that order; none where the one that came last is taken next.
    pub(crate) fn coming(&self) -> &[u32]
        ensures { Begins result.now self.now }
    {
        match &self.order {
            Order::FirstCome(objects) => objects.as_slices().0,
            Order::LastCome(_) => &[],
        }
    }
}
