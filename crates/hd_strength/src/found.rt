//! What a search has found so far.
ghost use Rattle.std.specs.Prelude.{◌≡◌, ◌<◌, [], length, map, replicate, set, true, false, IfOk};
ghost use Rattle.hd_terms.specs.Settled.{reached_at, unreached};
ghost use Rattle.hd_strength.specs.Found.{is_found, only_strength, seen, strength_of};

use crate::ahead::{BATCH, read_rows, read_targets};
use hd_graph::Graph;
use hd_supports::PackedReached;
use hd_terms::{NoMemory, Strength};
use std::alloc::Global;
use std::marker::Model;

/// The strength of each object so far and, where that is asked for, all that is kept of it.
///
/// A search asks for the strength of the target of each reference, in no order of memory. Strengths take a byte each, so
/// most of them stay in the processor's cache.
pub(crate) struct Found {
    strengths: Vec<Strength>,
    /// What is kept of each object; nothing where only strengths are asked for.
    kept: Vec<PackedReached>,
    /// Whether all is kept.
    whole: bool,
    /// How many of the objects that are taken next from the queue were looked at ahead.
    ahead: usize,
    /// The sum of what was read ahead.
    read: u32,
}

impl Drop for Found {
    /// Drops the fields. A derived drop would be proved anew at each place that lets go of one.
    fn drop(self) {
        let Self {
            strengths,
            kept,
            whole: _,
            ahead: _,
            read: _,
        } = self;
    }
}

impl Model for Found {
    ghost use Rattle.std.specs.Prelude.{◌≡◌, map, true};
    ghost use Rattle.hd_strength.specs.Found.{Findings, list_of, strength_of};

    ghost Value = { Findings };

    ghost view = { λ f. record { whole = f.whole; list = list_of f.whole f.strengths.items f.kept.items } };

    ghost invariant = { λ f. f.whole ≡ true → f.strengths.items ≡ map strength_of f.kept.items };
}

impl Found {
    /// What is found of no objects. The flag says whether all will be kept of objects, or strengths alone.
    pub(crate) fn empty(alloc: Global, whole: bool) -> Found
        ensures { result ≡ record { whole = whole; list = [] } }
    {
        Found {
            strengths: Vec::new(alloc),
            kept: Vec::new(alloc),
            whole,
            ahead: 0,
            read: 0,
        }
    }

    /// What is found of `objects` objects that nothing reaches yet. The flag says whether all will be kept, or strengths alone.
    pub(crate) fn none(alloc: Global, objects: u32, whole: bool) -> Result<Found, NoMemory>
        ensures { IfOk result (λ f. f ≡ record { whole = whole; list = replicate objects unreached }) }
    {
        let strengths = vec![in alloc; Strength::Unreachable; objects as usize]?;
        let count = if whole { objects } else { 0 };
        let kept = vec![in alloc; PackedReached::unreached(); count as usize]?;
        Ok(Found {
            strengths,
            kept,
            whole,
            ahead: 0,
            read: 0,
        })
    }

    /// Whether all is kept of the objects, and not their strengths alone.
    pub(crate) fn is_whole(&self) -> bool
        ensures { result ≡ self.now.whole }
    {
        self.whole
    }

    /// How many objects there are.
    pub(crate) fn len(&self) -> usize
        ensures { result ≡ length self.now.list }
    {
        self.strengths.len()
    }

    /// Whether anything reaches an object.
    pub(crate) fn is_reached(&self, o: u32) -> bool
        requires { o < length self.now.list }
        ensures { result ≡ is_found (reached_at self.now.list o) }
    {
        self.strengths[o as usize].rank() > 0
    }

    /// Keeps something else of an object.
    pub(crate) fn put(&mut self, o: u32, reached: PackedReached)
        requires { o < length self.old.list }
        ensures { self.new ≡ record { whole = self.old.whole; list = set self.old.list o (seen self.old.whole reached) } }
    {
        self.strengths[o as usize] = reached.strength();
        if self.whole {
            self.kept[o as usize] = reached;
        }
    }

    /// Keeps another strength of an object, where strengths alone are kept.
    #[inline(always)]
    pub(crate) fn put_strength(&mut self, o: u32, strength: Strength)
        requires alone { self.old.whole ≡ false }
        requires object { o < length self.old.list }
        ensures { self.new ≡ record { whole = false; list = set self.old.list o (only_strength strength) } }
    {
        self.strengths[o as usize] = strength;
    }

    /// Reads what the next objects of a queue will ask for, once for each batch of them. Call it after each object that is
    /// taken from the queue. Nothing that is kept changes.
    pub(crate) fn look_ahead(&mut self, graph: &Graph, next: &[u32])
        ensures { self.new ≡ self.old }
    {
        if self.ahead > 0 {
            self.ahead -= 1;
            return;
        }
        let next = next.get(..BATCH).unwrap_or(next);
        self.ahead = next.len();
        let rows = read_rows(graph, next);
        let targets = read_targets(graph, next);
        self.read = rows.wrapping_add(targets);
    }

    /// What is kept of each object, in order.
    pub(crate) fn into_kept(self) -> Vec<PackedReached>
        requires { self.whole ≡ true }
        ensures { result.items ≡ self.list }
    {
        let Self {
            strengths,
            kept,
            whole: _,
            ahead: _,
            read: _,
        } = self;
        drop(strengths);
        kept
    }

    /// The strength of each object, in order.
    pub(crate) fn into_strengths(self) -> Vec<Strength>
        ensures { result.items ≡ map strength_of self.list }
    {
        let Self {
            strengths,
            kept,
            whole: _,
            ahead: _,
            read: _,
        } = self;
        drop(kept);
        strengths
    }
}
