//! Of each object the slots that refer to it, and the roots on it; and the references through referents.
ghost use Rattle.std.specs.Prelude.{◌≡◌, ◌+◌, ◌<◌, ◌^◌, length, slice_get, Some, IfOk};
ghost use Rattle.std.specs.List.{filter_map, enumerate_from};
ghost use Rattle.hd_reverse.specs.Numbers.{root_number};
ghost use Rattle.hd_reverse.specs.Reverse.{referrers_in, roots_in, IsReverseOf};

use crate::numbers::{NumberOn, NumbersByObject};
use crate::passes::filled_rows;
use crate::referrer::Referrer;
use hd_graph::{Graph, KindLists};
use hd_terms::NoMemory;
use std::alloc::Global;
use std::marker::Model;
use std::thread::Threads;

/// What a graph has to be asked for once it is edited: of each object the slots that refer to it, in the order of their objects and
/// indexes, and the roots of the dump on it, in their order; and of each kind the references through referents. It takes 8 bytes a
/// reference, 4 an object, 8 a root, and 8 a reference object.
pub struct ReverseRows {
    starts: Vec<u32>,
    referrers: Vec<Referrer>,
    roots: NumbersByObject,
    kinds: KindLists,
}

impl Drop for ReverseRows {
    /// Drops the fields. A derived drop would be proved anew at each place that lets go of one.
    fn drop(self) {
        let Self {
            starts,
            referrers,
            roots,
            kinds,
        } = self;
    }
}

impl Model for ReverseRows {
    ghost use Rattle.hd_reverse.specs.Reverse.{Reverse};

    ghost Value = { Reverse };

    ghost use Rattle.hd_reverse.specs.ReverseInside.{reverse_of, IsReverse};

    ghost view = { reverse_of };

    ghost invariant = { IsReverse };
}

/// The dump's roots that are on objects, with the numbers of these.
fn root_numbers(alloc: Global, graph: &Graph) -> Result<Vec<NumberOn>, NoMemory>
    ensures numbers { IfOk result (λ v. v.items ≡ filter_map (root_number graph.now) (enumerate_from 0 graph.now.roots)) }
    ensures few { IfOk result (λ v. length v.items < 2 ^ 32) }
{
    let mut numbers = Vec::with_capacity(alloc, graph.roots_len() as usize)?;
    for number in 0..graph.roots_len() {
        if let Some(object) = graph.roots(number).object {
            numbers.push(NumberOn { object, number })?;
        }
    }
    Ok(numbers)
}

impl ReverseRows {
    /// The slots and roots of a graph by the objects that they refer to, and its references through referents by their kinds.
    ///
    /// # Errors
    ///
    /// Memory ran out, or there are 2^32 references or more, which no file has.
    pub fn of<R: Threads + Sync>(
        rt: &R,
        alloc: Global,
        graph: &Graph,
    ) -> Result<ReverseRows, NoMemory>
        ensures { IfOk result (λ r. IsReverseOf graph.now r) }
    {
        let (starts, referrers) = filled_rows(alloc, graph)?;
        let roots = NumbersByObject::of(root_numbers(alloc, graph)?)?;
        let kinds = graph.kind_lists(rt, alloc)?;
        Ok(ReverseRows {
            starts,
            referrers,
            roots,
            kinds,
        })
    }

    /// The graph's references through referents, by their kinds.
    pub fn kinds(&self) -> &KindLists
        ensures { result.now ≡ self.now.kinds }
    {
        &self.kinds
    }

    /// How many slots refer to an object of the dump.
    pub fn len(&self) -> u64
        ensures { result ≡ length self.now.referrers }
    {
        self.referrers.len() as u64
    }

    /// How many slots refer to an object.
    pub fn into_len(&self, o: u32) -> u32
        requires { o + 1 < length self.now.starts }
        ensures { result ≡ length (referrers_in self.now o) }
    {
        self.starts[o as usize + 1] - self.starts[o as usize]
    }

    /// The slot at an index of those that refer to an object.
    pub fn into(&self, o: u32, i: u32) -> Referrer
        requires object { o + 1 < length self.now.starts }
        requires index { i < length (referrers_in self.now o) }
        ensures { slice_get (referrers_in self.now o) i ≡ Some result }
    {
        self.referrers[self.starts[o as usize] as usize + i as usize]
    }

    /// How many of the dump's roots are on an object.
    pub fn roots_len(&self, o: u32) -> u32
        ensures { result ≡ length (roots_in self.now o) }
    {
        self.roots.len(o)
    }

    /// The number of the root at an index of those on an object.
    pub fn root(&self, o: u32, i: u32) -> u32
        requires { i < length (roots_in self.now o) }
        ensures { slice_get (roots_in self.now o) i ≡ Some result }
    {
        self.roots.get(o, i)
    }
}
