//! The edges and roots of a graph, read one at a time: all that a repair sees of a graph.
//!
//! The trait `Edges` gives, for each object, its edges out, the edges into it, and the roots on it, each by an index.
//! They are there whether they stand or not; each comes with a flag that says which (`EdgeMark`, `RootMark`). Reading
//! one edge or root is a look, and `looks` counts them. Reading a length is no look. The law `AreRows` (`hd_terms`)
//! ties these rows to what stands, so a proof over any implementation can count on it.
//!
//! A thread that looks at edges has rows of its own (`unseen`), and what it counts is added to the others (`add_looks`).
//!
//! A `Held` names an edge or a root by the object that it leads to and the support that it is for that object. Lists of
//! losses and gains are lists of these.
//!
//! The trait keeps `hd_repair` apart from graphs and logs. `View` of `hd_view` is the implementation that states use.
#![tactic(auto)]

ghost use Rattle.std.specs.Prelude.{◌≡◌, ◌+◌, ◌-◌, ◌^◌, ◌<◌, ℕ, Some, min, length, slice_get};
ghost use Rattle.hd_edges.specs.Marks.{marked_edge, marked_root};

use hd_terms::{EdgeKind, Mode, Slot, Support};
use std::marker::Model;

/// An edge, and whether it stands.
#[derive(Clone, Copy)]
pub struct EdgeMark {
    /// The number of the object that it is from.
    pub source: u32,
    /// The slot that it is in.
    pub slot: Slot,
    /// The number of the object that it leads to.
    pub target: u32,
    /// The kind of the reference.
    pub kind: EdgeKind,
    /// Whether no live edit takes it away.
    pub stands: bool,
}

/// A root on an object, and whether it stands.
#[derive(Clone, Copy)]
pub struct RootMark {
    /// Its number among the roots.
    pub number: u64,
    /// The number of the object that it is on.
    pub target: u32,
    /// Whether no live edit drops it.
    pub stands: bool,
}

/// An edge or a root by what it holds: the object that it leads to, and the support that it is for that object.
#[derive(Clone, Copy)]
pub struct Held {
    target: u32,
    holder: Support,
}

impl Model for Held {
    ghost use Rattle.hd_terms.specs.Regions.{Holding};

    ghost Value = { Holding };

    ghost view = { λ h. record { target = h.target; holder = h.holder } };

    ghost inverse = { λ h. record { target = h.target; holder = h.holder } };
}

impl Held {
    /// What holds an object.
    pub fn new(target: u32, holder: Support) -> Held
        ensures { result ≡ record { target = target; holder = holder } }
    {
        Held { target, holder }
    }

    /// The number of the object that it leads to.
    pub fn target(self) -> u32
        ensures { result ≡ self.target }
    {
        self.target
    }

    /// The support that it is for that object.
    pub fn holder(self) -> Support
        ensures { result ≡ self.holder }
    {
        self.holder
    }
}

/// The edges and roots of a graph, by object. Each edge and each root that is read is a look; lengths are none.
pub trait Edges {
    ghost use Rattle.hd_terms.specs.EdgeRows.{Rows, AreRows};

    /// What can be looked at.
    ghost rows: { Self → Rows };

    /// How many looks were made. The count stays at `u64::MAX`.
    ghost look_count: { Self → ℕ };

    /// How phantom references are followed.
    fn mode(&self) -> Mode
        ensures { result ≡ (rows self.now).standing.mode };

    /// How many objects there are.
    fn objects(&self) -> u32
        ensures { result ≡ (rows self.now).objects };

    /// How many edges an object has, standing or not.
    fn out_len(&self, o: u32) -> u32
        requires { o < (rows self.now).objects }
        ensures { result ≡ length ((rows self.now).out o) };

    /// Reads where the edges from an object lie, if there is an object of this number, so that a look at them waits less for
    /// memory. No edge is read. The answer means nothing.
    fn read_ahead(&self, o: u32) -> u32;

    /// The edge at an index of those from an object.
    fn out(&mut self, o: u32, i: u32) -> EdgeMark
        requires object { o < (rows self.old).objects }
        requires index { i < length ((rows self.old).out o) }
        ensures value { slice_get ((rows self.old).out o) i ≡ Some (marked_edge result) }
        ensures same { rows self.new ≡ rows self.old }
        ensures counted { look_count self.new ≡ min (look_count self.old + 1) (2 ^ 64 - 1) };

    /// How many edges lead to an object, standing or not.
    fn into_len(&self, o: u32) -> u32
        requires { o < (rows self.now).objects }
        ensures { result ≡ length ((rows self.now).into o) };

    /// The edge at an index of those to an object.
    fn into(&mut self, o: u32, i: u32) -> EdgeMark
        requires object { o < (rows self.old).objects }
        requires index { i < length ((rows self.old).into o) }
        ensures value { slice_get ((rows self.old).into o) i ≡ Some (marked_edge result) }
        ensures same { rows self.new ≡ rows self.old }
        ensures counted { look_count self.new ≡ min (look_count self.old + 1) (2 ^ 64 - 1) };

    /// How many roots are on an object, standing or not.
    fn root_len(&self, o: u32) -> u32
        requires { o < (rows self.now).objects }
        ensures { result ≡ length ((rows self.now).roots o) };

    /// The root at an index of those on an object.
    fn root(&mut self, o: u32, i: u32) -> RootMark
        requires object { o < (rows self.old).objects }
        requires index { i < length ((rows self.old).roots o) }
        ensures value { slice_get ((rows self.old).roots o) i ≡ Some (marked_root result) }
        ensures same { rows self.new ≡ rows self.old }
        ensures counted { look_count self.new ≡ min (look_count self.old + 1) (2 ^ 64 - 1) };

    /// How many looks were made. The count stays at `u64::MAX`.
    fn looks(&self) -> u64
        ensures { result ≡ look_count self.now };

    /// The same edges and roots, of which no look is made yet: for a thread of its own.
    fn unseen(&self) -> Self
        ensures same { rows result ≡ rows self.now }
        ensures none { look_count result ≡ 0 };

    /// Counts `looks` looks more, which were made by another thread.
    fn add_looks(&mut self, looks: u64)
        ensures same { rows self.new ≡ rows self.old }
        ensures counted { look_count self.new ≡ min (look_count self.old + looks) (2 ^ 64 - 1) };

    /// The rows are those of what stands.
    ghost lawful: { (e : Self) → AreRows (rows e) };
}
