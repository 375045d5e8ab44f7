//! The plain types and the definitions that all crates of the workbench share.
//!
//! Contracts of other crates use the types of `src/` and cite the definitions of `specs/`. The crate hides nothing.
//!
//! The definitions have two halves, which meet at one record, the dump (`specs/Dump.antt`):
//!
//! - The file half says what the bytes of a file mean: its records (`Records`), sub-records (`SubRecords`, `Types`),
//!   roots (`Roots`), classes (`FirstRecords`, `Classes`), objects (`Objects`, `Slots`, `Groups`) and faults
//!   (`HeapFaults`, `ReadFaults`). None of it names a strength.
//! - The heap half says what stands under a log, which strength each object has, and what is shown of both. None of it
//!   names a byte of a file.
//!
//! What lines ask for and how they are answered stands in `hd_lines`, on which only those crates stand that speak of
//! lines.
//!
//! Definitions are relations, filters and whole lists, so that they are short to read. How to find an answer fast is
//! left to the crates that stand on this one.
//!
//! - `lib.rt`: strengths, kinds of references, slots, roots, edits, events, and the rows that replies show.
//! - `errors.rt`: read faults, refusals, and running out of memory.
//! - `slots.rt`: a slot as its kind and its number. `types.rt`: the basic types of HPROF and the bytes of their
//!   values.
//! - `laws.rt`: laws over the definitions. They are proved once, so that no other crate argues about paths, endless
//!   chains or two readings of one file.
//! - `examples.rt`: what the definitions make of the worked examples of `docs/DEFINITIONS.md`. Laws and examples are
//!   the contracts of functions with empty bodies.
//!
//! Sources: the HPROF binary format of the JDK's heap dumper, format names `JAVA PROFILE 1.0.2` and `JAVA PROFILE
//! 1.0.1`, and the section "Reachability" of the package specification of `java.lang.ref`, Java SE 17.
#![tactic(auto)]

mod errors;
mod examples;
mod laws;
mod slots;
mod types;

ghost use Rattle.std.specs.Prelude.{◌≡◌, ◌≤◌, length};
ghost use Rattle.byteorder.specs.Endian.{big_number};
ghost use Rattle.hd_terms.specs.Ranks.{rank, given_by, kind_of_references, least_passed_on, weaker_of};
ghost use Rattle.hd_terms.specs.Records.{id_len};

use byteorder::{BigEndian, ByteOrder};
pub use errors::{Cause, LogFault, NoMemory, ReadFault, Refusal};
pub use examples::{
    class_examples, edit_examples, file_examples, heap_examples, instance_examples, log_examples,
    total_examples,
};
pub use laws::{
    class_chains, desks_hold_one_history, lawful_logs, no_desk_is_foreign, one_reading,
    one_strength, settled_supports_give_strengths,
};
pub use slots::SlotKind;
pub use types::{element_len, is_id_type, value_len};

/// How well an object can be reached, the worst first.
///
/// The names are those of `java.lang.ref`. `Final` is what only a `FinalReference` leads to, as to an object with a
/// finalizer; that it stands between `Weak` and `Phantom` is this project's choice.
#[derive(Clone, Copy, Debug, PartialEq, Eq, PartialOrd, Ord)]
pub enum Strength {
    /// No root path leads to it.
    Unreachable,
    /// A phantom reference leads to it, how far says [`Mode`], and nothing better does.
    Phantom,
    /// It can be reached through a `FinalReference`, and not better.
    Final,
    /// It can be reached through a weak reference, and not better.
    Weak,
    /// It can be reached through a soft reference, and not better.
    Soft,
    /// It can be reached without going through any referent.
    Strong,
}

impl Strength {
    /// The rank, from 0 for unreachable to 5 for strong.
    pub fn rank(self) -> u8
        ensures { result ≡ rank self }
    {
        self as u8
    }

    /// The one of lesser rank.
    pub fn weaker(self, other: Strength) -> Strength
        ensures { result ≡ weaker_of self other }
    {
        if self.rank() <= other.rank() {
            self
        } else {
            other
        }
    }
}

/// What a reference goes through: a plain field, or the referent of a reference object of that class.
#[derive(Clone, Copy, Debug, PartialEq, Eq)]
pub enum EdgeKind {
    Strong,
    Soft,
    Weak,
    Final,
    Phantom,
}

impl EdgeKind {
    /// The strength that an edge of this kind gives at most.
    pub fn strength(self) -> Strength
        ensures { result ≡ given_by self }
    {
        match self {
            EdgeKind::Strong => Strength::Strong,
            EdgeKind::Soft => Strength::Soft,
            EdgeKind::Weak => Strength::Weak,
            EdgeKind::Final => Strength::Final,
            EdgeKind::Phantom => Strength::Phantom,
        }
    }
}

/// The kinds of reference objects that `java.lang.ref` has.
#[derive(Clone, Copy, Debug, PartialEq, Eq)]
pub enum RefKind {
    Soft,
    Weak,
    Final,
    Phantom,
}

impl RefKind {
    /// The kind of the edges that go through the referents of these reference objects.
    pub fn edge_kind(self) -> EdgeKind
        ensures { result ≡ kind_of_references self }
    {
        match self {
            RefKind::Soft => EdgeKind::Soft,
            RefKind::Weak => EdgeKind::Weak,
            RefKind::Final => EdgeKind::Final,
            RefKind::Phantom => EdgeKind::Phantom,
        }
    }
}

/// The most workers that decode a dump.
pub const MOST_WORKERS: u32 = 16;

/// How phantom references are followed, fixed when a dump is opened.
#[derive(Clone, Copy, Debug, PartialEq, Eq)]
pub enum Mode {
    /// A phantom reference makes its own referent phantom reachable, and nothing behind that.
    Direct,
    /// What a phantom reachable object refers to is phantom reachable too.
    Closure,
}

impl Mode {
    /// The least strength that an object must have for paths to go on from it.
    pub fn least_passed_on(self) -> Strength
        ensures { result ≡ least_passed_on self }
    {
        match self {
            Mode::Direct => Strength::Final,
            Mode::Closure => Strength::Phantom,
        }
    }
}

/// The size of the identifiers in a dump: 4 or 8 bytes, as the header says.
#[derive(Clone, Copy, Debug, PartialEq, Eq)]
pub enum IdSize {
    Four,
    Eight,
}

impl IdSize {
    /// The size in bytes, 4 or 8.
    pub fn bytes(self) -> usize
        ensures { result ≡ id_len self }
    {
        match self {
            IdSize::Four => 4,
            IdSize::Eight => 8,
        }
    }

    /// The identifier that some bytes begin with, its highest byte first.
    pub fn read(self, bytes: &[u8]) -> u64
        requires { id_len self ≤ length bytes.now }
        ensures { result ≡ big_number (id_len self) bytes.now }
    {
        match self {
            IdSize::Four => u64::from(BigEndian::read_u32(&bytes[..4])),
            IdSize::Eight => BigEndian::read_u64(&bytes[..8]),
        }
    }
}

/// A place of an object that holds a reference. Numbers count from 0 over all fields of the layout, all elements,
/// all statics or all constants, those of primitive types included.
#[derive(Clone, Copy, Debug, PartialEq, Eq)]
pub enum Slot {
    Field(u32),
    Element(u32),
    Static(u32),
    Const(u32),
    OfClass,
    Super,
    Loader,
    Signers,
    Domain,
}

/// How a slot of an object is shown under a log.
#[derive(Clone, Copy, PartialEq, Eq)]
pub enum SlotMode {
    /// Its reference stands.
    Stands,
    /// A live edit takes its reference away.
    Cut,
    /// Its ID is 0.
    Null,
    /// Its ID is no object's.
    Absent,
}

/// A slot of an object as it is shown under a log.
#[derive(Clone, Copy, PartialEq, Eq)]
pub struct SlotRow {
    pub slot: Slot,
    /// What a reference in the slot goes through.
    pub kind: EdgeKind,
    /// The ID in the slot, 0 for null.
    pub id: u64,
    pub mode: SlotMode,
}

/// A reference to an object as it is shown under a log.
#[derive(Clone, Copy)]
pub struct IntoRow {
    /// The ID of the object that the reference is from.
    pub source: u64,
    pub slot: Slot,
    /// What the reference goes through.
    pub kind: EdgeKind,
    /// It stands, or a live edit takes it away.
    pub mode: SlotMode,
}

/// A what-if edit. It is never written to the dump. A `u64` is an object's ID, in `Drop` a root's number, in `CutAll` a class's ID.
#[derive(Clone, Copy, Debug, PartialEq, Eq)]
pub enum Edit {
    /// The reference in a slot of an object is taken away.
    Cut(u64, Slot),
    /// The referent of a reference object is cleared.
    Clear(u64),
    /// A root is dropped.
    Drop(u64),
    /// An object gets one more root.
    Add(u64),
    /// The referents of all reference objects of a kind are cleared.
    ClearAll(RefKind),
    /// The references in a field are taken away in all objects that are counted under a class. Fields are numbered in the layout
    /// of the class. Classes below it are counted for themselves.
    CutAll(u64, u32),
}

/// How a root is shown under a log.
#[derive(Clone, Copy, PartialEq, Eq)]
pub enum RootMode {
    /// It stands, and holds its object.
    Stands,
    /// A live edit drops it.
    Dropped,
    /// Its ID is no object's, so it holds nothing, dropped or not.
    Absent,
}

/// A root as it is shown under a log: one of the dump's, or one that a live edit adds.
#[derive(Clone, Copy, PartialEq, Eq)]
pub struct RootRow {
    /// The dump's n roots have the numbers from 0, in file order; the root that event k adds has the number n + k.
    pub number: u64,
    /// What the root is, none where an edit added it.
    pub kind: Option<RootKind>,
    /// The ID that it is on.
    pub id: u64,
    pub mode: RootMode,
}

/// What an event does.
#[derive(Clone, Copy, Debug, PartialEq, Eq)]
pub enum What {
    Do(Edit),
    /// Takes back the event of that number.
    Undo(u32),
}

/// One entry of the log of edits: who made it, and what it does.
#[derive(Clone, Copy, Debug, PartialEq, Eq)]
pub struct Event {
    pub who: u8,
    pub what: What,
}

/// What objects are counted under: the class of an instance or an object array, the element type of a primitive
/// array (4 to 11, as HPROF numbers the basic types), or all class objects. They are ordered so.
#[derive(Clone, Copy, Debug, PartialEq, Eq, PartialOrd, Ord)]
pub enum Group {
    Class(u64),
    Prim(u8),
    Classes,
}

/// The objects of a group that are meant, as those of a strength: how many there are, and their recorded bytes.
#[derive(Clone, Copy, PartialEq, Eq)]
pub struct ClassRow {
    pub group: Group,
    pub count: u64,
    pub bytes: u64,
}

/// The objects that have one strength at a mark and another one now: how many there are, and their recorded bytes.
#[derive(Clone, Copy, PartialEq, Eq)]
pub struct MovedRow {
    pub before: Strength,
    pub after: Strength,
    pub count: u64,
    pub bytes: u64,
}

/// What an object owes its strength to.
#[derive(Clone, Copy, PartialEq, Eq)]
pub enum Support {
    Nothing,
    /// The root of that number.
    Root(u64),
    /// The edge from a slot of the object of that number.
    Edge { source: u32, slot: Slot },
}

/// What a root of a dump is, after its sub-record's tag.
#[derive(Clone, Copy, Debug, PartialEq, Eq)]
pub enum RootKind {
    Unknown,
    JniGlobal,
    JniLocal,
    JavaFrame,
    NativeStack,
    StickyClass,
    ThreadBlock,
    MonitorUsed,
    Thread,
}

/// A part of the file: the place of its first byte, and its length in bytes.
#[derive(Clone, Copy, Debug, PartialEq, Eq)]
pub struct Span {
    pub start: u64,
    pub len: u64,
}

/// A text of the file, as a UTF8 record has it.
#[derive(Clone, Copy, Debug, PartialEq, Eq)]
pub struct Text {
    pub id: u64,
    /// Where its bytes stand in the file. There may be none.
    pub text: Span,
}

/// A class that was loaded, as a LOAD CLASS record has it.
#[derive(Clone, Copy, Debug, PartialEq, Eq)]
pub struct Load {
    /// The ID of the class object.
    pub class: u64,
    /// The ID of the text that is its name.
    pub name: u64,
}

/// How many of what a dump has.
#[derive(Clone, Copy)]
pub struct Counts {
    pub objects: u64,
    pub roots: u64,
    /// References from objects to objects.
    pub edges: u64,
    /// Slots whose ID is no object's.
    pub unresolved: u64,
    /// Object sub-records with the ID of an earlier one.
    pub repeated_objects: u64,
    /// UTF8 records with the ID of an earlier one.
    pub repeated_strings: u64,
    /// LOAD CLASS records with the class of an earlier one.
    pub repeated_loads: u64,
    /// Instances of a class that isn't known: its ID is 0 or no class's, or its chain isn't whole.
    pub opaque: u64,
}
