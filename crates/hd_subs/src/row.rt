//! A sub-record packed into 32 bytes.
ghost use Rattle.std.specs.Prelude.{◌+◌, ◌<◌, ◌^◌};

use hd_terms::RootKind;

/// What a row is of. The kind of an instance or an object array says how long IDs are too, a primitive array's of what type
/// its elements are.
#[derive(Clone, Copy)]
pub enum Kind {
    Root(RootKind),
    Class,
    InstanceOfFour,
    InstanceOfEight,
    ArrayOfFour,
    ArrayOfEight,
    PrimArray(u8),
}

/// A sub-record in 32 bytes: `offset` is that of its tag in the file, `count` is an array's, and of an instance the bytes of its
/// values. `class` is the ID of the class of an instance or an object array, and of a class its index among the classes of
/// the list. The values of an instance and the IDs of an array's elements lie 17 or 25 bytes behind the tag.
#[derive(Clone, Copy)]
pub struct Row {
    pub id: u64,
    pub class: u64,
    pub offset: u64,
    pub count: u32,
    pub kind: Kind,
    ghost in_range: { offset + 25 < 2 ^ 64 },
}

const _: () = prove!(size_of::<Row>() <= 32);
