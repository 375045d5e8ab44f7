//! What is kept of the kind and the recorded bytes of one object.

/// A shape. Of a class it is the index of its names among those of the classes, of an instance the index of its class's layout
/// among those that were made.
#[derive(Clone, Copy)]
pub(crate) enum PackedShape {
    /// An object array, or an instance of a class that isn't known.
    ObjectArray { bytes: u32 },
    /// A primitive array, with the type of its elements as HPROF numbers the basic types, 4 to 11.
    PrimitiveArray { element: u8, bytes: u32 },
    /// A class object.
    Class { index: u32 },
    /// An instance of a class that is known.
    Instance { index: u32 },
}

const _: () = prove!(size_of::<PackedShape>() <= 8);
