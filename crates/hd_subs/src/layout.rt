//! Where the fields of a sub-record lie behind its tag.
ghost use Rattle.std.specs.Prelude.{◌≡◌, ◌+◌, ◌<◌, ◌^◌};
ghost use Rattle.hd_subs.specs.Layout as layout;

use hd_terms::IdSize;

/// The tag of a CLASS DUMP.
pub(crate) const CLASS_DUMP: u8 = 0x20;

/// The tag of an INSTANCE DUMP.
pub(crate) const INSTANCE_DUMP: u8 = 0x21;

/// The tag of an OBJECT ARRAY DUMP.
pub(crate) const OBJECT_ARRAY_DUMP: u8 = 0x22;

/// The tag of a PRIMITIVE ARRAY DUMP.
pub(crate) const PRIMITIVE_ARRAY_DUMP: u8 = 0x23;

/// The bytes of a tag and a serial number.
const TAG_AND_SERIAL: u64 = 5;

/// The bytes of a tag, a serial number and a count.
const TAG_SERIAL_AND_COUNT: u64 = 9;

/// The file offset of the ID of an instance's class, or of a class's super class, by the offset of the sub-record's tag: behind
/// the tag, the ID of the object and a serial number.
pub fn class_offset(id_size: IdSize, tag: u64) -> u64
    requires { tag + 13 < 2 ^ 64 }
    ensures { result ≡ layout.class_offset id_size tag }
{
    tag + TAG_AND_SERIAL + id_size.bytes() as u64
}

/// The file offset of the ID of an object array's class, by the offset of the sub-record's tag: behind the tag, the ID of the
/// array, a serial number and the count.
pub fn array_class_offset(id_size: IdSize, tag: u64) -> u64
    requires { tag + 17 < 2 ^ 64 }
    ensures { result ≡ layout.array_class_offset id_size tag }
{
    tag + TAG_SERIAL_AND_COUNT + id_size.bytes() as u64
}

/// The file offset of the values of an instance, or of the elements of an object array, by the offset of the sub-record's tag:
/// behind the tag, the IDs of the object and of its class, a serial number and the count.
pub(crate) fn elements_offset(id_size: IdSize, tag: u64) -> u64
    requires { tag + 25 < 2 ^ 64 }
    ensures { result ≡ layout.elements_offset id_size tag }
{
    match id_size {
        IdSize::Four => tag + 17,
        IdSize::Eight => tag + 25,
    }
}
