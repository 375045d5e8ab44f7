//! Sub-records that are read again from the bytes at their offsets.
ghost use Rattle.std.specs.Prelude.{◌≡◌, ◌+◌, ◌≤◌, length, drop};
ghost use Rattle.byteorder.specs.Endian.{big_number};
ghost use Rattle.hd_terms.specs.Records.{id_len};
ghost use Rattle.hd_subs.specs.Views.{item_view};
ghost use Rattle.hd_subs.specs.Packed.{packed_instance, packed_array, packed_primitive_array, packed_item};

use crate::layout::{
    INSTANCE_DUMP, OBJECT_ARRAY_DUMP, array_class_offset, class_offset, elements_offset,
};
use crate::sub::Item;
use byteorder::{BigEndian, ByteOrder};
use hd_terms::{IdSize, Span};

/// The most bytes from the tag of an instance or an array to its values or elements.
pub(crate) const HEAD: usize = 25;

/// The ID at an offset.
fn id_at(bytes: &[u8], id_size: IdSize, offset: usize) -> u64
    requires { offset + id_len id_size ≤ length bytes.now }
    ensures { result ≡ big_number (id_len id_size) (drop offset bytes.now) }
{
    id_size.read(&bytes[offset..])
}

/// The number of four bytes at an offset.
fn count_at(bytes: &[u8], offset: usize) -> u32
    requires { offset + 4 ≤ length bytes.now }
    ensures { result ≡ big_number 4 (drop offset bytes.now) }
{
    BigEndian::read_u32(&bytes[offset..offset + 4])
}

/// The INSTANCE DUMP whose tag lies at an offset.
fn read_instance(bytes: &[u8], id_size: IdSize, offset: u32) -> Item<'static>
    requires { offset + 25 ≤ length bytes.now }
    ensures { item_view result ≡ packed_instance id_size bytes.now offset }
{
    let tag = u64::from(offset);
    let class = class_offset(id_size, tag) as usize;
    let len = count_at(bytes, class + id_size.bytes());
    Item::Instance {
        id: id_at(bytes, id_size, offset as usize + 1),
        class: id_at(bytes, id_size, class),
        values: Span {
            start: elements_offset(id_size, tag),
            len: u64::from(len),
        },
    }
}

/// The OBJECT ARRAY DUMP whose tag lies at an offset.
fn read_array(bytes: &[u8], id_size: IdSize, offset: u32) -> Item<'static>
    requires { offset + 25 ≤ length bytes.now }
    ensures { item_view result ≡ packed_array id_size bytes.now offset }
{
    let tag = u64::from(offset);
    let class = array_class_offset(id_size, tag) as usize;
    let count = count_at(bytes, class_offset(id_size, tag) as usize);
    Item::ObjArray {
        id: id_at(bytes, id_size, offset as usize + 1),
        class: id_at(bytes, id_size, class),
        elements: Span {
            start: elements_offset(id_size, tag),
            len: id_size.bytes() as u64 * u64::from(count),
        },
    }
}

/// The PRIMITIVE ARRAY DUMP whose tag lies at an offset.
fn read_primitive_array(bytes: &[u8], id_size: IdSize, offset: u32) -> Item<'static>
    requires { offset + 25 ≤ length bytes.now }
    ensures { item_view result ≡ packed_primitive_array id_size bytes.now offset }
{
    let tag = u64::from(offset);
    Item::PrimArray {
        id: id_at(bytes, id_size, offset as usize + 1),
        element: bytes[array_class_offset(id_size, tag) as usize],
        count: count_at(bytes, class_offset(id_size, tag) as usize),
    }
}

/// What is read at an offset: by its tag an instance or an object array, and else a primitive array.
#[inline(always)]
pub(crate) fn read_packed(bytes: &[u8], id_size: IdSize, offset: u32) -> Item<'static>
    requires { offset + 25 ≤ length bytes.now }
    ensures { item_view result ≡ packed_item id_size bytes.now offset }
{
    match bytes[offset as usize] {
        INSTANCE_DUMP => read_instance(bytes, id_size, offset),
        OBJECT_ARRAY_DUMP => read_array(bytes, id_size, offset),
        _ => read_primitive_array(bytes, id_size, offset),
    }
}
