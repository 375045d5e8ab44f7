//! Reading one sub-record that is no class.
ghost use Rattle.std.specs.Prelude.{◌≡◌, ◌≢◌, ◌+◌, ◌≤◌, ◌<◌, ◌^◌, true, [], ◌∷◌, length, drop, slice_index, IfSome, IfNone, IfOk, IfErr, MatchOption};
ghost use Rattle.byteorder.specs.Endian.{big_number};
ghost use Rattle.hd_terms.specs.declared.RootKind.{RootKind};
ghost use Rattle.hd_terms.specs.declared.errors.Cause.TheVariants.{ShortSub};
ghost use Rattle.hd_terms.specs.Records.{id_len};
ghost use Rattle.hd_terms.specs.SubRecords.{root_tag, root_more};
ghost use Rattle.hd_terms.specs.Types.{is_element_type};
ghost use Rattle.hd_terms.specs.ReadFaults.{IsStuck};
ghost use Rattle.hd_subs.specs.Layout.{instance_len, array_len, primitive_array_len};
ghost use Rattle.hd_subs.specs.Rows.{row_view, instance_kind, array_kind};
ghost use Rattle.hd_subs.specs.declared.row.Kind.TheVariants.{Class};
ghost use Rattle.hd_subs.specs.ParsedSubs.{BeginsWithSub, IsBehind, IsPackedFrom, IsUnpacked, IsNoRow};

use crate::layout::{CLASS_DUMP, INSTANCE_DUMP, OBJECT_ARRAY_DUMP, PRIMITIVE_ARRAY_DUMP};
use crate::row::{Kind, Row};
use crate::types::bytes_of_element;
use byteorder::{BigEndian, ByteOrder};
use hd_terms::{Cause, IdSize, RootKind};

/// The sub-record that some bytes begin with, which is no class, and the bytes after it.
#[derive(Clone, Copy)]
pub(crate) struct ParsedSub<'a> {
    pub(crate) row: Row,
    pub(crate) after: &'a [u8],
    ghost no_class: { row.kind ≢ Class },
}

/// The kind of an instance where IDs have this size.
fn kind_of_instance(id_size: IdSize) -> Kind
    ensures { result ≡ instance_kind id_size }
{
    match id_size {
        IdSize::Four => Kind::InstanceOfFour,
        IdSize::Eight => Kind::InstanceOfEight,
    }
}

/// The kind of an array whose IDs have this size.
fn kind_of_array(id_size: IdSize) -> Kind
    ensures { result ≡ array_kind id_size }
{
    match id_size {
        IdSize::Four => Kind::ArrayOfFour,
        IdSize::Eight => Kind::ArrayOfEight,
    }
}

/// The kind of the root with this tag, if it is a root's.
fn root_kind(tag: u8) -> Option<RootKind>
    ensures some { IfSome result (λ kind. root_tag kind ≡ tag) }
    ensures none { IfNone result ((kind : RootKind) → root_tag kind ≢ tag) }
{
    let kind = match tag {
        0xff => RootKind::Unknown,
        0x01 => RootKind::JniGlobal,
        0x02 => RootKind::JniLocal,
        0x03 => RootKind::JavaFrame,
        0x04 => RootKind::NativeStack,
        0x05 => RootKind::StickyClass,
        0x06 => RootKind::ThreadBlock,
        0x07 => RootKind::MonitorUsed,
        0x08 => RootKind::Thread,
        _ => return None,
    };
    Some(kind)
}

/// How many bytes a root of this kind has behind the ID of its object.
fn bytes_behind_id(kind: RootKind, id_size: IdSize) -> usize
    ensures { result ≡ root_more id_size kind }
{
    match kind {
        RootKind::Unknown | RootKind::StickyClass | RootKind::MonitorUsed => 0,
        RootKind::JniGlobal => id_size.bytes(),
        RootKind::NativeStack | RootKind::ThreadBlock => 4,
        RootKind::JniLocal | RootKind::JavaFrame | RootKind::Thread => 8,
    }
}

/// The ROOT of this kind whose fields these bytes begin with, unless they run out.
fn read_root(kind: RootKind, fields: &[u8], id_size: IdSize, offset: u64) -> Option<ParsedSub<'_>>
    requires { offset + 25 < 2 ^ 64 }
    ensures { MatchOption result (IsStuck id_size (root_tag kind ∷ fields.now) ShortSub) (λ f. BeginsWithSub id_size offset (root_tag kind ∷ fields.now) (row_view [] f.row) f.after.now) }
{
    let len = id_size.bytes() + bytes_behind_id(kind, id_size);
    if fields.len() < len {
        return None;
    }
    let row = Row {
        id: id_size.read(fields),
        class: 0,
        offset,
        count: 0,
        kind: Kind::Root(kind),
    };
    Some(ParsedSub {
        row,
        after: &fields[len..],
    })
}

/// The count of an array or an instance whose fields begin with IDs, of this many bytes together, and a serial number.
fn read_count(fields: &[u8], id_len: usize) -> u32
    requires { id_len + 8 ≤ length fields.now }
    ensures { result ≡ big_number 4 (drop (id_len + 4) fields.now) }
{
    BigEndian::read_u32(&fields[id_len + 4..id_len + 8])
}

/// The bytes behind an INSTANCE DUMP whose fields these bytes begin with, unless they run out.
fn behind_instance(fields: &[u8], id_size: IdSize) -> Option<&[u8]>
    ensures { MatchOption result (IsStuck id_size (0x21 ∷ fields.now) ShortSub) (λ after. IsBehind (instance_len id_size fields.now) fields.now after.now) }
{
    let id_len = id_size.bytes();
    if fields.len() < 2 * id_len + 8 {
        return None;
    }
    let len = 2 * id_len + 8 + read_count(fields, 2 * id_len) as usize;
    if fields.len() < len {
        return None;
    }
    Some(&fields[len..])
}

/// The bytes behind an OBJECT ARRAY DUMP whose fields these bytes begin with, unless they run out.
fn behind_array(fields: &[u8], id_size: IdSize) -> Option<&[u8]>
    ensures { MatchOption result (IsStuck id_size (0x22 ∷ fields.now) ShortSub) (λ after. IsBehind (array_len id_size fields.now) fields.now after.now) }
{
    let id_len = id_size.bytes();
    if fields.len() < 2 * id_len + 8 {
        return None;
    }
    let len = 2 * id_len + 8 + id_len * read_count(fields, id_len) as usize;
    if fields.len() < len {
        return None;
    }
    Some(&fields[len..])
}

/// The bytes behind a PRIMITIVE ARRAY DUMP whose fields these bytes begin with, or why there is none.
fn behind_primitive_array(fields: &[u8], id_size: IdSize) -> Result<&[u8], Cause>
    ensures ok { IfOk result (λ after. IsBehind (primitive_array_len id_size fields.now) fields.now after.now × (is_element_type (slice_index fields.now (id_len id_size + 8)) ≡ true)) }
    ensures err { IfErr result (λ cause. IsStuck id_size (0x23 ∷ fields.now) cause) }
{
    let id_len = id_size.bytes();
    if fields.len() < id_len + 9 {
        return Err(Cause::ShortSub);
    }
    let Some(element_bytes) = bytes_of_element(fields[id_len + 8]) else {
        return Err(Cause::UnknownType);
    };
    let len = id_len + 9 + element_bytes * read_count(fields, id_len) as usize;
    if fields.len() < len {
        return Err(Cause::ShortSub);
    }
    Ok(&fields[len..])
}

/// The bytes behind the instance or the array of this tag whose fields `fields` begins with. `None` for another tag, or where it
/// can't be read.
#[inline(always)]
pub(crate) fn behind_packed(tag: u8, fields: &[u8], id_size: IdSize) -> Option<&[u8]>
    ensures { MatchOption result (IsUnpacked id_size tag fields.now) (λ after. IsPackedFrom id_size (tag ∷ fields.now) after.now) }
{
    match tag {
        INSTANCE_DUMP => behind_instance(fields, id_size),
        OBJECT_ARRAY_DUMP => behind_array(fields, id_size),
        PRIMITIVE_ARRAY_DUMP => behind_primitive_array(fields, id_size).ok(),
        _ => None,
    }
}

/// The INSTANCE DUMP whose fields these bytes begin with, unless they run out.
fn read_instance(fields: &[u8], id_size: IdSize, offset: u64) -> Option<ParsedSub<'_>>
    requires { offset + 25 < 2 ^ 64 }
    ensures { MatchOption result (IsStuck id_size (0x21 ∷ fields.now) ShortSub) (λ f. BeginsWithSub id_size offset (0x21 ∷ fields.now) (row_view [] f.row) f.after.now) }
{
    let after = behind_instance(fields, id_size)?;
    let id_len = id_size.bytes();
    let row = Row {
        id: id_size.read(fields),
        class: id_size.read(&fields[id_len + 4..]),
        offset,
        count: read_count(fields, 2 * id_len),
        kind: kind_of_instance(id_size),
    };
    Some(ParsedSub { row, after })
}

/// The OBJECT ARRAY DUMP whose fields these bytes begin with, unless they run out.
fn read_array(fields: &[u8], id_size: IdSize, offset: u64) -> Option<ParsedSub<'_>>
    requires { offset + 25 < 2 ^ 64 }
    ensures { MatchOption result (IsStuck id_size (0x22 ∷ fields.now) ShortSub) (λ f. BeginsWithSub id_size offset (0x22 ∷ fields.now) (row_view [] f.row) f.after.now) }
{
    let after = behind_array(fields, id_size)?;
    let id_len = id_size.bytes();
    let row = Row {
        id: id_size.read(fields),
        class: id_size.read(&fields[id_len + 8..]),
        offset,
        count: read_count(fields, id_len),
        kind: kind_of_array(id_size),
    };
    Some(ParsedSub { row, after })
}

/// Why no row can be read.
#[derive(Clone, Copy)]
pub(crate) enum NoRow {
    /// The tag is that of a class.
    IsClass,
    Fault(Cause),
}

/// The PRIMITIVE ARRAY DUMP whose fields these bytes begin with, or why there is none.
fn read_primitive_array(fields: &[u8], id_size: IdSize, offset: u64) -> Result<ParsedSub<'_>, NoRow>
    requires { offset + 25 < 2 ^ 64 }
    ensures ok { IfOk result (λ f. BeginsWithSub id_size offset (0x23 ∷ fields.now) (row_view [] f.row) f.after.now) }
    ensures err { IfErr result (λ why. IsNoRow id_size 0x23 fields.now why) }
{
    let after = match behind_primitive_array(fields, id_size) {
        Ok(after) => after,
        Err(cause) => return Err(NoRow::Fault(cause)),
    };
    let id_len = id_size.bytes();
    let row = Row {
        id: id_size.read(fields),
        class: 0,
        offset,
        count: read_count(fields, id_len),
        kind: Kind::PrimArray(fields[id_len + 8]),
    };
    Ok(ParsedSub { row, after })
}

/// The sub-record of a tag and of the fields that these bytes begin with, or why there is none that is no class.
pub(crate) fn read_row(
    tag: u8,
    fields: &[u8],
    id_size: IdSize,
    offset: u64,
) -> Result<ParsedSub<'_>, NoRow>
    requires { offset + 25 < 2 ^ 64 }
    ensures ok { IfOk result (λ f. BeginsWithSub id_size offset (tag ∷ fields.now) (row_view [] f.row) f.after.now) }
    ensures err { IfErr result (λ why. IsNoRow id_size tag fields.now why) }
{
    let parsed = match tag {
        INSTANCE_DUMP => read_instance(fields, id_size, offset),
        OBJECT_ARRAY_DUMP => read_array(fields, id_size, offset),
        PRIMITIVE_ARRAY_DUMP => return read_primitive_array(fields, id_size, offset),
        _ => match root_kind(tag) {
            Some(kind) => read_root(kind, fields, id_size, offset),
            None if tag == CLASS_DUMP => return Err(NoRow::IsClass),
            None => return Err(NoRow::Fault(Cause::UnknownSub)),
        },
    };
    match parsed {
        Some(parsed) => Ok(parsed),
        None => Err(NoRow::Fault(Cause::ShortSub)),
    }
}
