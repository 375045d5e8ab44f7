//! Reading the fields of a CLASS DUMP.
ghost use Rattle.std.specs.Prelude.{◌≡◌, ◌+◌, ◌*◌, ◌≤◌, ◌<◌, ◌^◌, true, false, ◌∷◌, length, drop, map, get_or, IfOk, IfErr, MatchOption};
ghost use Rattle.byteorder.specs.Endian.{big_number};
ghost use Rattle.hd_terms.specs.Records.{id_len};
ghost use Rattle.hd_terms.specs.SubRecords.{Class, IsClassHead, IsClassValue, IsClassField, IsCounted, class_head_text, value_text, field_text, counted_text};
ghost use Rattle.hd_terms.specs.Types.{is_type, value_len};
ghost use Rattle.hd_subs.specs.Views.{constant_view, static_view, field_view, class_view};
ghost use Rattle.hd_subs.specs.ParsedSubs.{BeginsWithSub};
ghost use Rattle.hd_subs.specs.Parts.{BeginsWith, EndsInside, HasOtherType, HasCount, BeginsWithType, IsTypeStop, IsItemStop, IsListStop, IsClassStop, list_at, typed_item, static_item, field_at, head_item};

use crate::class::{ClassDump, Constant, Field, Static};
use crate::types::bytes_of_element;
use byteorder::{BigEndian, ByteOrder};
use hd_terms::{IdSize, Span};
use std::alloc::{AllocFailed, Global};

/// What is left of a segment, and the file offset of its first byte.
#[derive(Clone, Copy)]
struct Cursor<'a> {
    rest: &'a [u8],
    at: u64,
    ghost in_range: { at + length rest.now < 2 ^ 64 },
}

impl<'a> Cursor<'a> {
    /// What is left behind `len` bytes, if they are there.
    fn skip(self, len: usize) -> Option<Cursor<'a>>
        ensures { MatchOption result (length self.entry.rest.now < len) (λ after. (len ≤ length self.entry.rest.now) × (after.rest.now ≡ drop len self.entry.rest.now) × (after.at ≡ self.entry.at + len)) }
    {
        if self.rest.len() < len {
            return None;
        }
        Some(Cursor {
            rest: &self.rest[len..],
            at: self.at + len as u64,
        })
    }
}

/// Why no class can be read.
#[derive(Clone, Copy)]
pub(crate) enum Stop {
    /// It runs past its segment.
    Short,
    /// A constant, a static or a field has an unknown type.
    UnknownType,
    /// Memory ran out.
    NoMemory,
}

impl<T: Drop> From<AllocFailed<T>> for Stop {
    ghost use Rattle.hd_subs.specs.declared.class_reading.Stop.TheVariants.{NoMemory};

    ghost from_gives = { λ _ e. e ≡ NoMemory };

    fn from(_error: AllocFailed<T>) -> Stop {
        Stop::NoMemory
    }
}

/// The IDs that stand before the lists of a class.
#[derive(Clone, Copy)]
struct Head {
    id: u64,
    super_id: u64,
    loader: u64,
    signers: u64,
    domain: u64,
}

/// The head of a class that these bytes begin with, unless they run out.
fn read_head(from: Cursor<'_>, id_size: IdSize) -> Option<(Head, Cursor<'_>)>
    ensures { MatchOption result (EndsInside (IsClassHead id_size) class_head_text from.entry.rest.now) (λ r. BeginsWith (IsClassHead id_size) class_head_text (head_item id_size) from.entry.at from.entry.rest.now r.0 r.1.rest.now r.1.at) }
{
    let id_len = id_size.bytes();
    let Some(after) = from.skip(7 * id_len + 8) else {
        return None;
    };
    let head = Head {
        id: id_size.read(from.rest),
        super_id: id_size.read(&from.rest[id_len + 4..]),
        loader: id_size.read(&from.rest[2 * id_len + 4..]),
        signers: id_size.read(&from.rest[3 * id_len + 4..]),
        domain: id_size.read(&from.rest[4 * id_len + 4..]),
    };
    Some((head, after))
}

/// The bytes of a value of this type, as HPROF numbers the basic types, if there is one.
fn bytes_of_value(code: u8, id_size: IdSize) -> Option<usize>
    ensures { MatchOption result (is_type code ≡ false) (λ bytes. (is_type code ≡ true) × (bytes ≡ value_len id_size code)) }
{
    match code {
        1 | 2 => Some(id_size.bytes()),
        _ => bytes_of_element(code),
    }
}

/// The type that stands behind a key of this many bytes, the bytes of its values, and what is behind the type.
fn read_type(
    from: Cursor<'_>,
    key_len: usize,
    id_size: IdSize,
) -> Result<(u8, usize, Cursor<'_>), Stop>
    requires { key_len ≤ 8 }
    ensures ok { IfOk result (λ r. BeginsWithType id_size key_len from.entry.at from.entry.rest.now r.0 r.1 r.2.rest.now r.2.at) }
    ensures err { IfErr result (λ stop. IsTypeStop key_len from.entry.rest.now stop) }
{
    let Some(after) = from.skip(key_len + 1) else {
        return Err(Stop::Short);
    };
    let code = from.rest[key_len];
    let Some(len) = bytes_of_value(code, id_size) else {
        return Err(Stop::UnknownType);
    };
    Ok((code, len, after))
}

/// A type and a value of it behind a key of this many bytes, which is what is kept of a constant.
fn read_typed(
    from: Cursor<'_>,
    key_len: usize,
    id_size: IdSize,
) -> Result<(Constant, Cursor<'_>), Stop>
    requires { key_len ≤ 8 }
    ensures ok { IfOk result (λ r. BeginsWith (IsClassValue id_size key_len) value_text (typed_item id_size key_len) from.entry.at from.entry.rest.now (constant_view r.0) r.1.rest.now r.1.at) }
    ensures err { IfErr result (λ stop. IsItemStop (IsClassValue id_size key_len) value_text key_len from.entry.rest.now stop) }
{
    let (code, len, value) = read_type(from, key_len, id_size)?;
    let Some(after) = value.skip(len) else {
        return Err(Stop::Short);
    };
    let constant = Constant {
        code,
        value: Span {
            start: value.at,
            len: len as u64,
        },
    };
    Ok((constant, after))
}

/// A static: the ID of its name, its type and its value.
fn read_static(from: Cursor<'_>, id_size: IdSize) -> Result<(Static, Cursor<'_>), Stop>
    ensures ok { IfOk result (λ r. BeginsWith (IsClassValue id_size (id_len id_size)) value_text (static_item id_size) from.entry.at from.entry.rest.now (static_view r.0) r.1.rest.now r.1.at) }
    ensures err { IfErr result (λ stop. IsItemStop (IsClassValue id_size (id_len id_size)) value_text (id_len id_size) from.entry.rest.now stop) }
{
    let (typed, after) = read_typed(from, id_size.bytes(), id_size)?;
    let item = Static {
        name: id_size.read(from.rest),
        code: typed.code,
        value: typed.value,
    };
    Ok((item, after))
}

/// An instance field: the ID of its name, and its type.
fn read_field(from: Cursor<'_>, id_size: IdSize) -> Result<(Field, Cursor<'_>), Stop>
    ensures ok { IfOk result (λ r. BeginsWith (IsClassField id_size) field_text (field_at id_size) from.entry.at from.entry.rest.now (field_view r.0) r.1.rest.now r.1.at) }
    ensures err { IfErr result (λ stop. IsItemStop (IsClassField id_size) field_text (id_len id_size) from.entry.rest.now stop) }
{
    let (code, _, after) = read_type(from, id_size.bytes(), id_size)?;
    let field = Field {
        name: id_size.read(from.rest),
        code,
    };
    Ok((field, after))
}

/// How many items a list has, and what is behind that number, unless the bytes run out.
fn read_count(from: Cursor<'_>) -> Option<(u16, Cursor<'_>)>
    ensures { MatchOption result (length from.entry.rest.now < 2) (λ r. HasCount from.entry.at from.entry.rest.now r.0 r.1.rest.now r.1.at) }
{
    let after = from.skip(2)?;
    Some((BigEndian::read_u16(from.rest), after))
}

/// The constants of a class.
fn read_constants(
    alloc: Global,
    from: Cursor<'_>,
    id_size: IdSize,
) -> Result<(Vec<Constant>, Cursor<'_>), Stop>
    ensures ok { IfOk result (λ r. BeginsWith (IsCounted (IsClassValue id_size 2)) (counted_text value_text) (list_at (typed_item id_size 2) value_text) from.entry.at from.entry.rest.now (map constant_view r.0.items) r.1.rest.now r.1.at) }
    ensures err { IfErr result (λ stop. IsListStop (IsClassValue id_size 2) value_text 2 from.entry.rest.now stop) }
{
    let Some((count, items)) = read_count(from) else {
        return Err(Stop::Short);
    };
    let mut rest = items;
    let mut constants = Vec::new(alloc);
    for _i in 0..count {
        let (constant, after) = read_typed(rest, 2, id_size)?;
        constants.push(constant)?;
        rest = after;
    }
    Ok((constants, rest))
}

/// The statics of a class.
fn read_statics(
    alloc: Global,
    from: Cursor<'_>,
    id_size: IdSize,
) -> Result<(Vec<Static>, Cursor<'_>), Stop>
    ensures ok { IfOk result (λ r. BeginsWith (IsCounted (IsClassValue id_size (id_len id_size))) (counted_text value_text) (list_at (static_item id_size) value_text) from.entry.at from.entry.rest.now (map static_view r.0.items) r.1.rest.now r.1.at) }
    ensures err { IfErr result (λ stop. IsListStop (IsClassValue id_size (id_len id_size)) value_text (id_len id_size) from.entry.rest.now stop) }
{
    let Some((count, items)) = read_count(from) else {
        return Err(Stop::Short);
    };
    let mut rest = items;
    let mut statics = Vec::new(alloc);
    for _i in 0..count {
        let (item, after) = read_static(rest, id_size)?;
        statics.push(item)?;
        rest = after;
    }
    Ok((statics, rest))
}

/// The instance fields that a class declares.
fn read_fields(
    alloc: Global,
    from: Cursor<'_>,
    id_size: IdSize,
) -> Result<(Vec<Field>, Cursor<'_>), Stop>
    ensures ok { IfOk result (λ r. BeginsWith (IsCounted (IsClassField id_size)) (counted_text field_text) (list_at (field_at id_size) field_text) from.entry.at from.entry.rest.now (map field_view r.0.items) r.1.rest.now r.1.at) }
    ensures err { IfErr result (λ stop. IsListStop (IsClassField id_size) field_text (id_len id_size) from.entry.rest.now stop) }
{
    let Some((count, items)) = read_count(from) else {
        return Err(Stop::Short);
    };
    let mut rest = items;
    let mut fields = Vec::new(alloc);
    for _i in 0..count {
        let (field, after) = read_field(rest, id_size)?;
        fields.push(field)?;
        rest = after;
    }
    Ok((fields, rest))
}

/// The CLASS DUMP whose tag lies at a file offset and whose fields these bytes begin with, and what is behind it.
///
/// Its parts are read from left to right: the first that is not all there, or whose type is none, stops the reading. No
/// memory is asked for before the bytes of an item were found.
pub(crate) fn read_class(
    alloc: Global,
    fields: &[u8],
    id_size: IdSize,
    offset: u64,
) -> Result<(ClassDump, &[u8]), Stop>
    requires { offset + 1 + length fields.now < 2 ^ 64 }
    ensures ok { IfOk result (λ r. BeginsWithSub id_size offset (0x20 ∷ fields.now) (record { offset = offset; item = Class (class_view r.0) }) r.1.now) }
    ensures err { IfErr result (λ stop. IsClassStop id_size fields.now stop) }
{
    let from = Cursor {
        rest: fields,
        at: offset + 1,
    };
    let Some((head, from)) = read_head(from, id_size) else {
        return Err(Stop::Short);
    };
    let (constants, from) = read_constants(alloc, from, id_size)?;
    let (statics, from) = read_statics(alloc, from, id_size)?;
    let (declared, from) = read_fields(alloc, from, id_size)?;
    let class = ClassDump {
        id: head.id,
        super_id: head.super_id,
        loader: head.loader,
        signers: head.signers,
        domain: head.domain,
        constants,
        statics,
        fields: declared,
    };
    Ok((class, from.rest))
}
