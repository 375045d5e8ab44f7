//! Reading the segments of a dump into one list of sub-records.
ghost use Rattle.std.specs.Prelude.{◌≡◌, ◌⊎◌, ◌↔◌, ◌+◌, ◌≤◌, ◌<◌, ◌^◌, [], ◌∷◌, ◌++◌, length, take, IsTrue, IfOk, IfErr, OnOk, OnErr};
ghost use Rattle.hd_terms.specs.declared.errors.Cause.TheVariants.{OutOfMemory};
ghost use Rattle.hd_terms.specs.Classes.{bytes_of_span};
ghost use Rattle.hd_terms.specs.ReadFaults.{fault};
ghost use Rattle.hd_terms.specs.SubRecords.{Class};
ghost use Rattle.hd_subs.specs.Views.{class_view};
ghost use Rattle.hd_subs.specs.Rows.{row_view, IsRowOver};
ghost use Rattle.hd_subs.specs.Packed.{first_row, packed_sub};
ghost use Rattle.hd_subs.specs.ParsedSubs.{IsFaultAt, LiesAt};
ghost use Rattle.hd_subs.specs.Reading.{AppendsSub, AppendsSegment, HasGrown, IsSegmentFaultOrMemory};

use crate::class::ClassDump;
use crate::class_reading::{Stop, read_class};
use crate::packed::HEAD;
use crate::reading::{NoRow, behind_packed, read_row};
use crate::row::Row;
use crate::sub_rows::SubRows;
use crate::subs::{FIRST_ROW, Subs};
use hd_terms::{Cause, IdSize, ReadFault, Span};
use std::alloc::{AllocError, Global};
use std::marker::Model;

/// Few sub-records are shorter, in bytes. For a segment room is made for as many of this length as it could have.
const SHORT_SUB: usize = 16;

/// Reads the segments of a dump, one after another, into one list of sub-records.
pub struct SegmentReader<'a> {
    bytes: &'a [u8],
    id_size: IdSize,
    /// Of each sub-record its file offset, or the number of its row.
    entries: Vec<u32>,
    rows: SubRows,
}

impl Drop for SegmentReader<'_> {
    /// Drops the fields. A derived drop would be proved anew at each place that lets go of one.
    fn drop(self) {
        let Self {
            bytes: _,
            id_size: _,
            entries,
            rows,
        } = self;
    }
}

impl<'a> Model for SegmentReader<'a> {
    ghost use Rattle.std.specs.Prelude.{map, length, All};
    ghost use Rattle.hd_subs.specs.Packed.{sub_of_entry, IsEntry};
    ghost use Rattle.hd_subs.specs.Reading.{Reader};

    ghost Value = { Reader };

    ghost view = { λ r. record { bytes = r.bytes.now; size = r.id_size; subs = map (sub_of_entry r.id_size r.bytes.now r.rows) r.entries.items } };

    ghost invariant = { λ r. All (IsEntry (length r.bytes.now) (length r.rows)) r.entries.items };
}

/// The number of the row that comes next. Out of memory is also answered where there are too many.
fn next_row(rows: &SubRows) -> Result<u32, AllocError>
    ensures { IfOk result (λ entry. entry ≡ first_row + length rows.now) }
{
    let index = rows.len();
    if index >= FIRST_ROW as usize {
        return Err(AllocError);
    }
    Ok(FIRST_ROW + index as u32)
}

impl<'a> SegmentReader<'a> {
    /// A reader that has read nothing yet. `bytes` is the whole file, `id_size` the size of its IDs.
    pub fn new(alloc: Global, bytes: &'a [u8], id_size: IdSize) -> SegmentReader<'a>
        ensures { result ≡ record { bytes = bytes.now; size = id_size; subs = [] } }
    {
        SegmentReader {
            bytes,
            id_size,
            entries: Vec::new(alloc),
            rows: SubRows::new(alloc),
        }
    }

    /// The sub-records that were read.
    pub fn into_subs(self) -> Subs<'a>
        ensures { result ≡ self.entry.subs }
    {
        let Self {
            bytes,
            id_size,
            entries,
            rows,
        } = self;
        Subs {
            bytes,
            id_size,
            entries,
            rows,
        }
    }

    /// Whether an instance or an array can be kept by the file offset of its tag alone.
    #[inline(always)]
    fn can_pack(&self, offset: u64) -> bool
        ensures { IsTrue result ↔ (offset < first_row) × (offset + 25 ≤ length self.now.bytes) }
    {
        self.bytes.len() >= HEAD
            && offset <= (self.bytes.len() - HEAD) as u64
            && offset < u64::from(FIRST_ROW)
    }

    /// Appends the instance or the array whose tag lies at this file offset.
    #[inline(always)]
    fn push_packed(&mut self, offset: u32) -> Result<(), AllocError>
        requires low { offset < first_row }
        requires within { offset + 25 ≤ length self.old.bytes }
        ensures ok { OnOk result (self.new ≡ record self.old { subs = self.old.subs ++ packed_sub self.old.size self.old.bytes offset ∷ [] }) }
        ensures err { OnErr result (self.new ≡ self.old) }
    {
        self.entries.push(offset)?;
        Ok(())
    }

    /// Appends a row that is no class's.
    fn push_row(&mut self, row: Row) -> Result<(), AllocError>
        requires { IsRowOver 0 row }
        ensures ok { OnOk result (self.new ≡ record self.old { subs = self.old.subs ++ row_view [] row ∷ [] }) }
        ensures err { OnErr result (self.new ≡ self.old) }
    {
        let entry = next_row(&self.rows)?;
        self.entries.reserve(1)?;
        self.rows.push(row)?;
        self.entries.push_reserved(entry);
        Ok(())
    }

    /// Appends a class whose tag lies at this file offset.
    fn push_class(&mut self, offset: u64, class: ClassDump) -> Result<(), AllocError>
        requires { offset + 25 < 2 ^ 64 }
        ensures ok { OnOk result (self.new ≡ record self.old { subs = self.old.subs ++ (record { offset = offset; item = Class (class_view class) }) ∷ [] }) }
        ensures err { OnErr result (self.new ≡ self.old) }
    {
        let entry = next_row(&self.rows)?;
        self.entries.reserve(1)?;
        self.rows.push_class(offset, class)?;
        self.entries.push_reserved(entry);
        Ok(())
    }

    /// Keeps only the first sub-records.
    fn truncate(&mut self, len: usize)
        ensures { self.new ≡ record self.old { subs = take len self.old.subs } }
    {
        self.entries.truncate(len);
    }

    /// Appends the CLASS DUMP whose fields `fields` begins with, and answers the bytes after it.
    fn append_class<'b>(&mut self, fields: &'b [u8], offset: u64) -> Result<&'b [u8], ReadFault>
        requires { offset + length fields.now + 26 < 2 ^ 64 }
        ensures ok { IfOk result (λ after. AppendsSub offset (0x20 ∷ fields.now) self.old self.new after.now) }
        ensures err { IfErr result (λ f. (f ≡ fault OutOfMemory 0) ⊎ IsFaultAt self.old.size offset (0x20 ∷ fields.now) f) }
        ensures kept { OnErr result (self.new ≡ self.old) }
    {
        match read_class(*self.entries.allocator(), fields, self.id_size, offset) {
            Ok((class, after)) => {
                self.push_class(offset, class)?;
                Ok(after)
            }
            Err(Stop::Short) => Err(ReadFault {
                cause: Cause::ShortSub,
                offset,
            }),
            Err(Stop::UnknownType) => Err(ReadFault {
                cause: Cause::UnknownType,
                offset,
            }),
            Err(Stop::NoMemory) => Err(ReadFault::NO_MEMORY),
        }
    }

    /// Appends the sub-record of this tag whose fields `fields` begins with, as a row or a class, and answers the bytes after it.
    fn append_row<'b>(
        &mut self,
        tag: u8,
        fields: &'b [u8],
        offset: u64,
    ) -> Result<&'b [u8], ReadFault>
        requires { offset + length fields.now + 26 < 2 ^ 64 }
        ensures ok { IfOk result (λ after. AppendsSub offset (tag ∷ fields.now) self.old self.new after.now) }
        ensures err { IfErr result (λ f. (f ≡ fault OutOfMemory 0) ⊎ IsFaultAt self.old.size offset (tag ∷ fields.now) f) }
        ensures kept { OnErr result (self.new ≡ self.old) }
    {
        match read_row(tag, fields, self.id_size, offset) {
            Ok(parsed) => {
                self.push_row(parsed.row)?;
                Ok(parsed.after)
            }
            Err(NoRow::IsClass) => self.append_class(fields, offset),
            Err(NoRow::Fault(cause)) => Err(ReadFault { cause, offset }),
        }
    }

    /// Appends the sub-record of this tag whose fields `fields` begins with, and answers the bytes after it.
    #[inline(always)]
    fn append<'b>(&mut self, tag: u8, fields: &'b [u8], offset: u64) -> Result<&'b [u8], ReadFault>
        requires low { offset + length fields.now + 26 < 2 ^ 64 }
        requires at { LiesAt self.old.bytes offset (tag ∷ fields.now) }
        ensures ok { IfOk result (λ after. AppendsSub offset (tag ∷ fields.now) self.old self.new after.now) }
        ensures err { IfErr result (λ f. (f ≡ fault OutOfMemory 0) ⊎ IsFaultAt self.old.size offset (tag ∷ fields.now) f) }
        ensures kept { OnErr result (self.new ≡ self.old) }
    {
        if self.can_pack(offset)
            && let Some(after) = behind_packed(tag, fields, self.id_size)
        {
            self.push_packed(offset as u32)?;
            return Ok(after);
        }
        self.append_row(tag, fields, offset)
    }

    /// Appends the sub-records of a segment's body, those before a fault too.
    fn append_body(&mut self, body: &[u8], base: u64) -> Result<(), ReadFault>
        requires low { base + length body.now < 2 ^ 63 }
        requires at { LiesAt self.old.bytes base body.now }
        ensures ok { OnOk result (AppendsSegment self.old.size base body.now self.old.subs self.new.subs) }
        ensures err { IfErr result (λ f. IsSegmentFaultOrMemory self.old.size base body.now f) }
        ensures kept { HasGrown self.old self.new }
    {
        let mut rest = body;
        while let Some((tag, fields)) = rest.split_first() {
            let offset = base + (body.len() - rest.len()) as u64;
            rest = self.append(*tag, fields, offset)?;
        }
        Ok(())
    }

    /// Appends the sub-records of the segment whose body is this span of the file, in bytes.
    ///
    /// # Errors
    ///
    /// The first fault from left to right, and then the reader is as it was: `UnknownSub` at a tag that no sub-record has, `UnknownType`
    /// at the tag of a primitive array whose elements have none of the types 4 to 11 or of a class with a constant, a static or a
    /// field of none of the types 1, 2 and 4 to 11, and `ShortSub` at the tag of a sub-record that runs past the body; the fields
    /// of one sub-record are read from left to right. `OutOfMemory` comes only where the list, or a list of a class, could not
    /// grow by something whose bytes are there.
    pub fn read(&mut self, body: Span) -> Result<(), ReadFault>
        requires { body.start + body.len ≤ length self.old.bytes }
        ensures ok { OnOk result (AppendsSegment self.old.size body.start (bytes_of_span self.old.bytes body) self.old.subs self.new.subs) }
        ensures err { IfErr result (λ f. IsSegmentFaultOrMemory self.old.size body.start (bytes_of_span self.old.bytes body) f) }
        ensures unchanged { OnErr result (self.new ≡ self.old) }
        ensures same_file { self.new ≡ record self.old { subs = self.new.subs } }
    {
        let before = self.entries.len();
        let start = body.start as usize;
        let bytes = self.bytes;
        let body_bytes = &bytes[start..start + body.len as usize];
        // The list needn't move as it grows. Room that isn't touched takes no memory, and it may be refused.
        let _ = self.entries.reserve(body_bytes.len() / SHORT_SUB);
        if let Err(fault) = self.append_body(body_bytes, body.start) {
            self.truncate(before);
            return Err(fault);
        }
        Ok(())
    }
}
