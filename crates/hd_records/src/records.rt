//! Reading the records of a file, one after another.
ghost use Rattle.std.specs.Prelude.{◌≡◌, ◌≢◌, ◌+◌, ◌≤◌, ◌<◌, ◌^◌, [], ◌++◌, length, IfOk, IfErr, OnOk, MatchOption};
ghost use Rattle.hd_terms.specs.ReadFaults.{IsStuckRecord};
ghost use Rattle.hd_terms.specs.Records as records;
ghost use Rattle.hd_records.specs.Reading.{ReadsRecords, IsRecordsFaultOrMemory};
ghost use Rattle.hd_records.specs.ParsedRecords.{BeginsWithFramed, BeginsWithRecord, IsCutOffRecord, texts_of, loads_of, spans_of};

use crate::header::{HEADER_LEN, number_at, read_header};
use crate::record_list::{Loads, Segments, Texts};
use hd_terms::{Cause, IdSize, Load, ReadFault, Span, Text};
use std::alloc::{AllocError, Global};

/// The bytes of a record before its body.
const HEAD_LEN: usize = 9;

/// Where the head of a record gives the length of its body.
const SIZE_AT: usize = 5;

/// The tag of a UTF8 record: an ID and a text.
const UTF8: u8 = 0x01;

/// The tag of a LOAD CLASS record: a serial number, the ID of the class, a serial number, the ID of its name.
const LOAD_CLASS: u8 = 0x02;

/// The tag of a HEAP DUMP.
const HEAP_DUMP: u8 = 0x0c;

/// The tag of a HEAP DUMP SEGMENT.
const HEAP_DUMP_SEGMENT: u8 = 0x1c;

/// The bytes of a serial number.
const SERIAL_LEN: usize = 4;

/// What the records of a file say.
pub struct Records {
    /// What identifiers measure.
    pub id_size: IdSize,
    /// The texts.
    pub strings: Texts,
    /// The classes that were loaded.
    pub loads: Loads,
    /// Where the bodies of the segments lie.
    pub segments: Segments,
}

impl Drop for Records {
    /// Drops the fields. A derived drop would be proved anew at each place that lets go of one.
    fn drop(self) {
        let Self {
            id_size: _,
            strings,
            loads,
            segments,
        } = self;
    }
}

/// The record that some bytes begin with, and the bytes after it.
#[derive(Clone, Copy)]
struct ParsedRecord<'a> {
    tag: u8,
    body: &'a [u8],
    after: &'a [u8],
}

/// The record that these bytes begin with, whatever its body says, unless it runs past their end.
fn read_framed(rest: &[u8]) -> Option<ParsedRecord<'_>>
    requires { rest.now ≢ [] }
    ensures { MatchOption result (IsCutOffRecord rest.now) (λ f. BeginsWithFramed rest.now f.tag f.body.now f.after.now) }
{
    if rest.len() < HEAD_LEN {
        return None;
    }
    let len = HEAD_LEN + number_at(rest, SIZE_AT) as usize;
    if rest.len() < len {
        return None;
    }
    Some(ParsedRecord {
        tag: rest[0],
        body: &rest[HEAD_LEN..len],
        after: &rest[len..],
    })
}

/// The bytes of a record's fields, by its tag. Its body may have more.
fn least_body(id_size: IdSize, tag: u8) -> usize
    ensures { result ≡ records.least_body id_size tag }
{
    match tag {
        UTF8 => id_size.bytes(),
        LOAD_CLASS => 2 * (SERIAL_LEN + id_size.bytes()),
        _ => 0,
    }
}

/// The record that these bytes begin with, or why none can be read: `Truncated`, or else `ShortRecord`.
fn read_record(id_size: IdSize, rest: &[u8]) -> Result<ParsedRecord<'_>, Cause>
    requires { rest.now ≢ [] }
    ensures ok { IfOk result (λ f. BeginsWithRecord id_size rest.now f.tag f.body.now f.after.now) }
    ensures err { IfErr result (λ cause. IsStuckRecord id_size rest.now cause) }
{
    let Some(parsed) = read_framed(rest) else {
        return Err(Cause::Truncated);
    };
    if parsed.body.len() < least_body(id_size, parsed.tag) {
        return Err(Cause::ShortRecord);
    }
    Ok(parsed)
}

/// Notes the text of the record at a file offset, if it is a UTF8 record.
fn note_text(
    texts: &mut Vec<Text>,
    id_size: IdSize,
    at: usize,
    parsed: ParsedRecord<'_>,
) -> Result<(), AllocError>
    requires room { at + 9 + length parsed.body.now < 2 ^ 64 }
    requires fields { records.least_body id_size parsed.tag ≤ length parsed.body.now }
    ensures { OnOk result (texts.new.items ≡ texts.old.items ++ texts_of id_size at parsed.entry.tag parsed.entry.body.now) }
{
    if parsed.tag == UTF8 {
        let id_len = id_size.bytes();
        texts.push(Text {
            id: id_size.read(parsed.body),
            text: Span {
                start: (at + HEAD_LEN + id_len) as u64,
                len: (parsed.body.len() - id_len) as u64,
            },
        })?;
    }
    Ok(())
}

/// Notes what a record says of a class, if it is a LOAD CLASS record.
fn note_load(
    loads: &mut Vec<Load>,
    id_size: IdSize,
    parsed: ParsedRecord<'_>,
) -> Result<(), AllocError>
    requires { records.least_body id_size parsed.tag ≤ length parsed.body.now }
    ensures { OnOk result (loads.new.items ≡ loads.old.items ++ loads_of id_size parsed.entry.tag parsed.entry.body.now) }
{
    if parsed.tag == LOAD_CLASS {
        let name_at = SERIAL_LEN + id_size.bytes() + SERIAL_LEN;
        loads.push(Load {
            class: id_size.read(&parsed.body[SERIAL_LEN..]),
            name: id_size.read(&parsed.body[name_at..]),
        })?;
    }
    Ok(())
}

/// Notes where the body of the record at a file offset lies, if it is a segment.
fn note_segment(
    spans: &mut Vec<Span>,
    at: usize,
    parsed: ParsedRecord<'_>,
) -> Result<(), AllocError>
    requires { at + 9 < 2 ^ 64 }
    ensures { OnOk result (spans.new.items ≡ spans.old.items ++ spans_of at parsed.entry.tag parsed.entry.body.now) }
{
    if parsed.tag == HEAP_DUMP || parsed.tag == HEAP_DUMP_SEGMENT {
        spans.push(Span {
            start: (at + HEAD_LEN) as u64,
            len: parsed.body.len() as u64,
        })?;
    }
    Ok(())
}

/// What the records of a file say, or the first fault of the header and the records.
///
/// The faults are `TooLarge`, `Truncated` and `BadMagic` at 0, `BadIdSize` at 19, and at the tag of a record
/// `Truncated` where it runs past the end of the file and `ShortRecord` where its body is shorter than its fields.
/// `OutOfMemory` comes only where a list could not grow.
pub fn read_records(alloc: Global, bytes: &[u8]) -> Result<Records, ReadFault>
    ensures ok { IfOk result (λ r. ReadsRecords bytes.now r.id_size r.strings r.loads r.segments) }
    ensures err { IfErr result (λ f. IsRecordsFaultOrMemory bytes.now f) }
{
    let id_size = read_header(bytes)?;
    let mut texts = Vec::new(alloc);
    let mut loads = Vec::new(alloc);
    let mut spans = Vec::new(alloc);
    let mut rest = &bytes[HEADER_LEN..];
    while !rest.is_empty() {
        let at = bytes.len() - rest.len();
        let parsed = match read_record(id_size, rest) {
            Ok(parsed) => parsed,
            Err(cause) => {
                return Err(ReadFault {
                    cause,
                    offset: at as u64,
                });
            }
        };
        note_text(&mut texts, id_size, at, parsed)?;
        note_load(&mut loads, id_size, parsed)?;
        note_segment(&mut spans, at, parsed)?;
        rest = parsed.after;
    }
    Ok(Records {
        id_size,
        strings: Texts::from_vec(texts),
        loads: Loads::from_vec(loads),
        segments: Segments::from_vec(spans),
    })
}
