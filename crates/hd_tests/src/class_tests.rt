//! What is known of the classes of a file, by their IDs.
ghost use Rattle.std.specs.Prelude.{IsTrue, All};
ghost use Rattle.hd_classes.specs.Known.{IsTextWithin};

use hd_classes::{Classes, FirstTexts, LayoutField};
use hd_records::{Texts, read_records};
use hd_spell::spell;
use hd_subs::{DumpSubs, SegmentReader};
use hd_terms::{EdgeKind, IdSize, Span};
use std::alloc::Global;
use std::process::Abort;
use std::thread::Threads;

/// Whether texts lie within `len` bytes.
fn lie_within(texts: &Texts, len: usize) -> bool
    ensures { IsTrue result → All (IsTextWithin len) texts.now }
{
    for text in texts.as_slice() {
        let start = text.text.start;
        if start > len as u64 || text.text.len > len as u64 - start {
            return false;
        }
    }
    true
}

/// The sub-records of a file whose only segment begins at an offset and is its last record.
fn subs_of<'a, R: Abort>(rt: &R, alloc: Global, bytes: &'a [u8], start: u64) -> DumpSubs<'a> {
    let mut reader = SegmentReader::new(alloc, bytes, IdSize::Four);
    let mut list = DumpSubs::new(alloc);
    if start <= bytes.len() as u64 {
        let len = bytes.len() as u64 - start;
        reader
            .read(Span { start, len })
            .expect(rt, "the segment is read");
    }
    let part = reader.into_subs();
    if part.len() > 0 {
        list.push(part).expect(rt, "the list grows");
    }
    list
}

/// The classes of a file with 4-byte IDs and one segment, which is its last record.
fn classes_of<R: Abort + Threads + Sync>(rt: &R, alloc: Global, bytes: &[u8]) -> Classes {
    let records = read_records(alloc, bytes).expect(rt, "the records are read");
    let span = match records.segments.as_slice() {
        [span] => *span,
        _ => panic!(rt; "the file has one segment"),
    };
    let list = subs_of(rt, alloc, bytes, span.start);
    assert!(rt;
        lie_within(&records.strings, bytes.len()),
        "texts lie within the file"
    );
    let texts = FirstTexts::of(rt, alloc, &records.strings, 1).expect(rt, "the texts are noted");
    Classes::build(alloc, bytes, &records, texts, &list, 1).expect(rt, "the classes are found")
}

/// The classes of the file that a text spells, which is as above.
fn classes_in<R: Abort + Threads + Sync>(rt: &R, alloc: Global, text: &str) -> Classes {
    let bytes = spell(alloc, text).expect(rt, "the file is spelled");
    classes_of(rt, alloc, bytes.as_slice())
}

/// Whether the chain of a class is whole and has these IDs.
fn has_chain(classes: &Classes, id: u64, expected: &[u64]) -> bool {
    let Some(mut rest) = classes.chain(id) else {
        return false;
    };
    for id in expected {
        match rest.split_first() {
            Some((first, above)) if first == *id => rest = above,
            _ => return false,
        }
    }
    rest.split_first().is_none()
}

/// Whether the chain of a class is whole and has these fields.
fn has_layout(classes: &Classes, id: u64, expected: &[LayoutField]) -> bool {
    let Some(mut rest) = classes.layout(id) else {
        return false;
    };
    let mut left = expected;
    for _i in 0..classes.len() {
        let Some((own, above)) = rest.split_first_class() else {
            return left.is_empty();
        };
        if left.len() < own.len() {
            return false;
        }
        let (front, behind) = left.split_at(own.len());
        if front != own {
            return false;
        }
        left = behind;
        rest = above;
    }
    left.is_empty()
}

/// A field of a class, by the IDs of the class and of its name and by its type.
fn field(owner: u64, name: u64, code: u8) -> LayoutField {
    LayoutField { owner, name, code }
}

#[test]
fn chains_and_layouts(rt: HostRuntime) {
    let text = "ids 4\nsegment\nclass 11: 107=object\nclass 12 extends 11: 108=object 109=boolean\n\
        class 13 extends 99:\n";
    let classes = classes_in(&rt, rt.alloc(), text);
    let layout = [
        field(0x12, 0x108, 2),
        field(0x12, 0x109, 4),
        field(0x11, 0x107, 2),
    ];
    assert_eq!(rt; classes.len(), 2);
    assert_eq!(rt; classes.index_of(0x12), Some(1));
    assert!(rt; has_chain(&classes, 0x12, &[0x12, 0x11]));
    assert!(rt; has_layout(&classes, 0x12, &layout));
    assert!(rt; classes.chain(0x13).is_none());
    assert!(rt; classes.layout(0).is_none());
}

#[test]
fn class_without_fields_in_a_chain(rt: HostRuntime) {
    let text =
        "ids 4\nsegment\nclass 13 extends 12: 108=int\nclass 12 extends 11:\nclass 11: 107=object\n";
    let classes = classes_in(&rt, rt.alloc(), text);
    let layout = [field(0x13, 0x108, 10), field(0x11, 0x107, 2)];
    assert_eq!(rt; classes.len(), 3);
    assert!(rt; has_chain(&classes, 0x13, &[0x13, 0x12, 0x11]));
    assert!(rt; has_layout(&classes, 0x13, &layout));
}

#[test]
fn kinds_of_references(rt: HostRuntime) {
    let text =
        "ids 4\nreference-names\nsegment\nreference-classes\nclass 17 extends 13: 107=object\n";
    let classes = classes_in(&rt, rt.alloc(), text);
    for (id, kind, referent) in [
        (0x11, EdgeKind::Strong, Some(0)),
        (0x12, EdgeKind::Soft, Some(0)),
        (0x13, EdgeKind::Weak, Some(0)),
        (0x14, EdgeKind::Final, Some(0)),
        (0x15, EdgeKind::Phantom, Some(0)),
        (0x16, EdgeKind::Final, Some(0)),
        (0x17, EdgeKind::Weak, Some(1)),
        (0x18, EdgeKind::Strong, None),
    ] {
        assert_eq!(rt; classes.kind_of(id), kind, "of {id}");
        assert_eq!(rt; classes.referent(id), referent, "of {id}");
    }
}

#[test]
fn first_names(rt: HostRuntime) {
    let text =
        "ids 4\ntext 101 a/B\ntext 101 c\ntext 102 d\ntext 101 e\nload 11 101\nload 11 102\nload 12 109\n\
        segment\nclass 11:\nclass 12:\n";
    let classes = classes_in(&rt, rt.alloc(), text);
    assert_eq!(rt; classes.name(0x11), Some(Span { start: 44, len: 3 }));
    assert_eq!(rt; classes.name(0x12), None);
    assert_eq!(rt; classes.name(0x101), None);
    let repeated = classes.repeated();
    assert_eq!(rt; (repeated.texts, repeated.loads), (2, 1));
    let classes = classes.without_names(rt.alloc());
    assert_eq!(rt; classes.name(0x11), None);
    assert_eq!(rt; classes.len(), 2);
    assert_eq!(rt; classes.repeated().texts, 2);
}

#[test]
fn texts_of_both_sides(rt: HostRuntime) {
    let text =
        "ids 4\ntext 100 a\ntext 108 bc\ntext 108 d\ntext 100 e\ntext 10c f\nload 11 108\nload 12 100\nload 13 10c\n\
        segment\nclass 11:\nclass 12:\nclass 13:\n";
    let classes = classes_in(&rt, rt.alloc(), text);
    assert_eq!(rt; classes.name(0x11), Some(Span { start: 58, len: 2 }));
    assert_eq!(rt; classes.name(0x12), Some(Span { start: 44, len: 1 }));
    assert_eq!(rt; classes.name(0x13), Some(Span { start: 101, len: 1 }));
    assert_eq!(rt; classes.repeated().texts, 2);
}
