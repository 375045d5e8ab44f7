//! Records and sub-records, each with the file offsets that its bytes have.
use hd_records::{check_size, read_records};
use hd_spell::spell;
use hd_subs::{ClassDump, Item, SegmentReader, Sub, Subs};
use hd_terms::{Cause, IdSize, Load, ReadFault, Span, Text};

#[test]
fn sizes_of_files(rt: HostRuntime) {
    let too_large = ReadFault {
        cause: Cause::TooLarge,
        offset: 0,
    };
    for (len, fault) in [
        (0, None),
        (2_147_483_647, None),
        (2_147_483_648, Some(too_large)),
        (u64::MAX, Some(too_large)),
    ] {
        assert_eq!(rt; check_size(len).err(), fault, "at {len}");
    }
}

#[test]
fn records_of_a_file(rt: HostRuntime) {
    let text = "ids 4\ntext 101 A\ntext 101 B\nload 11 101\nsegment\nroot 1\nrecord 0c\n";
    let file = spell(rt.alloc(), text).expect(&rt, "the file is spelled");
    let records = read_records(rt.alloc(), file.as_slice()).expect(&rt, "the records are read");
    let text_at = |start| Text {
        id: 0x101,
        text: Span { start, len: 1 },
    };
    let load = Load {
        class: 0x11,
        name: 0x101,
    };
    let segments = [Span { start: 93, len: 5 }, Span { start: 107, len: 0 }];
    assert_eq!(rt; records.id_size, IdSize::Four);
    assert_eq!(rt;
        records.strings.as_slice(),
        [text_at(44), text_at(58)].as_slice()
    );
    assert_eq!(rt; records.loads.as_slice(), [load].as_slice());
    assert_eq!(rt; records.segments.as_slice(), segments.as_slice());
}

#[test]
fn fault_of_a_header(rt: HostRuntime) {
    let file = spell(rt.alloc(), "ids 4\n").expect(&rt, "the file is spelled");
    let cut = file.as_slice().get(..30).expect(&rt, "a header is longer");
    let fault = ReadFault {
        cause: Cause::Truncated,
        offset: 0,
    };
    assert_eq!(rt; read_records(rt.alloc(), cut).err(), Some(fault));
}

/// What a sub-record holds: the offset of its tag, its ID, and two numbers more. Those are of an instance or an object
/// array where its values lie and how many bytes they have; of a primitive array its type and its count; of a class its
/// super class and its loader.
fn numbers_of(sub: Sub<'_>) -> (u64, u64, u64, u64) {
    let (id, first, second) = match sub.item {
        Item::Root(_, id) => (id, 0, 0),
        Item::Class(class) => (class.id, class.super_id, class.loader),
        Item::Instance { id, values, .. } => (id, values.start, values.len),
        Item::ObjArray { id, elements, .. } => (id, elements.start, elements.len),
        Item::PrimArray { id, element, count } => (id, u64::from(element), u64::from(count)),
    };
    (sub.offset, id, first, second)
}

/// Whether these are the first sub-records of a list.
fn has_first(list: &Subs, wanted: &[(u64, u64, u64, u64)]) -> bool {
    for (i, numbers) in wanted.iter().enumerate() {
        if list.len() <= i || numbers_of(list.get(i)) != *numbers {
            return false;
        }
    }
    true
}

/// A file: 40 bytes of no segment, a body with a sub-record of each form, a body with a fault behind a root, and a body with a
/// root.
const BODIES: &str =
    "bytes 0000000000000000 0000000000000000 0000000000000000 0000000000000000 0000000000000000\n\
    root 1\narray 1: 2 0 9\narray 2:\nclass 12 extends 11: 301=boolean\n\
    instance 20 of 11: 00000009 01\nbytes 23 00000006 00000000 00000002 0a 00000001 00000002\n\
    bytes ff 00000001 09 ff 00000005\n";

/// What the first of these bodies holds.
const SUBS: [(u64, u64, u64, u64); 6] = [
    (40, 1, 0, 0),
    (45, 1, 62, 12),
    (74, 2, 91, 0),
    (91, 0x12, 0x11, 0),
    (139, 0x20, 156, 5),
    (161, 6, 10, 2),
];

#[test]
fn sub_records_of_segments(rt: HostRuntime) {
    let file = spell(rt.alloc(), BODIES).expect(&rt, "the file is spelled");
    assert_eq!(rt; file.len(), 194);
    let mut reader = SegmentReader::new(rt.alloc(), file.as_slice(), IdSize::Four);
    let fault = ReadFault {
        cause: Cause::UnknownSub,
        offset: 188,
    };
    assert_eq!(rt;
        reader.read(Span {
            start: 40,
            len: 143
        }),
        Ok(())
    );
    assert_eq!(rt; reader.read(Span { start: 183, len: 6 }), Err(fault));
    assert_eq!(rt; reader.read(Span { start: 189, len: 5 }), Ok(()));
    let list = reader.into_subs();
    assert_eq!(rt; list.len(), 7);
    assert!(rt; has_first(&list, &SUBS));
    assert_eq!(rt; numbers_of(list.get(6)), (189, 5, 0, 0));
}

/// A class with a constant, two statics and a field.
const CLASS: &str =
    "bytes 20 00000011 00000000 00000021 00000005 00000041 00000051 00000000 00000000 00000004\n\
    bytes 0001 0001 02 00000002 0002 00000201 0a 00000007 00000202 02 00000003 0001 00000301 04\n";

/// The class that a sub-record is.
fn class_in(sub: Sub<'_>) -> Option<&ClassDump> {
    match sub.item {
        Item::Class(class) => Some(class),
        _ => None,
    }
}

#[test]
fn parts_of_a_class(rt: HostRuntime) {
    let file = spell(rt.alloc(), CLASS).expect(&rt, "the file is spelled");
    assert_eq!(rt; file.len(), 73);
    let mut reader = SegmentReader::new(rt.alloc(), file.as_slice(), IdSize::Four);
    reader
        .read(Span { start: 0, len: 73 })
        .expect(&rt, "the sub-record is read");
    let list = reader.into_subs();
    assert_eq!(rt; list.len(), 1);
    let class = class_in(list.get(0)).expect(&rt, "it is a class");
    let value_at = |start| Span { start, len: 4 };
    assert_eq!(rt; (class.signers, class.domain), (0x41, 0x51));
    assert!(rt;
        matches!(class.constants.as_slice(), [k] if k.code == 2 && k.value == value_at(42))
    );
    assert!(rt;
        matches!(class.statics.as_slice(), [a, _] if a.name == 0x201 && a.code == 10 && a.value == value_at(53))
    );
    assert!(rt;
        matches!(class.statics.as_slice(), [_, b] if b.name == 0x202 && b.code == 2 && b.value == value_at(62))
    );
    assert!(rt; matches!(class.fields.as_slice(), [f] if f.name == 0x301 && f.code == 4));
}
