//! Random edits and undos.
use crate::dumps::random_id;
use hd_log::Front;
use hd_terms::{Edit, Event, RefKind, Slot, What};

/// A cut of a random slot: an element, in some cases a field, the reference to the class, or a slot of one of the two classes.
fn random_cut(x: u64) -> Edit {
    let class = 0x41 + (x >> 20) % 2;
    match (x >> 24) % 8 {
        0 => Edit::Cut(random_id(x >> 8), Slot::OfClass),
        1 => Edit::Cut(class, Slot::Loader),
        2 => Edit::Cut(random_id(x >> 8), Slot::Element(((x >> 16) % 40) as u32)),
        3 => Edit::Cut(random_id(x >> 8), Slot::Field(((x >> 16) % 4) as u32)),
        _ => Edit::Cut(random_id(x >> 8), Slot::Element(((x >> 16) % 4) as u32)),
    }
}

/// A cut of a random field in all objects of a class: one of the reference classes, or one of the two of `Shape::Fields`.
fn random_cut_all(x: u64) -> Edit {
    let classes = [0x12, 0x13, 0x14, 0x15, 0x51, 0x52];
    let field = if (x >> 24) % 2 == 0 {
        0
    } else {
        ((x >> 25) % 4) as u32
    };
    Edit::CutAll(classes[((x >> 16) % 6) as usize], field)
}

/// A random edit: a cut in three of eight cases.
fn random_edit(x: u64) -> Edit {
    let id = random_id(x >> 8);
    let kinds = [
        RefKind::Soft,
        RefKind::Weak,
        RefKind::Final,
        RefKind::Phantom,
    ];
    match x % 8 {
        0 => Edit::Add(id),
        1 => Edit::Drop((x >> 16) % 8),
        2 => Edit::Clear(0x21 + (x >> 16) % 4),
        3 => Edit::ClearAll(kinds[((x >> 16) % 4) as usize]),
        4 => random_cut_all(x),
        _ => random_cut(x),
    }
}

/// A random edit, or the undo of a random event in every third case.
pub fn random_event(x: u64) -> Event {
    let what = if (x >> 32) % 3 == 0 {
        What::Undo(((x >> 40) % 16) as u32)
    } else {
        What::Do(random_edit(x))
    };
    Event { who: 0, what }
}

/// A random edit, or the undo of the last event that is live or of a random one. Of 256 events at a time undos are fewer than
/// edits, and of the next 256 they are more, so that few edits are live at a time.
pub fn random_event_of_long_log(front: &Front, x: u64) -> Event {
    let most = if front.len() / 256 % 2 == 0 { 7 } else { 10 };
    let mut what = What::Do(random_edit(x));
    if (x >> 32) % 16 < most {
        if let Some(last) = front.last_live(0) {
            what = What::Undo(last);
        }
    } else if (x >> 32) % 16 == 15 && front.len() > 0 {
        what = What::Undo(((x >> 40) % u64::from(front.len())) as u32);
    }
    Event { who: 0, what }
}
