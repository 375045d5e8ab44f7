//! The class objects of a dump: an ID is a class's where the first sub-record of that ID is a CLASS DUMP.
ghost use Rattle.std.specs.Prelude.{IfOk, OnOk};
ghost use Rattle.hd_subs.specs.Views.{sub_view};
ghost use Rattle.hd_classes.specs.FirstClass.{HasFirstClasses, NotesOneMore};

use hd_hashers::IdHasher;
use hd_subs::{ClassDump, DumpSubs, Item, Sub};
use indexmap::{IndexMap, IndexSet};
use std::alloc::{AllocError, Global};

/// The class object of an ID, whose CLASS DUMP is the first sub-record of the ID.
#[derive(Clone, Copy)]
pub(crate) struct FirstClass<'a> {
    pub(crate) class: &'a ClassDump,
    /// Where its tag lies: an offset into the file in bytes.
    pub(crate) offset: u64,
}

/// Notes the ID of a sub-record's object, and its class if it is the first of its ID.
fn note_sub<'a>(
    ids: &mut IndexSet<u64, IdHasher>,
    classes: &mut IndexMap<u64, FirstClass<'a>, IdHasher>,
    sub: Sub<'a>,
) -> Result<(), AllocError>
    ensures { OnOk result (NotesOneMore (sub_view sub.entry) ids.old.keys classes.old.entries ids.new.keys classes.new.entries) }
{
    match sub.item {
        Item::Root(..) => {}
        Item::Class(class) => {
            if ids.insert(class.id)? {
                let offset = sub.offset;
                classes.insert(class.id, FirstClass { class, offset })?;
            }
        }
        Item::Instance { id, .. } => {
            ids.insert(id)?;
        }
        Item::ObjArray { id, .. } => {
            ids.insert(id)?;
        }
        Item::PrimArray { id, .. } => {
            ids.insert(id)?;
        }
    }
    Ok(())
}

/// The class objects by their IDs, in file order.
///
/// Dumps have their classes at the front, so only the IDs of the objects before the last class are noted.
pub(crate) fn first_classes<'a>(
    alloc: Global,
    list: &'a DumpSubs<'a>,
    hasher: IdHasher,
) -> Result<IndexMap<u64, FirstClass<'a>, IdHasher>, AllocError>
    ensures { IfOk result (λ m. HasFirstClasses list.now m.entries) }
{
    let mut ids = IndexSet::with_hasher(alloc, hasher);
    let mut classes = IndexMap::with_hasher(alloc, hasher);
    for i in 0..list.classes_end() {
        note_sub(&mut ids, &mut classes, list.get(i))?;
    }
    Ok(classes)
}
