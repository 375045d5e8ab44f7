//! The names of the fields and statics of a file's classes, made from the classes while the file is at hand.
ghost use Rattle.std.specs.Prelude.{◌≡◌, ◌<◌, ◌^◌, length, map, IfOk, OnOk};
ghost use Rattle.hd_classes.specs.Links.{IsLinked, IsBelow};
ghost use Rattle.hd_classes.specs.Sources.{IsSource, table_of};
ghost use Rattle.hd_classes.specs.Building.{HasAllKnown};
ghost use Rattle.hd_classes.specs.Naming.{AreNoted, NotesMore, AreLists, field_row, field_names, first_of, static_names, named_classes_of};

use crate::linked::{LinkedClass, first_declaring};
use crate::name_numbers::NameNumbers;
use crate::source::Source;
use hd_hashers::IdHasher;
use hd_names::{FieldRow, FieldTable, Lists, NamedClasses};
use indexmap::IndexMap;
use std::alloc::{AllocError, Global};

/// A number below this is one of four bytes.
const MOST_CLASSES: usize = 1 << 32;

/// The number of a class in four bytes.
fn four_bytes(number: Option<usize>) -> Option<u32>
    requires { IsBelow (2 ^ 32) number }
    ensures { result ≡ number }
{
    match number {
        Some(number) => Some(number as u32),
        None => None,
    }
}

/// A row for each class whose chain is whole, and the numbers of the names of the fields that it declares.
fn field_rows(
    alloc: Global,
    names: &mut NameNumbers,
    source: &Source<'_>,
    known: &IndexMap<u64, LinkedClass, IdHasher>,
) -> Result<(Vec<FieldRow>, Lists<u32>), AllocError>
    requires source { IsSource source.now }
    requires noted { AreNoted (table_of source.now) names.old }
    requires linked { IsLinked known.now.entries }
    requires few { length known.now.entries < 2 ^ 32 }
    ensures more { OnOk result (NotesMore (table_of source.now) names.old names.new) }
    ensures rows { IfOk result (λ r. r.0.items ≡ map field_row known.now.entries) }
    ensures fields { IfOk result (λ r. AreLists (table_of source.now) names.new.texts (map field_names known.now.entries) r.1) }
{
    let mut rows = Vec::with_capacity(alloc, known.len())?;
    let mut fields = Lists::with_room(alloc, known.len())?;
    let mut i = 0;
    while let Some((id, class)) = known.get_index(i) {
        let numbers = names.of_fields(alloc, source, class.fields.as_slice())?;
        fields.push(numbers.as_slice())?;
        rows.push(FieldRow {
            class: *id,
            above: four_bytes(class.fields_above),
        })?;
        i += 1;
    }
    Ok((rows, fields))
}

/// The numbers of the names of the statics of each class object, in file order.
fn statics_of(
    alloc: Global,
    names: &mut NameNumbers,
    source: &Source<'_>,
) -> Result<Lists<u32>, AllocError>
    requires source { IsSource source.now }
    requires noted { AreNoted (table_of source.now) names.old }
    ensures more { OnOk result (NotesMore (table_of source.now) names.old names.new) }
    ensures statics { IfOk result (λ statics. AreLists (table_of source.now) names.new.texts (map static_names source.now.classes.entries) statics) }
{
    let mut statics = Lists::with_room(alloc, source.classes.len())?;
    let mut i = 0;
    while let Some((_, first)) = source.classes.get_index(i) {
        let numbers = names.of_statics(alloc, source, first.class.statics.as_slice())?;
        statics.push(numbers.as_slice())?;
        i += 1;
    }
    Ok(statics)
}

/// The number of the first class that declares fields, in the chain of the class of an ID, if that is whole.
fn first_row(known: &IndexMap<u64, LinkedClass, IdHasher>, id: u64) -> Option<u32>
    requires linked { IsLinked known.now.entries }
    requires few { length known.now.entries < 2 ^ 32 }
    ensures { result ≡ first_of known.now.entries id }
{
    match known.get_full(&id) {
        Some((number, _, class)) => four_bytes(first_declaring(number, class)),
        None => None,
    }
}

/// The first row of the layout of each class object, in file order.
fn first_rows(
    alloc: Global,
    source: &Source<'_>,
    known: &IndexMap<u64, LinkedClass, IdHasher>,
    hasher: IdHasher,
) -> Result<IndexMap<u64, Option<u32>, IdHasher>, AllocError>
    requires linked { IsLinked known.now.entries }
    requires few { length known.now.entries < 2 ^ 32 }
    ensures { IfOk result (λ firsts. firsts.entries ≡ map (λ e. (e.0, first_of known.now.entries e.0)) source.now.classes.entries) }
{
    let mut firsts = IndexMap::with_capacity_and_hasher(alloc, source.classes.len(), hasher)?;
    let classes = source.classes.as_slice();
    let mut i = 0;
    while let Some((id, _)) = classes.get_index(i) {
        firsts.insert(*id, first_row(known, *id))?;
        i += 1;
    }
    Ok(firsts)
}

/// The class objects of a file by the names of their fields and statics. Each text is copied, so that the file can be given up.
///
/// # Errors
///
/// Memory ran out.
pub(crate) fn named_classes(
    alloc: Global,
    source: &Source<'_>,
    known: &IndexMap<u64, LinkedClass, IdHasher>,
    hasher: IdHasher,
) -> Result<NamedClasses, AllocError>
    requires source { IsSource source.now }
    requires known { HasAllKnown source.now known.now.entries }
    ensures { IfOk result (λ named. named ≡ named_classes_of (table_of source.now)) }
{
    if known.len() >= MOST_CLASSES {
        return Err(AllocError);
    }
    let mut names = NameNumbers::new(alloc, hasher);
    let (rows, fields) = field_rows(alloc, &mut names, source, known)?;
    let statics = statics_of(alloc, &mut names, source)?;
    let firsts = first_rows(alloc, source, known, hasher)?;
    let fields = fields.shrunk();
    let statics = statics.shrunk();
    let texts = names.texts.shrunk();
    let table = FieldTable {
        rows,
        fields,
        texts,
    };
    Ok(NamedClasses::new(firsts, statics, table))
}
