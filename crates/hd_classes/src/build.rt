//! Resolving the classes of a dump, one after another: the chain, layout, referent field and reference kind of each. Each
//! class is visited a fixed number of times.
ghost use Rattle.std.specs.Prelude.{◌≡◌, [], length, All, IfOk, IfErr, OnOk};
ghost use Rattle.hd_terms.specs.declared.errors.Cause.TheVariants.{OutOfMemory};
ghost use Rattle.hd_terms.specs.Classes.{class_table};
ghost use Rattle.hd_terms.specs.HeapFaults.{class_faults};
ghost use Rattle.hd_terms.specs.ReadFaults.{fault};
ghost use Rattle.hd_classes.specs.Known.{AreClassesOf, IsClassFaultOrMemory, IsTextWithin};
ghost use Rattle.hd_classes.specs.Sources.{AreFirstTexts, IsSource, table_of};
ghost use Rattle.hd_classes.specs.FirstClass.{first_class_view};
ghost use Rattle.hd_classes.specs.Linking.{AreKept, IsTop, KeepsPath};
ghost use Rattle.hd_classes.specs.Links.{IsLinked, views};
ghost use Rattle.hd_classes.specs.Naming.{named_classes_of};
ghost use Rattle.hd_classes.specs.Paths.{Leads};
ghost use Rattle.hd_classes.specs.Building.{AreBroken, NotesPath, AddsClass, HasAllKnown, IsCycleOrMemory, IsFirstCycleOrMemory};

use crate::classes::Classes;
use crate::first_class::FirstClass;
use crate::guesses::Guesses;
use crate::linked::LinkedClass;
use crate::linking::keep_class;
use crate::names::FirstTexts;
use crate::naming::named_classes;
use crate::path::{Path, climb};
use crate::source::{Source, source_of};
use hd_hashers::IdHasher;
use hd_names::NamedClasses;
use hd_records::Records;
use hd_subs::DumpSubs;
use hd_terms::{Cause, ReadFault, class_chains};
use indexmap::{IndexMap, IndexSet};
use std::alloc::{AllocError, Global};

/// Keeps the classes of a path that ends at a class that is kept, or at the ID 0: the last one first.
fn keep_path(
    alloc: Global,
    known: &mut IndexMap<u64, LinkedClass, IdHasher>,
    source: &Source<'_>,
    path: Path<'_>,
) -> Result<(), ReadFault>
    requires source { IsSource source.now }
    requires kept { AreKept (table_of source.now) known.old.entries }
    requires leads { Leads (table_of source.now) path }
    requires top { IsTop known.old.entries path.end }
    ensures ok { OnOk result (KeepsPath (table_of source.now) path.entry.start known.old.entries known.new.entries) }
    ensures err { IfErr result (λ f. f ≡ fault OutOfMemory 0) }
{
    let mut classes = path.classes;
    while let Some(class) = classes.pop() {
        keep_class(alloc, known, source, class)?;
    }
    Ok(())
}

/// Notes the classes of a path that ends at a broken chain.
fn note_path(broken: &mut IndexSet<u64, IdHasher>, path: Path<'_>) -> Result<(), AllocError>
    ensures { OnOk result (NotesPath path.entry broken.old.keys broken.new.keys) }
{
    class_chains();
    let mut classes = path.classes;
    while let Some(class) = classes.pop() {
        broken.insert(class.id)?;
    }
    Ok(())
}

/// Keeps a class and those above it, if its chain is whole; else notes them as broken. A chain that never ends is a fault.
fn add_class(
    alloc: Global,
    known: &mut IndexMap<u64, LinkedClass, IdHasher>,
    broken: &mut IndexSet<u64, IdHasher>,
    source: &Source<'_>,
    class: FirstClass<'_>,
) -> Result<(), ReadFault>
    requires source { IsSource source.now }
    requires kept { AreKept (table_of source.now) known.old.entries }
    requires broken { AreBroken (table_of source.now) broken.old.keys }
    ensures ok { OnOk result (AddsClass (table_of source.now) (first_class_view class.entry) known.old.entries known.new.entries broken.new.keys) }
    ensures err { IfErr result (λ f. IsCycleOrMemory (table_of source.now) (first_class_view class.entry) f) }
{
    let path = climb(alloc, source, known, broken, class.class.id)?;
    if path.end == 0 || known.contains_key(&path.end) {
        return keep_path(alloc, known, source, path);
    }
    if !broken.contains(&path.end) && source.class_of(path.end).is_some() {
        return Err(ReadFault {
            cause: Cause::ClassCycle,
            offset: class.offset,
        });
    }
    note_path(broken, path)?;
    Ok(())
}

/// What is kept of each class whose chain is whole, by the classes' IDs.
fn resolved_classes(
    alloc: Global,
    source: &Source<'_>,
    hasher: IdHasher,
) -> Result<IndexMap<u64, LinkedClass, IdHasher>, ReadFault>
    requires { IsSource source.now }
    ensures ok { IfOk result (λ known. HasAllKnown source.now known.entries) }
    ensures err { IfErr result (λ f. IsFirstCycleOrMemory source.now f) }
{
    let mut known = IndexMap::with_hasher(alloc, hasher);
    let mut broken = IndexSet::with_hasher(alloc, hasher);
    for i in 0..source.classes.len() {
        add_class(alloc, &mut known, &mut broken, source, source.classes[i])?;
    }
    Ok(known)
}

impl Classes {
    /// The classes that are known of a source, which is given up.
    fn of_source(
        alloc: Global,
        source: Source<'_>,
        known: IndexMap<u64, LinkedClass, IdHasher>,
    ) -> Result<Classes, AllocError>
        requires { IsLinked known.entries }
        ensures { IfOk result (λ classes. classes ≡ record { texts = source.entry.texts; names = source.entry.names.entries; classes = views known.entries; repeated = source.entry.repeated }) }
    {
        let guesses = Guesses::at(alloc, &known)?;
        let repeated = source.repeated;
        let (texts, names) = source.into_names();
        Ok(Classes::new(texts, names, known, guesses, repeated))
    }

    /// The classes of a file, of which these are the records, the texts and the sub-records. The secret is a random number, for the
    /// hashes of IDs: no answer depends on it.
    ///
    /// # Errors
    ///
    /// `ClassCycle` at the tag of the first class whose chain never ends, an offset into the file in bytes; or out of memory,
    /// at 0.
    pub fn build(
        alloc: Global,
        bytes: &[u8],
        records: &Records,
        texts: FirstTexts,
        list: &DumpSubs<'_>,
        secret: u64,
    ) -> Result<Classes, ReadFault>
        requires within { All (IsTextWithin (length bytes.now)) records.now.strings }
        requires texts { AreFirstTexts records.now.strings texts }
        ensures ok { IfOk result (λ classes. AreClassesOf (class_table bytes.now records.now.strings records.now.loads list.now) classes) }
        ensures no_cycle { OnOk result (class_faults (class_table bytes.now records.now.strings records.now.loads list.now) list.now ≡ []) }
        ensures err { IfErr result (λ f. IsClassFaultOrMemory (class_table bytes.now records.now.strings records.now.loads list.now) list.now f) }
    {
        let hasher = IdHasher::new(secret);
        let source = source_of(alloc, bytes, records, texts, list, hasher)?;
        let known = resolved_classes(alloc, &source, hasher)?;
        let classes = Classes::of_source(alloc, source, known)?;
        Ok(classes)
    }

    /// The classes of a file, as `build` makes them, and its class objects by the names of their fields and statics.
    ///
    /// # Errors
    ///
    /// Those of `build`.
    pub fn build_named(
        alloc: Global,
        bytes: &[u8],
        records: &Records,
        texts: FirstTexts,
        list: &DumpSubs<'_>,
        secret: u64,
    ) -> Result<(Classes, NamedClasses), ReadFault>
        requires within { All (IsTextWithin (length bytes.now)) records.now.strings }
        requires texts { AreFirstTexts records.now.strings texts }
        ensures ok { IfOk result (λ r. AreClassesOf (class_table bytes.now records.now.strings records.now.loads list.now) r.0) }
        ensures named { IfOk result (λ r. r.1 ≡ named_classes_of (class_table bytes.now records.now.strings records.now.loads list.now)) }
        ensures no_cycle { OnOk result (class_faults (class_table bytes.now records.now.strings records.now.loads list.now) list.now ≡ []) }
        ensures err { IfErr result (λ f. IsClassFaultOrMemory (class_table bytes.now records.now.strings records.now.loads list.now) list.now f) }
    {
        let hasher = IdHasher::new(secret);
        let source = source_of(alloc, bytes, records, texts, list, hasher)?;
        let known = resolved_classes(alloc, &source, hasher)?;
        let named = named_classes(alloc, &source, &known, hasher)?;
        let classes = Classes::of_source(alloc, source, known)?;
        Ok((classes, named))
    }
}
