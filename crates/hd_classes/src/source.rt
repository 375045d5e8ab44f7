//! The texts, the class names and the class objects of a file by ID, from which classes are resolved.
ghost use Rattle.std.specs.Prelude.{◌≡◌, length, map, All, IfOk};
ghost use Rattle.std.specs.Option.{option_map, option_copied};
ghost use Rattle.hd_terms.specs.Classes.{class_at, text_of_id, name_of, bytes_of_span};
ghost use Rattle.hd_subs.specs.Views.{class_view};
ghost use Rattle.hd_classes.specs.Known.{IsTextWithin};
ghost use Rattle.hd_classes.specs.Sources.{AreFirstTexts, IsSourceOf, IsSource, table_of};

use crate::first_class::{FirstClass, first_classes};
use crate::names::{FirstTexts, bytes_of, first_names};
use crate::repeats::RepeatedRecords;
use crate::texts::TextsById;
use hd_hashers::IdHasher;
use hd_records::Records;
use hd_subs::{ClassDump, DumpSubs};
use indexmap::IndexMap;
use std::alloc::{AllocError, Global};

/// A file with its records and sub-records, and its texts and classes by their IDs.
pub(crate) struct Source<'a> {
    pub(crate) bytes: &'a [u8],
    pub(crate) records: &'a Records,
    pub(crate) list: &'a DumpSubs<'a>,
    /// Where the first text of each ID lies.
    pub(crate) texts: TextsById,
    /// The ID of the text that is a class's name, by the class's ID.
    pub(crate) names: IndexMap<u64, u64, IdHasher>,
    /// How many texts and loaded classes have the ID of an earlier one.
    pub(crate) repeated: RepeatedRecords,
    /// The class objects, in file order.
    pub(crate) classes: IndexMap<u64, FirstClass<'a>, IdHasher>,
}

impl Drop for Source<'_> {
    /// Drops the fields. A derived drop would be proved anew at each place that lets go of one.
    fn drop(self) {
        let Self {
            bytes: _,
            records: _,
            list: _,
            texts,
            names,
            repeated: _,
            classes,
        } = self;
    }
}

/// The file as classes are resolved from it.
pub(crate) fn source_of<'a>(
    alloc: Global,
    bytes: &'a [u8],
    records: &'a Records,
    texts: FirstTexts,
    list: &'a DumpSubs<'a>,
    hasher: IdHasher,
) -> Result<Source<'a>, AllocError>
    requires within { All (IsTextWithin (length bytes.now)) records.now.strings }
    requires texts { AreFirstTexts records.now.strings texts }
    ensures { IfOk result (λ s. IsSourceOf bytes.now records.now list.now s) }
{
    let FirstTexts {
        texts,
        repeated: repeated_texts,
    } = texts;
    let (names, repeated_loads) = first_names(alloc, &records.loads, hasher)?;
    let classes = first_classes(alloc, list, hasher)?;
    let repeated = RepeatedRecords {
        texts: repeated_texts,
        loads: repeated_loads,
    };
    Ok(Source {
        bytes,
        records,
        list,
        texts,
        names,
        repeated,
        classes,
    })
}

impl<'a> Source<'a> {
    /// The texts and the class names, by their IDs.
    pub(crate) fn into_names(self) -> (TextsById, IndexMap<u64, u64, IdHasher>)
        ensures texts { result.0 ≡ self.entry.texts }
        ensures names { result.1 ≡ self.entry.names }
    {
        let Self {
            bytes: _,
            records: _,
            list: _,
            texts,
            names,
            repeated: _,
            classes,
        } = self;
        drop(classes);
        (texts, names)
    }

    /// The class of an ID, if there is one; none has the ID 0.
    pub(crate) fn class_of(&self, id: u64) -> Option<&'a ClassDump>
        requires { IsSource self.now }
        ensures { option_map (λ class. class_view class.now) result ≡ class_at (table_of self.now).classes id }
    {
        if id == 0 {
            return None;
        }
        match self.classes.get(&id) {
            Some(standing) => Some(standing.class),
            None => None,
        }
    }

    /// The text of an ID, if there is one.
    pub(crate) fn text_of(&self, id: u64) -> Option<&'a [u8]>
        requires { IsSource self.now }
        ensures { option_copied result ≡ option_map (bytes_of_span self.now.bytes.now) (text_of_id (table_of self.now) id) }
    {
        match self.texts.get(id) {
            Some(text) => Some(bytes_of(self.bytes, text)),
            None => None,
        }
    }

    /// The name of the class of an ID, if it has one.
    pub(crate) fn name_of(&self, id: u64) -> Option<&'a [u8]>
        requires { IsSource self.now }
        ensures { option_copied result ≡ option_map (bytes_of_span self.now.bytes.now) (name_of (table_of self.now) id) }
    {
        match self.names.get(&id) {
            Some(name) => self.text_of(*name),
            None => None,
        }
    }
}
