//! The texts that are names of fields and statics: each is copied once, and has a number.
ghost use Rattle.std.specs.Prelude.{◌≡◌, [], map, IfOk, OnOk};
ghost use Rattle.hd_subs.specs.declared.class.Static.{Static};
ghost use Rattle.hd_classes.specs.declared.known.LayoutField.{LayoutField};
ghost use Rattle.hd_classes.specs.Sources.{IsSource, table_of};
ghost use Rattle.hd_classes.specs.Naming.{AreNoted, NotesMore, IsNumber, AreNumbers};

use crate::known::LayoutField;
use crate::source::Source;
use hd_hashers::IdHasher;
use hd_names::Lists;
use hd_subs::Static;
use indexmap::IndexMap;
use std::alloc::{AllocError, Global};

/// The number of each name that isn't in the file. No text has it.
const NO_NAME: u32 = u32::MAX;

/// The texts that were copied so far, by their numbers, and these by the IDs of the texts.
#[derive(Drop)]
pub(crate) struct NameNumbers {
    pub(crate) texts: Lists<u8>,
    numbers: IndexMap<u64, u32, IdHasher>,
}

impl NameNumbers {
    /// No text yet.
    pub(crate) fn new(alloc: Global, hasher: IdHasher) -> NameNumbers
        ensures texts { result.texts ≡ [] }
        ensures numbers { result.numbers.entries ≡ [] }
    {
        NameNumbers {
            texts: Lists::new(alloc),
            numbers: IndexMap::with_hasher(alloc, hasher),
        }
    }

    /// The number of the name of an ID. Its text is copied, unless it was before.
    fn number(&mut self, source: &Source<'_>, id: u64) -> Result<u32, AllocError>
        requires source { IsSource source.now }
        requires noted { AreNoted (table_of source.now) self.old }
        ensures more { OnOk result (NotesMore (table_of source.now) self.old self.new) }
        ensures is { IfOk result (λ number. IsNumber (table_of source.now) self.new.texts id number) }
    {
        if let Some(number) = self.numbers.get(&id) {
            return Ok(*number);
        }
        match source.text_of(id) {
            Some(text) => {
                let number = self.texts.push(text)?;
                self.numbers.insert(id, number)?;
                Ok(number)
            }
            None => Ok(NO_NAME),
        }
    }

    /// The numbers of the names of fields.
    pub(crate) fn of_fields(
        &mut self,
        alloc: Global,
        source: &Source<'_>,
        fields: &[LayoutField],
    ) -> Result<Vec<u32>, AllocError>
        requires source { IsSource source.now }
        requires noted { AreNoted (table_of source.now) self.old }
        ensures more { OnOk result (NotesMore (table_of source.now) self.old self.new) }
        ensures are { IfOk result (λ numbers. AreNumbers (table_of source.now) self.new.texts (map (λ (f : LayoutField). f.name) fields.now) numbers.items) }
    {
        let mut numbers = Vec::with_capacity(alloc, fields.len())?;
        for field in fields {
            numbers.push(self.number(source, field.name)?)?;
        }
        Ok(numbers)
    }

    /// The numbers of the names of statics.
    pub(crate) fn of_statics(
        &mut self,
        alloc: Global,
        source: &Source<'_>,
        statics: &[Static],
    ) -> Result<Vec<u32>, AllocError>
        requires source { IsSource source.now }
        requires noted { AreNoted (table_of source.now) self.old }
        ensures more { OnOk result (NotesMore (table_of source.now) self.old self.new) }
        ensures are { IfOk result (λ numbers. AreNumbers (table_of source.now) self.new.texts (map (λ (s : Static). s.name) statics.now) numbers.items) }
    {
        let mut numbers = Vec::with_capacity(alloc, statics.len())?;
        for item in statics {
            numbers.push(self.number(source, item.name)?)?;
        }
        Ok(numbers)
    }
}
