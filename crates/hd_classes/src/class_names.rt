//! The names of classes: the file's bytes of them are copied, so that the file can be given up.
ghost use Rattle.std.specs.Prelude.{◌≡◌, ◌==◌, ℕ, ◌+◌, ◌≤◌, length, None, Some, MatchOption, IfSome, IfOk, OnOk};
ghost use Rattle.std.specs.Map.{lookup};
ghost use Rattle.hd_terms.specs.declared.Span.{Span};
ghost use Rattle.hd_classes.specs.Known.{name_at};
ghost use Rattle.hd_classes.specs.Names.{AreCopies, CopiesText, AddsName, first_names};

use crate::classes::Classes;
use crate::names::bytes_of;
use hd_hashers::IdHasher;
use hd_records::Loads;
use hd_terms::Span;
use indexmap::IndexMap;
use std::alloc::{AllocError, Global};
use std::marker::Model;

/// The names of classes by the IDs of the classes, as the file has them.
pub struct ClassNames {
    /// The texts that are names, one after another, each once.
    text: Vec<u8>,
    /// Which part of them is the name of the class of an ID.
    parts: IndexMap<u64, Span, IdHasher>,
}

impl Drop for ClassNames {
    /// Drops the fields. A derived drop would be proved anew at each place that lets go of one.
    fn drop(self) {
        let Self { text, parts } = self;
    }
}

impl Model for ClassNames {
    ghost use Rattle.std.specs.Prelude.{ℕ, List};

    ghost Value = { List (ℕ × List ℕ) };

    ghost use Rattle.hd_classes.specs.NamesInside.{names_in, AreNames};

    ghost view = { names_in };

    ghost invariant = { AreNames };
}

impl ClassNames {
    /// The name of the class of an ID, if it has one.
    pub fn get(&self, class: u64) -> Option<&[u8]>
        ensures { MatchOption result (lookup (λ (x : ℕ). class == x) self.now ≡ None) (λ name. lookup (λ (x : ℕ). class == x) self.now ≡ Some name.now) }
    {
        match self.parts.get(&class) {
            Some(part) => Some(bytes_of(self.text.as_slice(), *part)),
            None => None,
        }
    }
}

/// Names while they are copied.
#[derive(Drop)]
struct CopiedNames {
    text: Vec<u8>,
    /// Which part of the text is a copy of the file's text at an offset.
    copies: IndexMap<u64, Span, IdHasher>,
    /// Which part of the text is the name of the class of an ID.
    parts: IndexMap<u64, Span, IdHasher>,
}

/// Copies a text of the file, unless it was copied before. Answers which part of the copies it is.
fn copy_text(
    text: &mut Vec<u8>,
    copies: &mut IndexMap<u64, Span, IdHasher>,
    bytes: &[u8],
    span: Span,
) -> Result<Span, AllocError>
    requires within { span.start + span.len ≤ length bytes.now }
    requires copied { AreCopies bytes.now text.old.items copies.old.entries }
    ensures { IfOk result (λ part. CopiesText bytes.now span part text.old.items text.new.items copies.new.entries) }
{
    if let Some(part) = copies.get(&span.start)
        && part.len == span.len
    {
        return Ok(*part);
    }
    let part = Span {
        start: text.len() as u64,
        len: span.len,
    };
    text.extend_from_slice(bytes_of(bytes, span))?;
    copies.insert(span.start, part)?;
    Ok(part)
}

/// Notes the name of a class, if it has one and wasn't loaded before. It lies there in the file.
fn add_name(
    copied: &mut CopiedNames,
    bytes: &[u8],
    class: u64,
    name: Option<Span>,
) -> Result<(), AllocError>
    requires within { IfSome name (λ span. span.start + span.len ≤ length bytes.now) }
    requires copied { AreCopies bytes.now copied.old.text.items copied.old.copies.entries }
    ensures { OnOk result (AddsName bytes.now class name copied.old copied.new) }
{
    match name {
        Some(span) => {
            if !copied.parts.contains_key(&class) {
                let part = copy_text(&mut copied.text, &mut copied.copies, bytes, span)?;
                copied.parts.insert(class, part)?;
            }
        }
        None => {}
    }
    Ok(())
}

/// The names of the classes that were loaded, each class once. The secret is a random number, for the hashes of IDs: no answer
/// depends on it.
///
/// # Errors
///
/// Memory ran out.
pub fn names_of(
    alloc: Global,
    bytes: &[u8],
    loads: &Loads,
    classes: &Classes,
    secret: u64,
) -> Result<ClassNames, AllocError>
    requires { (id : ℕ) (span : Span) → name_at classes.now id ≡ Some span → span.start + span.len ≤ length bytes.now }
    ensures { IfOk result (λ names. names ≡ first_names bytes.now classes.now loads.now) }
{
    let hasher = IdHasher::new(secret);
    let mut copied = CopiedNames {
        text: Vec::new(alloc),
        copies: IndexMap::with_hasher(alloc, hasher),
        parts: IndexMap::with_hasher(alloc, hasher),
    };
    for load in loads.as_slice() {
        add_name(&mut copied, bytes, load.class, classes.name(load.class))?;
    }
    Ok(ClassNames {
        text: copied.text,
        parts: copied.parts,
    })
}
