//! The texts of a file by their IDs, and the names of its classes.
ghost use Rattle.std.specs.Prelude.{◌≡◌, ◌==◌, ℕ, ◌+◌, ◌≤◌, true, false, is_some, length, map, IfOk, OnOk};
ghost use Rattle.std.specs.Map.{lookup};
ghost use Rattle.std.specs.Str.{bytes_eq};
ghost use Rattle.hd_terms.specs.declared.Load.{Load};
ghost use Rattle.hd_terms.specs.FirstRecords.{repeats};
ghost use Rattle.hd_terms.specs.Classes.{bytes_of_span, slashed};
ghost use Rattle.hd_classes.specs.Sources.{AreFirstTexts, AreFirstOfSide, HasFirstNames, KeepsFirst, is_on_side};

use crate::texts::TextsById;
use hd_hashers::IdHasher;
use hd_records::{Loads, Texts};
use hd_terms::Span;
use indexmap::IndexMap;
use std::alloc::{AllocError, Global};
use std::thread::{Threads, join};

/// Keeps a value by an ID, unless one is kept by it already. Answers whether one was.
fn keep_first<V: Copy>(
    kept: &mut IndexMap<u64, V, IdHasher>,
    id: u64,
    value: V,
) -> Result<bool, AllocError>
    ensures known { IfOk result (λ known. known ≡ is_some (lookup (λ (x : ℕ). id == x) kept.old.entries)) }
    ensures first { OnOk result (KeepsFirst id value kept.old.entries kept.new.entries) }
{
    let Some(first) = kept.insert(id, value)? else {
        return Ok(false);
    };
    kept.insert(id, first)?;
    Ok(true)
}

/// Whether an ID is on a side: that of the IDs whose eighth, rounded down, is odd, or that of all others.
fn is_on_side(id: u64, odd: bool) -> bool
    ensures { result ≡ is_on_side odd id }
{
    if odd {
        id / 8 % 2 == 1
    } else {
        id / 8 % 2 != 1
    }
}

/// Where the first text of each ID of a side lies, and how many texts of this side have the ID of an earlier one.
fn first_texts_of_side(
    alloc: Global,
    strings: &Texts,
    capacity: usize,
    hasher: IdHasher,
    odd: bool,
) -> Result<(IndexMap<u64, Span, IdHasher>, u64), AllocError>
    ensures { IfOk result (λ r. AreFirstOfSide odd strings.now r.0.entries r.1) }
{
    let mut texts = IndexMap::with_capacity_and_hasher(alloc, capacity, hasher)?;
    let mut repeated = 0;
    for text in strings.as_slice() {
        if is_on_side(text.id, odd) && keep_first(&mut texts, text.id, text.text)? {
            repeated += 1;
        }
    }
    Ok((texts, repeated))
}

/// The texts of a file: where the first of each ID lies, and how many have the ID of an earlier one.
#[derive(Drop)]
pub struct FirstTexts {
    pub(crate) texts: TextsById,
    pub(crate) repeated: u64,
}

impl FirstTexts {
    /// The first text of each ID. Two threads note a side of the IDs each. The secret is a random number, for the hashes of IDs:
    /// no answer depends on it.
    ///
    /// # Errors
    ///
    /// Out of memory.
    pub fn of<R: Threads + Sync>(
        rt: &R,
        alloc: Global,
        strings: &Texts,
        secret: u64,
    ) -> Result<FirstTexts, AllocError>
        ensures { IfOk result (AreFirstTexts strings.now) }
    {
        let hasher = IdHasher::new(secret);
        let len = strings.len();
        // A side mostly has about half of the texts.
        let capacity = len / 2 + len / 16;
        let even = || -> Result<(IndexMap<u64, Span, IdHasher>, u64), AllocError>
            ensures { IfOk result (λ r. AreFirstOfSide false strings.entry.now r.0.entries r.1) }
        { first_texts_of_side(alloc, strings, capacity, hasher, false) };
        let odd = || -> Result<(IndexMap<u64, Span, IdHasher>, u64), AllocError>
            ensures { IfOk result (λ r. AreFirstOfSide true strings.entry.now r.0.entries r.1) }
        { first_texts_of_side(alloc, strings, capacity, hasher, true) };
        let (even, odd) = join(rt, even, odd);
        let (even, repeated_even) = even?;
        let (odd, repeated_odd) = odd?;
        Ok(FirstTexts {
            texts: TextsById::new(even, odd),
            repeated: repeated_even + repeated_odd,
        })
    }
}

/// The ID of the text that names each class, as the first LOAD CLASS of the class says it, and how many LOAD CLASS load a class
/// that was loaded before.
pub(crate) fn first_names(
    alloc: Global,
    loads: &Loads,
    hasher: IdHasher,
) -> Result<(IndexMap<u64, u64, IdHasher>, u64), AllocError>
    ensures names { IfOk result (λ r. HasFirstNames loads.now r.0.entries) }
    ensures repeated { IfOk result (λ r. r.1 ≡ repeats (λ (l : Load). l.class) loads.now) }
{
    let mut names = IndexMap::with_capacity_and_hasher(alloc, loads.len(), hasher)?;
    let mut repeated = 0;
    for load in loads.as_slice() {
        if keep_first(&mut names, load.class, load.name)? {
            repeated += 1;
        }
    }
    Ok((names, repeated))
}

/// The bytes of a span of a file.
pub fn bytes_of(bytes: &[u8], span: Span) -> &[u8]
    requires { span.start + span.len ≤ length bytes.now }
    ensures { result.now ≡ bytes_of_span bytes.now span }
{
    let start = span.start as usize;
    &bytes[start..start + span.len as usize]
}

/// A byte of a name as it stands between slashes: a dot is turned into a slash.
fn slashed(byte: u8) -> u8
    ensures { result ≡ slashed byte }
{
    if byte == b'.' { b'/' } else { byte }
}

/// Whether a class's name is this one, which is written with slashes. The class's own may have dots in their place.
pub(crate) fn is_named(name: &[u8], wanted: &[u8]) -> bool
    ensures { result ≡ bytes_eq (map slashed name.now) wanted.now }
{
    if name.len() != wanted.len() {
        return false;
    }
    for (i, byte) in name.iter().enumerate() {
        if slashed(*byte) != wanted[i] {
            return false;
        }
    }
    true
}
