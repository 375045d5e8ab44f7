//! Resolving references: each offset of an ID becomes the number of the object with that ID.
ghost use Rattle.std.specs.Prelude.{◌≡◌, drop, ◌+◌, ◌<◌, ◌≤◌, ◌-◌, ◌^◌, ◌↔◌, length, map, All, IsTrue, IfOk, OnOk};
ghost use Rattle.hd_slots.specs.Table.{id_at, IsIdWithin};
ghost use Rattle.hd_slots.specs.Codes.{IsCode, IsLonger, id_of_code};
ghost use Rattle.hd_slots.specs.Resolving.{found_code, id_of_found, IsFound, IsMarked, IsUnmarked, KeepsBlock, AreCodesOf};
ghost use Rattle.hd_slots.specs.Shared.{offset_of, found_item, IsKept};

use crate::resolved_rows::NULL;
use hd_ids::{Finder, ObjectIds};
use hd_terms::IdSize;
use rayon::prelude::par_chunks_mut_for_each;
use std::alloc::{AllocError, Global};
use std::thread::Threads;

/// Marks the offset of an ID that is no object's. Numbers of objects and offsets into the file are below it.
const ABSENT: u32 = 0x8000_0000;

/// Marks an index of the offsets that many slots share, instead of the offset of an ID.
pub(crate) const SHARED: u32 = 0x8000_0000;

/// How many numbers are looked over together for marked offsets, of which most dumps have few.
const BLOCK: usize = 256;

/// How many IDs one finder finds.
const PART: usize = 65_536;

/// The number of the object whose ID lies at an offset of the file, `NULL` for the ID 0, and the marked offset where no object
/// has the ID.
#[inline(always)]
fn found(finder: &mut Finder<'_>, id_size: IdSize, bytes: &[u8], offset: u32) -> u32
    requires within { IsIdWithin id_size (length bytes.now) offset }
    requires small { length bytes.now < 2 ^ 31 }
    requires few { length finder.old < 2 ^ 31 }
    ensures found { result ≡ found_code finder.old bytes.now id_size offset }
    ensures same { finder.new ≡ finder.old }
{
    let id = id_size.read(&bytes[offset as usize..]);
    if id == 0 {
        return NULL;
    }
    match finder.index_of(id) {
        Some(object) => object as u32,
        None => ABSENT + offset,
    }
}

/// What is found for a slot, where this was found for the shared offsets.
#[inline(always)]
fn find_item(
    finder: &mut Finder<'_>,
    id_size: IdSize,
    bytes: &[u8],
    shared: &[u32],
    item: u32,
) -> u32
    requires kept { IsKept id_size (length bytes.now) (length shared.now) item }
    requires small { length bytes.now < 2 ^ 31 }
    requires few { length finder.old < 2 ^ 31 }
    ensures found { result ≡ found_item finder.old bytes.now id_size shared.now item }
    ensures same { finder.new ≡ finder.old }
{
    if item < SHARED {
        return found(finder, id_size, bytes, item);
    }
    shared[(item - SHARED) as usize]
}

/// Turns what is kept of the slots of one part into what is found for them. IDs that follow one another are mostly near, so one
/// finder finds all.
fn find_part(ids: &ObjectIds, id_size: IdSize, bytes: &[u8], shared: &[u32], part: &mut [u32])
    requires kept { All (IsKept id_size (length bytes.now) (length shared.now)) part.old }
    requires small { length bytes.now < 2 ^ 31 }
    requires few { length ids.now < 2 ^ 31 }
    ensures { part.new ≡ map (found_item ids.now bytes.now id_size shared.now) part.old }
{
    let mut finder = ids.finder();
    for i in 0..part.len() {
        part[i] = find_item(&mut finder, id_size, bytes, shared, part[i]);
    }
}

/// Turns what is kept of slots into what is found for them, on all processors, part by part.
fn find_objects<R: Threads + Sync>(
    rt: &R,
    ids: &ObjectIds,
    id_size: IdSize,
    bytes: &[u8],
    shared: &[u32],
    items: &mut [u32],
)
    requires kept { All (IsKept id_size (length bytes.now) (length shared.now)) items.old }
    requires small { length bytes.now < 2 ^ 31 }
    requires few { length ids.now < 2 ^ 31 }
    ensures { items.new ≡ map (found_item ids.now bytes.now id_size shared.now) items.old }
{
    par_chunks_mut_for_each(
        rt,
        items,
        PART,
        |_, part: &mut [u32]|
            requires { All (IsKept id_size (length bytes.now) (length shared.now)) part.now × (length bytes.now < 2 ^ 31) × (length ids.now < 2 ^ 31) }
            ensures { part.exit.now ≡ map (found_item ids.entry.now bytes.entry.now id_size shared.entry.now) part.entry.now }
        { find_part(ids, id_size, bytes, shared, part) },
    );
}

/// Whether what was found is a marked offset, since no object has the ID there.
fn is_marked(item: u32) -> bool
    ensures { IsTrue result ↔ IsMarked item }
{
    item >= ABSENT && item != NULL
}

/// The number for a marked offset: the next behind those of the objects and of the absent IDs so far, of which the ID at the
/// offset is one from then on.
fn number_for(
    ids: &ObjectIds,
    id_size: IdSize,
    bytes: &[u8],
    absent: &mut Vec<u64>,
    item: u32,
) -> Result<u32, AllocError>
    requires found { IsFound ids.now bytes.now id_size item }
    requires marked { IsMarked item }
    requires few { length ids.now < 2 ^ 31 }
    requires room { length ids.now + length absent.old.items < 2 ^ 32 - 1 }
    ensures code { IfOk result (λ code. IsCode ids.now absent.new.items code × (id_of_code ids.now absent.new.items code ≡ id_of_found ids.now bytes.now id_size item)) }
    ensures kept { OnOk result (IsLonger absent.old.items absent.new.items) }
{
    let offset = (item - ABSENT) as usize;
    let code = (ids.len() + absent.len()) as u32;
    absent.push(id_size.read(&bytes[offset..]))?;
    Ok(code)
}

/// Whether none of these is a marked offset. It doesn't stop at the first, so that the compiler can compare many at once.
fn none_marked(items: &[u32]) -> bool
    ensures { IsTrue result ↔ All IsUnmarked items.now }
{
    let mut any_marked = false;
    for i in 0..items.len() {
        any_marked |= is_marked(items[i]);
    }
    !any_marked
}

/// Does for one block what `keep_absent` does for all. The block begins at `start`; the answer is where the next begins.
fn keep_block(
    ids: &ObjectIds,
    id_size: IdSize,
    bytes: &[u8],
    items: &mut [u32],
    absent: &mut Vec<u64>,
    start: usize,
) -> Result<usize, AllocError>
    requires found { All (IsFound ids.now bytes.now id_size) (drop start items.old) }
    requires few { length ids.now < 2 ^ 31 }
    requires no_null { All (λ id. 0 < id) ids.now }
    requires room { length ids.now + length items.old < 2 ^ 32 }
    requires start { start < length items.old }
    requires few_absent { length absent.old.items ≤ start }
    ensures keeps { IfOk result (λ end. KeepsBlock ids.now bytes.now id_size items.old absent.old.items start items.new absent.new.items end) }
    ensures end { IfOk result (λ end. (start < end) × (end ≤ length items.new)) }
{
    let end = items.len().min(start + BLOCK);
    if none_marked(&items[start..end]) {
        return Ok(end);
    }
    for i in start..end {
        let item = items[i];
        if is_marked(item) {
            items[i] = number_for(ids, id_size, bytes, absent, item)?;
        }
    }
    Ok(end)
}

/// Keeps the IDs that are no object's, and gives each a number behind those of the objects. Of the others nothing is written.
fn keep_absent(
    alloc: Global,
    ids: &ObjectIds,
    id_size: IdSize,
    bytes: &[u8],
    items: &mut [u32],
) -> Result<Vec<u64>, AllocError>
    requires found { All (IsFound ids.now bytes.now id_size) items.old }
    requires few { length ids.now < 2 ^ 31 }
    requires no_null { All (λ id. 0 < id) ids.now }
    requires room { length ids.now + length items.old < 2 ^ 32 }
    ensures { IfOk result (λ absent. AreCodesOf ids.now (map (id_of_found ids.now bytes.now id_size) items.old) items.new absent.items) }
{
    let mut absent = Vec::new(alloc);
    let mut start = 0;
    while start < items.len() {
        start = keep_block(ids, id_size, bytes, items, &mut absent, start)?;
    }
    Ok(absent)
}

/// Turns what is kept of slots into numbers, and answers the IDs that are no object's. The shared offsets become what is found there.
pub(crate) fn resolve_offsets<R: Threads + Sync>(
    rt: &R,
    alloc: Global,
    ids: &ObjectIds,
    id_size: IdSize,
    bytes: &[u8],
    shared: &mut [u32],
    items: &mut [u32],
) -> Result<Vec<u64>, AllocError>
    requires shared { All (IsIdWithin id_size (length bytes.now)) shared.old }
    requires kept { All (IsKept id_size (length bytes.now) (length shared.old)) items.old }
    requires small { length bytes.now < 2 ^ 31 }
    requires few { length ids.now < 2 ^ 31 }
    requires no_null { All (λ id. 0 < id) ids.now }
    requires room { length ids.now + length items.old < 2 ^ 32 }
    ensures codes { IfOk result (λ absent. AreCodesOf ids.now (map (id_at bytes.now id_size) (map (offset_of shared.old) items.old)) items.new absent.items) }
    ensures same_len { length items.new ≡ length items.old }
{
    find_part(ids, id_size, bytes, &[], shared);
    find_objects(rt, ids, id_size, bytes, shared, items);
    let absent = keep_absent(alloc, ids, id_size, bytes, items)?;
    Ok(absent)
}
