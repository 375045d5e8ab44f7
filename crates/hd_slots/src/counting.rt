//! Counting the references of all objects.
ghost use Rattle.std.specs.Prelude.{◌≡◌, ◌<◌, ◌^◌, ◌==◌, ◌↔◌, nat_lt, length, map, All, IsTrue, count_by};
ghost use Rattle.hd_slots.specs.Table.{null_code, is_known, is_absent};
ghost use Rattle.hd_slots.specs.Codes.{IsCode, id_of_code};

use crate::resolved_rows::NULL;
use hd_ids::ObjectIds;

/// How many IDs are objects', and how many are neither null nor an object's.
#[derive(Clone, Copy)]
pub struct IdCounts {
    /// How many are objects'.
    pub objects: u64,
    /// How many are neither null nor an object's.
    pub others: u64,
}

/// Whether a number stands for an ID that is neither null nor an object's. Few do.
fn is_other(ids: &ObjectIds, absent: &[u64], code: u32) -> bool
    requires few { length ids.now < 2 ^ 31 }
    requires is { IsCode ids.now absent.now code }
    ensures { result ≡ is_absent ids.now (id_of_code ids.now absent.now code) }
{
    let index = code as usize;
    index >= ids.len() && code != NULL && absent[index - ids.len()] != 0
}

/// How many of these numbers are objects', and how many are null. It doesn't branch, so that the compiler can compare many at once.
fn count_known_and_nulls(codes: &[u32], objects: u32) -> (u32, u32)
    requires short { length codes.now < 2 ^ 32 }
    ensures known { result.0 ≡ count_by (λ code. nat_lt code objects) codes.now }
    ensures nulls { result.1 ≡ count_by (λ code. code == null_code) codes.now }
{
    let mut known = 0u32;
    let mut nulls = 0u32;
    for i in 0..codes.len() {
        let code = codes[i];
        known += u32::from(code < objects);
        nulls += u32::from(code == NULL);
    }
    (known, nulls)
}

/// Whether none of these IDs is null. None ever is.
fn has_no_null(absent: &[u64]) -> bool
    ensures { IsTrue result ↔ All (λ id. 0 < id) absent.now }
{
    let mut any_null = false;
    for i in 0..absent.len() {
        any_null |= absent[i] == 0;
    }
    !any_null
}

/// How many of these numbers stand for IDs that are neither null nor an object's. It looks at each of them.
fn count_others(ids: &ObjectIds, absent: &[u64], codes: &[u32]) -> u64
    requires few { length ids.now < 2 ^ 31 }
    requires short { length codes.now < 2 ^ 32 }
    requires codes { All (IsCode ids.now absent.now) codes.now }
    ensures { result ≡ count_by (is_absent ids.now) (map (id_of_code ids.now absent.now) codes.now) }
{
    let mut others = 0;
    for i in 0..codes.len() {
        if is_other(ids, absent, codes[i]) {
            others += 1;
        }
    }
    others
}

/// How many of these numbers stand for IDs of objects, and how many for IDs that are neither null nor an object's.
pub(crate) fn count_codes(ids: &ObjectIds, absent: &[u64], codes: &[u32]) -> IdCounts
    requires few { length ids.now < 2 ^ 31 }
    requires short { length codes.now < 2 ^ 32 }
    requires codes { All (IsCode ids.now absent.now) codes.now }
    ensures objects { result.objects ≡ count_by (is_known ids.now) (map (id_of_code ids.now absent.now) codes.now) }
    ensures others { result.others ≡ count_by (is_absent ids.now) (map (id_of_code ids.now absent.now) codes.now) }
{
    let (known, nulls) = count_known_and_nulls(codes, ids.len() as u32);
    let objects = u64::from(known);
    // What is neither an object's nor null is absent, where no absent ID is null.
    let others = if has_no_null(absent) {
        codes.len() as u64 - objects - u64::from(nulls)
    } else {
        count_others(ids, absent, codes)
    };
    IdCounts { objects, others }
}
