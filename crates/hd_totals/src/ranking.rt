//! The order in which rows of groups are listed by their bytes.
ghost use Rattle.std.specs.Prelude.{nat_eq, map};
ghost use Rattle.std.specs.List.{IsDistinct};
ghost use Rattle.std.specs.List.Sorted.{IsPermutation};
ghost use Rattle.hd_terms.specs.Listed.{AreRanked};
ghost use Rattle.hd_totals.specs.Rows.{row_key};

use crate::keys::key_of;
use hd_terms::ClassRow;
use std::cmp::Reverse;

/// The same rows, of which no two are of one group: those with the most bytes first, of these those with the most objects, and of
/// these in the order of the groups.
pub fn ranked(rows: Vec<ClassRow>) -> Vec<ClassRow>
    requires { IsDistinct nat_eq (map row_key rows.items) }
    ensures ranked { AreRanked result.items }
    ensures same { IsPermutation rows.items result.items }
{
    let mut ranked = rows;
    ranked.sort_unstable_by_key(|row| {
        (Reverse(row.bytes), Reverse(row.count), key_of(row.group))
    });
    ranked
}
