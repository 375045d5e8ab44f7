//! The groups that have objects of a strength, with their totals.
ghost use Rattle.std.specs.Prelude.{◌≡◌, List, length, IfOk};
ghost use Rattle.hd_terms.specs.Dump.{Dump};
ghost use Rattle.hd_terms.specs.Settled.{Reached};
ghost use Rattle.hd_totals.specs.Rows.{AreRowsBefore, AreRowsOf, AreMemberRows};
ghost use Rattle.hd_totals.specs.Totals.{AreTotals};

use crate::group_totals::GroupTotals;
use crate::keys::{group_of_key, key_of};
use hd_terms::{ClassRow, NoMemory, Strength};
use std::alloc::Global;

/// The rows of the groups that have objects of a strength, in the order in which the groups were met.
fn gather(
    alloc: Global,
    totals: &GroupTotals,
    strength: Strength,
) -> Result<Vec<ClassRow>, NoMemory>
    ensures rows { IfOk result (λ v. AreRowsBefore totals.now strength (length totals.now.rows) v.items) }
    ensures whole { length totals.now.rows ≡ length totals.now.keys }
{
    let mut rows = Vec::new(alloc);
    for i in 0..totals.rows.len() {
        let total = totals.rows.get(i).of(strength);
        let group = group_of_key(totals.keys.get(i as usize));
        if total.count > 0 {
            rows.push(ClassRow {
                group,
                count: total.count,
                bytes: total.bytes,
            })?;
        }
    }
    Ok(rows)
}

impl GroupTotals {
    /// The groups that have objects of a strength, in the order of the groups, with their totals.
    ///
    /// # Errors
    ///
    /// Memory ran out.
    pub fn classes(&self, alloc: Global, strength: Strength) -> Result<Vec<ClassRow>, NoMemory>
        ensures rows { IfOk result (λ v. AreRowsOf self.now strength v.items) }
        ensures members { IfOk result (λ v. (dump : Dump) (ks : List Reached) → AreTotals dump ks self.now → AreMemberRows dump ks strength v.items) }
    {
        let mut rows = gather(alloc, self, strength)?;
        rows.sort_unstable_by_key(|row| key_of(row.group));
        Ok(rows)
    }
}
