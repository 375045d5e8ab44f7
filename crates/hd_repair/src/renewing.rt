//! Supports that are renewed by those of a search afresh, in the region of a loss or where a gain changes strengths. All else
//! stays.
ghost use Rattle.std.specs.Prelude.{◌≡◌, ◌+◌, ◌^◌, ◌<◌, ◌≤◌, ℕ, List, length, IfOk, OnOk};
ghost use Rattle.hd_terms.specs.Paths.{Standing};
ghost use Rattle.hd_terms.specs.Regions.{AreChanges, Holding, InLossRegion, WasSettledWith, WasSettledWithout};
ghost use Rattle.hd_terms.specs.Settled.{reached_at, Settled};
ghost use Rattle.hd_repair.specs.Marking.{AreMarks};
ghost use Rattle.hd_repair.specs.Renewing.{IsGreatestStamp, IsRenewal, IsRenewedAt};

use crate::change::Change;
use crate::marking::{Marks, mark_changed};
use hd_supports::Supports;
use hd_terms::NoMemory;
use std::alloc::Global;

/// The greatest stamp that is kept.
fn greatest_stamp(kept: &Supports) -> u64
    ensures greatest { IsGreatestStamp kept.now result }
    ensures small { result < 2 ^ 48 }
{
    let mut greatest = 0;
    for o in 0..kept.len() {
        greatest = kept.stamp(o).max(greatest);
    }
    greatest
}

/// Gives an object what a search found for it, with stamps above `base`, and notes the change of its strength.
fn renew_object(
    kept: &mut Supports,
    changes: &mut Vec<Change>,
    found: &Supports,
    o: u32,
    base: u64,
) -> Result<(), NoMemory>
    requires object { o < length kept.old }
    requires count { length found.now ≡ length kept.old }
    requires room { (reached_at found.now o).stamp + base < 2 ^ 48 }
    ensures count { length kept.new ≡ length kept.old }
    ensures renewed { OnOk result (IsRenewedAt kept.old kept.new found.now base o changes.old.items changes.new.items) }
{
    let before = kept.strength(o);
    let after = found.strength(o);
    kept.put(o, after, found.support(o), found.stamp(o) + base)?;
    if before.rank() != after.rank() {
        changes.push(Change::new(o, before, after))?;
    }
    Ok(())
}

/// What was kept, but for what is marked as inside: that is as it was found, with greater stamps. And the changes of strength.
fn renewed(
    alloc: Global,
    kept: &Supports,
    found: &Supports,
    marks: &Marks,
) -> Result<(Supports, Vec<Change>), NoMemory>
    requires count { length found.now ≡ length kept.now }
    requires marks { length marks.now.known.items ≡ length kept.now }
    requires room { (o : ℕ) → (reached_at kept.now o).stamp ≤ 2 ^ 47 }
    requires stamps { (o : ℕ) → (reached_at found.now o).stamp ≤ length kept.now }
    ensures { IfOk result (λ r. IsRenewal kept.now found.now marks.now.known.items r.0 r.1.items) }
{
    let base = greatest_stamp(kept);
    let mut renewed = kept.share(alloc)?;
    let mut changes = Vec::new(alloc);
    for o in 0..kept.len() {
        if marks.is_inside(o) {
            renew_object(&mut renewed, &mut changes, found, o, base)?;
        }
    }
    Ok((renewed, changes))
}

/// Renews what was kept before a loss by what a search found after it, and tells whose strength has changed: what is marked as
/// inside the region of the loss is as the search found it, with greater stamps, and all else is as it was.
///
/// # Errors
///
/// Memory ran out.
pub fn renew(
    alloc: Global,
    kept: &Supports,
    found: &Supports,
    marks: &Marks,
) -> Result<(Supports, Vec<Change>), NoMemory>
    requires count { length found.now ≡ length kept.now }
    requires marks { length marks.now.known.items ≡ length kept.now }
    requires room { (o : ℕ) → (reached_at kept.now o).stamp ≤ 2 ^ 47 }
    requires stamps { (o : ℕ) → (reached_at found.now o).stamp ≤ length kept.now }
    ensures count { IfOk result (λ r. length r.0 ≡ length kept.now) }
    ensures settled { IfOk result (λ r. (now : Standing) (lost : List Holding) → WasSettledWith now lost kept.now → AreMarks kept.now lost marks.now
        → Settled now found.now → Settled now r.0) }
    ensures changes { IfOk result (λ r. AreChanges kept.now r.0 r.1.items) }
    ensures outside { IfOk result (λ r. (lost : List Holding) → AreMarks kept.now lost marks.now → (o : ℕ) → (InLossRegion kept.now lost o → ⊥)
        → reached_at r.0 o ≡ reached_at kept.now o) }
    ensures stamps { IfOk result (λ r. (m : ℕ) → ((o : ℕ) → (reached_at kept.now o).stamp ≤ m) → (o : ℕ) → (reached_at r.0 o).stamp ≤ m + length kept.now) }
{
    let renewal = renewed(alloc, kept, found, marks)?;
    Ok(renewal)
}

/// Renews what was kept before a gain by what a search found after it, and tells whose strength has changed: what has another
/// strength is as the search found it, with greater stamps, and all else is as it was.
///
/// # Errors
///
/// Memory ran out.
pub fn renew_changed(
    alloc: Global,
    kept: &Supports,
    found: &Supports,
) -> Result<(Supports, Vec<Change>), NoMemory>
    requires count { length found.now ≡ length kept.now }
    requires room { (o : ℕ) → (reached_at kept.now o).stamp ≤ 2 ^ 47 }
    requires stamps { (o : ℕ) → (reached_at found.now o).stamp ≤ length kept.now }
    ensures count { IfOk result (λ r. length r.0 ≡ length kept.now) }
    ensures settled { IfOk result (λ r. (now : Standing) (gained : List Holding) → WasSettledWithout now gained kept.now → Settled now found.now → Settled now r.0) }
    ensures changes { IfOk result (λ r. AreChanges kept.now r.0 r.1.items) }
    ensures outside { IfOk result (λ r. (o : ℕ) → (reached_at kept.now o).strength ≡ (reached_at r.0 o).strength → reached_at r.0 o ≡ reached_at kept.now o) }
    ensures strengths { IfOk result (λ r. (o : ℕ) → (reached_at r.0 o).strength ≡ (reached_at found.now o).strength) }
    ensures stamps { IfOk result (λ r. (m : ℕ) → ((o : ℕ) → (reached_at kept.now o).stamp ≤ m) → (o : ℕ) → (reached_at r.0 o).stamp ≤ m + length kept.now) }
{
    let marks = mark_changed(alloc, kept, found)?;
    let renewal = renewed(alloc, kept, found, &marks)?;
    Ok(renewal)
}
