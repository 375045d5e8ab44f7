//! `PartIndex`: which part has an object.
ghost use Rattle.std.specs.Prelude.{◌≡◌, ◌+◌, ◌-◌, ◌<◌, ◌≤◌, ◌^◌, length, slice_index, sum, take, IfOk};
ghost use Rattle.hd_parts.specs.Parts.{firsts_of, LeadTo};

use std::alloc::{AllocError, Global};
use std::marker::Model;

/// How many numbers have one entry of `PartIndex::at`.
const BLOCK: usize = 65_536;

/// Which part has an object, where the objects of each part are numbered behind those of the part before.
///
/// It takes a byte for each 65,536 objects, and four bytes for each part.
pub struct PartIndex {
    /// The number of the first object of each part, and behind them how many objects there are.
    firsts: Vec<u32>,
    /// Of each 65,536 numbers the part that has the first of them.
    at: Vec<u8>,
}

impl Drop for PartIndex {
    /// Drops the fields. A derived drop would be proved anew at each place that lets go of one.
    fn drop(self) {
        let Self { firsts, at } = self;
    }
}

impl Model for PartIndex {
    ghost use Rattle.std.specs.Prelude.{List, ℕ};
    ghost use Rattle.hd_parts.specs.Parts.{lens_between, IsIndexOf};

    // how many objects each part has
    ghost Value = { List ℕ };

    ghost view = { λ a. lens_between a.firsts.items };

    ghost invariant = { λ a. IsIndexOf (lens_between a.firsts.items) a.firsts.items a.at.items };
}

/// The number of the first object of each part, and behind them how many objects there are.
fn firsts_by(alloc: Global, lens: &[usize]) -> Result<Vec<u32>, AllocError>
    requires { sum lens.now < 2 ^ 32 }
    ensures { IfOk result (λ firsts. firsts.items ≡ firsts_of lens.now) }
{
    let mut firsts = Vec::with_capacity(alloc, lens.len() + 1)?;
    firsts.push(0)?;
    let mut end = 0;
    for len in lens {
        end += *len as u32;
        firsts.push(end)?;
    }
    Ok(firsts)
}

/// Of each 65,536 numbers the part that has the first of them.
fn parts_at(alloc: Global, lens: &[usize], firsts: &[u32]) -> Result<Vec<u8>, AllocError>
    requires firsts { firsts.now ≡ firsts_of lens.now }
    requires few_parts { length lens.now ≤ 256 }
    requires few { sum lens.now < 2 ^ 32 }
    ensures { IfOk result (λ at. LeadTo (length lens.now) (sum lens.now) lens.now at.items) }
{
    let mut at = Vec::with_capacity(alloc, (firsts[lens.len()] as usize).div_ceil(BLOCK))?;
    for part in 0..lens.len() {
        at.resize((firsts[part + 1] as usize).div_ceil(BLOCK), part as u8)?;
    }
    Ok(at)
}

/// The part that has an object, from a part on that has it or stands before it.
#[inline(always)]
fn part_from(firsts: &[u32], from: usize, o: u32) -> usize
    requires from { from + 1 < length firsts.now }
    requires reached { slice_index firsts.now from ≤ o }
    requires within { o < slice_index firsts.now (length firsts.now - 1) }
    ensures part { result + 1 < length firsts.now }
    ensures within { (slice_index firsts.now result ≤ o) × (o < slice_index firsts.now (result + 1)) }
{
    let mut part = from;
    while firsts[part + 1] <= o {
        part += 1;
    }
    part
}

impl PartIndex {
    /// The index of parts that have these many objects each.
    ///
    /// # Errors
    ///
    /// Out of memory.
    pub fn of(alloc: Global, lens: &[usize]) -> Result<PartIndex, AllocError>
        requires few_parts { length lens.now ≤ 256 }
        requires few { sum lens.now < 2 ^ 32 }
        ensures { IfOk result (λ index. index ≡ lens.now) }
    {
        let firsts = firsts_by(alloc, lens)?;
        let at = parts_at(alloc, lens, &firsts)?;
        Ok(PartIndex { firsts, at })
    }

    /// The part that has an object, and the number of the part's first object.
    #[inline(always)]
    pub fn find(&self, o: u32) -> (usize, u32)
        requires { o < sum self.now }
        ensures part { result.0 < length self.now }
        ensures first { result.1 ≡ sum (take result.0 self.now) }
        ensures within { (result.1 ≤ o) × (o < result.1 + slice_index self.now result.0) }
    {
        let from = self.at[o as usize / BLOCK];
        let part = part_from(&self.firsts, from as usize, o);
        (part, self.firsts[part])
    }
}
