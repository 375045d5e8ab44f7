//! Which groups the objects of each page are of.
ghost use Rattle.std.specs.Prelude.{◌≡◌, ◌+◌, ◌*◌, ◌/◌, ◌^◌, ◌<◌, ◌≤◌, ◌↔◌, ℕ, length, IfOk, IsTrue};
ghost use Rattle.hd_terms.specs.declared.Group.{Group as OneGroup};
ghost use Rattle.hd_totals.specs.GroupPages.{first_bucket, second_bucket, spread, least_at, no_marks, pages_behind, AreWhole as HaveMarks, HasBucket, IsMarked, IsNoted};

use hd_terms::{Group, NoMemory};
use std::alloc::Global;
use std::marker::Model;

/// In how many buckets groups fall.
const BUCKETS: usize = 4096;

/// How many words of 64 bits a page has: a bit for each bucket.
const WORDS: usize = BUCKETS / 64;

/// Of each page of 1,024 objects, the two buckets of each group of its objects, and an ID that none of its objects is below. So a
/// query can leave out a page that has no object of a group, or none with an ID that is low enough. Another group may fall in one
/// of the buckets; one that is not on a page seldom finds both of its buckets marked there (B. H. Bloom, Space/Time Trade-offs in
/// Hash Coding with Allowable Errors, Communications of the ACM 13(7), 1970).
///
/// It takes 520 bytes a page.
pub struct GroupPages {
    /// 64 words a page.
    marks: Vec<u64>,
    /// One ID a page.
    least: Vec<u64>,
}

impl Drop for GroupPages {
    /// Drops the fields. A derived drop would be proved anew at each place that lets go of one.
    fn drop(self) {
        let Self { marks, least } = self;
    }
}

impl Model for GroupPages {
    ghost use Rattle.hd_totals.specs.GroupPages.{PageMarks, AreWhole};

    ghost Value = { PageMarks };

    ghost view = { λ p. record { marks = p.marks.items; least = p.least.items } };

    ghost invariant = { λ p. AreWhole (record { marks = p.marks.items; least = p.least.items }) };
}

/// A group's number, spread over 64 bits by a product (Knuth, The Art of Computer Programming, volume 3, section 6.4).
#[inline(always)]
fn spread(group: Group) -> u64
    ensures { result ≡ spread group }
{
    let number = match group {
        Group::Class(id) => id,
        Group::Prim(element) => u64::from(element),
        Group::Classes => 0,
    };
    number.wrapping_mul(0x9e37_79b9_7f4a_7c15)
}

/// The two buckets of a group, each of 4,096: the top bits of its spread number, and those below them.
#[inline(always)]
pub(crate) fn buckets_of(group: Group) -> (usize, usize)
    ensures first { result.0 ≡ first_bucket group }
    ensures second { result.1 ≡ second_bucket group }
    ensures small { (result.0 < 4096) × (result.1 < 4096) }
{
    let bits = spread(group);
    ((bits >> 52) as usize, (bits >> 40) as usize % BUCKETS)
}

/// Marks a bucket of a page.
#[inline(always)]
fn mark(marks: &mut Vec<u64>, page: usize, bucket: usize)
    requires { page * 64 + bucket / 64 < length marks.old.items }
    ensures count { length marks.new.items ≡ length marks.old.items }
    ensures marked { HasBucket marks.new.items page bucket }
    ensures kept { (p : ℕ) (b : ℕ) → HasBucket marks.old.items p b → HasBucket marks.new.items p b }
{
    marks[page * WORDS + bucket / 64] |= 1 << (bucket % 64);
}

/// Whether a bucket of a page is marked. Behind the last page there is none.
fn has_bucket(marks: &[u64], page: u32, bucket: usize) -> bool
    requires { bucket < 4096 }
    ensures { IsTrue result ↔ HasBucket marks.now page bucket }
{
    match marks.get(page as usize * WORDS + bucket / 64) {
        Some(word) => *word >> (bucket % 64) & 1 == 1,
        None => false,
    }
}

impl GroupPages {
    /// `pages` pages, at which no object is noted yet.
    ///
    /// # Errors
    ///
    /// Memory ran out.
    pub(crate) fn none(alloc: Global, pages: usize) -> Result<GroupPages, NoMemory>
        requires { pages * 64 < 2 ^ 64 }
        ensures { IfOk result (λ p. p ≡ no_marks pages) }
    {
        let marks = vec![in alloc; 0u64; pages * WORDS]?;
        let least = vec![in alloc; u64::MAX; pages]?;
        Ok(GroupPages { marks, least })
    }

    /// Notes the buckets of an object's group, and its ID, at its page.
    #[inline(always)]
    pub(crate) fn note(&mut self, page: usize, buckets: (usize, usize), id: u64)
        requires page { page < length self.old.least }
        requires buckets { (buckets.0 < 4096) × (buckets.1 < 4096) }
        ensures count { length self.new.least ≡ length self.old.least }
        ensures marked { HasBucket self.new.marks page buckets.0 × HasBucket self.new.marks page buckets.1 }
        ensures above { least_at self.new page ≤ id }
        ensures kept { (p : ℕ) (g : OneGroup) (i : ℕ) → IsNoted self.old p g i → IsNoted self.new p g i }
    {
        mark(&mut self.marks, page, buckets.0);
        mark(&mut self.marks, page, buckets.1);
        self.least[page] = self.least[page].min(id);
    }

    /// These pages, and later ones behind them.
    ///
    /// # Errors
    ///
    /// Memory ran out.
    pub(crate) fn append(self, later: GroupPages) -> Result<GroupPages, NoMemory>
        ensures behind { IfOk result (λ p. p ≡ pages_behind self later) }
        ensures marks { HaveMarks self }
    {
        let GroupPages {
            mut marks,
            mut least,
        } = self;
        let GroupPages {
            marks: mut later_marks,
            least: mut later_least,
        } = later;
        marks.append(&mut later_marks)?;
        least.append(&mut later_least)?;
        Ok(GroupPages { marks, least })
    }

    /// Whether an object of a page may be of a group: both buckets of the group are marked there.
    pub fn may_have(&self, page: u32, group: Group) -> bool
        ensures { IsTrue result ↔ IsMarked self.now page group }
    {
        let (first, second) = buckets_of(group);
        has_bucket(self.marks.as_slice(), page, first)
            && has_bucket(self.marks.as_slice(), page, second)
    }

    /// An ID that no object of a page is below.
    pub fn least(&self, page: u32) -> u64
        ensures { result ≡ least_at self.now page }
    {
        match self.least.get(page as usize) {
            Some(id) => *id,
            None => 0,
        }
    }
}
