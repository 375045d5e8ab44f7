//! Objects that hang on roots: their stored chain is followed, and no edge is looked at.
ghost use Rattle.std.specs.Prelude.{◌≡◌, ◌<◌, ◌≤◌, ℕ, true, false, length};
ghost use Rattle.hd_terms.specs.declared.Slot.{Slot};
ghost use Rattle.hd_terms.specs.declared.Support.TheVariants as supports;
ghost use Rattle.hd_terms.specs.Ranks.{rank};
ghost use Rattle.hd_terms.specs.Settled.{reached_at, IsBefore};
ghost use Rattle.hd_repair.specs.Hanging.{AreInOrder, HaveSources, IsHung, NoneLate};

use hd_supports::Supports;
use hd_terms::Support;

/// Whether one object comes before another: it has a greater rank, or the same and a lesser stamp.
pub(crate) fn is_before(kept: &Supports, a: u32, b: u32) -> bool
    requires first { a < length kept.now }
    requires second { b < length kept.now }
    ensures yes { result ≡ true → IsBefore (reached_at kept.now a) (reached_at kept.now b) }
    ensures no { result ≡ false → IsBefore (reached_at kept.now a) (reached_at kept.now b) → ⊥ }
{
    let first = kept.strength(a).rank();
    let second = kept.strength(b).rank();
    if first != second {
        return first > second;
    }
    kept.stamp(a) < kept.stamp(b)
}

/// Whether the stored chain of an object is seen to lead to a root, within the `steps` that are left. It counts them down.
pub(crate) fn is_hung(kept: &Supports, o: u32, steps: &mut u64) -> bool
    requires object { o < length kept.now }
    requires in_order { AreInOrder kept.now NoneLate }
    requires sources { HaveSources kept.now }
    ensures { result ≡ true → IsHung kept.now o }
{
    let mut at = o;
    while *steps > 0 {
        match kept.support(at) {
            Support::Root(_) => return true,
            Support::Edge { source, .. } => at = source,
            Support::Nothing => return false,
        }
        *steps -= 1;
    }
    false
}
