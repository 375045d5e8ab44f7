//! Counting the objects that become unreachable by changes, and those that cease to be.
ghost use Rattle.std.specs.Prelude.{◌≡◌, List, length, count_by};
ghost use Rattle.std.specs.List.{range_with_len};
ghost use Rattle.hd_terms.specs.Regions.{AreChanges};
ghost use Rattle.hd_terms.specs.Settled.{Reached};
ghost use Rattle.hd_totals.specs.Fallen.{falls_to, falls_from};

use hd_repair::Change;
use hd_terms::Strength;

/// Whether an object becomes unreachable: it is, and it was not before.
pub fn falls(before: Strength, after: Strength) -> bool
    ensures { result ≡ falls_to before after }
{
    after == Strength::Unreachable && before != Strength::Unreachable
}

/// How many objects become unreachable by changes.
pub fn count_fallen(changes: &[Change]) -> u64
    ensures { (before after : List Reached) → AreChanges before after changes.now → length before ≡ length after → result ≡ count_by (falls_from before after) (range_with_len 0 (length after)) }
{
    let mut count = 0;
    for change in changes {
        if falls(change.before(), change.after()) {
            count += 1;
        }
    }
    count
}

/// How many objects cease to be unreachable by changes.
pub fn count_back(changes: &[Change]) -> u64
    ensures { (before after : List Reached) → AreChanges before after changes.now → length before ≡ length after → result ≡ count_by (falls_from after before) (range_with_len 0 (length after)) }
{
    let mut count = 0;
    for change in changes {
        if falls(change.after(), change.before()) {
            count += 1;
        }
    }
    count
}
