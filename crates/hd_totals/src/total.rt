//! How many objects there are, and their bytes; and that of each strength.
ghost use Rattle.std.specs.Prelude.{◌≡◌, ◌+◌, ◌<◌, ◌≤◌, ◌^◌};
ghost use Rattle.hd_totals.specs.Running.{plus_one, less_one};
ghost use Rattle.hd_terms.specs.declared.Strength.{Strength as OneStrength};
ghost use Rattle.hd_totals.specs.Totals.{no_total, no_totals, total_for, plus_object, less_object, sum_of, sums_of, with_total};

use hd_terms::Strength;

/// How many objects, and their recorded bytes.
#[derive(Clone, Copy)]
pub struct Total {
    pub count: u64,
    pub bytes: u64,
}

/// The total of each strength.
#[derive(Clone, Copy)]
pub struct StrengthTotals {
    pub strong: Total,
    pub soft: Total,
    pub weak: Total,
    pub finalizable: Total,
    pub phantom: Total,
    pub unreachable: Total,
}

impl Total {
    /// No object.
    pub fn none() -> Total
        ensures { result ≡ no_total }
    {
        Total { count: 0, bytes: 0 }
    }

    /// The total with one more object, of `bytes` bytes.
    pub fn plus(self, bytes: u64) -> Total
        requires count { self.count + 1 < 2 ^ 64 }
        requires bytes { self.bytes + bytes < 2 ^ 64 }
        ensures { result ≡ plus_object self bytes }
    {
        Total {
            count: self.count + 1,
            bytes: self.bytes + bytes,
        }
    }

    /// The total with one object fewer, which has `bytes` bytes.
    pub fn less(self, bytes: u64) -> Total
        requires count { 1 ≤ self.count }
        requires bytes { bytes ≤ self.bytes }
        ensures { result ≡ less_object self bytes }
    {
        Total {
            count: self.count - 1,
            bytes: self.bytes - bytes,
        }
    }

    /// The objects of two totals together.
    pub fn sum(self, other: Total) -> Total
        requires count { self.count + other.count < 2 ^ 64 }
        requires bytes { self.bytes + other.bytes < 2 ^ 64 }
        ensures { result ≡ sum_of self other }
    {
        Total {
            count: self.count + other.count,
            bytes: self.bytes + other.bytes,
        }
    }
}

impl StrengthTotals {
    /// No object of any strength.
    pub fn none() -> StrengthTotals
        ensures { result ≡ no_totals }
    {
        StrengthTotals {
            strong: Total::none(),
            soft: Total::none(),
            weak: Total::none(),
            finalizable: Total::none(),
            phantom: Total::none(),
            unreachable: Total::none(),
        }
    }

    /// The total of a strength.
    pub fn of(&self, strength: Strength) -> Total
        ensures { result ≡ total_for self.now strength }
    {
        match strength {
            Strength::Strong => self.strong,
            Strength::Soft => self.soft,
            Strength::Weak => self.weak,
            Strength::Final => self.finalizable,
            Strength::Phantom => self.phantom,
            Strength::Unreachable => self.unreachable,
        }
    }

    /// Puts another total for a strength.
    fn put(&mut self, strength: Strength, total: Total)
        ensures { self.new ≡ with_total self.old strength total }
    {
        match strength {
            Strength::Strong => self.strong = total,
            Strength::Soft => self.soft = total,
            Strength::Weak => self.weak = total,
            Strength::Final => self.finalizable = total,
            Strength::Phantom => self.phantom = total,
            Strength::Unreachable => self.unreachable = total,
        }
    }

    /// The objects of two parts together.
    pub fn sum(self, other: StrengthTotals) -> StrengthTotals
        requires count { (s : OneStrength) → (total_for self s).count + (total_for other s).count < 2 ^ 64 }
        requires bytes { (s : OneStrength) → (total_for self s).bytes + (total_for other s).bytes < 2 ^ 64 }
        ensures { result ≡ sums_of self other }
    {
        StrengthTotals {
            strong: self.strong.sum(other.strong),
            soft: self.soft.sum(other.soft),
            weak: self.weak.sum(other.weak),
            finalizable: self.finalizable.sum(other.finalizable),
            phantom: self.phantom.sum(other.phantom),
            unreachable: self.unreachable.sum(other.unreachable),
        }
    }

    /// Adds an object of a strength, of `bytes` bytes.
    #[inline(always)]
    pub fn add(&mut self, strength: Strength, bytes: u64)
        requires count { (total_for self.old strength).count + 1 < 2 ^ 64 }
        requires bytes { (total_for self.old strength).bytes + bytes < 2 ^ 64 }
        ensures { self.new ≡ plus_one self.old strength bytes }
    {
        let total = self.of(strength).plus(bytes);
        self.put(strength, total);
    }

    /// Takes away an object of a strength, of `bytes` bytes.
    pub fn take(&mut self, strength: Strength, bytes: u64)
        requires count { 1 ≤ (total_for self.old strength).count }
        requires bytes { bytes ≤ (total_for self.old strength).bytes }
        ensures { self.new ≡ less_one self.old strength bytes }
    {
        let total = self.of(strength).less(bytes);
        self.put(strength, total);
    }
}
