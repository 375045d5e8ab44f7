//! The numbers of places that lie side by side.
ghost use Rattle.std.specs.Prelude.{◌≡◌, ◌<◌, ◌≤◌, ◌^◌, true, IfSome};
ghost use Rattle.hd_ids.specs.Numbers.{is_scattered, no_numbers, number_by, IsBlockWith};
ghost use Rattle.hd_ids.specs.Put.{IsBehind};

/// How many places a block has.
pub(crate) const BLOCK: usize = 32;

/// The numbers of 32 places, as long as they follow one another.
///
/// Objects that lie near one another in the heap mostly follow one another in the file. So of such places it is enough to know
/// which have a number, and the first of these.
#[derive(Clone, Copy)]
pub(crate) struct Block {
    /// A bit for each place that has a number; 0 where the numbers don't follow one another.
    pub(crate) mask: u32,
    /// The first number. Where the numbers don't follow one another, one more than the index of the row in which they stand; 0 where
    /// there is no number.
    pub(crate) first: u32,
}

impl Block {
    /// A block without numbers.
    pub(crate) fn empty() -> Block
        ensures { result ≡ no_numbers }
    {
        Block { mask: 0, first: 0 }
    }

    /// Whether no place has a number.
    #[inline(always)]
    pub(crate) fn is_empty(self) -> bool
        ensures { result ≡ true → self ≡ no_numbers }
    {
        self.mask == 0 && self.first == 0
    }

    /// Whether the numbers don't follow one another.
    #[inline(always)]
    pub(crate) fn is_scattered(self) -> bool
        ensures { result ≡ is_scattered self }
    {
        self.mask == 0 && self.first != 0
    }

    /// The number at a place, where the numbers follow one another; 0 where there is none.
    #[inline(always)]
    pub(crate) fn number(self, place: u32) -> u32
        requires place { place < 32 }
        requires low { self.first ≤ 2 ^ 31 }
        ensures { result ≡ number_by self place }
    {
        if self.mask >> place & 1 == 1 {
            return self.first + (self.mask % (1 << place)).count_ones();
        }
        0
    }

    /// The block with one more number, if it is the first one or follows the others.
    #[inline(always)]
    pub(crate) fn with(self, place: u32, number: u32) -> Option<Block>
        requires place { place < 32 }
        requires some { 1 ≤ number }
        requires low { self.first ≤ 2 ^ 31 }
        requires low_number { number ≤ 2 ^ 31 }
        ensures { IfSome result (IsBlockWith self place number) }
    {
        if self.mask == 0 {
            if self.first != 0 {
                return None;
            }
            return Some(Block {
                mask: 1 << place,
                first: number,
            });
        }
        if self.mask >> place != 0 {
            return None;
        }
        if self.first + self.mask.count_ones() != number {
            return None;
        }
        Some(Block {
            mask: self.mask + (1 << place),
            first: self.first,
        })
    }

    /// The block with each number `base` higher, if they follow one another, have at most 31 bits then, and none is 0.
    #[inline(always)]
    pub(crate) fn behind(self, base: u32) -> Option<Block>
        requires low { self.first ≤ 2 ^ 31 }
        requires base { base < 2 ^ 31 }
        ensures { IfSome result (IsBehind self base) }
    {
        if self.mask == 0 || self.first == 0 {
            return None;
        }
        let first = self.first + base;
        if first > 1 << 31 {
            return None;
        }
        Some(Block {
            mask: self.mask,
            first,
        })
    }
}
