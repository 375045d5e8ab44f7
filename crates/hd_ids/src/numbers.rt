//! Numbers of IDs in rows, 2 bits for each.
ghost use Rattle.std.specs.Prelude.{◌≡◌, ℕ, ◌+◌, ◌-◌, ◌*◌, ◌/◌, ◌<◌, ◌≤◌, ◌^◌, [], ◌++◌, length, map, replicate, slice_index, slice_set, true, false, ◌≢◌, IfOk, MatchBool, OnOk, OnErr};
ghost use Rattle.std.specs.List.{range_with_len};
ghost use Rattle.hd_ids.specs.Numbers.{block_at, is_scattered, no_numbers, number_by, numbers_of, AreBlocks};
ghost use Rattle.hd_ids.specs.Put.{ArePut, IsPutAt, Meet};

use crate::block::{BLOCK, Block};
use std::alloc::{AllocError, Global};
use std::marker::Model;

/// How many numbers a row has.
pub(crate) const ROW: usize = 512;

/// How many blocks a row has.
const BLOCKS: usize = ROW / BLOCK;

/// How many rows of scattered numbers there may be.
const MOST_SCATTERED: usize = 1 << 31;

/// Numbers in rows of 512, 0 where there is none.
///
/// They are kept by blocks of 32 places. Where the numbers of a block don't follow one another, they stand in a row of their own,
/// four bytes each.
pub(crate) struct Numbers {
    blocks: Vec<Block>,
    /// The numbers of blocks in which they don't follow one another: a row of 32 for each such block.
    scattered: Vec<u32>,
}

impl Drop for Numbers {
    /// Drops the fields. A derived drop would be proved anew at each place that lets go of one.
    fn drop(self) {
        let Self { blocks, scattered } = self;
    }
}

impl Model for Numbers {
    ghost use Rattle.std.specs.Prelude.{ℕ, List};
    ghost use Rattle.hd_ids.specs.Numbers.{numbers_of, AreBlocks};

    ghost Value = { List ℕ };

    ghost view = { λ a. numbers_of a.blocks.items a.scattered.items };

    ghost invariant = { λ a. AreBlocks a.blocks.items a.scattered.items };
}

/// Adds the blocks of a row without numbers.
fn push_blocks(blocks: &mut Vec<Block>) -> Result<(), AllocError>
    requires { length blocks.old.items ≤ 2 ^ 27 }
    ensures ok { OnOk result (blocks.new.items ≡ blocks.old.items ++ replicate 16 no_numbers) }
    ensures err { OnErr result (blocks.new.items ≡ blocks.old.items) }
{
    let len = blocks.len() + ROW / BLOCK;
    blocks.resize(len, Block::empty())?;
    Ok(())
}

/// Adds a row of the numbers of a block, which follow one another so far.
fn push_row(scattered: &mut Vec<u32>, block: Block) -> Result<(), AllocError>
    requires low { block.first ≤ 2 ^ 31 }
    ensures ok { OnOk result (scattered.new.items ≡ scattered.old.items ++ map (number_by block) (range_with_len 0 32)) }
    ensures err { OnErr result (scattered.new.items ≡ scattered.old.items) }
{
    scattered.reserve(BLOCK)?;
    for place in 0..BLOCK as u32 {
        scattered.push_reserved(block.number(place));
    }
    Ok(())
}

/// Gives a block a row of its own, unless it has one. The numbers stay.
fn scatter(
    blocks: &mut Vec<Block>,
    scattered: &mut Vec<u32>,
    index: usize,
) -> Result<(), AllocError>
    requires kept { AreBlocks blocks.old.items scattered.old.items }
    requires within { index < length blocks.old.items }
    ensures kept { AreBlocks blocks.new.items scattered.new.items }
    ensures same { numbers_of blocks.new.items scattered.new.items ≡ numbers_of blocks.old.items scattered.old.items }
    ensures count { length blocks.new.items ≡ length blocks.old.items }
    ensures scattered { OnOk result (is_scattered (block_at blocks.new.items index) ≡ true) }
{
    let block = blocks[index];
    if block.is_scattered() {
        return Ok(());
    }
    let row = scattered.len() / BLOCK;
    if row >= MOST_SCATTERED {
        return Err(AllocError);
    }
    push_row(scattered, block)?;
    blocks[index] = Block {
        mask: 0,
        first: row as u32 + 1,
    };
    Ok(())
}

impl Numbers {
    /// No row yet, and room for `places` places, where the system has it, so that the list needn't move as it grows. Room that isn't
    /// touched takes no memory.
    pub(crate) fn with_room(alloc: Global, places: usize) -> Numbers
        ensures { result ≡ [] }
    {
        let mut blocks = Vec::new(alloc);
        let _ = blocks.reserve(places / BLOCK);
        Numbers {
            blocks,
            scattered: Vec::new(alloc),
        }
    }

    /// How many places the rows have together.
    pub(crate) fn len(&self) -> usize
        ensures { result ≡ length self.now }
    {
        self.blocks.len() * BLOCK
    }

    /// The number at a place.
    #[inline(always)]
    pub(crate) fn get(&self, slot: usize) -> u32
        requires { slot < length self.now }
        ensures { result ≡ slice_index self.now slot }
    {
        let block = self.blocks[slot / BLOCK];
        let place = slot % BLOCK;
        if block.mask != 0 {
            return block.number(place as u32);
        }
        if block.first == 0 {
            return 0;
        }
        self.scattered[(block.first - 1) as usize * BLOCK + place]
    }

    /// The block of an index, which tells the numbers at its 32 places where these follow one another.
    #[inline(always)]
    pub(crate) fn block(&self, index: usize) -> Block
        requires { index * 32 < length self.now }
        ensures low { result.first ≤ 2 ^ 31 }
        ensures numbers { is_scattered result ≡ false → (place : ℕ) → place < 32 → slice_index self.now (index * 32 + place) ≡ number_by result place }
    {
        self.blocks[index]
    }

    /// Puts a number at a place.
    #[inline(always)]
    pub(crate) fn set(&mut self, slot: usize, number: u32) -> Result<(), AllocError>
        requires within { slot < length self.old }
        requires some { 1 ≤ number }
        requires low { number ≤ 2 ^ 31 }
        ensures ok { OnOk result (self.new ≡ slice_set self.old slot number) }
        ensures err { OnErr result (self.new ≡ self.old) }
    {
        let block = self.blocks[slot / BLOCK];
        if let Some(block) = block.with((slot % BLOCK) as u32, number) {
            self.blocks[slot / BLOCK] = block;
            return Ok(());
        }
        self.set_scattered(slot, number)
    }

    /// Puts a number at a place of a block, in a row of the block's own. This is a function of its own, since `set` runs for each
    /// object, and seldom comes to it.
    fn set_scattered(&mut self, slot: usize, number: u32) -> Result<(), AllocError>
        requires within { slot < length self.old }
        ensures ok { OnOk result (self.new ≡ slice_set self.old slot number) }
        ensures err { OnErr result (self.new ≡ self.old) }
    {
        scatter(&mut self.blocks, &mut self.scattered, slot / BLOCK)?;
        let row = (self.blocks[slot / BLOCK].first - 1) as usize;
        self.scattered[row * BLOCK + slot % BLOCK] = number;
        Ok(())
    }

    /// One more row, which has no number yet.
    pub(crate) fn add_row(&mut self) -> Result<(), AllocError>
        requires { length self.old + 512 ≤ 2 ^ 32 }
        ensures ok { OnOk result (self.new ≡ self.old ++ replicate 512 0) }
        ensures err { OnErr result (self.new ≡ self.old) }
    {
        push_blocks(&mut self.blocks)?;
        Ok(())
    }

    /// Puts another block, whose numbers follow one another, where one is.
    #[inline(always)]
    fn put_whole(&mut self, index: usize, block: Block)
        requires within { index * 32 < length self.old }
        requires low { block.first ≤ 2 ^ 31 }
        requires follows { is_scattered block ≡ false }
        ensures count { length self.new ≡ length self.old }
        ensures here { (place : ℕ) → place < 32 → slice_index self.new (index * 32 + place) ≡ number_by block place }
        ensures others { (q : ℕ) → q / 32 ≢ index → slice_index self.new q ≡ slice_index self.old q }
    {
        self.blocks[index] = block;
    }

    /// Puts a number at a place, `base` higher, or none where it is 0, and answers whether the place has no number of both.
    fn put_at(&mut self, slot: usize, number: u32, base: u32) -> Result<bool, AllocError>
        requires within { slot < length self.old }
        requires low { number + base ≤ 2 ^ 31 }
        ensures { IfOk result (λ apart. MatchBool apart (IsPutAt self.old self.new slot number base) ((slice_index self.old slot ≢ 0) × (number ≢ 0))) }
    {
        if number == 0 {
            return Ok(true);
        }
        if self.get(slot) != 0 {
            return Ok(false);
        }
        self.set(slot, number + base)?;
        Ok(true)
    }

    /// Puts the numbers of 32 places of `more` at as many places, each `base` higher, and answers whether none has a number of both.
    fn put_places(
        &mut self,
        start: usize,
        more: &Numbers,
        from: usize,
        base: u32,
    ) -> Result<bool, AllocError>
        requires within { start + 32 ≤ length self.old }
        requires there { from + 32 ≤ length more.now }
        requires few { (length self.old ≤ 2 ^ 32) × (length more.now ≤ 2 ^ 32) }
        requires low { (q : ℕ) → slice_index more.now q + base ≤ 2 ^ 31 }
        ensures { IfOk result (λ apart. MatchBool apart (ArePut self.old self.new start more.now from base 32) (Meet self.old start more.now from 32)) }
    {
        for i in 0..BLOCK {
            if !self.put_at(start + i, more.get(from + i), base)? {
                return Ok(false);
            }
        }
        Ok(true)
    }

    /// Puts the numbers of a block of `more` where one is, each `base` higher, and answers whether no place has a number of both.
    /// Where no place has one yet, the block is put there as a whole.
    #[inline(always)]
    fn put_block(
        &mut self,
        index: usize,
        more: &Numbers,
        from: usize,
        base: u32,
    ) -> Result<bool, AllocError>
        requires within { index * 32 + 32 ≤ length self.old }
        requires there { from * 32 + 32 ≤ length more.now }
        requires few { (length self.old ≤ 2 ^ 32) × (length more.now ≤ 2 ^ 32) }
        requires base { base < 2 ^ 31 }
        requires low { (q : ℕ) → slice_index more.now q + base ≤ 2 ^ 31 }
        ensures { IfOk result (λ apart. MatchBool apart (ArePut self.old self.new (index * 32) more.now (from * 32) base 32) (Meet self.old (index * 32) more.now (from * 32) 32)) }
    {
        let block = more.block(from);
        if block.is_empty() {
            return Ok(true);
        }
        if self.block(index).is_empty()
            && let Some(moved) = block.behind(base)
        {
            self.put_whole(index, moved);
            return Ok(true);
        }
        self.put_places(index * BLOCK, more, from * BLOCK, base)
    }

    /// Puts the numbers of a row of `more` into a row, each `base` higher, and answers whether no place has a number of both.
    pub(crate) fn put_row(
        &mut self,
        row: usize,
        more: &Numbers,
        from: usize,
        base: u32,
    ) -> Result<bool, AllocError>
        requires within { row * 512 + 512 ≤ length self.old }
        requires there { from * 512 + 512 ≤ length more.now }
        requires few { (length self.old ≤ 2 ^ 32) × (length more.now ≤ 2 ^ 32) }
        requires base { base < 2 ^ 31 }
        requires low { (q : ℕ) → slice_index more.now q + base ≤ 2 ^ 31 }
        ensures { IfOk result (λ apart. MatchBool apart (ArePut self.old self.new (row * 512) more.now (from * 512) base 512) (Meet self.old (row * 512) more.now (from * 512) 512)) }
    {
        for i in 0..BLOCKS {
            if !self.put_block(row * BLOCKS + i, more, from * BLOCKS + i, base)? {
                return Ok(false);
            }
        }
        Ok(true)
    }
}
