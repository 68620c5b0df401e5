// Rising numbers, each at a place.
ghost use Rattle.std.specs.Prelude.{◌≡◌, ◌==◌, ◌<◌, ◌≤◌, ◌+◌, ◌-◌, ◌*◌, ℕ, [], ◌∷◌, ◌++◌, Some, OnOk, true, length, remove, slice_get, vec_capacity};
ghost use Rattle.linked_classes.specs.Numbers.{AreBlocks, AreStarts, IsNumberTaken, joined, lowered_blocks};
ghost use Rattle.linked_classes.specs.Places.{IsRising};
ghost use Rattle.linked_classes.specs.declared.numbers.Block.{Block as Held};

use std::alloc::{AllocError, Global};
use std::marker::Model;
use std::mem;

/// How many numbers are a block's own.
const BLOCK: usize = 512;

/// Numbers that rise, each one more than the last that came, at places from 0 on: they come at the end and go anywhere. A number
/// is found by its place in time logarithmic in their count, and its place by the number in nine steps. One that came costs four
/// bytes, whether it is still there or not, and each 512 of them 40 more.
///
/// They lie in blocks, each of 512 numbers that are its own, of which some may be gone.
#[derive(Debug, Drop)]
pub struct RisingNumbers {
    blocks: Vec<Block>,
    /// Room for the numbers of the next block.
    fresh: Vec<u32>,
    end: u32,
}

#[derive(Debug, Drop)]
struct Block {
    /// The place of its first number.
    start: usize,
    numbers: Vec<u32>,
}

impl Model for RisingNumbers {
    ghost use Rattle.std.specs.Prelude.{◌≡◌, [], length, vec_capacity};
    ghost use Rattle.linked_classes.specs.Numbers.{Numbers, AreBlocks, joined, has_number_room};

    ghost Value = { Numbers };

    ghost view = { λ a. record {
      items = joined a.blocks.items;
      end = a.end;
      has_room = has_number_room (length a.blocks.items) (vec_capacity a.blocks) (vec_capacity a.fresh) a.end;
    } };

    ghost invariant = { λ a. AreBlocks a.blocks.items a.end × (a.fresh.items ≡ []) };
}

impl RisingNumbers {
    /// No numbers. Takes no memory.
    pub fn new(alloc: Global) -> RisingNumbers
        ensures items { result.items ≡ [] }
        ensures end { result.end ≡ 0 }
    {
        RisingNumbers {
            blocks: Vec::new(alloc),
            fresh: Vec::new(alloc),
            end: 0,
        }
    }

    /// How many numbers there are, told at once.
    pub fn len(&self) -> usize
        ensures { result ≡ length self.now.items }
    {
        end_of(self.blocks.as_slice())
    }

    /// Whether there is none.
    pub fn is_empty(&self) -> bool
        ensures { result ≡ (length self.now.items == 0) }
    {
        self.len() == 0
    }

    /// The next number.
    pub fn end(&self) -> u32
        ensures { result ≡ self.now.end }
    {
        self.end
    }

    /// Where its memory comes from.
    pub fn allocator(&self) -> Global {
        *self.fresh.allocator()
    }

    /// The number at a place, in time logarithmic in the count.
    pub fn get(&self, at: usize) -> u32
        requires { at < length self.now.items }
        ensures { slice_get self.now.items at ≡ Some result }
    {
        let block = &self.blocks[block_of(self.blocks.as_slice(), at)];
        block.numbers[at - block.start]
    }

    /// The place of a number, in nine steps.
    pub fn place(&self, number: u32) -> usize
        requires { (i : ℕ) × (slice_get self.now.items i ≡ Some number) }
        ensures { slice_get self.now.items result ≡ Some number }
    {
        let block = &self.blocks[number as usize / BLOCK];
        block.start + place_of(block.numbers.as_slice(), number)
    }

    /// Makes room for the next number. Refused where memory is, and where 4,294,967,295 numbers have come.
    pub fn reserve(&mut self) -> Result<(), AllocError>
        ensures items { self.new.items ≡ self.old.items }
        ensures end { self.new.end ≡ self.old.end }
        ensures room { OnOk result (self.new.has_room ≡ true) }
    {
        if self.end == u32::MAX {
            return Err(AllocError);
        }
        if (self.end as usize) < self.blocks.len() * BLOCK {
            return Ok(());
        }
        self.blocks.reserve(1)?;
        self.fresh.reserve(BLOCK)
    }

    /// Adds the next number. Takes no memory, and a few steps.
    pub fn push(&mut self) -> u32
        requires { self.old.has_room ≡ true }
        ensures number { result ≡ self.old.end }
        ensures items { self.new.items ≡ self.old.items ++ result ∷ [] }
        ensures end { self.new.end ≡ self.old.end + 1 }
    {
        let number = self.end;
        if (number as usize) < self.blocks.len() * BLOCK {
            put_last(&mut self.blocks, number);
        } else {
            let alloc = *self.fresh.allocator();
            let fresh = mem::replace(&mut self.fresh, Vec::new(alloc));
            open_block(&mut self.blocks, fresh, number);
        }
        self.end = number + 1;
        number
    }

    /// Takes the number at a place out: those behind it come one forward. Takes no memory, a copy of four bytes for each number
    /// behind it among its 512, and a step for each 512 behind it.
    pub fn remove(&mut self, at: usize) -> u32
        requires { at < length self.old.items }
        ensures number { slice_get self.old.items at ≡ Some result }
        ensures items { self.new.items ≡ remove self.old.items at }
        ensures end { self.new.end ≡ self.old.end }
    {
        let here = block_of(self.blocks.as_slice(), at);
        let number = take_from(&mut self.blocks, here, at);
        lower(&mut self.blocks, here + 1);
        number
    }
}

/// The place behind the last number.
fn end_of(blocks: &[Block]) -> usize
    requires { (end : ℕ) × AreBlocks blocks.now end }
    ensures { result ≡ length (joined blocks.now) }
{
    let count = blocks.len();
    if count == 0 {
        return 0;
    }
    let last = &blocks[count - 1];
    last.start + last.numbers.len()
}

/// The block of the number at a place.
fn block_of(blocks: &[Block], at: usize) -> usize
    requires starts { AreStarts 0 blocks.now }
    requires within { at < length (joined blocks.now) }
    ensures there { result < length blocks.now }
    ensures here { (b : Held) → slice_get blocks.now result ≡ Some b → (b.start ≤ at) × (at < b.start + length b.numbers.items) }
{
    let mut low = 0;
    let mut high = blocks.len();
    while high - low > 1 {
        let middle = low + (high - low) / 2;
        if blocks[middle].start <= at {
            low = middle;
        } else {
            high = middle;
        }
    }
    low
}

/// The place of a number among rising ones.
fn place_of(numbers: &[u32], number: u32) -> usize
    requires rising { IsRising numbers.now }
    requires there { (i : ℕ) × (slice_get numbers.now i ≡ Some number) }
    ensures { slice_get numbers.now result ≡ Some number }
{
    let Ok(place) = numbers.binary_search(&number) else {
        unreachable!()
    };
    place
}

/// Puts the next number into the last block, whose own it is.
fn put_last(blocks: &mut Vec<Block>, number: u32)
    requires blocks { AreBlocks blocks.old.items number }
    requires room { number < 512 * length blocks.old.items }
    requires small { number < 4294967295 }
    ensures blocks { AreBlocks blocks.new.items (number + 1) }
    ensures joined { joined blocks.new.items ≡ joined blocks.old.items ++ number ∷ [] }
{
    let last = blocks.len() - 1;
    blocks[last].numbers.push_reserved(number);
}

/// Puts the next number into a block that is new, whose own it is.
fn open_block(blocks: &mut Vec<Block>, fresh: Vec<u32>, number: u32)
    requires blocks { AreBlocks blocks.old.items number }
    requires none { number ≡ 512 * length blocks.old.items }
    requires room { length blocks.old.items < vec_capacity blocks.old }
    requires fresh { (fresh.items ≡ []) × (512 ≤ vec_capacity fresh) }
    requires small { number < 4294967295 }
    ensures blocks { AreBlocks blocks.new.items (number + 1) }
    ensures joined { joined blocks.new.items ≡ joined blocks.old.items ++ number ∷ [] }
{
    let start = end_of(blocks.as_slice());
    let mut numbers = fresh;
    numbers.push_reserved(number);
    blocks.push_reserved(Block { start, numbers });
}

/// Takes the number at a place out of its block.
fn take_from(blocks: &mut Vec<Block>, here: usize, at: usize) -> u32
    requires there { here < length blocks.old.items }
    requires within { (b : Held) → slice_get blocks.old.items here ≡ Some b → (b.start ≤ at) × (at < b.start + length b.numbers.items) }
    ensures { (b : Held) → slice_get blocks.old.items here ≡ Some b → IsNumberTaken blocks.old.items blocks.new.items here (at - b.start) b result }
{
    let start = blocks[here].start;
    blocks[here].numbers.remove(at - start)
}

/// Lets the blocks from one on start one place earlier.
fn lower(blocks: &mut Vec<Block>, from: usize)
    requires { (k : ℕ) (b : Held) → from ≤ k → slice_get blocks.old.items k ≡ Some b → 1 ≤ b.start }
    ensures { blocks.new.items ≡ lowered_blocks from blocks.old.items }
{
    lower_each(blocks.as_mut_slice(), from);
}

/// The same of a slice, whose length isn't read again for each.
fn lower_each(blocks: &mut [Block], from: usize)
    requires { (k : ℕ) (b : Held) → from ≤ k → slice_get blocks.old k ≡ Some b → 1 ≤ b.start }
    ensures { blocks.new ≡ lowered_blocks from blocks.old }
{
    let mut at = from;
    while at < blocks.len() {
        blocks[at].start -= 1;
        at += 1;
    }
}
