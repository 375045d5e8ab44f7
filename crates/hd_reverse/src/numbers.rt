//! Numbers by the objects that they belong to.
ghost use Rattle.std.specs.Prelude.{◌≡◌, ◌+◌, ◌<◌, ◌^◌, ◌==◌, ℕ, [], ◌∷◌, ◌++◌, if◌then◌else◌, length, slice_get, Some, IfOk};
ghost use Rattle.hd_reverse.specs.Numbers.{numbers_on, AreByObject, IsEnd, IsRow};

use hd_terms::NoMemory;
use std::alloc::Global;
use std::marker::Model;

/// A number, and the number of the object that it belongs to.
#[derive(Clone, Copy)]
pub struct NumberOn {
    pub object: u32,
    pub number: u32,
}

/// Numbers by the objects that they belong to. Those of one object are in the order in which they were given.
#[derive(Drop)]
pub struct NumbersByObject {
    pairs: Vec<NumberOn>,
}

impl Model for NumbersByObject {
    ghost use Rattle.std.specs.Prelude.{List};
    ghost use Rattle.hd_reverse.specs.declared.numbers.NumberOn.{NumberOn};
    ghost use Rattle.hd_reverse.specs.Numbers.{AreByObject};

    ghost Value = { List NumberOn };

    ghost view = { λ n. n.pairs.items };

    ghost invariant = { λ n. AreByObject n.pairs.items };
}

/// From where and up to where the numbers of an object stand.
fn row_of(pairs: &[NumberOn], o: u32) -> (usize, usize)
    requires { AreByObject pairs.now }
    ensures { IsRow pairs.now o result.0 result.1 }
{
    let start = pairs.partition_point(|pair| pair.object < o);
    let end = pairs.partition_point(|pair| pair.object <= o);
    (start, end)
}

/// Up to where the numbers of an object stand.
fn end_of(pairs: &[NumberOn], o: u32) -> usize
    requires { AreByObject pairs.now }
    ensures { IsEnd pairs.now o result }
{
    pairs.partition_point(|pair| pair.object <= o)
}

/// A copy with one more pair, behind those of its object.
fn with_pair(alloc: Global, pairs: &[NumberOn], pair: NumberOn) -> Result<Vec<NumberOn>, NoMemory>
    requires are { AreByObject pairs.now }
    requires few { length pairs.now + 1 < 2 ^ 32 }
    ensures are { IfOk result (λ v. AreByObject v.items) }
    ensures numbers { IfOk result (λ v. (o : ℕ) → numbers_on v.items o ≡ numbers_on pairs.now o ++ (if pair.object == o then pair.number ∷ [] else [])) }
{
    let at = end_of(pairs, pair.object);
    let mut copy = Vec::with_capacity(alloc, pairs.len() + 1)?;
    copy.extend_from_slice(pairs)?;
    copy.insert(at, pair)?;
    Ok(copy)
}

impl NumbersByObject {
    /// Numbers with their objects. Those of one object keep their order.
    pub fn of(pairs: Vec<NumberOn>) -> Result<NumbersByObject, NoMemory>
        requires { length pairs.items < 2 ^ 32 }
        ensures { IfOk result (λ n. (o : ℕ) → numbers_on n o ≡ numbers_on pairs.items o) }
    {
        let mut sorted = pairs;
        sorted.sort_by_key(|pair| pair.object)?;
        Ok(NumbersByObject { pairs: sorted })
    }

    /// These numbers and one more, behind those of its object.
    ///
    /// # Errors
    ///
    /// Memory ran out, or there would be 2^32 numbers.
    pub fn with(&self, alloc: Global, object: u32, number: u32) -> Result<NumbersByObject, NoMemory>
        ensures { IfOk result (λ n. (o : ℕ) → numbers_on n o ≡ numbers_on self.now o ++ (if object == o then number ∷ [] else [])) }
    {
        if self.pairs.len() >= u32::MAX as usize {
            return Err(NoMemory);
        }
        let pairs = with_pair(alloc, &self.pairs, NumberOn { object, number })?;
        Ok(NumbersByObject { pairs })
    }

    /// How many numbers belong to an object.
    pub fn len(&self, o: u32) -> u32
        ensures { result ≡ length (numbers_on self.now o) }
    {
        let (start, end) = row_of(&self.pairs, o);
        (end - start) as u32
    }

    /// The number at an index of those that belong to an object.
    pub fn get(&self, o: u32, i: u32) -> u32
        requires { i < length (numbers_on self.now o) }
        ensures { slice_get (numbers_on self.now o) i ≡ Some result }
    {
        let (start, _) = row_of(&self.pairs, o);
        self.pairs[start + i as usize].number
    }
}
