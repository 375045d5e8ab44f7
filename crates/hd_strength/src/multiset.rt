//! Numbers with repeats, in ascending order.
ghost use Rattle.std.specs.Prelude.{◌≡◌, ◌+◌, ◌-◌, ℕ, if◌then◌else◌, nat_eq, length, OnOk, IfOk};
ghost use Rattle.std.specs.List.{list_any};
ghost use Rattle.std.specs.List.Sorted.{IsNonDecreasing};
ghost use Rattle.hd_strength.specs.Multiset.{is_number, multiplicity, IsPlace};

use hd_terms::NoMemory;
use std::alloc::Global;
use std::marker::Model;

/// Numbers with repeats, in ascending order.
#[derive(Drop)]
pub(crate) struct Multiset {
    numbers: Vec<u128>,
}

impl Model for Multiset {
    ghost use Rattle.std.specs.Prelude.{ℕ, List};
    ghost use Rattle.std.specs.List.Sorted.{IsNonDecreasing};

    ghost Value = { List ℕ };

    ghost view = { λ m. m.numbers.items };

    ghost invariant = { λ m. IsNonDecreasing m.numbers.items };
}

/// The place of a number: the first one is there, if there is any, and else it is to be inserted there.
fn place_of(numbers: &[u128], number: u128) -> usize
    requires { IsNonDecreasing numbers.now }
    ensures { IsPlace numbers.now number result }
{
    numbers.partition_point(|other| *other < number)
}

/// Whether a number is among some.
fn is_among(numbers: &[u128], number: u128) -> bool
    requires { IsNonDecreasing numbers.now }
    ensures { result ≡ list_any (nat_eq number) numbers.now }
{
    let at = place_of(numbers, number);
    at < numbers.len() && numbers[at] == number
}

/// A copy with room for one more.
fn copied(alloc: Global, numbers: &[u128]) -> Result<Vec<u128>, NoMemory>
    ensures { IfOk result (λ v. v.items ≡ numbers.now) }
{
    let mut copy = Vec::with_capacity(alloc, numbers.len() + 1)?;
    copy.extend_from_slice(numbers)?;
    Ok(copy)
}

/// Inserts a number at its place.
fn insert_number(numbers: &mut Vec<u128>, number: u128) -> Result<(), NoMemory>
    requires { IsNonDecreasing numbers.old.items }
    ensures ascending { OnOk result (IsNonDecreasing numbers.new.items) }
    ensures more { OnOk result ((n : ℕ) → multiplicity n numbers.new.items ≡ multiplicity n numbers.old.items + (if nat_eq n number then 1 else 0)) }
{
    let at = place_of(numbers, number);
    numbers.insert(at, number)?;
    Ok(())
}

/// Takes out a number once, if it is there.
fn remove_number(numbers: &mut Vec<u128>, number: u128)
    requires { IsNonDecreasing numbers.old.items }
    ensures ascending { IsNonDecreasing numbers.new.items }
    ensures fewer { (n : ℕ) → multiplicity n numbers.new.items ≡ multiplicity n numbers.old.items - (if nat_eq n number then 1 else 0) }
{
    let at = place_of(numbers, number);
    if at < numbers.len() && numbers[at] == number {
        numbers.remove(at);
    }
}

/// Adds a number at the end, if one is given.
pub(crate) fn push_number(numbers: &mut Vec<u128>, number: Option<u128>) -> Result<(), NoMemory>
    ensures { OnOk result ((n : ℕ) → multiplicity n numbers.new.items ≡ multiplicity n numbers.old.items + (if is_number number n then 1 else 0)) }
{
    if let Some(number) = number {
        numbers.push(number)?;
    }
    Ok(())
}

impl Multiset {
    /// These numbers.
    pub(crate) fn of(numbers: Vec<u128>) -> Multiset
        ensures { (n : ℕ) → multiplicity n result ≡ multiplicity n numbers.items }
    {
        let mut numbers = numbers;
        numbers.sort_unstable();
        Multiset { numbers }
    }

    /// Whether there are none.
    #[inline(always)]
    pub(crate) fn is_empty(&self) -> bool
        ensures { result ≡ nat_eq (length self.now) 0 }
    {
        self.numbers.is_empty()
    }

    /// Whether a number is among these.
    #[inline(always)]
    pub(crate) fn contains(&self, number: u128) -> bool
        ensures { result ≡ list_any (nat_eq number) self.now }
    {
        !self.numbers.is_empty() && is_among(&self.numbers, number)
    }

    /// These numbers and one more, if one is given.
    pub(crate) fn with(&self, alloc: Global, number: Option<u128>) -> Result<Multiset, NoMemory>
        ensures { IfOk result (λ m. (n : ℕ) → multiplicity n m ≡ multiplicity n self.now + (if is_number number n then 1 else 0)) }
    {
        let mut numbers = copied(alloc, &self.numbers)?;
        if let Some(number) = number {
            insert_number(&mut numbers, number)?;
        }
        Ok(Multiset { numbers })
    }

    /// These numbers without one, once, if one is given and it is among them.
    pub(crate) fn without(&self, alloc: Global, number: Option<u128>) -> Result<Multiset, NoMemory>
        ensures { IfOk result (λ m. (n : ℕ) → multiplicity n m ≡ multiplicity n self.now - (if is_number number n then 1 else 0)) }
    {
        let mut numbers = copied(alloc, &self.numbers)?;
        if let Some(number) = number {
            remove_number(&mut numbers, number);
        }
        Ok(Multiset { numbers })
    }
}
