//! The keys of groups, and the index of each.
ghost use Rattle.std.specs.Prelude.{◌≡◌, ◌<◌, ◌≤◌, nat_eq, [], length, position, slice_get, Some, IfOk, OnOk};
ghost use Rattle.std.specs.List.{position_or_len};
ghost use Rattle.hd_terms.specs.Listed.{group_key};
ghost use Rattle.hd_totals.specs.Keys.{with_key, AreKeys};
ghost use Rattle.hd_totals.specs.Members.{InRange};

use hd_terms::{Group, NoMemory};
use indexmap::IndexSet;
use std::alloc::Global;
use std::marker::Model;

/// Where a group stands among the groups.
pub(crate) fn key_of(group: Group) -> u128
    ensures key { result ≡ group_key group }
    ensures range { InRange group }
    ensures small { result ≤ 18446744073709551872 }
{
    match group {
        Group::Class(id) => u128::from(id),
        Group::Prim(element) => 18_446_744_073_709_551_616 + u128::from(element),
        Group::Classes => 18_446_744_073_709_551_872,
    }
}

/// The group of a key.
pub(crate) fn group_of_key(key: u128) -> Group
    requires { key ≤ 18446744073709551872 }
    ensures key { group_key result ≡ key }
    ensures range { InRange result }
{
    if key < 18_446_744_073_709_551_616 {
        return Group::Class(key as u64);
    }
    if key < 18_446_744_073_709_551_872 {
        return Group::Prim((key - 18_446_744_073_709_551_616) as u8);
    }
    Group::Classes
}

/// The keys of groups, each once, in the order in which they were added.
pub(crate) struct GroupKeys {
    set: IndexSet<u128>,
}

impl Drop for GroupKeys {
    /// Drops the fields. A derived drop would be proved anew at each place that lets go of one.
    fn drop(self) {
        let Self { set } = self;
    }
}

impl Model for GroupKeys {
    ghost use Rattle.std.specs.Prelude.{ℕ, List};
    ghost use Rattle.hd_totals.specs.Keys.{AreKeys};

    ghost Value = { List ℕ };

    ghost view = { λ k. k.set.keys };

    ghost invariant = { λ k. AreKeys k.set.keys };
}

impl GroupKeys {
    /// No keys.
    pub(crate) fn new(alloc: Global) -> GroupKeys
        ensures { result ≡ [] }
    {
        let set = IndexSet::new(alloc);
        GroupKeys { set }
    }

    /// How many keys there are.
    pub(crate) fn len(&self) -> usize
        ensures len { result ≡ length self.now }
        ensures keys { AreKeys self.now }
    {
        self.set.len()
    }

    /// The key at an index.
    pub(crate) fn get(&self, index: usize) -> u128
        requires { index < length self.now }
        ensures key { slice_get self.now index ≡ Some result }
        ensures keys { AreKeys self.now }
        ensures small { result ≤ 18446744073709551872 }
    {
        self.set.as_slice()[index]
    }

    /// The index of a key, if it is there.
    pub(crate) fn index_of(&self, key: u128) -> Option<usize>
        ensures index { result ≡ position (nat_eq key) self.now }
        ensures keys { AreKeys self.now }
    {
        self.set.get_index_of(&key)
    }

    /// Adds a key, if it isn't there, and gives its index.
    pub(crate) fn add(&mut self, key: u128) -> Result<usize, NoMemory>
        requires { key ≤ 18446744073709551872 }
        ensures keys { OnOk result (self.new ≡ with_key self.old key) }
        ensures index { IfOk result (λ i. i ≡ position_or_len (nat_eq key) self.old) }
        ensures are_keys { OnOk result (AreKeys self.new) }
    {
        let (index, _is_new) = self.set.insert_full(key)?;
        Ok(index)
    }
}
