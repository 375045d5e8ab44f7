//! Groups in the order in which they are listed.
ghost use Rattle.std.specs.Prelude.{◌≡◌, ◌≤◌, ◌↔◌, map, All, Contains, IfOk};
ghost use Rattle.std.specs.List.Sorted.{IsStrictlyIncreasing};
ghost use Rattle.hd_terms.specs.declared.Group.{Group as OneGroup};
ghost use Rattle.hd_terms.specs.Listed.{group_key};
ghost use Rattle.hd_totals.specs.Members.{InRange};

use crate::keys::{group_of_key, key_of};
use hd_terms::{Group, NoMemory};
use std::alloc::Global;

/// The keys of groups, in the order of the groups.
fn keys_of(alloc: Global, groups: &[Group]) -> Result<Vec<u128>, NoMemory>
    ensures keys { IfOk result (λ keys. keys.items ≡ map group_key groups.now) }
    ensures range { IfOk result (λ keys. All InRange groups.now) }
    ensures small { IfOk result (λ keys. All (λ key. key ≤ 18446744073709551872) keys.items) }
{
    let mut keys = Vec::with_capacity(alloc, groups.len())?;
    for group in groups {
        keys.push(key_of(*group))?;
    }
    Ok(keys)
}

/// The groups of keys, in the order of the keys.
fn groups_of(alloc: Global, keys: &[u128]) -> Result<Vec<Group>, NoMemory>
    requires { All (λ key. key ≤ 18446744073709551872) keys.now }
    ensures keys { IfOk result (λ groups. map group_key groups.items ≡ keys.now) }
    ensures range { IfOk result (λ groups. All InRange groups.items) }
{
    let mut groups = Vec::with_capacity(alloc, keys.len())?;
    for key in keys {
        groups.push(group_of_key(*key))?;
    }
    Ok(groups)
}

/// The same groups, each once and in order.
///
/// # Errors
///
/// Memory ran out.
pub fn in_order(alloc: Global, groups: &[Group]) -> Result<Vec<Group>, NoMemory>
    ensures in_order { IfOk result (λ ordered. IsStrictlyIncreasing (map group_key ordered.items)) }
    ensures same { IfOk result (λ ordered. (group : OneGroup) → Contains ordered.items group ↔ Contains groups.now group) }
{
    let mut keys = keys_of(alloc, groups)?;
    keys.sort_unstable();
    keys.dedup();
    let ordered = groups_of(alloc, keys.as_slice())?;
    Ok(ordered)
}
