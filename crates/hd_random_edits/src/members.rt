//! Whether a state lists the objects of a group that have a strength.
use hd_state::State;
use hd_terms::{Group, NoMemory, Strength};
use std::alloc::Global;

/// The IDs of the objects of a group that have a strength, as the objects say it.
fn members_by_objects(
    alloc: Global,
    state: &State,
    group: Group,
    strength: Strength,
) -> Result<Vec<u64>, NoMemory> {
    let mut ids = Vec::new(alloc);
    let graph = state.graph();
    for o in 0..graph.objects() {
        if graph.group_of(o) == group && state.strength(o) == strength {
            ids.push(graph.id_of(o))?;
        }
    }
    ids.sort()?;
    Ok(ids)
}

/// Whether a state lists all objects of a group and a strength, the first two, and none.
fn lists_group(
    alloc: Global,
    state: &State,
    group: Group,
    strength: Strength,
) -> Result<bool, NoMemory> {
    let expected = members_by_objects(alloc, state, group, strength)?;
    let all = state.members(alloc, group, strength, None)?;
    let two = state.members(alloc, group, strength, Some(2))?;
    let none = state.members(alloc, group, strength, Some(0))?;
    let mut first = expected;
    if all.as_slice() != first.as_slice() || !none.is_empty() {
        return Ok(false);
    }
    first.truncate(2);
    Ok(two.as_slice() == first.as_slice())
}

/// Whether a state lists the objects of each object's group that have its strength.
pub fn lists_members(alloc: Global, state: &State) -> Result<bool, NoMemory> {
    for o in 0..state.graph().objects() {
        let group = state.graph().group_of(o);
        if !lists_group(alloc, state, group, state.strength(o))? {
            return Ok(false);
        }
    }
    Ok(true)
}
