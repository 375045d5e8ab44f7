//! The groups of a dump that can be looked for by their names.
ghost use Rattle.std.specs.Prelude.{◌≡◌, ◌++◌, List, map, IfOk, OnOk};
ghost use Rattle.hd_terms.specs.Listed.{AreNamedGroups};
ghost use Rattle.hd_terms.specs.Settled.{Reached};
ghost use Rattle.hd_totals.specs.Rows.{row_group};
ghost use Rattle.hd_totals.specs.Totals.{AreTotals};
ghost use Rattle.hd_queries.specs.Groups.{class_group};

use crate::moved::strength_at;
use hd_graph::Graph;
use hd_terms::{ClassRow, Group, NoMemory};
use hd_totals::{GroupTotals, in_order};
use std::alloc::Global;

/// How many strengths there are.
const STRENGTHS: usize = 6;

/// The group of the instances of each class object, in file order.
fn class_groups(alloc: Global, graph: &Graph) -> Result<Vec<Group>, NoMemory>
    ensures { IfOk result (λ groups. groups.items ≡ map class_group graph.now.classes) }
{
    let mut groups = Vec::with_capacity(alloc, graph.classes_len())?;
    let mut place = 0;
    while let Some(class) = graph.class_at(place) {
        groups.push(Group::Class(class))?;
        place += 1;
    }
    Ok(groups)
}

/// Adds the groups of rows.
fn push_groups(rows: &[ClassRow], groups: &mut Vec<Group>) -> Result<(), NoMemory>
    ensures { OnOk result (groups.new.items ≡ groups.old.items ++ map row_group rows.now) }
{
    for row in rows {
        groups.push(row.group)?;
    }
    Ok(())
}

/// The groups of the objects, and for each class object that of its instances: each once, in order.
///
/// # Errors
///
/// Memory ran out.
pub fn named_groups(
    alloc: Global,
    graph: &Graph,
    totals: &GroupTotals,
) -> Result<Vec<Group>, NoMemory>
    requires totals { (strengths : List Reached) × AreTotals graph.now strengths totals.now }
    ensures { IfOk result (λ groups. AreNamedGroups graph.now (λ group. Unit {0}) groups.items) }
{
    let mut groups = class_groups(alloc, graph)?;
    for place in 0..STRENGTHS {
        let rows = totals.classes(alloc, strength_at(place))?;
        push_groups(rows.as_slice(), &mut groups)?;
    }
    let ordered = in_order(alloc, groups.as_slice())?;
    Ok(ordered)
}
