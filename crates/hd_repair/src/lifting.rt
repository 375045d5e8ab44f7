//! Stamps are lifted below an object that hangs on a later source than before.
ghost use Rattle.std.specs.Prelude.{◌≡◌, ◌+◌, ◌-◌, ◌^◌, ◌<◌, ◌≤◌, ◌⊎◌, length, take, sum_by, OnOk};
ghost use Rattle.hd_terms.specs.Settled.{reached_at};
ghost use Rattle.hd_repair.specs.Hanging.{NoneLate};
ghost use Rattle.hd_repair.specs.Losing.{targets_of, AreLifted, IsLifted, IsLifting, IsNotLifted, LateFrom};

use crate::hanging::is_before;
use hd_edges::{EdgeMark, Edges};
use hd_supports::Supports;
use hd_terms::{NoMemory, Support};

/// Lifts the stamp of an edge's target above that of its source, if the edge supports it and the source doesn't come before.
fn lift_if_late(
    kept: &mut Supports,
    lifted: &mut Vec<u32>,
    source: u32,
    edge: EdgeMark,
) -> Result<(), NoMemory>
    requires source { source < length kept.old }
    requires target { edge.target < length kept.old }
    requires room { (reached_at kept.old source).stamp < 2 ^ 48 - 1 }
    ensures count { length kept.new ≡ length kept.old }
    ensures ok { OnOk result (
        IsLifted kept.old kept.new lifted.old.items lifted.new.items source edge.target edge.slot
        ⊎ IsNotLifted kept.old kept.new lifted.old.items lifted.new.items source edge.target edge.slot
        ) }
{
    let target = edge.target;
    let support = Support::Edge {
        source,
        slot: edge.slot,
    };
    if kept.support(target) != support {
        return Ok(());
    }
    if is_before(kept, source, target) {
        return Ok(());
    }
    let strength = kept.strength(target);
    let stamp = kept.stamp(source) + 1;
    kept.put(target, strength, support, stamp)?;
    lifted.push(target)?;
    Ok(())
}

/// Lifts what the objects from a place on support, as far as that is late, and what is below. Each edge of a lifted
/// object is looked at once.
pub(crate) fn lift_below<E: Edges>(
    edges: &mut E,
    kept: &mut Supports,
    lifted: &mut Vec<u32>,
    first: usize,
) -> Result<(), NoMemory>
    requires first { first ≤ length lifted.old.items }
    requires lifting { IsLifting (E.rows edges.old) kept.old lifted.old.items (LateFrom first lifted.old.items) }
    ensures same { E.rows edges.new ≡ E.rows edges.old }
    ensures count { length kept.new ≡ length kept.old }
    ensures looks { OnOk result (E.look_count edges.new + sum_by (targets_of (E.rows edges.old)) (take first lifted.old.items) ≤ E.look_count edges.old + sum_by (targets_of (E.rows edges.old)) lifted.new.items) }
    ensures lifting { OnOk result (IsLifting (E.rows edges.old) kept.new lifted.new.items NoneLate) }
    ensures lifted { OnOk result (AreLifted kept.old kept.new lifted.old.items lifted.new.items) }
{
    kept.are_few();
    let mut next = first;
    'follow: while next < lifted.len() {
        let source = lifted[next];
        'out: for i in 0..edges.out_len(source) {
            let edge = edges.out(source, i);
            lift_if_late(kept, lifted, source, edge)?;
        }
        next += 1;
    }
    Ok(())
}
