//! Looking ahead in a search: what the next objects of its queue will ask for is read for all of them at once.
//!
//! A search reads rows and targets in no order of memory, and waits for most of them. Reads that don't need one
//! another's answers wait together. The sums mean nothing: they are there so that a compiler doesn't leave the reads out.

use hd_graph::Graph;

/// How many objects are read together.
pub(crate) const BATCH: usize = 32;

/// Reads where the rows of objects begin, and what shapes they have.
pub(crate) fn read_rows(graph: &Graph, objects: &[u32]) -> u32 {
    let mut sum: u32 = 0;
    for o in objects {
        if *o < graph.objects() {
            sum = sum.wrapping_add(graph.slots_len(*o));
            if graph.referent_of(*o).is_some() {
                sum = sum.wrapping_add(1);
            }
        }
    }
    sum
}

/// How many slots of an object are looked at ahead, from its first one on.
const SLOTS: u32 = 4;

/// Reads the targets in the first slots of objects.
pub(crate) fn read_targets(graph: &Graph, objects: &[u32]) -> u32 {
    let mut sum: u32 = 0;
    for o in objects {
        sum = sum.wrapping_add(read_targets_of(graph, *o));
    }
    sum
}

/// Reads the targets in the first slots of an object, if there is one of that number.
fn read_targets_of(graph: &Graph, o: u32) -> u32 {
    if o >= graph.objects() {
        return 0;
    }
    let targets = graph.targets(o);
    let mut sum: u32 = 0;
    for i in 0..graph.slots_len(o).min(SLOTS) {
        if let Some(target) = targets.get(i) {
            sum = sum.wrapping_add(target);
        }
    }
    sum
}
