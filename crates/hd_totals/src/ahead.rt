//! Reading ahead: what the next changed objects need is read for many of them at once.

use hd_graph::Graph;
use hd_repair::Change;

/// How many objects are read together.
const BATCH: usize = 32;

/// Where the changes are that are read ahead.
#[derive(Clone, Copy)]
pub(crate) struct Ahead {
    /// The index of the next change.
    at: usize,
    /// The index of the first change that wasn't read ahead.
    unread: usize,
}

impl Ahead {
    /// Nothing was read yet.
    pub(crate) fn none() -> Ahead {
        Ahead { at: 0, unread: 0 }
    }

    /// Reads the groups and bytes of the next changed objects, once for each batch of them. Call it before each change. The
    /// sum decides only when the next ones are read, so that a compiler doesn't leave the reads out.
    pub(crate) fn read(&mut self, graph: &Graph, changes: &[Change]) {
        let at = self.at;
        self.at = at.saturating_add(1);
        if at < self.unread {
            return;
        }
        let coming = changes.get(at..).unwrap_or(changes);
        let coming = coming.get(..BATCH).unwrap_or(coming);
        let sum = read_objects(graph, coming);
        self.unread = at.saturating_add(BATCH - (sum % 2) as usize);
    }
}

/// Reads what the groups and the bytes of changed objects go by.
fn read_objects(graph: &Graph, changes: &[Change]) -> u64 {
    let mut sum: u64 = 0;
    for change in changes {
        let o = change.object();
        if o < graph.objects() {
            sum = sum.wrapping_add(graph.bytes_of(o));
            sum = sum.wrapping_add(u64::from(graph.slots_len(o)));
        }
    }
    sum
}
