//! Marks: what a log made of a dump at one time, kept to be compared with later.
ghost use Rattle.std.specs.Prelude.{◌≡◌};
ghost use Rattle.std.specs.Arc.{arc_value};
ghost use Rattle.hd_terms.specs.Kept.{AreKept};
ghost use Rattle.hd_totals.specs.LastChanges.{AreLastChanges};

use hd_graph::Graph;
use hd_log::Front;
use hd_queries::Solved;
use hd_supports::Supports;
use hd_totals::LastChanges;
use std::marker::Model;
use std::sync::Arc;

/// What a log makes of a dump: the log, the strength of each object under it, and when these last changed. A mark owns these
/// parts together with the state that it is of, and copies none of them.
pub struct Mark {
    graph: Arc<Graph>,
    front: Front,
    supports: Arc<Supports>,
    last_changes: Arc<LastChanges>,
}

impl Drop for Mark {
    /// Drops the fields. A derived drop would be proved anew at each place that lets go of one.
    fn drop(self) {
        let Self {
            graph,
            front,
            supports,
            last_changes,
        } = self;
    }
}

impl Model for Mark {
    ghost use Rattle.hd_state.specs.Situation.{Situation};

    ghost Value = { Situation };

    ghost use Rattle.hd_state.specs.MarkInside.{marked_situation, IsMark};

    ghost view = { marked_situation };

    ghost invariant = { IsMark };
}

impl Mark {
    /// The mark of a graph under a log that leaves these strengths.
    pub(crate) fn new(
        graph: Arc<Graph>,
        front: Front,
        supports: Arc<Supports>,
        last_changes: Arc<LastChanges>,
    ) -> Mark
        requires kept { AreKept (arc_value graph) front (arc_value supports) }
        requires changes { AreLastChanges (arc_value graph) front (arc_value supports) (arc_value last_changes) }
        ensures { result ≡ record { dump = arc_value graph; log = front } }
    {
        Mark {
            graph,
            front,
            supports,
            last_changes,
        }
    }

    /// The graph under the mark's log, with its strengths.
    pub(crate) fn solved(&self) -> Solved<'_>
        ensures dump { result.graph.now ≡ self.now.dump }
        ensures log { result.front.now ≡ self.now.log }
        ensures kept { AreKept result.graph.now result.front.now result.strengths.now }
        ensures changes { AreLastChanges result.graph.now result.front.now result.strengths.now result.last_changes.now }
    {
        Solved {
            graph: &self.graph,
            front: &self.front,
            strengths: &self.supports,
            last_changes: &self.last_changes,
        }
    }
}
