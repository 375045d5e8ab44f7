//! Two logs over one graph, compared object by object.
ghost use Rattle.std.specs.Prelude.{◌≡◌, ◌<◌, ◌↔◌, length, IsTrue};
ghost use Rattle.hd_terms.specs.Kept.{AreKept};
ghost use Rattle.hd_queries.specs.Compared.{AreBothKept, AreCommon, IsQuietPage, IsSameOnQuiet};
ghost use Rattle.hd_totals.specs.LastChanges.{AreLastChanges};
ghost use Rattle.hd_totals.specs.Running.{strength_in};

use crate::solved::Solved;
use hd_log::Front;
use hd_terms::{Strength, one_strength};

/// Two logs over one graph, with the strengths that they leave. Both begin with the same `common` events.
#[derive(Clone, Copy)]
pub(crate) struct Compared<'a> {
    pub(crate) earlier: Solved<'a>,
    pub(crate) later: Solved<'a>,
    pub(crate) common: u32,
}

/// How many events both logs begin with: all of the earlier, where the later begins with it, and else 0.
fn common_events(earlier: &Front, later: &Front) -> u32
    ensures { AreCommon earlier.now later.now result }
{
    if later.begins_with(earlier) {
        earlier.len()
    } else {
        0
    }
}

/// Two logs over one graph, with what both begin with.
pub(crate) fn compare<'a>(earlier: Solved<'a>, later: Solved<'a>) -> Compared<'a>
    requires one_dump { earlier.graph.now ≡ later.graph.now }
    requires changes_earlier { AreLastChanges earlier.graph.now earlier.front.now earlier.strengths.now earlier.last_changes.now }
    requires changes_later { AreLastChanges later.graph.now later.front.now later.strengths.now later.last_changes.now }
    ensures earlier { result.earlier ≡ earlier.entry }
    ensures later { result.later ≡ later.entry }
    ensures same { IsSameOnQuiet result }
{
    one_strength();
    let common = common_events(earlier.front, later.front);
    Compared {
        earlier,
        later,
        common,
    }
}

impl Compared<'_> {
    /// The strength of an object under the earlier log.
    pub(crate) fn before(self, o: u32) -> Strength
        requires { o < length self.earlier.strengths.now }
        ensures { result ≡ strength_in self.entry.earlier.strengths.now o }
    {
        self.earlier.strengths.strength(o)
    }

    /// The strength of an object under the later log.
    pub(crate) fn after(self, o: u32) -> Strength
        requires { o < length self.later.strengths.now }
        ensures { result ≡ strength_in self.entry.later.strengths.now o }
    {
        self.later.strengths.strength(o)
    }

    /// Whether a page is unchanged from what both logs begin with.
    pub(crate) fn is_quiet(self, page: u32) -> bool
        ensures { IsTrue result ↔ IsQuietPage self.entry page }
    {
        self.earlier.last_changes.is_unchanged(page, self.common)
            && self.later.last_changes.is_unchanged(page, self.common)
    }
}
