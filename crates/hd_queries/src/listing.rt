//! Lists of objects by their IDs.
ghost use Rattle.std.specs.Prelude.{◌≡◌, ◌<◌, ◌≤◌, ◌↔◌, ℕ, Option as Maybe, length, IfOk, IsTrue, OnOk};
ghost use Rattle.hd_terms.specs.Listed.{AreFallen, AreMembers};
ghost use Rattle.hd_terms.specs.Kept.{AreKept};
ghost use Rattle.hd_queries.specs.Gathered.{AreFirst};
ghost use Rattle.hd_queries.specs.Listed.{is_listed, least_of, AreAllKept, AreAllOf, AreGatheredBefore, IsNoneOnQuiet, IsQuiet};
ghost use Rattle.hd_totals.specs.GroupPages.{AreNoted};
ghost use Rattle.hd_totals.specs.LastChanges.{AreLastChanges};
ghost use Rattle.hd_totals.specs.Members.{is_member};

use crate::compared::{Compared, compare};
use crate::gathered::Gathered;
use crate::solved::Solved;
use hd_graph::Graph;
use hd_supports::Supports;
use hd_terms::{Group, NoMemory, Strength, one_strength, settled_supports_give_strengths};
use hd_totals::{GroupPages, PAGE_OBJECTS, falls};
use std::alloc::Global;

/// The objects of a group that have a strength.
#[derive(Clone, Copy)]
pub struct Members<'a> {
    /// The group.
    pub group: Group,
    /// The strength.
    pub strength: Strength,
    /// Which pages may have objects of the group.
    pub pages: &'a GroupPages,
}

/// The objects that a list is of.
#[derive(Clone, Copy)]
pub(crate) enum Listed<'a> {
    /// Those that become unreachable from one log to another.
    Fallen(Compared<'a>),
    /// Those of a group that have a strength, by the strengths that are kept.
    Members(&'a Supports, Members<'a>),
}

/// Whether an object is of a group and has a strength.
pub(crate) fn is_member(
    graph: &Graph,
    strengths: &Supports,
    group: Group,
    strength: Strength,
    o: u32,
) -> bool
    requires object { o < length graph.now.objects }
    requires count { length strengths.now ≡ length graph.now.objects }
    ensures { result ≡ is_member graph.now strengths.now group strength o }
{
    strengths.strength(o) == strength && graph.group_of(o) == group
}

impl Listed<'_> {
    /// Whether an object is one of them.
    fn has(self, graph: &Graph, o: u32) -> bool
        requires object { o < length graph.now.objects }
        requires count { AreAllKept (length graph.now.objects) self }
        ensures { result ≡ is_listed graph.now self.entry o }
    {
        match self {
            Listed::Fallen(compared) => falls(compared.before(o), compared.after(o)),
            Listed::Members(strengths, members) => {
                is_member(graph, strengths, members.group, members.strength, o)
            }
        }
    }

    /// Whether no object of a page can be one of them: the page is unchanged from what both logs begin with, or the group is not
    /// marked at it.
    fn is_quiet(self, page: u32) -> bool
        ensures { IsTrue result ↔ IsQuiet self.entry page }
    {
        match self {
            Listed::Fallen(compared) => compared.is_quiet(page),
            Listed::Members(_, members) => !members.pages.may_have(page, members.group),
        }
    }

    /// An ID that none of them on a page is below.
    fn least(self, page: u32) -> u64
        ensures { result ≡ least_of self.entry page }
    {
        match self {
            Listed::Fallen(_) => 0,
            Listed::Members(_, members) => members.pages.least(page),
        }
    }
}

/// Puts in the IDs of those objects between two numbers that a list is of.
fn put_ids(
    graph: &Graph,
    listed: Listed<'_>,
    first: u32,
    end: u32,
    ids: &mut Gathered,
) -> Result<(), NoMemory>
    requires count { AreAllKept (length graph.now.objects) listed }
    requires order { first ≤ end }
    requires within { end ≤ length graph.now.objects }
    ensures { OnOk result ((most : Maybe ℕ) → AreGatheredBefore graph.now (is_listed graph.now listed.entry) most first ids.old → AreGatheredBefore graph.now (is_listed graph.now listed.entry) most end ids.new) }
{
    for o in first..end {
        if listed.has(graph, o) {
            ids.put(graph.id_of(o))?;
        }
    }
    Ok(())
}

/// The first `most` IDs of the objects that a list is of, ascending; without a number all. Pages are skipped that are quiet, or whose
/// IDs are all greater than those that are wanted.
fn ids_of(
    alloc: Global,
    graph: &Graph,
    listed: Listed<'_>,
    most: Option<u32>,
) -> Result<Vec<u64>, NoMemory>
    requires count { AreAllKept (length graph.now.objects) listed }
    requires quiet { IsNoneOnQuiet graph.now listed }
    ensures { IfOk result (λ v. AreFirst most (AreAllOf graph.now (is_listed graph.now listed.entry)) v.items) }
{
    let mut ids = Gathered::new(alloc, most);
    let mut first = 0;
    while first < graph.objects() {
        let rest_of_page = PAGE_OBJECTS - first % PAGE_OBJECTS;
        let end = first + rest_of_page.min(graph.objects() - first);
        let page = first / PAGE_OBJECTS;
        if !listed.is_quiet(page) && !ids.leaves_out(listed.least(page)) {
            put_ids(graph, listed, first, end, &mut ids)?;
        }
        first = end;
    }
    let ids = ids.into_ids(alloc)?;
    Ok(ids)
}

/// The first `most` IDs, without a number all, of the objects that become unreachable from one log to another, ascending. Where the
/// later log begins with the earlier, only the pages are gone through of which an object's strength has changed since the earlier;
/// else all that any event of one of them changed.
///
/// # Errors
///
/// Memory ran out.
pub fn fallen_ids(
    alloc: Global,
    earlier: Solved<'_>,
    later: Solved<'_>,
    most: Option<u32>,
) -> Result<Vec<u64>, NoMemory>
    requires one_dump { earlier.graph.now ≡ later.graph.now }
    requires kept_earlier { AreKept earlier.graph.now earlier.front.now earlier.strengths.now }
    requires kept_later { AreKept later.graph.now later.front.now later.strengths.now }
    requires changes_earlier { AreLastChanges earlier.graph.now earlier.front.now earlier.strengths.now earlier.last_changes.now }
    requires changes_later { AreLastChanges later.graph.now later.front.now later.strengths.now later.last_changes.now }
    ensures { IfOk result (λ v. AreFirst most (AreFallen later.entry.graph.now earlier.entry.front.now later.entry.front.now) v.items) }
{
    settled_supports_give_strengths();
    one_strength();
    let fallen = Listed::Fallen(compare(earlier, later));
    let ids = ids_of(alloc, later.graph, fallen, most)?;
    Ok(ids)
}

/// The first `most` IDs, without a number all, of the objects of a group that have a strength, ascending. Only the pages are gone
/// through that may have objects of the group, and of these only those with an ID that is low enough.
///
/// # Errors
///
/// Memory ran out.
pub fn member_ids(
    alloc: Global,
    solved: Solved<'_>,
    members: Members<'_>,
    most: Option<u32>,
) -> Result<Vec<u64>, NoMemory>
    requires kept { AreKept solved.graph.now solved.front.now solved.strengths.now }
    requires noted { AreNoted solved.graph.now members.pages.now }
    ensures { IfOk result (λ v. AreFirst most (AreMembers solved.entry.graph.now solved.entry.front.now members.entry.group members.entry.strength) v.items) }
{
    settled_supports_give_strengths();
    one_strength();
    let listed = Listed::Members(solved.strengths, members);
    let ids = ids_of(alloc, solved.graph, listed, most)?;
    Ok(ids)
}
