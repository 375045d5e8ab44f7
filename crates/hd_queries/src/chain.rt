//! Chains: the root path that explains an object's strength.
ghost use Rattle.std.specs.Prelude.{◌≡◌, ◌≢◌, ◌<◌, List, length, Contains, IfOk, Some};
ghost use Rattle.hd_terms.specs.declared.Event.{Event};
ghost use Rattle.hd_terms.specs.declared.Strength.TheVariants as strengths;
ghost use Rattle.hd_terms.specs.EditedDump.{standing};
ghost use Rattle.hd_terms.specs.Paths.{Edge};
ghost use Rattle.hd_terms.specs.Settled.{reached_at};
ghost use Rattle.hd_terms.specs.Kept.{AreKept};
ghost use Rattle.hd_queries.specs.ChainFound.{IsChainFound, IsEdgeOf, link_of};

use crate::solved::Solved;
use hd_graph::Graph;
use hd_terms::{EdgeKind, NoMemory, Slot, Strength, Support, settled_supports_give_strengths};
use std::alloc::Global;

/// A reference of a chain.
#[derive(Clone, Copy)]
pub struct Link {
    /// The number of the object that it is from.
    pub source: u32,
    /// The slot that it is in.
    pub slot: Slot,
    /// The kind of the reference.
    pub kind: EdgeKind,
    /// The number of the object that it leads to.
    pub target: u32,
}

/// A root path of an object, of the object's own strength, in which no object occurs twice.
#[derive(Drop)]
pub struct Chain {
    /// The number of the root.
    pub root: u64,
    /// The number of the object that the root holds.
    pub start: u32,
    /// The references from there on. The last leads to the object; there is none where the root holds it.
    pub links: Vec<Link>,
}

/// The link of the reference in a slot of an object that leads to another.
fn link_from(graph: &Graph, source: u32, slot: Slot, target: u32) -> Link
    requires { source < length graph.now.objects }
    ensures { (log : List Event) (e : Edge) → Contains (standing graph.now log).edges e → IsEdgeOf e source slot target → result ≡ link_of e }
{
    let kind = match graph.slot_index(source, slot) {
        Some(i) => graph.slots(source, i).kind,
        None => EdgeKind::Strong,
    };
    Link {
        source,
        slot,
        kind,
        target,
    }
}

/// The chain of a reachable object: its support, the support of that one's source, and so on back to the root.
fn chain_back(alloc: Global, solved: Solved<'_>, o: u32) -> Result<Chain, NoMemory>
    requires kept { AreKept solved.graph.now solved.front.now solved.strengths.now }
    requires object { o < length solved.graph.now.objects }
    requires reachable { (reached_at solved.strengths.now o).strength ≢ strengths.Unreachable }
    ensures { IfOk result (λ c. IsChainFound solved.entry.graph.now solved.entry.front.now solved.entry.strengths.now o (Some c)) }
{
    settled_supports_give_strengths();
    let mut links = Vec::new(alloc);
    let mut at = o;
    loop {
        match solved.strengths.support(at) {
            Support::Edge { source, slot } => {
                links.push(link_from(solved.graph, source, slot, at))?;
                at = source;
            }
            Support::Root(root) => {
                links.reverse();
                return Ok(Chain {
                    root,
                    start: at,
                    links,
                });
            }
            Support::Nothing => unreachable!(),
        }
    }
}

/// The chain of an object, none where it is unreachable.
///
/// # Errors
///
/// Memory ran out.
pub fn chain_of(alloc: Global, solved: Solved<'_>, o: u32) -> Result<Option<Chain>, NoMemory>
    requires { AreKept solved.graph.now solved.front.now solved.strengths.now }
    ensures { IfOk result (λ c. IsChainFound solved.entry.graph.now solved.entry.front.now solved.entry.strengths.now o c) }
{
    settled_supports_give_strengths();
    if o >= solved.strengths.len() || solved.strengths.strength(o) == Strength::Unreachable {
        return Ok(None);
    }
    let chain = chain_back(alloc, solved, o)?;
    Ok(Some(chain))
}
