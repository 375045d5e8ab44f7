//! Repairs of settled supports after edges and roots were lost or gained.
//!
//! Callers have supports (`hd_supports`) that were settled, and a list of what was lost or gained (`Held` of
//! `hd_edges`). `lose` and `gain` make the supports settled again and return the objects whose strength changed. They
//! see the graph only through the trait `Edges`, which counts looks. Their contracts bound the looks by the degree of
//! what the event affects: of the loss, twice the degree of the objects whose stored chain used what was lost; of the
//! gain, the degree of its targets and of the objects that became stronger. So a repair costs by what its event
//! affects. What is kept of all other objects stays.
//!
//! Both work in passes.
//!
//! A loss (`losing.rt`) takes apart no more than it has to:
//!
//! 1. `rehang_or_detach` (`rehanging.rt`) goes over the objects that lost their support. Such an object waits
//!    (`waiting.rt`), without a support and with its strength. Where a root or an edge still gives it exactly that
//!    strength, it is hung on that, and all that it supports stays (`find_support` of `sources.rt`). The source has to be
//!    hung itself: its stored chain, followed without looks, ends at a root (`is_hung` of `hanging.rt`), so it doesn't
//!    meet an object that waits. Where the new source comes later, stamps are lifted below the object (`lifting.rt`).
//! 2. An object that finds no such source is detached: it is unreachable for the time being, and the objects that it
//!    supports wait in its place. Walks along chains are bounded; an object beyond the bound is detached, which is right
//!    too. An object to which nothing led but an edge from a detached one is alone: it waits before the others, and is
//!    detached without a search.
//! 3. Where many objects lost their support and others still wait, a search afresh may be quicker (see below). If not, those
//!    and all that hangs below them are detached as a whole (`fall` of `falling.rt`): what an object supports is found by its
//!    edges, and nothing is hung on others.
//! 4. `offer_best` (`best.rt`) finds the best offer to each detached object that isn't alone, over the roots on it and the
//!    edges to it. Detached objects offer nothing.
//! 5. `spread` (`spreading.rt`) accepts offers, the greatest first. An offer that gives more than its target has
//!    becomes the target's support. What the targets then give along their own edges (`offering.rt`) is offered in turn.
//! 6. `changes_of` compares the strengths of the detached objects with those that they had.
//!
//! Steps 3 to 5 go in rounds, each over all objects that are known by then. Several threads share a round that has many
//! objects (`threads.rt`). They only look at edges, each with a count of looks of its own, and tell what they found; one
//! thread then changes what is kept. So no proof speaks of how threads interleave.
//!
//! After as many objects as `Limits` says, a loss marks its region (`marking.rt`): the objects whose stored chain uses what is
//! lost, found by the stored chains alone, without a look. Those of 1,024 objects tell whether that seems worthwhile. If the
//! looks of a search and those so far are at most twice the region's degree, the loss ends with these marks; else it goes on.
//! `renew` (`renewing.rt`) then takes what the search found in the region, with stamps above all that were kept, and leaves the
//! rest as it was. `renew_changed` does the same after a gain, where strengths differ; its caller knows beforehand that many do.
//!
//! A gain (`gaining.rt`) takes the targets of what was gained, each once (`targets.rt`), and finds the best offer to each.
//! One that gives more than its target has is spread in the same way, in rounds. One that gives the same from an earlier source
//! becomes the support, so that chains stay short. Nothing is detached, since a gain weakens nothing.
//!
//! What the next objects of a queue need is read ahead for many of them at once (`ahead.rt`).
//!
//! Offers wait in `Offers` (`offers.rt`), which has one queue for each strength, so the greatest is found without a
//! heap. An offer is checked when it is taken out, so an outdated one is dropped then. With no offer left the supports
//! are settled.
//!
//! An object with a new support gets the stamp one above that of its source, or 0 where a root supports it. So along a
//! chain the strength falls, or it stays and the stamp rises. Without this, the objects of a cycle that no root reaches
//! could support each other.
//!
//! A `Change` (`change.rt`) is an object with its strength before and after. `hd_state` counts and totals by it. Where
//! memory runs out, what is kept may be in between and must not be used further; so a state repairs a version of its
//! own (`Supports::share`) and keeps the old one.
#![tactic(auto)]

mod ahead;
mod best;
mod change;
mod falling;
mod gaining;
mod hanging;
mod lifting;
mod losing;
mod marking;
mod offering;
mod offers;
mod rehanging;
mod renewing;
mod sources;
mod spreading;
mod targets;
mod threads;
mod waiting;

pub use change::Change;
pub use gaining::gain;
pub use losing::{Lost, lose};
pub use marking::Marks;
pub use rehanging::Limits;
pub use renewing::{renew, renew_changed};
