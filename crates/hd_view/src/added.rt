//! The roots that events add, by the objects that they are on.
ghost use Rattle.std.specs.Prelude.{◌≡◌, ◌<◌, ◌^◌, List, [], ◌∷◌, ◌++◌, length, slice_get, Some, IfOk};
ghost use Rattle.std.specs.Arc.{arc_value};
ghost use Rattle.std.specs.List.{filter_map, enumerate_from};
ghost use Rattle.hd_terms.specs.declared.Event.{Event as OneEvent};
ghost use Rattle.hd_reverse.specs.Numbers.{numbers_on};
ghost use Rattle.hd_view.specs.Added.{event_number, object_added, IsAddedBy};

use hd_graph::Graph;
use hd_log::Front;
use hd_reverse::{NumberOn, NumbersByObject};
use hd_terms::{Edit, NoMemory, What};
use std::alloc::Global;
use std::marker::Model;
use std::sync::Arc;

/// The roots that the events of a log add, live or not, by the objects that they are on.
#[derive(Drop)]
pub struct AddedRoots {
    events: NumbersByObject,
}

impl Model for AddedRoots {
    ghost use Rattle.std.specs.Prelude.{List};
    ghost use Rattle.hd_reverse.specs.declared.numbers.NumberOn.{NumberOn};

    ghost Value = { List NumberOn };

    ghost view = { λ a. a.events };
}

/// The number of the object on which an event adds a root, if there is one.
fn object_added(graph: &Graph, what: What) -> Option<u32>
    ensures { result ≡ object_added graph.now what }
{
    match what {
        What::Do(Edit::Add(id)) => graph.index_of(id),
        What::Do(_) | What::Undo(_) => None,
    }
}

/// The events that add roots on objects, with the numbers of these.
fn event_numbers(alloc: Global, graph: &Graph, front: &Front) -> Result<Vec<NumberOn>, NoMemory>
    ensures numbers { IfOk result (λ v. v.items ≡ filter_map (event_number graph.now) (enumerate_from 0 front.now)) }
    ensures few { IfOk result (λ v. length v.items < 2 ^ 32) }
{
    let mut numbers = Vec::new(alloc);
    for number in 0..front.len() {
        if let Some(object) = object_added(graph, front.event(number).what) {
            numbers.push(NumberOn { object, number })?;
        }
    }
    Ok(numbers)
}

impl AddedRoots {
    /// The roots that events add.
    ///
    /// # Errors
    ///
    /// Memory ran out, or the dump's roots and the events are 2^32 or more, which no file has.
    pub fn of(alloc: Global, graph: &Graph, front: &Front) -> Result<AddedRoots, NoMemory>
        ensures { IfOk result (λ a. IsAddedBy graph.now front.now a) }
    {
        if front.len() > u32::MAX - graph.roots_len() {
            return Err(NoMemory);
        }
        let events = NumbersByObject::of(event_numbers(alloc, graph, front)?)?;
        Ok(AddedRoots { events })
    }

    /// The roots that events add, once there is one more event: a log's last, where `added` has those of the events before
    /// it. An event that adds no root on an object shares them.
    ///
    /// # Errors
    ///
    /// Memory ran out, or the dump's roots and the events are 2^32 or more, which no file has.
    pub fn with_last(
        added: &Arc<AddedRoots>,
        alloc: Global,
        graph: &Graph,
        front: &Front,
    ) -> Result<Arc<AddedRoots>, NoMemory>
        requires { 0 < length front.now }
        ensures { IfOk result (λ a. (before : List OneEvent) (event : OneEvent) → front.now ≡ before ++ event ∷ [] → IsAddedBy graph.now before (arc_value added.now) → IsAddedBy graph.now front.now (arc_value a)) }
    {
        if front.len() > u32::MAX - graph.roots_len() {
            return Err(NoMemory);
        }
        let number = front.len() - 1;
        let Some(object) = object_added(graph, front.event(number).what) else {
            return Ok(Arc::try_clone(added)?);
        };
        let events = added.events.with(alloc, object, number)?;
        Ok(Arc::new(alloc, AddedRoots { events })?)
    }

    /// How many events add a root on an object.
    pub(crate) fn len(&self, o: u32) -> u32
        ensures { result ≡ length (numbers_on self.now o) }
    {
        self.events.len(o)
    }

    /// The number of the event at an index of those that add a root on an object.
    pub(crate) fn event(&self, o: u32, i: u32) -> u32
        requires { i < length (numbers_on self.now o) }
        ensures { slice_get (numbers_on self.now o) i ≡ Some result }
    {
        self.events.get(o, i)
    }
}
