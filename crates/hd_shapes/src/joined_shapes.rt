//! The shapes of the objects of several parts.
ghost use Rattle.std.specs.Prelude.{◌≡◌, ◌+◌, ◌<◌, ◌≤◌, ◌^◌, length, slice_get, sum, Some, IfOk};
ghost use Rattle.hd_shapes.specs.JoinedShapes.{joined_objects, part_lens, StandAt};
ghost use Rattle.hd_shapes.specs.PackedShapes.{shape_view};

use crate::shape::{Shape, Shapes};
use crate::shape_list::ShapeList;
use hd_parts::PartIndex;
use std::alloc::{AllocError, Global};
use std::marker::Model;

/// The shapes of objects in parts: the objects of each part are numbered behind those of the one before.
///
/// Threads make the shapes of a part each, and nothing has to be copied where the parts are put together.
#[derive(Drop)]
pub struct JoinedShapes {
    parts: Vec<Shapes>,
    /// Which part has an object.
    index: PartIndex,
    /// How many objects there are.
    count: usize,
}

impl Model for JoinedShapes {
    ghost use Rattle.hd_shapes.specs.JoinedShapes.{ObjectShapes, joined_objects, AreJoined};

    ghost Value = { ObjectShapes };

    ghost view = { λ a. record { objects = joined_objects a.parts.items } };

    ghost invariant = { λ a. AreJoined a.parts.items a.index a.count };
}

/// How many objects each part has.
fn lens_of(alloc: Global, parts: &[Shapes]) -> Result<Vec<usize>, AllocError>
    ensures { IfOk result (λ lens. lens.items ≡ part_lens parts.now) }
{
    let mut lens = Vec::with_capacity(alloc, parts.len())?;
    for part in parts {
        lens.push(part.len())?;
    }
    Ok(lens)
}

/// How many objects the parts have together.
fn total(lens: &[usize]) -> usize
    requires { sum lens.now < 2 ^ 64 }
    ensures { result ≡ sum lens.now }
{
    lens.iter().sum()
}

impl JoinedShapes {
    /// The shapes of all parts.
    ///
    /// # Errors
    ///
    /// Out of memory.
    #[tactic(auto, using(crate::proofs::JoinLemmas::length_joined))]
    pub fn join(alloc: Global, parts: Vec<Shapes>) -> Result<JoinedShapes, AllocError>
        requires some { 0 < length parts.items }
        requires few_parts { length parts.items ≤ 256 }
        requires few { length (joined_objects parts.items) < 2 ^ 32 }
        ensures { IfOk result (λ shapes. shapes.objects ≡ joined_objects parts.items) }
    {
        let lens = lens_of(alloc, &parts)?;
        let index = PartIndex::of(alloc, &lens)?;
        let count = total(&lens);
        Ok(JoinedShapes {
            parts,
            index,
            count,
        })
    }

    /// How many objects there are.
    pub fn len(&self) -> usize
        ensures { result ≡ length self.now.objects }
    {
        self.count
    }

    /// The part that has the object of a number, and the number of its first object.
    #[inline(always)]
    #[tactic(auto, using(crate::proofs::JoinLemmas::length_joined))]
    pub(crate) fn part_of(&self, o: u32) -> (&Shapes, u32)
        requires { o < length self.now.objects }
        ensures stand { StandAt result.0.now.objects self.now.objects result.1 }
        ensures within { (result.1 ≤ o) × (o < result.1 + length result.0.now.objects) }
    {
        let (part, first) = self.index.find(o);
        (&self.parts[part], first)
    }

    /// The shape of the object of a number.
    #[inline(always)]
    pub fn get(&self, o: u32) -> Shape<'_>
        requires { o < length self.now.objects }
        ensures { slice_get self.now.objects o ≡ Some (shape_view result) }
    {
        let (part, first) = self.part_of(o);
        part.get(o - first)
    }

    /// The shapes, for a pass that goes over them.
    pub fn as_list(&self) -> ShapeList<'_>
        ensures { result ≡ self.now }
    {
        ShapeList {
            shapes: self,
            part: &self.parts[0],
            first: 0,
        }
    }
}
