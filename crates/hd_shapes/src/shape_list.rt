//! The shapes of objects, for a pass that goes over them.
ghost use Rattle.std.specs.Prelude.{◌≡◌, ◌<◌, length, slice_get, Some};
ghost use Rattle.hd_shapes.specs.PackedShapes.{shape_view};

use crate::joined_shapes::JoinedShapes;
use crate::shape::{Shape, Shapes};
use std::marker::Model;

/// The shapes of objects, as a `JoinedShapes` has them, for a pass that goes from one object to the next.
///
/// The part that has an object is at hand for the objects behind it, so it is seldom looked for.
#[derive(Drop)]
pub struct ShapeList<'a> {
    pub(crate) shapes: &'a JoinedShapes,
    /// The part at hand.
    pub(crate) part: &'a Shapes,
    /// The number of its first object.
    pub(crate) first: u32,
}

impl<'a> Model for ShapeList<'a> {
    ghost use Rattle.hd_shapes.specs.JoinedShapes.{ObjectShapes, StandAt};

    ghost Value = { ObjectShapes };

    ghost view = { λ a. a.shapes.now };

    ghost invariant = { λ a. StandAt a.part.now.objects a.shapes.now.objects a.first };
}

impl<'a> ShapeList<'a> {
    /// The shape of the object of a number.
    #[inline(always)]
    pub fn get(&mut self, o: u32) -> Shape<'a>
        requires { o < length self.old.objects }
        ensures shape { slice_get self.old.objects o ≡ Some (shape_view result) }
        ensures same { self.new ≡ self.old }
    {
        if let Some(index) = o.checked_sub(self.first)
            && (index as usize) < self.part.len()
        {
            return self.part.get(index);
        }
        self.get_elsewhere(o)
    }

    /// The shape of the object of a number, whose part is at hand from then on. This is a function of its own, since `get` runs for each
    /// object, and seldom comes to it.
    #[inline(never)]
    fn get_elsewhere(&mut self, o: u32) -> Shape<'a>
        requires { o < length self.old.objects }
        ensures shape { slice_get self.old.objects o ≡ Some (shape_view result) }
        ensures same { self.new ≡ self.old }
    {
        let (part, first) = self.shapes.part_of(o);
        self.part = part;
        self.first = first;
        part.get(o - first)
    }
}
