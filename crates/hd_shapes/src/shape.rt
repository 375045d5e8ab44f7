//! What is kept of each object beside its references: its kind, its recorded bytes and the names of its slots.
ghost use Rattle.std.specs.Prelude.{◌≡◌, ◌<◌, ◌-◌, ◌^◌, [], ◌∷◌, ◌++◌, length, replicate, set, slice_get, IsSome, Some, None, IfOk, OnOk};
ghost use Rattle.std.specs.Option.{option_map};
ghost use Rattle.hd_shapes.specs.Shapes.{ObjectShape, ObjectArray, PrimitiveArray, shape_bytes};
ghost use Rattle.hd_shapes.specs.PackedShapes.{shape_view, class_shape_view, layout_view, made_layout, IsPackedOver, kept_shape};

use crate::packed_shape::PackedShape;
use crate::packed_shapes::PackedShapes;
use hd_terms::{EdgeKind, Slot};
use std::alloc::{AllocError, Global};
use std::marker::Model;

/// A class object: how many bytes are recorded of it, and the names of its slots in their order.
#[derive(Drop)]
pub struct ClassShape {
    pub bytes: u32,
    pub names: Vec<Slot>,
}

/// What all instances of a class have alike: their recorded bytes, the names of their slots in their order, the slot that is
/// their referent, and the kind of the reference in it.
#[derive(Drop)]
pub struct LayoutShape {
    pub bytes: u32,
    pub names: Vec<Slot>,
    pub referent: Option<Slot>,
    pub kind: EdgeKind,
}

/// What an object is, and how many bytes are recorded of it.
#[derive(Clone, Copy)]
pub enum Shape<'a> {
    /// An object array, or an instance of a class that isn't known.
    ObjectArray { bytes: u32 },
    /// A primitive array, with the type of its elements, 4 to 11.
    PrimitiveArray { element: u8, bytes: u32 },
    /// A class object.
    Class(&'a ClassShape),
    /// An instance of a class that is known.
    Instance(&'a LayoutShape),
}

/// The shapes of objects, in the order of their numbers. The shape that all instances of a class share is made with the first
/// of them, so a class without instances takes four bytes.
///
/// An object takes four bytes. A class, an object array of 2^30 bytes or more, and a primitive array of 2^26 bytes or more take
/// eight more; there can be 2^30 of these.
pub struct Shapes {
    kept: PackedShapes,
    classes: Vec<ClassShape>,
    layouts: Vec<LayoutShape>,
    /// Of each class that is known: 0 if no shape of its instances was made, and else the index of that shape plus one.
    numbers: Vec<u32>,
}

impl Drop for Shapes {
    /// Drops the fields. A derived drop would be proved anew at each place that lets go of one.
    fn drop(self) {
        let Self {
            kept,
            classes,
            layouts,
            numbers,
        } = self;
    }
}

impl Model for Shapes {
    ghost use Rattle.std.specs.Prelude.{map, length};
    ghost use Rattle.hd_shapes.specs.PackedShapes.{ShapeLists, kept_shape, numbered_layout, ArePacked};

    ghost Value = { ShapeLists };

    ghost view = { λ s. record { objects = map (kept_shape s.classes.items s.layouts.items) s.kept; layouts = map (numbered_layout s.layouts.items) s.numbers.items } };

    ghost invariant = { λ s. ArePacked s.kept (length s.classes.items) (length s.layouts.items) s.numbers.items };
}

/// What is kept says, over the classes and the layouts.
fn shape_of<'a>(
    kept: PackedShape,
    classes: &'a [ClassShape],
    layouts: &'a [LayoutShape],
) -> Shape<'a>
    requires { IsPackedOver (length classes.now) (length layouts.now) kept }
    ensures { shape_view result ≡ kept_shape classes.now layouts.now kept }
{
    match kept {
        PackedShape::ObjectArray { bytes } => Shape::ObjectArray { bytes },
        PackedShape::PrimitiveArray { element, bytes } => Shape::PrimitiveArray { element, bytes },
        PackedShape::Class { index } => Shape::Class(&classes[index as usize]),
        PackedShape::Instance { index } => Shape::Instance(&layouts[index as usize]),
    }
}

impl Shapes {
    /// No objects yet, with room for `objects` of them, and no shape of the instances of any of `known` classes.
    ///
    /// # Errors
    ///
    /// Out of memory.
    pub fn with_capacity(alloc: Global, objects: usize, known: usize) -> Result<Shapes, AllocError>
        ensures { IfOk result (λ s. s ≡ record { objects = []; layouts = replicate known None }) }
    {
        let kept = PackedShapes::with_capacity(alloc, objects)?;
        let mut numbers = Vec::with_capacity(alloc, known)?;
        numbers.resize(known, 0)?;
        Ok(Shapes {
            kept,
            classes: Vec::new(alloc),
            layouts: Vec::new(alloc),
            numbers,
        })
    }

    /// How many objects there are.
    pub fn len(&self) -> usize
        ensures { result ≡ length self.now.objects }
    {
        self.kept.len()
    }

    /// The shape of the object of a number.
    pub fn get(&self, o: u32) -> Shape<'_>
        requires { o < length self.now.objects }
        ensures { slice_get self.now.objects o ≡ Some (shape_view result) }
    {
        shape_of(
            self.kept.get(o as usize),
            self.classes.as_slice(),
            self.layouts.as_slice(),
        )
    }

    /// An object array of `bytes` bytes comes next.
    ///
    /// # Errors
    ///
    /// Out of memory, or 2^30 shapes that take eight bytes more are there already.
    #[inline(always)]
    pub fn push_object_array(&mut self, bytes: u32) -> Result<(), AllocError>
        ensures { OnOk result (self.new ≡ record self.old { objects = self.old.objects ++ ObjectArray bytes ∷ [] }) }
    {
        self.kept.push(PackedShape::ObjectArray { bytes })?;
        Ok(())
    }

    /// A primitive array of `bytes` bytes comes next, with elements of a type.
    ///
    /// # Errors
    ///
    /// Out of memory, or 2^30 shapes that take eight bytes more are there already.
    #[inline(always)]
    pub fn push_primitive_array(&mut self, element: u8, bytes: u32) -> Result<(), AllocError>
        ensures { OnOk result (self.new ≡ record self.old { objects = self.old.objects ++ PrimitiveArray element bytes ∷ [] }) }
    {
        self.kept
            .push(PackedShape::PrimitiveArray { element, bytes })?;
        Ok(())
    }

    /// How many bytes the values of instances of the class of a number have, if the shape of these instances was made.
    #[inline(always)]
    pub fn instance_bytes(&self, class: usize) -> Option<u32>
        requires { class < length self.now.layouts }
        ensures { result ≡ option_map shape_bytes (made_layout self.now.layouts class) }
    {
        match self.numbers[class] {
            0 => None,
            number => Some(self.layouts[number as usize - 1].bytes),
        }
    }

    /// An instance of the class of a number comes next, with the shape that was made for the class.
    ///
    /// # Errors
    ///
    /// Out of memory, or 2^30 shapes that take eight bytes more are there already.
    #[inline(always)]
    pub fn push_instance(&mut self, class: usize) -> Result<(), AllocError>
        requires { IsSome (made_layout self.old.layouts class) }
        ensures { OnOk result ((shape : ObjectShape) → made_layout self.old.layouts class ≡ Some shape → self.new ≡ record self.old { objects = self.old.objects ++ shape ∷ [] }) }
    {
        let index = self.numbers[class] - 1;
        self.kept.push(PackedShape::Instance { index })?;
        Ok(())
    }

    /// An instance comes next, with the shape of its class's instances, which is kept by the number of the class.
    ///
    /// # Errors
    ///
    /// Out of memory, or 2^30 shapes that take eight bytes more are there already.
    pub fn push_first_instance(
        &mut self,
        class: usize,
        shape: LayoutShape,
    ) -> Result<(), AllocError>
        requires within { class < length self.old.layouts }
        requires few { length self.old.objects < 2 ^ 32 - 1 }
        ensures { OnOk result (self.new ≡ record self.old {
          objects = self.old.objects ++ layout_view shape ∷ [];
          layouts = set self.old.layouts class (Some (layout_view shape));
        }) }
    {
        let index = self.layouts.len() as u32;
        self.layouts.reserve(1)?;
        self.kept.push(PackedShape::Instance { index })?;
        self.layouts.push_reserved(shape);
        self.numbers[class] = index + 1;
        Ok(())
    }

    /// A class object comes next.
    ///
    /// # Errors
    ///
    /// Out of memory, or 2^30 shapes that take eight bytes more are there already.
    pub fn push_class(&mut self, class: ClassShape) -> Result<(), AllocError>
        requires { length self.old.objects < 2 ^ 32 - 1 }
        ensures { OnOk result (self.new ≡ record self.old { objects = self.old.objects ++ class_shape_view class ∷ [] }) }
    {
        let index = self.classes.len() as u32;
        self.classes.reserve(1)?;
        self.kept.push(PackedShape::Class { index })?;
        self.classes.push_reserved(class);
        Ok(())
    }
}
