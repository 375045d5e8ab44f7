//! A list of shapes.
ghost use Rattle.std.specs.Prelude.{◌≡◌, ◌∷◌, ◌++◌, ◌<◌, ◌*◌, ◌^◌, [], length, slice_get, Some, IfOk, IfErr, IfSome, OnOk};
ghost use Rattle.hd_shapes.specs.Codes.{IsCodeOf, shape_in_code};

use crate::packed_shape::PackedShape;
use std::alloc::{AllocError, Global};
use std::marker::Model;

/// The first code of object arrays, behind which their bytes are counted. A lesser code is an instance's: the index of its layout.
const OBJECT_ARRAYS: u32 = 1 << 30;

/// The first code of primitive arrays.
const PRIMITIVE_ARRAYS: u32 = 2 << 30;

/// How many codes the primitive arrays of each type of elements have: one for each number of bytes.
const BYTES: u32 = 1 << 26;

/// The first code of shapes that have none of their own: behind it they are counted.
const OTHERS: u32 = 3 << 30;

/// Shapes in the order in which they were added, each by a code of four bytes.
///
/// Instances and arrays have a code of their own, unless there are 2^30 layouts, or an object array has 2^30 bytes, or a
/// primitive array 2^26. Any other shape, such as that of a class, is kept in a further list.
pub(crate) struct PackedShapes {
    codes: Vec<u32>,
    others: Vec<PackedShape>,
}

impl Drop for PackedShapes {
    /// Drops the fields. A derived drop would be proved anew at each place that lets go of one.
    fn drop(self) {
        let Self { codes, others } = self;
    }
}

impl Model for PackedShapes {
    ghost use Rattle.std.specs.Prelude.{List, map};
    ghost use Rattle.hd_shapes.specs.declared.packed_shape.PackedShape as declared;
    ghost use Rattle.hd_shapes.specs.Codes.{shape_of_code, AreCodes};

    ghost Value = { List declared.PackedShape };

    ghost view = { λ s. map (shape_of_code s.others.items) s.codes.items };

    ghost invariant = { λ s. AreCodes s.codes.items s.others.items };
}

/// The shape of a code that is its own.
#[inline(always)]
fn shape_in(code: u32) -> PackedShape
    requires { code < 3 * 2 ^ 30 }
    ensures { result ≡ shape_in_code code }
{
    if code < OBJECT_ARRAYS {
        return PackedShape::Instance { index: code };
    }
    if code < PRIMITIVE_ARRAYS {
        let bytes = code - OBJECT_ARRAYS;
        return PackedShape::ObjectArray { bytes };
    }
    let rest = code - PRIMITIVE_ARRAYS;
    PackedShape::PrimitiveArray {
        element: (rest / BYTES) as u8,
        bytes: rest % BYTES,
    }
}

/// The code of a shape, if it has one of its own.
#[inline(always)]
fn code_of(shape: PackedShape) -> Option<u32>
    ensures { IfSome result (λ code. IsCodeOf code shape) }
{
    match shape {
        PackedShape::Instance { index } if index < OBJECT_ARRAYS => Some(index),
        PackedShape::ObjectArray { bytes } if bytes < OBJECT_ARRAYS => Some(OBJECT_ARRAYS + bytes),
        PackedShape::PrimitiveArray { element, bytes } if element < 16 && bytes < BYTES => {
            Some(PRIMITIVE_ARRAYS + u32::from(element) * BYTES + bytes)
        }
        _ => None,
    }
}

impl PackedShapes {
    /// No shapes yet, with room for `room` of them.
    ///
    /// # Errors
    ///
    /// Out of memory.
    pub(crate) fn with_capacity(alloc: Global, room: usize) -> Result<PackedShapes, AllocError>
        ensures { IfOk result (λ s. s ≡ []) }
    {
        Ok(PackedShapes {
            codes: Vec::with_capacity(alloc, room)?,
            others: Vec::new(alloc),
        })
    }

    /// How many there are.
    pub(crate) fn len(&self) -> usize
        ensures { result ≡ length self.now }
    {
        self.codes.len()
    }

    /// The shape at an index.
    #[inline(always)]
    pub(crate) fn get(&self, i: usize) -> PackedShape
        requires { i < length self.now }
        ensures { slice_get self.now i ≡ Some result }
    {
        let code = self.codes[i];
        if code < OTHERS {
            shape_in(code)
        } else {
            self.others[(code - OTHERS) as usize]
        }
    }

    /// Adds a shape that has no code of its own, or, where that can't be had, nothing.
    fn push_other(&mut self, shape: PackedShape) -> Result<(), AllocError>
        ensures added { OnOk result (self.new ≡ self.old ++ shape ∷ []) }
        ensures same { IfErr result (λ e. self.new ≡ self.old) }
    {
        let index = self.others.len();
        if index >= OBJECT_ARRAYS as usize {
            return Err(AllocError);
        }
        self.others.reserve(1)?;
        self.codes.push(OTHERS + index as u32)?;
        self.others.push_reserved(shape);
        Ok(())
    }

    /// Adds a shape.
    ///
    /// # Errors
    ///
    /// Out of memory, or more than 2^30 shapes that have no code of their own. Then nothing is added.
    #[inline(always)]
    pub(crate) fn push(&mut self, shape: PackedShape) -> Result<(), AllocError>
        ensures added { OnOk result (self.new ≡ self.old ++ shape ∷ []) }
        ensures same { IfErr result (λ e. self.new ≡ self.old) }
    {
        match code_of(shape) {
            Some(code) => {
                // Where there is room, this call would take longer than the rest.
                if self.codes.len() == self.codes.capacity() {
                    self.codes.reserve(1)?;
                }
                self.codes.push_reserved(code);
            }
            None => self.push_other(shape)?,
        }
        Ok(())
    }
}
