//! The shapes of instances.
ghost use Rattle.std.specs.Prelude.{◌≡◌, ◌<◌, ◌-◌, ◌^◌, ℕ, ◌∷◌, [], ◌++◌, length, OnOk};
ghost use Rattle.hd_classes.specs.Fits.{length_by_number, IsFit};
ghost use Rattle.hd_classes.specs.Known.{known_at};
ghost use Rattle.hd_graph.specs.ArrayRows.{fitting, instance_entry};
ghost use Rattle.hd_graph.specs.Building.{AreLayouts, shape_by_number};

use crate::layouts::shape_of_class;
use hd_classes::{Fit, LayoutBytes};
use hd_shapes::Shapes;
use hd_terms::Span;
use std::alloc::{AllocError, Global};

/// Adds the shape of an instance of the class of a number, whose values have `bytes` bytes. The shape that the instances of a
/// class share is made with the first.
#[inline(always)]
fn push_shape(
    alloc: Global,
    shapes: &mut Shapes,
    layouts: &LayoutBytes<'_>,
    class: usize,
    bytes: u32,
) -> Result<(), AllocError>
    requires class { class < length layouts.now.classes.classes }
    requires bytes { bytes ≡ length_by_number layouts.now.size layouts.now.classes class }
    requires few { length shapes.old.objects < 2 ^ 32 - 1 }
    requires classes { AreLayouts layouts.now.size layouts.now.classes shapes.old.layouts }
    ensures added { OnOk result (shapes.new.objects ≡ shapes.old.objects ++ shape_by_number layouts.now.size layouts.now.classes class ∷ []) }
    ensures classes { OnOk result (AreLayouts layouts.now.size layouts.now.classes shapes.new.layouts) }
{
    if shapes.instance_bytes(class).is_none() {
        let shape = shape_of_class(alloc, layouts, class, bytes)?;
        shapes.push_first_instance(class, shape)?;
    } else {
        shapes.push_instance(class)?;
    }
    Ok(())
}

/// Adds the shape of an instance, by how its values fit the layout of its class. One by whose class its values can't be read is
/// like an object array.
#[inline(always)]
pub(crate) fn push_fitted_shape(
    alloc: Global,
    shapes: &mut Shapes,
    layouts: &LayoutBytes<'_>,
    fit: Fit,
    values: Span,
) -> Result<(), AllocError>
    requires fit { (class : ℕ) × IsFit layouts.now.size values.len layouts.now.classes class fit }
    requires small { values.len < 2 ^ 32 }
    requires few { length shapes.old.objects < 2 ^ 32 - 1 }
    requires classes { AreLayouts layouts.now.size layouts.now.classes shapes.old.layouts }
    ensures added { OnOk result ((id class : ℕ) → IsFit layouts.now.size values.len layouts.now.classes class fit → shapes.new.objects ≡ shapes.old.objects ++ (instance_entry [] layouts.now.size id class values (fitting layouts.now.size values.len (known_at layouts.now.classes class))).2 ∷ []) }
    ensures classes { OnOk result (AreLayouts layouts.now.size layouts.now.classes shapes.new.layouts) }
{
    let bytes = values.len as u32;
    match fit {
        Fit::Class(number) => push_shape(alloc, shapes, layouts, number, bytes)?,
        Fit::Unknown | Fit::Misfit => shapes.push_object_array(bytes)?,
    }
    Ok(())
}
