//! What all instances of a class share: their size and the names of their slots.
ghost use Rattle.std.specs.Prelude.{◌≡◌, ◌+◌, ◌<◌, ◌^◌, ◌++◌, ℕ, length, map, All, IfOk, OnOk};
ghost use Rattle.hd_terms.specs.Classes as classes_of;
ghost use Rattle.hd_classes.specs.Fits.{length_by_number};
ghost use Rattle.hd_classes.specs.Known.{field_view};
ghost use Rattle.hd_graph.specs.ArrayRows.{field_names, layout_names};
ghost use Rattle.hd_shapes.specs.PackedShapes.{layout_view};
ghost use Rattle.hd_graph.specs.Building.{shape_by_number};

use hd_classes::{Layout, LayoutBytes, LayoutField};
use hd_shapes::LayoutShape;
use hd_terms::{Slot, is_id_type};
use std::alloc::{AllocError, Global};

/// Adds the names of those fields of one class that are references. Its first field has this number.
fn push_names(names: &mut Vec<Slot>, first: u32, fields: &[LayoutField]) -> Result<(), AllocError>
    requires { first + length fields.now < 2 ^ 32 }
    ensures { OnOk result (names.new.items ≡ names.old.items ++ field_names first (map field_view fields.now)) }
{
    for i in 0..fields.len() {
        if is_id_type(fields[i].code) {
            names.push(Slot::Field(first + i as u32))?;
        }
    }
    Ok(())
}

/// The names of the slots of instances of a layout: their fields that are references, then their class.
fn names_of_layout(alloc: Global, layout: Layout<'_>) -> Result<Vec<Slot>, AllocError>
    requires { length layout < 2 ^ 29 }
    ensures { IfOk result (λ names. names.items ≡ layout_names layout.entry) }
{
    let mut names = Vec::new(alloc);
    let mut first = 0;
    let mut rest = layout;
    while let Some((own, above)) = rest.split_first_class() {
        push_names(&mut names, first, own)?;
        first += own.len() as u32;
        rest = above;
    }
    names.push(Slot::OfClass)?;
    Ok(names)
}

/// The shape of the instances of the class of a number, whose values have `bytes` bytes.
pub(crate) fn shape_of_class(
    alloc: Global,
    layouts: &LayoutBytes<'_>,
    class: usize,
    bytes: u32,
) -> Result<LayoutShape, AllocError>
    requires class { class < length layouts.now.classes.classes }
    requires bytes { bytes ≡ length_by_number layouts.now.size layouts.now.classes class }
    requires short { All (λ (p : ℕ × classes_of.ResolvedClass). length p.1.layout < 2 ^ 29) layouts.now.classes.classes }
    ensures { IfOk result (λ shape. layout_view shape ≡ shape_by_number layouts.now.size layouts.now.classes class) }
{
    let classes = layouts.classes();
    let names = names_of_layout(alloc, classes.get(class).layout)?;
    let known = classes.get(class);
    let kind = known.kind;
    let referent = match known.referent {
        Some(field) => Some(Slot::Field(field)),
        None => None,
    };
    Ok(LayoutShape {
        bytes,
        names,
        referent,
        kind,
    })
}
