//! Where references lie among the values of instances.
ghost use Rattle.std.specs.Prelude.{◌≡◌, ◌+◌, ◌<◌, ◌^◌, ◌++◌, length, map, replicate, None, IfOk, OnOk};
ghost use Rattle.hd_terms.specs.Classes.{layout_len};
ghost use Rattle.hd_classes.specs.Fields.{field_view};
ghost use Rattle.hd_classes.specs.Places.{reference_places};

use crate::known::LayoutField;
use crate::layout::Layout;
use hd_terms::{IdSize, is_id_type, value_len};
use std::alloc::{AllocError, Global};

/// Of each of `classes` classes that no places were noted.
pub(crate) fn no_places(alloc: Global, classes: usize) -> Result<Vec<Option<Vec<u32>>>, AllocError>
    ensures { IfOk result (λ places. places.items ≡ replicate classes None) }
{
    let mut places = Vec::with_capacity(alloc, classes)?;
    for _ in 0..classes {
        places.push(None)?;
    }
    Ok(places)
}

/// Adds the places of the references among the values of fields, the first of which lies at a place. Answers the place behind the
/// last.
fn push_places(
    places: &mut Vec<u32>,
    id_size: IdSize,
    start: u64,
    fields: &[LayoutField],
) -> Result<u64, AllocError>
    requires { start + layout_len id_size (map field_view fields.now) < 2 ^ 32 }
    ensures added { OnOk result (places.new.items ≡ places.old.items ++ reference_places id_size start (map field_view fields.now)) }
    ensures end { IfOk result (λ end. end ≡ start + layout_len id_size (map field_view fields.now)) }
{
    let mut at = start;
    for i in 0..fields.len() {
        let code = fields[i].code;
        if is_id_type(code) {
            places.push(at as u32)?;
        }
        at += u64::from(value_len(id_size, code));
    }
    Ok(at)
}

/// The places of the references among the values of a layout, in bytes from the first value on.
pub(crate) fn places_of_layout(
    alloc: Global,
    id_size: IdSize,
    layout: Layout<'_>,
) -> Result<Vec<u32>, AllocError>
    requires { length layout < 2 ^ 29 }
    ensures { IfOk result (λ places. places.items ≡ reference_places id_size 0 layout.entry) }
{
    let mut places = Vec::new(alloc);
    let mut at = 0;
    let mut rest = layout;
    while let Some((own, above)) = rest.split_first_class() {
        at = push_places(&mut places, id_size, at, own)?;
        rest = above;
    }
    Ok(places)
}
