//! Whether the values of instances fit the layouts of their classes.
ghost use Rattle.std.specs.Prelude.{◌≡◌, ◌*◌, ◌<◌, ◌≤◌, ◌^◌, ℕ, length, map, None, Some, All, IfOk, IfSome, MatchOption};
ghost use Rattle.hd_terms.specs.Classes as classes_of;
ghost use Rattle.hd_terms.specs.Classes.{layout_len};
ghost use Rattle.hd_classes.specs.Fields.{field_view};
ghost use Rattle.hd_classes.specs.Fits.{length_by_number, IsFit};
ghost use Rattle.hd_classes.specs.Places.{places_by_number};

use crate::classes::Classes;
use crate::known::LayoutField;
use crate::layout::Layout;
use crate::places::{no_places, places_of_layout};
use hd_terms::{IdSize, value_len};
use std::alloc::{AllocError, Global};
use std::marker::Model;

/// How the values of an instance fit the layout of its class.
#[derive(Clone, Copy)]
pub enum Fit {
    /// The class isn't known.
    Unknown,
    /// The fields of the layout have other bytes in all.
    Misfit,
    /// They fit the layout of the class of this number.
    Class(usize),
}

/// How many bytes the values of the instances of classes have, and where among them references lie. The fields of a layout are
/// summed once, when the first instance that has enough bytes asks for it; so all that many instances ask takes no longer than
/// their values are long. The places of references are noted of those classes that are told to be.
pub struct LayoutBytes<'a> {
    alloc: Global,
    classes: &'a Classes,
    id_size: IdSize,
    /// Of each class 0 if its fields weren't summed, and else their bytes plus one.
    sums: Vec<u32>,
    /// Of each class the places of its references, if they were noted.
    places: Vec<Option<Vec<u32>>>,
}

impl Drop for LayoutBytes<'_> {
    /// Drops the fields. A derived drop would be proved anew at each place that lets go of one.
    fn drop(self) {
        let Self {
            alloc: _,
            classes: _,
            id_size: _,
            sums,
            places,
        } = self;
    }
}

impl<'a> Model for LayoutBytes<'a> {
    ghost use Rattle.hd_classes.specs.Fits.{SizedClasses};

    ghost Value = { SizedClasses };

    ghost use Rattle.hd_classes.specs.FitsInside.{sized_classes, AreKept};

    ghost view = { sized_classes };

    ghost invariant = { AreKept };
}

/// The bytes of the values of fields, unless they are more than this limit.
fn sum_fields(id_size: IdSize, fields: &[LayoutField], limit: u64) -> Option<u64>
    ensures bytes { MatchOption result (limit < layout_len id_size (map field_view fields.now)) (λ bytes. (bytes ≡ layout_len id_size (map field_view fields.now)) × (bytes ≤ limit)) }
    ensures few { IfSome result (λ bytes. bytes ≤ 8 * length fields.now) }
{
    let mut left = limit;
    for i in 0..fields.len() {
        left = left.checked_sub(u64::from(value_len(id_size, fields[i].code)))?;
    }
    Some(limit - left)
}

/// The bytes of the values of a layout, unless they are more than this limit.
fn sum_layout(id_size: IdSize, layout: Layout<'_>, limit: u64) -> Option<u64>
    ensures bytes { MatchOption result (limit < layout_len id_size layout.entry) (λ bytes. (bytes ≡ layout_len id_size layout.entry) × (bytes ≤ limit)) }
    ensures few { IfSome result (λ bytes. bytes ≤ 8 * length layout.entry) }
{
    let mut left = limit;
    let mut rest = layout;
    while let Some((own, above)) = rest.split_first_class() {
        left -= sum_fields(id_size, own, left)?;
        rest = above;
    }
    Some(limit - left)
}

impl<'a> LayoutBytes<'a> {
    /// Nothing was summed or noted yet of these classes, in a file whose identifiers have this size.
    pub fn new(
        alloc: Global,
        classes: &'a Classes,
        id_size: IdSize,
    ) -> Result<LayoutBytes<'a>, AllocError>
        requires { All (λ (p : ℕ × classes_of.ResolvedClass). length p.1.layout < 2 ^ 29) classes.now.classes }
        ensures { IfOk result (λ b. b ≡ record { classes = classes.now; size = id_size }) }
    {
        let sums = vec![in alloc; 0u32; classes.len()]?;
        let places = no_places(alloc, classes.len())?;
        Ok(LayoutBytes {
            alloc,
            classes,
            id_size,
            sums,
            places,
        })
    }

    /// The classes.
    pub fn classes(&self) -> &'a Classes
        ensures { result.now ≡ self.now.classes }
    {
        self.classes
    }

    /// The places of the references among the values of the class of a number, in bytes from the first value on, if they were
    /// noted.
    #[inline(always)]
    pub fn places(&self, class: usize) -> Option<&[u32]>
        ensures { IfSome result (λ places. places.now ≡ places_by_number self.now.size self.now.classes class) }
    {
        match self.places.get(class) {
            Some(Some(places)) => Some(places.as_slice()),
            _ => None,
        }
    }

    /// Notes the places of the references among the values of the class of a number.
    ///
    /// # Errors
    ///
    /// Out of memory.
    pub fn note_places(&mut self, class: usize) -> Result<(), AllocError>
        requires { class < length self.old.classes.classes }
        ensures { self.new ≡ self.old }
    {
        let layout = self.classes.get(class).layout;
        let places = places_of_layout(self.alloc, self.id_size, layout)?;
        self.places[class] = Some(places);
        Ok(())
    }

    /// The bytes of the values of the class of a number, unless they are more than this limit.
    #[inline(always)]
    fn bytes_of(&mut self, class: usize, limit: u64) -> Option<u64>
        requires { class < length self.old.classes.classes }
        ensures bytes { MatchOption result (limit < length_by_number self.old.size self.old.classes class) (λ bytes. bytes ≡ length_by_number self.old.size self.old.classes class) }
        ensures same { self.new ≡ self.old }
    {
        if self.sums[class] > 0 {
            return Some(u64::from(self.sums[class] - 1));
        }
        let bytes = sum_layout(self.id_size, self.classes.get(class).layout, limit)?;
        self.sums[class] = bytes as u32 + 1;
        Some(bytes)
    }

    /// How `len` bytes of values fit the layout of the class of an ID.
    #[inline(always)]
    pub fn fit(&mut self, class: u64, len: u64) -> Fit
        ensures fit { IsFit self.old.size len self.old.classes class result }
        ensures same { self.new ≡ self.old }
    {
        let Some(number) = self.classes.index_of(class) else {
            return Fit::Unknown;
        };
        match self.bytes_of(number, len) {
            Some(bytes) if bytes == len => Fit::Class(number),
            _ => Fit::Misfit,
        }
    }
}
