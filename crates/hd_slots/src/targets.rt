//! The objects that the slots of one object refer to.
ghost use Rattle.std.specs.Prelude.{◌≡◌, ◌<◌, ◌^◌, None, length, map};
ghost use Rattle.std.specs.List.{slice_index_or};
ghost use Rattle.hd_slots.specs.Codes.{object_of_code};

use std::marker::Model;

/// The objects that the slots of an object refer to, slot by slot: the number of each, or none where the slot is null or has an
/// ID that is no object's.
///
/// A pass over the slots of an object takes these once, so that where its row lies isn't looked up for each slot.
#[derive(Drop)]
pub struct Targets<'a> {
    /// A number for each slot: an object's where it is below the count of the objects.
    codes: &'a [u32],
    objects: usize,
}

impl<'a> Model for Targets<'a> {
    ghost use Rattle.std.specs.Prelude.{ℕ, ◌<◌, ◌^◌, List, Option, length, map};
    ghost use Rattle.hd_slots.specs.Codes.{object_of_code};

    ghost Value = { List (Option ℕ) };

    ghost view = { λ a. map (object_of_code a.objects) a.codes.now };

    ghost invariant = { λ a. length a.codes.now < 2 ^ 32 };
}

impl<'a> Targets<'a> {
    /// What these numbers stand for, where there are `objects` objects.
    pub(crate) fn new(codes: &'a [u32], objects: usize) -> Targets<'a>
        requires { length codes.now < 2 ^ 32 }
        ensures { result ≡ map (object_of_code objects) codes.now }
    {
        Targets { codes, objects }
    }

    /// How many slots there are.
    #[inline(always)]
    pub fn len(&self) -> u32
        ensures { result ≡ length self.now }
    {
        self.codes.len() as u32
    }

    /// The number of the object that the slot at an index refers to, if it refers to one.
    #[inline(always)]
    pub fn get(&self, index: u32) -> Option<u32>
        requires { index < length self.now }
        ensures { result ≡ slice_index_or self.now index None }
    {
        let code = self.codes[index as usize];
        if (code as usize) < self.objects {
            Some(code)
        } else {
            None
        }
    }
}
