//! Guesses at the numbers of classes, by their IDs.
use crate::linked::LinkedClass;
use hd_hashers::IdHasher;
use indexmap::IndexMap;
use std::alloc::{AllocError, Global};

/// How many places there are.
const PLACES: usize = 16_384;

/// Guesses at the numbers of classes. The instances of a dump ask for few classes many times; a guess is mostly right, and
/// whoever asks for it sees whether it is, so no answer depends on it. Of classes whose IDs have one place the last one's
/// number is kept.
#[derive(Drop)]
pub(crate) struct Guesses {
    numbers: Vec<u32>,
}

/// The place of an ID. IDs are mostly multiples of 8.
fn place_of(id: u64) -> usize {
    (id / 8 % PLACES as u64) as usize
}

/// Keeps the number of the class of an ID.
fn keep(numbers: &mut Vec<u32>, id: u64, number: u32) {
    if let Some(kept) = numbers.get_mut(place_of(id)) {
        *kept = number;
    }
}

impl Guesses {
    /// Guesses at the numbers of these classes.
    pub(crate) fn at(
        alloc: Global,
        classes: &IndexMap<u64, LinkedClass, IdHasher>,
    ) -> Result<Guesses, AllocError> {
        let mut numbers = vec![in alloc; 0u32; PLACES]?;
        let count = u32::try_from(classes.len()).unwrap_or(u32::MAX);
        for number in 0..count {
            if let Some((id, _)) = classes.get_index(number as usize) {
                keep(&mut numbers, *id, number);
            }
        }
        Ok(Guesses { numbers })
    }

    /// A number that the class of an ID may have.
    pub(crate) fn number(&self, id: u64) -> usize {
        match self.numbers.get(place_of(id)) {
            Some(number) => *number as usize,
            None => 0,
        }
    }
}
