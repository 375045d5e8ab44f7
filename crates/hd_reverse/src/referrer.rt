//! `Referrer`: a slot by its place, the object that has it and its index there.

/// Where an object is referred to: the number of the object that has the slot, and the index of the slot.
#[derive(Clone, Copy)]
pub struct Referrer {
    pub source: u32,
    pub index: u32,
}
