//! Buffers whose memory is taken when they are made.
ghost use Rattle.std.specs.Prelude.{◌≡◌, ◌+◌, ◌≤◌, [], ◌++◌, length, IfOk};

use std::alloc::{AllocError, Global};
use std::marker::Model;

/// Up to `SIZE` bytes, for which there is room from the first.
#[derive(Drop)]
pub struct FixedBuffer<const SIZE: usize> {
    bytes: Vec<u8>,
}

impl<const SIZE: usize> Model for FixedBuffer<SIZE> {
    ghost use Rattle.std.specs.Prelude.{ℕ, ◌≤◌, List, length, vec_capacity};

    ghost Value = { List ℕ };

    ghost view = { λ r. r.bytes.items };

    ghost invariant = { λ r. (length r.bytes.items ≤ SIZE) × (SIZE ≤ vec_capacity r.bytes) };
}

impl<const SIZE: usize> FixedBuffer<SIZE> {
    /// No bytes yet.
    pub fn new(alloc: Global) -> Result<FixedBuffer<SIZE>, AllocError>
        ensures { IfOk result (λ r. r ≡ []) }
    {
        let bytes = Vec::with_capacity(alloc, SIZE)?;
        Ok(FixedBuffer { bytes })
    }

    /// The bytes.
    pub fn as_slice(&self) -> &[u8]
        ensures bytes { result.now ≡ self.now }
        ensures most { length self.now ≤ SIZE }
    {
        self.bytes.as_slice()
    }

    /// Takes all bytes out.
    pub fn clear(&mut self)
        ensures { self.new ≡ [] }
    {
        self.bytes.clear();
    }

    /// Puts a text behind the bytes.
    pub fn put(&mut self, text: &[u8])
        requires { length self.old + length text.now ≤ SIZE }
        ensures bytes { self.new ≡ self.old ++ text.now }
        ensures len { length self.new ≡ length self.old + length text.now }
    {
        self.bytes.extend_from_slice(text).unwrap();
    }
}
