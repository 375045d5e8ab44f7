//! Hashing the pages of IDs.
ghost use Rattle.std.specs.Prelude.{◌≡◌};
ghost use Rattle.hd_hashers.specs.PageHash as page_hash;

use crate::scatter::scattered;
use std::hash::{BuildHasher, Hasher};

/// Hashes pages by a secret number, so that who makes a dump can't foresee which pages meet in the table.
#[derive(Clone, Copy)]
pub struct PageHasher {
    secret: u64,
    state: u64,
}

impl PageHasher {
    /// The secret is made odd.
    pub fn new(secret: u64) -> PageHasher {
        PageHasher {
            secret: secret | 1,
            state: 0,
        }
    }
}

impl Hasher for PageHasher {
    ghost write = { page_hash.write };

    ghost finish = { page_hash.finish };

    fn finish(&self) -> u64 {
        self.state
    }

    fn write(&mut self, bytes: &[u8]) {
        match bytes {
            [a, b, c, d, e, f, g, h] => {
                let page = u64::from_le_bytes([*a, *b, *c, *d, *e, *f, *g, *h]);
                self.state = scattered(page, self.secret) >> 32;
            }
            _ => {}
        }
    }
}

impl BuildHasher for PageHasher {
    type Hasher = PageHasher;

    ghost build_hasher = { λ s. s };

    fn build_hasher(&self) -> PageHasher {
        *self
    }
}
