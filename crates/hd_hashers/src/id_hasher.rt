//! Hashing the IDs of objects.
ghost use Rattle.std.specs.Prelude.{◌≡◌};
ghost use Rattle.hd_hashers.specs.IdHash as id_hash;

use crate::scatter::scattered;
use std::hash::{BuildHasher, Hasher};

/// Hashes IDs by a secret number, so that those of neighbours lie near one another in the table.
///
/// An ID is an address, and objects that stand near one another refer to one another. All objects of 128 bytes of
/// the heap begin their search at one place, and the places of such blocks are scattered
/// by the secret, so that who makes a dump can't foresee which blocks meet.
#[derive(Clone, Copy)]
pub struct IdHasher {
    secret: u64,
    state: u64,
}

impl IdHasher {
    /// The secret is made odd.
    pub fn new(secret: u64) -> IdHasher {
        IdHasher {
            secret: secret | 1,
            state: 0,
        }
    }
}

/// The hash of an ID, below 2^32: the scattered number of its block in the lower 28 bits, and above these the place in the
/// block. So the map looks for all objects of a block at one place, and tells them apart by the upper bits.
fn mixed(id: u64, secret: u64) -> u64
    ensures { result ≡ id_hash.mixed secret id }
{
    (scattered(id >> 7, secret) >> 36) ^ ((id & 0x78) << 25)
}

impl Hasher for IdHasher {
    ghost write = { id_hash.write };

    ghost finish = { id_hash.finish };

    fn finish(&self) -> u64 {
        self.state
    }

    fn write(&mut self, bytes: &[u8]) {
        match bytes {
            [a, b, c, d, e, f, g, h] => {
                let id = u64::from_le_bytes([*a, *b, *c, *d, *e, *f, *g, *h]);
                self.state = mixed(id, self.secret);
            }
            _ => {}
        }
    }
}

impl BuildHasher for IdHasher {
    type Hasher = IdHasher;

    ghost build_hasher = { λ s. s };

    fn build_hasher(&self) -> IdHasher {
        *self
    }
}
