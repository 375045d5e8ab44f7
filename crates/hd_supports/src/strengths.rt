//! Strengths, supports and stamps as a search leaves them.
ghost use Rattle.std.specs.Prelude.{◌≡◌, ◌^◌, ◌<◌, length};
ghost use Rattle.hd_terms.specs.Settled.{reached_at};

use crate::packed_reached::PackedReached;
use hd_terms::{Strength, Support};
use std::marker::Model;

/// What is kept of each object: its strength, what it owes it to, and its stamp.
#[derive(Drop)]
pub struct Strengths {
    kept: Vec<PackedReached>,
}

impl Model for Strengths {
    ghost use Rattle.std.specs.Prelude.{List, length, ◌^◌, ◌<◌};
    ghost use Rattle.hd_terms.specs.Settled.{Reached};

    ghost Value = { List Reached };

    ghost view = { λ s. s.kept.items };

    ghost invariant = { λ s. length s.kept.items < 2 ^ 32 };
}

impl Strengths {
    /// What is kept of each object, in order.
    pub fn of(kept: Vec<PackedReached>) -> Strengths
        requires { length kept.items < 2 ^ 32 }
        ensures { result ≡ kept.items }
    {
        Strengths { kept }
    }

    /// What is kept of each object, in order.
    pub(crate) fn into_kept(self) -> Vec<PackedReached>
        ensures kept { result.items ≡ self }
        ensures fits { length result.items < 2 ^ 32 }
    {
        let Strengths { kept } = self;
        kept
    }

    /// How many objects there are.
    pub fn len(&self) -> u32
        ensures { result ≡ length self.now }
    {
        self.kept.len() as u32
    }

    /// How well an object can be reached.
    pub fn strength(&self, o: u32) -> Strength
        requires { o < length self.now }
        ensures { result ≡ (reached_at self.now o).strength }
    {
        self.kept[o as usize].strength()
    }

    /// What an object owes its strength to.
    pub fn support(&self, o: u32) -> Support
        requires { o < length self.now }
        ensures { result ≡ (reached_at self.now o).support }
    {
        self.kept[o as usize].support()
    }

    /// The number that orders objects of one strength: that of a source is less.
    pub fn stamp(&self, o: u32) -> u64
        requires { o < length self.now }
        ensures stamp { result ≡ (reached_at self.now o).stamp }
        ensures small { result < 2 ^ 48 }
    {
        self.kept[o as usize].stamp()
    }
}
