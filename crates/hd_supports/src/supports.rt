//! Strengths, supports and stamps of which there are versions.
ghost use Rattle.std.specs.Prelude.{◌≡◌, ◌≢◌, ℕ, ◌+◌, ◌^◌, ◌<◌, List, ◌++◌, length, flat_map, slice_set, IfOk, OnOk, OnErr};
ghost use Rattle.hd_terms.specs.Settled.{Reached, reached_at};

use crate::packed_reached::PackedReached;
use crate::strengths::Strengths;
use hd_pages::Pages;
use hd_terms::{NoMemory, Strength, Support};
use std::alloc::Global;
use std::marker::Model;
use std::thread::{Threads, map_vec};

/// The strengths, supports and stamps of objects, in pages that versions share. No version changes another.
#[derive(Drop)]
pub struct Supports {
    kept: Pages<PackedReached>,
}

impl Model for Supports {
    ghost use Rattle.std.specs.Prelude.{List};
    ghost use Rattle.hd_terms.specs.Settled.{Reached};

    ghost Value = { List Reached };

    ghost view = { λ s. s.kept };
}

impl Supports {
    /// What a search left, in pages.
    ///
    /// # Errors
    ///
    /// Memory ran out.
    pub fn of(alloc: Global, strengths: Strengths) -> Result<Supports, NoMemory>
        ensures { IfOk result (λ s. s ≡ strengths) }
    {
        let kept = Pages::of_vec(alloc, strengths.into_kept())?;
        Ok(Supports { kept })
    }

    /// The lists of parts, one behind the other. Each is put into pages by a thread of its own; where the system refuses a
    /// thread, one after the other. Then pages are moved. Only where the objects so far are no multiple of
    /// 262,144 are some copied: those behind the last multiple, and those of the next part.
    ///
    /// # Errors
    ///
    /// Memory ran out.
    pub fn of_parts<R: Threads + Sync>(
        rt: &R,
        alloc: Global,
        parts: Vec<Strengths>,
    ) -> Result<Supports, NoMemory>
        requires few { length (flat_map (λ (part : List Reached). part) parts.items) < 2 ^ 32 }
        ensures { IfOk result (λ s. s ≡ flat_map (λ (part : List Reached). part) parts.items) }
    {
        let lists = map_vec(
            rt,
            parts,
            &|part: Strengths| -> Result<Supports, NoMemory>
                ensures { IfOk result (λ s. s ≡ part) }
            { Supports::of(alloc, part) },
        )?;
        let mut all = Supports::of(alloc, Strengths::of(Vec::new(alloc)))?;
        for list in lists {
            all = all.append(alloc, list?)?;
        }
        Ok(all)
    }

    /// These objects, and others behind them.
    fn append(self, alloc: Global, others: Supports) -> Result<Supports, NoMemory>
        requires { length self + length others < 2 ^ 32 }
        ensures { IfOk result (λ s. s ≡ self ++ others) }
    {
        let Supports { kept } = self;
        let Supports { kept: more } = others;
        let kept = kept.append(alloc, more)?;
        Ok(Supports { kept })
    }

    /// An equal version.
    ///
    /// # Errors
    ///
    /// Memory ran out.
    pub fn share(&self, alloc: Global) -> Result<Supports, NoMemory>
        ensures { IfOk result (λ s. s ≡ self.now) }
    {
        let kept = self.kept.share(alloc)?;
        Ok(Supports { kept })
    }

    /// How many objects there are.
    pub fn len(&self) -> u32
        ensures { result ≡ length self.now }
    {
        self.kept.len()
    }

    /// There are fewer than 2^32 objects.
    pub fn are_few(&self)
        ensures { length self.now < 2 ^ 32 }
    {
        let _ = self.len();
    }

    /// How well an object can be reached.
    pub fn strength(&self, o: u32) -> Strength
        requires { o < length self.now }
        ensures { result ≡ (reached_at self.now o).strength }
    {
        self.kept.get(o).strength()
    }

    /// What an object owes its strength to.
    pub fn support(&self, o: u32) -> Support
        requires { o < length self.now }
        ensures { result ≡ (reached_at self.now o).support }
    {
        self.kept.get(o).support()
    }

    /// The number that orders objects of one strength: that of a source is less.
    pub fn stamp(&self, o: u32) -> u64
        requires { o < length self.now }
        ensures stamp { result ≡ (reached_at self.now o).stamp }
        ensures small { result < 2 ^ 48 }
    {
        self.kept.get(o).stamp()
    }

    /// Gives an object a strength, what it owes it to, and a stamp. What another version shares is copied first.
    ///
    /// # Errors
    ///
    /// Memory ran out. Nothing has changed.
    pub fn put(
        &mut self,
        o: u32,
        strength: Strength,
        support: Support,
        stamp: u64,
    ) -> Result<(), NoMemory>
        requires object { o < length self.old }
        requires room { stamp < 2 ^ 48 }
        ensures count { length self.new ≡ length self.old }
        ensures whole { OnOk result (self.new ≡ slice_set self.old o (record { strength = strength; support = support; stamp = stamp })) }
        ensures here { OnOk result (reached_at self.new o ≡ record { strength = strength; support = support; stamp = stamp }) }
        ensures others { OnOk result ((x : ℕ) → x ≢ o → reached_at self.new x ≡ reached_at self.old x) }
        ensures err { OnErr result (self.new ≡ self.old) }
    {
        self.kept
            .with(o, PackedReached::new(strength, support, stamp))
    }
}
