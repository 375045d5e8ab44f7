//! Where the texts of a file lie, by their IDs.
ghost use Rattle.std.specs.Prelude.{◌≡◌, ◌==◌, ◌++◌, ℕ, []};
ghost use Rattle.std.specs.Map.{lookup};

use hd_hashers::IdHasher;
use hd_terms::Span;
use indexmap::IndexMap;
use std::alloc::Global;
use std::marker::Model;

/// Where texts lie, by their IDs, in two maps, each made by a thread of its own. An ID is looked for in both.
pub(crate) struct TextsById {
    even: IndexMap<u64, Span, IdHasher>,
    odd: IndexMap<u64, Span, IdHasher>,
}

impl Drop for TextsById {
    /// Drops the fields. A derived drop would be proved anew at each place that lets go of one.
    fn drop(self) {
        let Self { even, odd } = self;
    }
}

impl Model for TextsById {
    ghost use Rattle.std.specs.Prelude.{ℕ, List, ◌++◌};
    ghost use Rattle.hd_terms.specs.declared.Span.{Span};

    ghost Value = { List (ℕ × Span) };

    ghost view = { λ t. t.even.entries ++ t.odd.entries };
}

impl TextsById {
    /// The texts of both maps.
    pub(crate) fn new(
        even: IndexMap<u64, Span, IdHasher>,
        odd: IndexMap<u64, Span, IdHasher>,
    ) -> TextsById
        ensures { result ≡ even.entries ++ odd.entries }
    {
        TextsById { even, odd }
    }

    /// No texts.
    pub(crate) fn none(alloc: Global, hasher: IdHasher) -> TextsById
        ensures { result ≡ [] }
    {
        TextsById {
            even: IndexMap::with_hasher(alloc, hasher),
            odd: IndexMap::with_hasher(alloc, hasher),
        }
    }

    /// Where the text of an ID lies, if there is one.
    pub(crate) fn get(&self, id: u64) -> Option<Span>
        ensures { result ≡ lookup (λ (x : ℕ). id == x) self.now }
    {
        match self.even.get(&id) {
            Some(text) => Some(*text),
            None => match self.odd.get(&id) {
                Some(text) => Some(*text),
                None => None,
            },
        }
    }
}
