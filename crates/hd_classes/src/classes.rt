//! Looking classes up by ID or number.
ghost use Rattle.std.specs.Prelude.{◌≡◌, ◌<◌, ◌↔◌, [], length, map, None, Some, MatchOption, IsTrue};
ghost use Rattle.hd_classes.specs.Known.{name_at, number_of, known_by_number, chain_at, layout_at, referent_at, kind_at, known_view};
ghost use Rattle.hd_classes.specs.Links.{IsLinked, views};

use crate::chain::Chain;
use crate::guesses::Guesses;
use crate::known::ResolvedClass;
use crate::layout::Layout;
use crate::linked::{LinkedClass, first_declaring};
use crate::repeats::RepeatedRecords;
use crate::texts::TextsById;
use hd_hashers::IdHasher;
use hd_terms::{EdgeKind, Span};
use indexmap::IndexMap;
use std::alloc::Global;
use std::marker::Model;

/// The names of classes, the classes whose chains are whole, numbered from 0, and how many records are repeated.
pub struct Classes {
    /// Where the first text of each ID lies.
    texts: TextsById,
    /// The ID of the text that is a class's name, by the class's ID.
    names: IndexMap<u64, u64, IdHasher>,
    known: IndexMap<u64, LinkedClass, IdHasher>,
    guesses: Guesses,
    /// How many texts and loaded classes have the ID of an earlier one.
    repeated: RepeatedRecords,
}

impl Drop for Classes {
    /// Drops the fields. A derived drop would be proved anew at each place that lets go of one.
    fn drop(self) {
        let Self {
            texts,
            names,
            known,
            guesses,
            repeated: _,
        } = self;
    }
}

impl Model for Classes {
    ghost use Rattle.hd_classes.specs.Known.{Known};

    ghost Value = { Known };

    ghost use Rattle.hd_classes.specs.Inside.{known_of, AreLinked};

    ghost view = { known_of };

    ghost invariant = { AreLinked };
}

impl Classes {
    /// Classes of which this is known.
    pub(crate) fn new(
        texts: TextsById,
        names: IndexMap<u64, u64, IdHasher>,
        known: IndexMap<u64, LinkedClass, IdHasher>,
        guesses: Guesses,
        repeated: RepeatedRecords,
    ) -> Classes
        requires { IsLinked known.entries }
        ensures { result ≡ record { texts = texts; names = names.entries; classes = views known.entries; repeated = repeated } }
    {
        Classes {
            texts,
            names,
            known,
            guesses,
            repeated,
        }
    }

    /// The same classes without any name. That gives up what is kept of the texts of a file.
    pub fn without_names(self, alloc: Global) -> Classes
        ensures { result ≡ record self { texts = []; names = [] } }
    {
        let Self {
            texts,
            names,
            known,
            guesses,
            repeated,
        } = self;
        drop(texts);
        drop(names);
        let hasher = *known.hasher();
        Classes {
            texts: TextsById::none(alloc, hasher),
            names: IndexMap::with_hasher(alloc, hasher),
            known,
            guesses,
            repeated,
        }
    }

    /// How many texts and loaded classes have the ID of an earlier one.
    pub fn repeated(&self) -> RepeatedRecords
        ensures { result ≡ self.now.repeated }
    {
        self.repeated
    }

    /// How many classes have a whole chain.
    pub fn len(&self) -> usize
        ensures { result ≡ length self.now.classes }
    {
        self.known.len()
    }

    /// Whether there is none.
    pub fn is_empty(&self) -> bool
        ensures { IsTrue result ↔ (self.now.classes ≡ []) }
    {
        self.known.is_empty()
    }

    /// The number of the class of an ID, if its chain is whole.
    #[inline(always)]
    pub fn index_of(&self, id: u64) -> Option<usize>
        ensures { result ≡ number_of self.now id }
    {
        let guess = self.guesses.number(id);
        let known = self.known.as_slice();
        if let Some((guessed, _)) = known.get_index(guess)
            && *guessed == id
        {
            return Some(guess);
        }
        self.known.get_index_of(&id)
    }

    /// What is known of the class of a number.
    pub fn get(&self, i: usize) -> ResolvedClass<'_>
        requires { i < length self.now.classes }
        ensures { known_by_number self.now i ≡ Some (known_view result) }
    {
        let class = &self.known[i];
        ResolvedClass {
            chain: Chain::new(&self.known, Some(i)),
            layout: Layout::new(&self.known, first_declaring(i, class)),
            referent: class.referent,
            kind: class.kind,
        }
    }

    /// The IDs of a class's chain, its own first, if the chain is whole.
    pub fn chain(&self, id: u64) -> Option<Chain<'_>>
        ensures { MatchOption result (chain_at self.now id ≡ None) (λ chain. chain_at self.now id ≡ Some chain) }
    {
        match self.known.get_index_of(&id) {
            Some(i) => Some(Chain::new(&self.known, Some(i))),
            None => None,
        }
    }

    /// The instance fields of a class's chain, its own first, if the chain is whole.
    pub fn layout(&self, id: u64) -> Option<Layout<'_>>
        ensures { MatchOption result (layout_at self.now id ≡ None) (λ layout. layout_at self.now id ≡ Some layout) }
    {
        match self.known.get_full(&id) {
            Some((i, _, class)) => Some(Layout::new(&self.known, first_declaring(i, class))),
            None => None,
        }
    }

    /// The number of the referent field in a class's layout, if it has one.
    pub fn referent(&self, id: u64) -> Option<u32>
        ensures { result ≡ referent_at self.now id }
    {
        match self.known.get(&id) {
            Some(class) => class.referent,
            None => None,
        }
    }

    /// The kind of the reference in a class's referent field: that of the first class of its chain that is one of the four,
    /// strong where none is.
    pub fn kind_of(&self, id: u64) -> EdgeKind
        ensures { result ≡ kind_at self.now id }
    {
        match self.known.get(&id) {
            Some(class) => class.kind,
            None => EdgeKind::Strong,
        }
    }

    /// Where the name of the class of an ID lies in the file, if it has one.
    pub fn name(&self, id: u64) -> Option<Span>
        ensures { result ≡ name_at self.now id }
    {
        let name = self.names.get(&id)?;
        self.texts.get(*name)
    }
}
