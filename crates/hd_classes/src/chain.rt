//! The chain of a class, read class by class.
ghost use Rattle.std.specs.Prelude.{◌≡◌, ◌∷◌, [], MatchOption};
ghost use Rattle.hd_classes.specs.Links.{IsLinked, numbered, views};

use crate::linked::LinkedClass;
use hd_hashers::IdHasher;
use indexmap::IndexMap;
use std::marker::Model;

/// The IDs of the classes of a chain: a class's own, its super class's, and so on.
#[derive(Drop)]
pub struct Chain<'a> {
    classes: &'a IndexMap<u64, LinkedClass, IdHasher>,
    /// The number of the first class.
    number: Option<usize>,
}

impl<'a> Model for Chain<'a> {
    ghost use Rattle.std.specs.Prelude.{ℕ, List};

    ghost Value = { List ℕ };

    ghost use Rattle.hd_classes.specs.LinksInside.{ids_of, IsChainKept};

    ghost view = { ids_of };

    ghost invariant = { IsChainKept };
}

impl<'a> Chain<'a> {
    /// The chain of the class of a number, empty where there is no number.
    pub(crate) fn new(
        classes: &'a IndexMap<u64, LinkedClass, IdHasher>,
        number: Option<usize>,
    ) -> Chain<'a>
        requires { IsLinked classes.now.entries }
        ensures { result ≡ (numbered (views classes.now.entries) number).chain }
    {
        Chain { classes, number }
    }

    /// The first ID and the chain of the super class, or nothing where the chain is at its end.
    pub fn split_first(self) -> Option<(u64, Chain<'a>)>
        ensures { MatchOption result (self.entry ≡ []) (λ r. self.entry ≡ r.0 ∷ r.1) }
    {
        match self.number {
            Some(number) => match self.classes.get_index(number) {
                Some((id, class)) => Some((*id, Chain::new(self.classes, class.super_number))),
                None => None,
            },
            None => None,
        }
    }
}
