//! The layout of a class, read class by class.
ghost use Rattle.std.specs.Prelude.{◌≡◌, ◌<◌, ◌++◌, [], length, map, MatchOption};
ghost use Rattle.hd_classes.specs.Fields.{field_view};
ghost use Rattle.hd_classes.specs.Links.{IsLinked, Declares, numbered, views};

use crate::known::LayoutField;
use crate::linked::LinkedClass;
use hd_hashers::IdHasher;
use indexmap::IndexMap;
use std::marker::Model;

/// The instance fields of the classes of a chain, a class's own before its super class's.
#[derive(Drop)]
pub struct Layout<'a> {
    classes: &'a IndexMap<u64, LinkedClass, IdHasher>,
    /// The number of the first class, which declares fields.
    number: Option<usize>,
}

impl<'a> Model for Layout<'a> {
    ghost use Rattle.std.specs.Prelude.{List};
    ghost use Rattle.hd_terms.specs.Classes.{LayoutField};

    ghost Value = { List LayoutField };

    ghost use Rattle.hd_classes.specs.LinksInside.{fields_of, IsLayoutKept};

    ghost view = { fields_of };

    ghost invariant = { IsLayoutKept };
}

impl<'a> Layout<'a> {
    /// The layout of the class of a number, which declares fields; empty where there is no number.
    pub(crate) fn new(
        classes: &'a IndexMap<u64, LinkedClass, IdHasher>,
        number: Option<usize>,
    ) -> Layout<'a>
        requires linked { IsLinked classes.now.entries }
        requires declares { Declares classes.now.entries number }
        ensures { result ≡ (numbered (views classes.now.entries) number).layout }
    {
        Layout { classes, number }
    }

    /// The fields of the first class that declares any, and those of the classes above it, or nothing where no field is left.
    pub fn split_first_class(self) -> Option<(&'a [LayoutField], Layout<'a>)>
        ensures { MatchOption result (self.entry ≡ []) (λ r. (self.entry ≡ map field_view r.0.now ++ r.1) × (length r.1 < length self.entry)) }
    {
        match self.number {
            Some(number) => match self.classes.get_index(number) {
                Some((_, class)) => Some((
                    class.fields.as_slice(),
                    Layout::new(self.classes, class.fields_above),
                )),
                None => None,
            },
            None => None,
        }
    }
}
