//! A change of an object's strength.
ghost use Rattle.std.specs.Prelude.{◌≡◌};

use hd_terms::Strength;
use std::marker::Model;

/// A change of an object's strength, with both strengths.
#[derive(Clone, Copy)]
pub struct Change {
    object: u32,
    before: Strength,
    after: Strength,
}

impl Model for Change {
    ghost use Rattle.hd_terms.specs.Regions.{StrengthChange};

    ghost Value = { StrengthChange };

    ghost view = { λ d. record { object = d.object; before = d.before; after = d.after } };

    ghost inverse = { λ d. record { object = d.object; before = d.before; after = d.after } };
}

impl Change {
    /// The change of an object from one strength to another.
    pub(crate) fn new(object: u32, before: Strength, after: Strength) -> Change
        ensures { result ≡ record { object = object; before = before; after = after } }
    {
        Change {
            object,
            before,
            after,
        }
    }

    /// The number of the object.
    pub fn object(self) -> u32
        ensures { result ≡ self.object }
    {
        self.object
    }

    /// The strength before.
    pub fn before(self) -> Strength
        ensures { result ≡ self.before }
    {
        self.before
    }

    /// The strength after.
    pub fn after(self) -> Strength
        ensures { result ≡ self.after }
    {
        self.after
    }
}
