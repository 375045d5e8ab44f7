//! Classes whose chains are whole, as they are kept: linked by their numbers, so that no chain or layout is copied.
ghost use Rattle.std.specs.Prelude.{◌≡◌};
ghost use Rattle.hd_classes.specs.Links.{first_declaring};

use crate::known::LayoutField;
use hd_terms::EdgeKind;

/// What is kept of a class whose chain is whole. A super class has a lower number than its subclasses.
#[derive(Drop)]
pub(crate) struct LinkedClass {
    /// The number of its super class, if it has one.
    pub(crate) super_number: Option<usize>,
    /// The instance fields that it declares itself.
    pub(crate) fields: Vec<LayoutField>,
    /// The number of the first class above it in its chain that declares fields, if one does.
    pub(crate) fields_above: Option<usize>,
    /// How many fields its layout has.
    pub(crate) layout_len: usize,
    /// The number of the referent field in its layout, if it has one.
    pub(crate) referent: Option<u32>,
    /// The kind of the reference in that field.
    pub(crate) kind: EdgeKind,
}

/// The number of the first class that declares fields, in the chain of this one, which has a number.
pub(crate) fn first_declaring(number: usize, class: &LinkedClass) -> Option<usize>
    ensures { result ≡ first_declaring number class.now }
{
    if class.fields.is_empty() {
        class.fields_above
    } else {
        Some(number)
    }
}
