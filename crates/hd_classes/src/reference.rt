//! Referent fields, and the kinds of the references in them.
ghost use Rattle.std.specs.Prelude.{◌≡◌, ℕ, ◌+◌, ◌<◌, ◌^◌, length, map, unwrap_or};
ghost use Rattle.std.specs.Option.{option_map, option_or};
ghost use Rattle.hd_terms.specs.declared.EdgeKind.TheVariants as kinds;
ghost use Rattle.hd_terms.specs.Classes as classes;
ghost use Rattle.hd_classes.specs.Known.{field_view};
ghost use Rattle.hd_classes.specs.Links.{IsBelow};
ghost use Rattle.hd_classes.specs.Sources.{IsSource, table_of};

use crate::known::LayoutField;
use crate::names::is_named;
use crate::source::Source;
use hd_terms::{EdgeKind, is_id_type};

/// The name of the referent field.
const REFERENT: &[u8; 8] = b"referent";

/// The name of the class that declares it.
const REFERENCE: &[u8; 23] = b"java/lang/ref/Reference";

const SOFT: &[u8; 27] = b"java/lang/ref/SoftReference";

const WEAK: &[u8; 27] = b"java/lang/ref/WeakReference";

const FINAL: &[u8; 28] = b"java/lang/ref/FinalReference";

const PHANTOM: &[u8; 30] = b"java/lang/ref/PhantomReference";

/// The kind of a class of this name, if it is one of the four.
fn kind_called(name: &[u8]) -> Option<EdgeKind>
    ensures { result ≡ classes.kind_called name.now }
{
    if is_named(name, SOFT) {
        return Some(EdgeKind::Soft);
    }
    if is_named(name, WEAK) {
        return Some(EdgeKind::Weak);
    }
    if is_named(name, FINAL) {
        return Some(EdgeKind::Final);
    }
    if is_named(name, PHANTOM) {
        return Some(EdgeKind::Phantom);
    }
    None
}

impl<'a> Source<'a> {
    /// Whether the text of an ID is this one.
    fn is_text(&self, text: &[u8], id: u64) -> bool
        requires { IsSource self.now }
        ensures { result ≡ classes.is_text (table_of self.now) text.now id }
    {
        match self.text_of(id) {
            Some(found) => found == text,
            None => false,
        }
    }

    /// Whether the class of an ID has this name, which is written with slashes.
    fn is_called(&self, name: &[u8], id: u64) -> bool
        requires { IsSource self.now }
        ensures { result ≡ classes.is_called (table_of self.now) name.now id }
    {
        match self.name_of(id) {
            Some(found) => is_named(found, name),
            None => false,
        }
    }

    /// Whether a field is that of a referent: it holds an ID, is named so, and the class Reference declares it.
    fn is_referent(&self, field: LayoutField) -> bool
        requires { IsSource self.now }
        ensures { result ≡ classes.is_referent (table_of self.now) (field_view field) }
    {
        is_id_type(field.code)
            && self.is_text(REFERENT, field.name)
            && self.is_called(REFERENCE, field.owner)
    }

    /// The number of the referent field of a layout, if it has one: the first such.
    fn referent_in(&self, layout: &[LayoutField]) -> Option<u32>
        requires kept { IsSource self.now }
        requires short { length layout.now < 2 ^ 29 }
        ensures { result ≡ classes.referent_in (table_of self.now) (map field_view layout.now) }
    {
        for (i, field) in layout.iter().enumerate() {
            if self.is_referent(*field) {
                return Some(i as u32);
            }
        }
        None
    }

    /// The number of the referent field where these fields stand before a layout: the first of them that is one, or the
    /// layout's, which is this in the layout alone.
    pub(crate) fn referent_above(&self, fields: &[LayoutField], above: Option<u32>) -> Option<u32>
        requires kept { IsSource self.now }
        requires short { length fields.now < 2 ^ 29 }
        requires above { IsBelow (2 ^ 29) above }
        ensures { result ≡ option_or (classes.referent_in (table_of self.now) (map field_view fields.now)) (option_map (λ (i : ℕ). i + length fields.now) above) }
    {
        match (self.referent_in(fields), above) {
            (Some(i), _) => Some(i),
            (None, Some(i)) => Some(fields.len() as u32 + i),
            (None, None) => None,
        }
    }

    /// The kind of the class of an ID, if it is one of the four.
    fn reference_kind(&self, id: u64) -> Option<EdgeKind>
        requires { IsSource self.now }
        ensures { result ≡ classes.reference_kind (table_of self.now) id }
    {
        match self.name_of(id) {
            Some(name) => kind_called(name),
            None => None,
        }
    }

    /// The kind of a class whose super class has this kind: its own if it is one of the four.
    pub(crate) fn kind_above(&self, id: u64, above: EdgeKind) -> EdgeKind
        requires { IsSource self.now }
        ensures { result ≡ unwrap_or (classes.reference_kind (table_of self.now) id) above }
    {
        match self.reference_kind(id) {
            Some(kind) => kind,
            None => above,
        }
    }
}
