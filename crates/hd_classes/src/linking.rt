//! Keeping a class below its super class.
ghost use Rattle.std.specs.Prelude.{◌≡◌, ◌<◌, ◌^◌, map, Some, IfOk, IfErr, OnOk};
ghost use Rattle.hd_terms.specs.declared.errors.Cause.TheVariants.{OutOfMemory};
ghost use Rattle.hd_terms.specs.Classes.{class_at, fields_of};
ghost use Rattle.hd_terms.specs.ReadFaults.{fault};
ghost use Rattle.hd_subs.specs.Views.{class_view};
ghost use Rattle.hd_classes.specs.Known.{field_view};
ghost use Rattle.hd_classes.specs.Links.{IsLinked, IsBelow};
ghost use Rattle.hd_classes.specs.Sources.{IsSource, table_of};
ghost use Rattle.hd_classes.specs.Linking.{IsInherited, IsLinkedUnder, AreKept, IsTop, KeepsClass};

use crate::known::LayoutField;
use crate::linked::{LinkedClass, first_declaring};
use crate::source::Source;
use hd_hashers::IdHasher;
use hd_subs::ClassDump;
use hd_terms::{EdgeKind, ReadFault, class_chains};
use indexmap::IndexMap;
use std::alloc::{AllocError, Global};

/// What a class takes from its super class.
#[derive(Clone, Copy)]
pub(crate) struct Inherited {
    /// The number of the super class, if there is one.
    number: Option<usize>,
    /// The number of the first class from it upwards that declares fields, if one does.
    fields_above: Option<usize>,
    /// How many fields its layout has.
    layout_len: usize,
    /// The number of the referent field in that layout, if it has one.
    referent: Option<u32>,
    kind: EdgeKind,
}

/// A layout has fewer fields. Each field of a class has at least 5 bytes of the file and each class stands once in a chain
/// that ends, so that no file of at most 2,147,483,647 bytes has more in one.
const MOST_FIELDS: usize = 1 << 29;

/// What a class takes from the super class of an ID, which is kept, or from none, where nothing is kept by the ID.
fn inherited_from(known: &IndexMap<u64, LinkedClass, IdHasher>, id: u64) -> Inherited
    requires { IsLinked known.now.entries }
    ensures { IsInherited known.now.entries id result }
{
    match known.get_full(&id) {
        Some((number, _, class)) => Inherited {
            number: Some(number),
            fields_above: first_declaring(number, class),
            layout_len: class.layout_len,
            referent: class.referent,
            kind: class.kind,
        },
        None => Inherited {
            number: None,
            fields_above: None,
            layout_len: 0,
            referent: None,
            kind: EdgeKind::Strong,
        },
    }
}

/// The fields that a class declares.
fn own_fields(alloc: Global, class: &ClassDump) -> Result<Vec<LayoutField>, AllocError>
    ensures { IfOk result (λ fields. map field_view fields.items ≡ fields_of (class_view class.now)) }
{
    let mut fields = Vec::with_capacity(alloc, class.fields.len())?;
    for field in &class.fields {
        fields.push(LayoutField {
            owner: class.id,
            name: field.name,
            code: field.code,
        })?;
    }
    Ok(fields)
}

/// A class as it is kept below its super class. Out of memory is also answered where its layout would get too long.
fn linked_class(
    alloc: Global,
    source: &Source<'_>,
    class: &ClassDump,
    above: Inherited,
) -> Result<LinkedClass, ReadFault>
    requires source { IsSource source.now }
    requires short { above.layout_len < 2 ^ 29 }
    requires referent { IsBelow (2 ^ 29) above.referent }
    ensures ok { IfOk result (λ l. IsLinkedUnder (table_of source.now) (class_view class.now) above l) }
    ensures err { IfErr result (λ f. f ≡ fault OutOfMemory 0) }
{
    if class.fields.len() >= MOST_FIELDS - above.layout_len {
        return Err(ReadFault::NO_MEMORY);
    }
    let fields = own_fields(alloc, class)?;
    let referent = source.referent_above(fields.as_slice(), above.referent);
    Ok(LinkedClass {
        super_number: above.number,
        fields_above: above.fields_above,
        layout_len: fields.len() + above.layout_len,
        referent,
        kind: source.kind_above(class.id, above.kind),
        fields,
    })
}

/// Keeps a class, unless it is kept. Its super class is kept, or it has none.
pub(crate) fn keep_class(
    alloc: Global,
    known: &mut IndexMap<u64, LinkedClass, IdHasher>,
    source: &Source<'_>,
    class: &ClassDump,
) -> Result<(), ReadFault>
    requires source { IsSource source.now }
    requires kept { AreKept (table_of source.now) known.old.entries }
    requires class { class_at (table_of source.now).classes (class_view class.now).id ≡ Some (class_view class.now) }
    requires top { IsTop known.old.entries (class_view class.now).super }
    ensures ok { OnOk result (KeepsClass (table_of source.now) (class_view class.now).id known.old.entries known.new.entries) }
    ensures err { IfErr result (λ f. f ≡ fault OutOfMemory 0) }
{
    class_chains();
    if known.contains_key(&class.id) {
        return Ok(());
    }
    let linked = linked_class(alloc, source, class, inherited_from(known, class.super_id))?;
    known.insert(class.id, linked)?;
    Ok(())
}
