//! The shapes of class objects.
ghost use Rattle.std.specs.Prelude.{◌≡◌, ◌<◌, ◌^◌, ◌-◌, ◌∷◌, [], ◌++◌, if◌then◌else◌, map, length, OnOk};
ghost use Rattle.hd_terms.specs.Types.{is_id_type};
ghost use Rattle.hd_terms.specs.declared.Slot.TheVariants as slots;
ghost use Rattle.hd_subs.specs.Views.{static_view, constant_view, class_view};
ghost use Rattle.hd_shapes.specs.Shapes.{ClassObject};
ghost use Rattle.hd_graph.specs.ArrayRows.{values_of_statics, values_of_constants, value_names, static_bytes, class_names, class_weight};

use hd_shapes::{ClassShape, Shapes};
use hd_subs::{ClassDump, Constant, Static};
use hd_terms::{Slot, is_id_type};
use std::alloc::{AllocError, Global};

/// Adds the name of the slot of a value, if the value's type is that of IDs.
fn push_name(names: &mut Vec<Slot>, slot: Slot, code: u8) -> Result<(), AllocError>
    ensures { OnOk result (names.new.items ≡ names.old.items ++ (if is_id_type code then slot ∷ [] else [])) }
{
    if is_id_type(code) {
        names.push(slot)?;
    }
    Ok(())
}

/// Adds the names of the slots of those statics that are references.
fn push_static_names(names: &mut Vec<Slot>, statics: &[Static]) -> Result<(), AllocError>
    requires { length statics.now < 2 ^ 32 }
    ensures { OnOk result (names.new.items ≡ names.old.items ++ value_names (λ i. slots.Static i) 0 (values_of_statics (map static_view statics.now))) }
{
    for i in 0..statics.len() {
        push_name(names, Slot::Static(i as u32), statics[i].code)?;
    }
    Ok(())
}

/// Adds the names of the slots of those constants that are references.
fn push_constant_names(names: &mut Vec<Slot>, constants: &[Constant]) -> Result<(), AllocError>
    requires { length constants.now < 2 ^ 32 }
    ensures { OnOk result (names.new.items ≡ names.old.items ++ value_names (λ i. slots.Const i) 0 (values_of_constants (map constant_view constants.now))) }
{
    for i in 0..constants.len() {
        push_name(names, Slot::Const(i as u32), constants[i].code)?;
    }
    Ok(())
}

/// The bytes of the values of statics.
fn bytes_of_statics(statics: &[Static]) -> u32
    requires { static_bytes (map static_view statics.now) < 2 ^ 32 }
    ensures { result ≡ static_bytes (map static_view statics.now) }
{
    let mut bytes = 0;
    for i in 0..statics.len() {
        bytes += statics[i].value.len as u32;
    }
    bytes
}

/// Adds the shape of a class object.
pub(crate) fn push_class_shape(
    alloc: Global,
    shapes: &mut Shapes,
    class: &ClassDump,
) -> Result<(), AllocError>
    requires small { class_weight (class_view class.now) < 2 ^ 32 }
    requires few { length shapes.old.objects < 2 ^ 32 - 1 }
    ensures added { OnOk result (shapes.new.objects ≡ shapes.old.objects ++ ClassObject (static_bytes (class_view class.now).statics) (class_names (class_view class.now)) ∷ []) }
    ensures kept { OnOk result (shapes.new.layouts ≡ shapes.old.layouts) }
{
    let mut names = Vec::new(alloc);
    push_static_names(&mut names, class.statics.as_slice())?;
    push_constant_names(&mut names, class.constants.as_slice())?;
    names.push(Slot::Super)?;
    names.push(Slot::Loader)?;
    names.push(Slot::Signers)?;
    names.push(Slot::Domain)?;
    let bytes = bytes_of_statics(class.statics.as_slice());
    shapes.push_class(ClassShape { bytes, names })?;
    Ok(())
}
