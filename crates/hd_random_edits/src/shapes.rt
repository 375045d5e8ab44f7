//! Random dumps of several shapes: dense ones, lists both ways, wide arrays, classes near the roots, and fields of two classes.
use crate::dumps::{random_dump, random_id, reference_lines};
use hd_state_tests::random::next_random;
use hd_terms::NoMemory;
use std::alloc::Global;
use std::fmt::Write as _;

/// How the objects of a dump refer to one another.
#[derive(Clone, Copy, Debug)]
pub enum Shape {
    /// Few references, and in some dumps some of the others' shapes.
    Mixed,
    /// Each array refers to five to eight objects.
    Dense,
    /// A doubly linked list, with a root on its first array.
    List,
    /// An array of 40 references, and arrays of one.
    Wide,
    /// Two classes with roots, each with a loader and a static reference; arrays are of these classes.
    Classes,
    /// Eight instances of two classes, one of which is below the other. Some of their fields are null or absent.
    Fields,
}

/// All shapes.
pub const SHAPES: [Shape; 6] = [
    Shape::Mixed,
    Shape::Dense,
    Shape::List,
    Shape::Wide,
    Shape::Classes,
    Shape::Fields,
];

/// Random references of an array: their number.
fn references(text: &mut String, random: u64, count: u64) -> Result<(), NoMemory> {
    let mut x = random;
    for _ in 0..count {
        x = next_random(x);
        let id = random_id(x >> 8);
        write!(text, " {id:x}").map_err(|_| NoMemory)?;
    }
    text.push_str("\n")?;
    Ok(())
}

/// How many random references an array of a shape has.
fn count_of(shape: Shape, i: u64, random: u64) -> u64 {
    match shape {
        Shape::Dense => 5 + random % 4,
        Shape::List => random % 8 / 7,
        Shape::Wide => { if i == 1 { 40 } else { 1 } }
        Shape::Mixed | Shape::Classes | Shape::Fields => random % 3,
    }
}

/// The line of an array, with references to its neighbours in a list.
fn shaped_line(text: &mut String, shape: Shape, i: u64, random: u64) -> Result<(), NoMemory> {
    write!(text, "array {i:x}").map_err(|_| NoMemory)?;
    if let Shape::Classes = shape {
        let class = 0x41 + random % 2;
        write!(text, " of {class:x}").map_err(|_| NoMemory)?;
    }
    text.push_str(":")?;
    if let Shape::List = shape {
        let (before, after) = (i.saturating_sub(1), i.saturating_add(1));
        write!(text, " {before:x} {after:x}").map_err(|_| NoMemory)?;
    }
    references(text, random, count_of(shape, i, random >> 24))
}

/// The lines of two classes, each with a loader and a static reference, and of roots on them.
fn class_lines(text: &mut String, random: u64) -> Result<(), NoMemory> {
    let mut x = random;
    for class in 0x41..0x43u64 {
        x = next_random(x);
        let (loader, target) = (random_id(x >> 8), random_id(x >> 16));
        writeln!(text, "root {class:x}").map_err(|_| NoMemory)?;
        write!(text, "bytes 20 {class:08x} 00000000 00000000 {loader:08x}").map_err(|_| NoMemory)?;
        text.push_str(" 00000000 00000000 00000000 00000000 00000004 0000 0001 00000101 02")?;
        writeln!(text, " {target:08x} 0000").map_err(|_| NoMemory)?;
    }
    Ok(())
}

/// The ID in a field: null, that of no object, or a random one.
fn random_value(x: u64) -> u64 {
    match x % 6 {
        0 => 0,
        1 => 0x99,
        _ => random_id(x >> 8),
    }
}

/// The line of an instance of one of the two classes of `Shape::Fields`, with random references in its fields.
fn instance_line(text: &mut String, i: u64, random: u64) -> Result<(), NoMemory> {
    let class = 0x51 + (random >> 16) % 2;
    write!(text, "instance {i:x} of {class:x}:").map_err(|_| NoMemory)?;
    let mut x = random;
    if class == 0x52 {
        x = next_random(x);
        let own = random_value(x >> 8);
        write!(text, " {own:08x}").map_err(|_| NoMemory)?;
    }
    x = next_random(x);
    let (first, last) = (random_value(x >> 8), random_value(x >> 24));
    writeln!(text, " {first:08x} 00000007 {last:08x}").map_err(|_| NoMemory)?;
    Ok(())
}

/// The lines of ten objects of a shape: arrays, and where the shape has fields eight instances before two arrays.
fn object_lines(text: &mut String, shape: Shape, random: u64) -> Result<(), NoMemory> {
    let mut x = random;
    for i in 1..11u64 {
        x = next_random(x);
        match shape {
            Shape::Fields if i <= 8 => instance_line(text, i, x)?,
            _ => shaped_line(text, shape, i, x)?,
        }
    }
    Ok(())
}

/// A random dump of a shape: ten arrays or instances, a reference object of each kind, and roots.
pub fn shaped_dump(alloc: Global, shape: Shape, random: u64) -> Result<String, NoMemory> {
    if let Shape::Mixed = shape {
        return random_dump(alloc, random);
    }
    let x = next_random(random);
    let second = random_id(x >> 16);
    let mut text = String::new(alloc);
    text.push_str("ids 4\nreference-names\nsegment\nreference-classes\n")?;
    writeln!(text, "root 1\nroot {second:x}").map_err(|_| NoMemory)?;
    if let Shape::Classes = shape {
        class_lines(&mut text, x)?;
    }
    if let Shape::Fields = shape {
        text.push_str(
            "class 51: 201=object 202=int 203=object\nclass 52 extends 51: 204=object\n",
        )?;
    }
    object_lines(&mut text, shape, x)?;
    reference_lines(&mut text, x)?;
    Ok(text)
}
