//! Random dumps, spelled in words.
use hd_state_tests::random::next_random;
use hd_terms::NoMemory;
use std::alloc::Global;
use std::fmt::Write as _;

/// The ID of one of ten arrays, 0x1 to 0xa, or of one of four reference objects, 0x21 to 0x24.
pub fn random_id(x: u64) -> u64 {
    let k = x % 14;
    if k < 10 { k + 1 } else { k + 0x17 }
}

/// The line of an array: up to three random references; those to its neighbours, where arrays make a doubly linked list;
/// and those to five arrays, where these are dense.
fn array_line(text: &mut String, i: u64, shape: u64, random: u64) -> Result<(), NoMemory> {
    let mut x = random;
    write!(text, "array {i:x}:").map_err(|_| NoMemory)?;
    for _ in 0..random % 4 {
        x = next_random(x);
        let id = random_id(x >> 8);
        write!(text, " {id:x}").map_err(|_| NoMemory)?;
    }
    if shape % 2 == 0 && i > 1 && i < 10 {
        let (before, after) = (i - 1, i + 1);
        write!(text, " {before:x} {after:x}").map_err(|_| NoMemory)?;
    }
    if shape % 3 == 0 && i <= 5 {
        text.push_str(" 1 2 3 4 5")?;
    }
    text.push_str("\n")?;
    Ok(())
}

/// The lines of the reference objects, one of each kind, each with a random referent.
pub fn reference_lines(text: &mut String, random: u64) -> Result<(), NoMemory> {
    let mut x = random;
    for i in 1..5u64 {
        x = next_random(x);
        let (id, class, referent) = (i + 0x20, i + 0x11, random_id(x >> 8));
        writeln!(text, "reference {id:x} of {class:x}: {referent:x}").map_err(|_| NoMemory)?;
    }
    Ok(())
}

/// A random dump of ten arrays, a reference object of each kind and two roots.
pub fn random_dump(alloc: Global, random: u64) -> Result<String, NoMemory> {
    let mut x = next_random(random);
    let (first, second) = (random_id(x >> 8), random_id(x >> 16));
    let mut text = String::new(alloc);
    text.push_str("ids 4\nreference-names\nsegment\nreference-classes\n")?;
    writeln!(text, "root {first:x}\nroot {second:x}").map_err(|_| NoMemory)?;
    for i in 1..11u64 {
        x = next_random(x);
        array_line(&mut text, i, random, x)?;
    }
    reference_lines(&mut text, x)?;
    Ok(text)
}
