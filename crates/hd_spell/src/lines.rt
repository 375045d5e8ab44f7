//! The lines of the notation, each written as the bytes of its part of a dump.
use crate::Mistake;
use crate::numbers::{first_word, read_byte, read_digit, read_number, read_pair, read_type};
use crate::output::Output;

/// What `reference-names` stands for.
const REFERENCE_NAMES: [&str; 13] = [
    "text 101 java/lang/ref/Reference",
    "text 102 java/lang/ref/SoftReference",
    "text 103 java/lang/ref/WeakReference",
    "text 104 java/lang/ref/FinalReference",
    "text 105 java/lang/ref/PhantomReference",
    "text 106 java/lang/ref/Finalizer",
    "text 107 referent",
    "load 11 101",
    "load 12 102",
    "load 13 103",
    "load 14 104",
    "load 15 105",
    "load 16 106",
];

/// What `reference-classes` stands for.
const REFERENCE_CLASSES: [&str; 6] = [
    "class 11: 107=object",
    "class 12 extends 11:",
    "class 13 extends 11:",
    "class 14 extends 11:",
    "class 15 extends 11:",
    "class 16 extends 14:",
];

/// Writes a line, or the lines that it stands for.
pub fn put_line(output: &mut Output, line: &str) -> Result<(), Mistake> {
    match line {
        "" => Ok(()),
        "reference-names" => put_parts(output, &REFERENCE_NAMES),
        "reference-classes" => put_parts(output, &REFERENCE_CLASSES),
        _ => put_part(output, line),
    }
}

fn put_parts(output: &mut Output, parts: &[&str]) -> Result<(), Mistake> {
    for part in parts {
        put_part(output, part)?;
    }
    Ok(())
}

/// Writes a line that stands for itself.
fn put_part(output: &mut Output, line: &str) -> Result<(), Mistake> {
    let (word, rest) = first_word(line);
    match word {
        "ids" => put_header(output, rest),
        "text" => put_text(output, rest),
        "load" => put_load(output, rest),
        "segment" => put_record(output, "1c"),
        "record" => put_record(output, rest),
        "bytes" => put_hex(output, rest),
        "root" => put_root(output, rest),
        _ => put_object(output, word, rest),
    }
}

/// Writes an object.
fn put_object(output: &mut Output, word: &str, rest: &str) -> Result<(), Mistake> {
    let (head, tail) = rest.split_once(':').ok_or(Mistake::WrongWord)?;
    match word {
        "array" => put_array(output, head, tail),
        "instance" => put_instance(output, head, tail),
        "reference" => put_reference(output, head, tail),
        "class" => put_class(output, head, tail),
        _ => Err(Mistake::UnknownPart),
    }
}

fn put_header(output: &mut Output, rest: &str) -> Result<(), Mistake> {
    let (size, version) = rest.split_once(' ').unwrap_or((rest, "1.0.2"));
    match size {
        "4" => output.put_header(version, false)?,
        "8" => output.put_header(version, true)?,
        _ => return Err(Mistake::WrongWord),
    }
    Ok(())
}

fn put_record(output: &mut Output, tag: &str) -> Result<(), Mistake> {
    output.begin(read_byte(tag)?)?;
    Ok(())
}

fn put_text(output: &mut Output, rest: &str) -> Result<(), Mistake> {
    let (id, text) = first_word(rest);
    output.begin(0x01)?;
    output.put_id(read_number(id)?)?;
    output.put_bytes(text.as_bytes())?;
    output.end()?;
    Ok(())
}

fn put_load(output: &mut Output, rest: &str) -> Result<(), Mistake> {
    let (class, name) = first_word(rest);
    output.begin(0x02)?;
    output.put_number(1)?;
    output.put_id(read_number(class)?)?;
    output.put_number(0)?;
    output.put_id(read_number(name)?)?;
    output.end()?;
    Ok(())
}

fn put_root(output: &mut Output, id: &str) -> Result<(), Mistake> {
    output.put_bytes(&[0xff])?;
    output.put_id(read_number(id)?)?;
    Ok(())
}

fn put_array(output: &mut Output, head: &str, elements: &str) -> Result<(), Mistake> {
    let (id, class) = read_pair(head, "of")?;
    output.put_bytes(&[0x22])?;
    output.put_id(id)?;
    output.put_number(0)?;
    output.put_count(elements.split_whitespace().count())?;
    output.put_id(class)?;
    for element in elements.split_whitespace() {
        output.put_id(read_number(element)?)?;
    }
    Ok(())
}

/// Writes what stands in an instance before its values, of which there are `len` bytes.
fn put_instance_head(output: &mut Output, head: &str, len: u32) -> Result<(), Mistake> {
    let (id, class) = read_pair(head, "of")?;
    output.put_bytes(&[0x21])?;
    output.put_id(id)?;
    output.put_number(0)?;
    output.put_id(class)?;
    output.put_number(len)?;
    Ok(())
}

fn put_instance(output: &mut Output, head: &str, values: &str) -> Result<(), Mistake> {
    let digits = values.bytes().filter(|byte| *byte != b' ').count();
    put_instance_head(output, head, (digits / 2).min(0xffff) as u32)?;
    put_hex(output, values)
}

fn put_reference(output: &mut Output, head: &str, target: &str) -> Result<(), Mistake> {
    put_instance_head(output, head, output.id_len())?;
    output.put_id(read_number(target.trim())?)?;
    Ok(())
}

fn put_class(output: &mut Output, head: &str, fields: &str) -> Result<(), Mistake> {
    put_class_head(output, head)?;
    let count = fields.split_whitespace().count().min(0xffff) as u16;
    output.put_bytes(&count.to_be_bytes())?;
    for field in fields.split_whitespace() {
        put_field(output, field)?;
    }
    Ok(())
}

/// Writes what stands in a class before its fields.
fn put_class_head(output: &mut Output, head: &str) -> Result<(), Mistake> {
    let (id, super_id) = read_pair(head, "extends")?;
    output.put_bytes(&[0x20])?;
    output.put_id(id)?;
    output.put_number(0)?;
    output.put_id(super_id)?;
    for _ in 0..5 {
        output.put_id(0)?;
    }
    output.put_number(4)?;
    output.put_bytes(&[0; 4])?;
    Ok(())
}

fn put_field(output: &mut Output, field: &str) -> Result<(), Mistake> {
    let (name, code) = field.split_once('=').ok_or(Mistake::WrongWord)?;
    output.put_id(read_number(name)?)?;
    output.put_bytes(&[read_type(code)?])?;
    Ok(())
}

/// Writes the bytes that pairs of hexadecimal digits spell, with spaces between words of them.
fn put_hex(output: &mut Output, text: &str) -> Result<(), Mistake> {
    let mut high = None;
    for digit in text.bytes().filter(|byte| *byte != b' ') {
        let value = read_digit(digit)?;
        high = match high {
            None => Some(value),
            Some(first) => {
                put_two_digits(output, first, value)?;
                None
            }
        };
    }
    match high {
        None => Ok(()),
        Some(_) => Err(Mistake::WrongWord),
    }
}

/// Writes the byte of two hexadecimal digits.
fn put_two_digits(output: &mut Output, high: u8, low: u8) -> Result<(), Mistake> {
    output.put_bytes(&[high << 4 | low])?;
    Ok(())
}
