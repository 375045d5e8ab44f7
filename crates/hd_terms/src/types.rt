//! Basic types, by the numbers that HPROF gives them.
ghost use Rattle.std.specs.Prelude.{◌≡◌, ◌≤◌};
ghost use Rattle.hd_terms.specs.Types.{element_len, is_id_type, value_len};

use crate::IdSize;

/// The bytes of an element of a primitive array: 1 for boolean (4) and byte (8), 2 for char (5) and short (9), 4 for
/// float (6) and int (10), 8 for double (7), long (11) and any number that is no such type.
pub fn element_len(element: u8) -> u8
    ensures len { result ≡ element_len element }
    ensures few { result ≤ 8 }
{
    match element {
        4 | 8 => 1,
        5 | 9 => 2,
        6 | 10 => 4,
        _ => 8,
    }
}

/// Whether the values of a type are IDs: 2 is so for HPROF, and 1 is read alike.
pub fn is_id_type(code: u8) -> bool
    ensures { result ≡ is_id_type code }
{
    code == 1 || code == 2
}

/// The bytes of a value of a type: those of an ID, or those of an element of an array.
pub fn value_len(id_size: IdSize, code: u8) -> u8
    ensures len { result ≡ value_len id_size code }
    ensures few { result ≤ 8 }
{
    match id_size {
        _ if !is_id_type(code) => element_len(code),
        IdSize::Four => 4,
        IdSize::Eight => 8,
    }
}
