//! Types of values, by the numbers that HPROF gives them.
ghost use Rattle.std.specs.Prelude.{◌≡◌, true, false, MatchOption};
ghost use Rattle.hd_terms.specs.Types.{is_element_type, element_len};

use hd_terms::element_len;

/// The bytes of an element of this type, as HPROF numbers the basic types, if an array can have elements of it.
pub(crate) fn bytes_of_element(element: u8) -> Option<usize>
    ensures { MatchOption result (is_element_type element ≡ false) (λ bytes. (is_element_type element ≡ true) × (bytes ≡ element_len element)) }
{
    match element {
        4..=11 => Some(usize::from(element_len(element))),
        _ => None,
    }
}
