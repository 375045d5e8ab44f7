//! Fields of a head, found by their names.
ghost use Rattle.std.specs.Prelude.{◌≡◌, length, All, option_map};
ghost use Rattle.httparse.specs.Spans.{IsHeaderWithin};
ghost use Rattle.websocket.specs.Headers.{eq_ignore_case, fields_of, header_value};
ghost use Rattle.hd_routes.specs.Fields.{count_named, only_value};

use httparse::spans::HeaderSpan;

/// Whether two names are equal but for the case of letters.
fn is_name(found: &[u8], name: &[u8]) -> bool
    ensures { result ≡ eq_ignore_case found.now name.now }
{
    found.eq_ignore_ascii_case(name)
}

/// How many fields have this name.
fn count_named(buf: &[u8], spans: &[HeaderSpan], name: &[u8]) -> usize
    requires { All (IsHeaderWithin (length buf.now)) spans.now }
    ensures { result ≡ count_named (fields_of buf.now spans.now) name.now }
{
    let mut count = 0;
    for header in spans {
        if is_name(header.name.of(buf), name) {
            count += 1;
        }
    }
    count
}

/// The value of the first field with this name.
fn first_value<'b>(buf: &'b [u8], spans: &[HeaderSpan], name: &[u8]) -> Option<&'b [u8]>
    requires { All (IsHeaderWithin (length buf.now)) spans.now }
    ensures { option_map (λ v. v.now) result ≡ header_value (fields_of buf.now spans.now) name.now }
{
    for header in spans {
        if is_name(header.name.of(buf), name) {
            return Some(header.value.of(buf));
        }
    }
    None
}

/// The value of the only field with this name, without the white space around it. `None` where no field has the name, or more
/// than one.
pub(crate) fn only_value<'b>(buf: &'b [u8], spans: &[HeaderSpan], name: &[u8]) -> Option<&'b [u8]>
    requires { All (IsHeaderWithin (length buf.now)) spans.now }
    ensures { option_map (λ v. v.now) result ≡ only_value (fields_of buf.now spans.now) name.now }
{
    if count_named(buf, spans, name) == 1 {
        first_value(buf, spans, name)
    } else {
        None
    }
}
