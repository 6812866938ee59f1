//! What the fields of a head tell.

ghost use Rattle.std.specs.Prelude.{◌≡◌, ◌≤◌, length, map, option_map, IfSome, IsUtf8, All};
ghost use Rattle.httparse.specs.Spans.{IsHeaderWithin, header_bytes};
ghost use Rattle.std.specs.Str.{is_utf8};
ghost use Rattle.http_wire.specs.Fields.{is_named as named, closes as closing, says_close as says, authorization_in, length_told};
ghost use Rattle.http_wire.specs.Occurring.{IsOccurrence};

use crate::lengths::length_in;
use httparse::spans::HeaderSpan;

/// How often a field of a name stands in a head, and its value where it stands once.
#[derive(Drop)]
pub enum Occurs<'a> {
    Never,
    Once(&'a [u8]),
    Often,
}

/// Whether the field has this name, without regard to case.
fn is_named(head: &[u8], field: &HeaderSpan, name: &[u8]) -> bool
    requires { IsHeaderWithin (length head.now) field.now }
    ensures { result ≡ named name.now (header_bytes head.now field.now) }
{
    field.name.of(head).eq_ignore_ascii_case(name)
}

/// How often fields of a name stand in a head, by the places of its fields.
fn occurrence<'a>(head: &'a [u8], fields: &[HeaderSpan], name: &[u8]) -> Occurs<'a>
    requires { All (IsHeaderWithin (length head.now)) fields.now }
    ensures { IsOccurrence head.now name.now (map (header_bytes head.now) fields.now) result }
{
    let mut found = Occurs::Never;
    for field in fields {
        if is_named(head, field, name) {
            found = match found {
                Occurs::Never => Occurs::Once(field.value.of(head)),
                _ => Occurs::Often,
            };
        }
    }
    found
}

/// Whether this field says that the connection ends.
fn closes(head: &[u8], field: &HeaderSpan) -> bool
    requires { IsHeaderWithin (length head.now) field.now }
    ensures { result ≡ closing (header_bytes head.now field.now) }
{
    is_named(head, field, b"connection") && field.value.of(head).eq_ignore_ascii_case(b"close")
}

/// Whether a field says that the connection ends.
pub fn says_close(head: &[u8], fields: &[HeaderSpan]) -> bool
    requires { All (IsHeaderWithin (length head.now)) fields.now }
    ensures { result ≡ says (map (header_bytes head.now) fields.now) }
{
    for field in fields {
        if closes(head, field) {
            return true;
        }
    }
    false
}

/// Whether the bytes are UTF-8.
fn is_text(bytes: &[u8]) -> bool
    ensures { result ≡ is_utf8 bytes.now }
{
    std::str::from_utf8(bytes).is_ok()
}

/// The value of the only authorization, if it is UTF-8.
pub fn authorization<'a>(head: &'a [u8], fields: &[HeaderSpan]) -> Option<&'a [u8]>
    requires { All (IsHeaderWithin (length head.now)) fields.now }
    ensures value { option_map (λ v. v.now) result ≡ authorization_in (map (header_bytes head.now) fields.now) }
    ensures text { IfSome result (λ v. IsUtf8 v.now × (length v.now ≤ length head.now)) }
{
    match occurrence(head, fields, b"authorization") {
        Occurs::Once(value) => { if is_text(value) { Some(value) } else { None } }
        _ => None,
    }
}

/// The length that the fields tell of the body, or `without` where they tell none. `None` where they tell several, or one
/// that isn't 1 to 10 digits, or a coding.
pub fn told_length(head: &[u8], fields: &[HeaderSpan], without: Option<u64>) -> Option<u64>
    requires { All (IsHeaderWithin (length head.now)) fields.now }
    ensures { result ≡ length_told without (map (header_bytes head.now) fields.now) }
{
    match occurrence(head, fields, b"transfer-encoding") {
        Occurs::Never => match occurrence(head, fields, b"content-length") {
            Occurs::Never => without,
            Occurs::Once(value) => length_in(value),
            Occurs::Often => None,
        },
        _ => None,
    }
}
