//! Looking up a name in the table. Nothing here allocates.
ghost use Rattle.std.specs.Prelude.{◌≡◌, slice_get};
ghost use Rattle.std.specs.Option.{option_and_then};
ghost use Rattle.std.specs.Cmp.Lexicographic.{slice_cmp};
ghost use Rattle.std.specs.Ordering.{nat_cmp};
ghost use Rattle.std.specs.Str.{str_to_ascii_lowercase};
ghost use Rattle.uriparse_scheme.specs.SchemeTable.{variants};
ghost use Rattle.uriparse_scheme.specs.Registered as spec;

use super::registered::RegisteredScheme;
use super::table::SCHEMES;
use std::cmp::Ordering;

/// The registered schemes, sorted by name.
fn all_schemes() -> &'static [RegisteredScheme]
    ensures { result.now ≡ variants }
{
    &SCHEMES
}

/// Compares the name with the text in lower case.
fn compare_lowered(name: &[u8], text: &[u8]) -> Ordering
    ensures { result ≡ slice_cmp nat_cmp name.now (str_to_ascii_lowercase text.now) }
{
    let mut left = name;
    let mut right = text;
    'bytes: while let Some((x, after_x)) = left.split_first() {
        let Some((y, after_y)) = right.split_first() else {
            return Ordering::Greater;
        };
        match x.cmp(&y.to_ascii_lowercase()) {
            Ordering::Equal => {},
            order => return order,
        }
        left = after_x;
        right = after_y;
    }
    if right.is_empty() {
        Ordering::Equal
    } else {
        Ordering::Less
    }
}

/// The index in the table of the registered scheme with this name, in any case.
fn row_named(text: &[u8]) -> Option<usize>
    ensures { option_and_then (slice_get variants) result ≡ spec.registered_named (str_to_ascii_lowercase text.now) }
{
    all_schemes()
        .binary_search_by(
            |scheme| -> Ordering
                ensures { result ≡ slice_cmp nat_cmp (spec.name_of scheme.now) (str_to_ascii_lowercase text.entry.now) }
            { compare_lowered(scheme.name().as_bytes(), text) },
        )
        .ok()
}

/// Searches the table for the registered scheme with this name, in any case.
fn searched_scheme(text: &[u8]) -> Option<RegisteredScheme>
    ensures { result ≡ spec.registered_named (str_to_ascii_lowercase text.now) }
{
    all_schemes().get(row_named(text)?).copied()
}

/// The only frequent scheme whose name has the length and the first letter of the text.
fn common_candidate(text: &[u8]) -> Option<RegisteredScheme> {
    let first = text.first()?.to_ascii_lowercase();
    match (text.len(), first) {
        (5, b'h') => Some(RegisteredScheme::HTTPS),
        (4, b'h') => Some(RegisteredScheme::HTTP),
        (4, b'd') => Some(RegisteredScheme::Data),
        (4, b'f') => Some(RegisteredScheme::File),
        (3, b'f') => Some(RegisteredScheme::FTP),
        (6, b'm') => Some(RegisteredScheme::MailTo),
        (3, b't') => Some(RegisteredScheme::Tel),
        (3, b'u') => Some(RegisteredScheme::URN),
        (2, b'w') => Some(RegisteredScheme::WS),
        (3, b'w') => Some(RegisteredScheme::WSS),
        _ => None,
    }
}

/// The registered scheme with this name, in any case. Compares the one frequent scheme that it may
/// be, and else searches the table.
pub(super) fn registered_named(text: &[u8]) -> Option<RegisteredScheme>
    ensures { result ≡ spec.registered_named (str_to_ascii_lowercase text.now) }
{
    match common_candidate(text) {
        Some(scheme) if text.eq_ignore_ascii_case(scheme.name().as_bytes()) => Some(scheme),
        _ => searched_scheme(text),
    }
}
