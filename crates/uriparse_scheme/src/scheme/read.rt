//! The grammar of a scheme: RFC 3986, section 3.1.
ghost use Rattle.std.specs.Prelude.{◌≡◌};
ghost use Rattle.std.specs.List.{list_all};
ghost use Rattle.uriparse_scheme.specs.Grammar as spec;
ghost use Rattle.uriparse_scheme.specs.Scheme.{fault};

use super::error::SchemeError;

fn is_scheme_byte(b: u8) -> bool
    ensures { result ≡ spec.is_scheme_byte b }
{
    b.is_ascii_alphanumeric() || b == b'+' || b == b'-' || b == b'.'
}

fn all_scheme_bytes(bytes: &[u8]) -> bool
    ensures { result ≡ list_all spec.is_scheme_byte bytes.now }
{
    bytes.iter().all(|b| is_scheme_byte(*b))
}

/// Whether the bytes are a scheme.
pub fn is_scheme(bytes: &[u8]) -> bool
    ensures { result ≡ spec.is_scheme bytes.now }
{
    match bytes.split_first() {
        Some((first, rest)) => first.is_ascii_alphabetic() && all_scheme_bytes(rest),
        None => false,
    }
}

/// Why the bytes are not a scheme, if they are not.
#[tactic(auto, unfolding(crate::specs::Scheme::fault))]
pub(super) fn fault_of(bytes: &[u8]) -> Option<SchemeError>
    ensures { result ≡ fault bytes.now }
{
    let Some((first, rest)) = bytes.split_first() else {
        return Some(SchemeError::Empty);
    };
    if !first.is_ascii_alphabetic() {
        return Some(SchemeError::StartsWithNonAlphabetic);
    }
    if !all_scheme_bytes(rest) {
        return Some(SchemeError::InvalidCharacter);
    }
    None
}
