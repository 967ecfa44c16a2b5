//! Cutting a text at its scheme: RFC 3986, sections 3 and 4.2.
ghost use Rattle.std.specs.Prelude.{◌≡◌, position, IfSome, true};
ghost use Rattle.std.specs.Option.{option_copied, option_map};
ghost use Rattle.uriparse_text.specs.Cuts.{from_first, up_to};
ghost use Rattle.uriparse_scheme.specs.Cuts as spec;
ghost use Rattle.uriparse_scheme.specs.Cuts.{after_scheme, if_some, scheme_text};
ghost use Rattle.uriparse_scheme.specs.Registered.{name_of};
ghost use Rattle.uriparse_scheme.specs.Scheme as schemes;

use super::Scheme;
use super::read::is_scheme;
use super::registered::RegisteredScheme;

/// A text that is cut at its scheme.
#[derive(Drop)]
pub struct SchemeSplit<'t> {
    /// The text of the scheme, empty if there is none.
    pub scheme: &'t [u8],
    /// The scheme, if it was recognized by its bytes.
    pub known: Option<RegisteredScheme>,
    /// What follows the scheme's `:`, or the whole text if there is no scheme.
    pub rest: &'t [u8],
    /// Whether there is no scheme, and a `:` precedes the first `/`, `?` and `#`.
    pub has_colon_segment: bool,
}

/// A `:` ends a scheme, and no scheme ends after a `/`, `?` or `#`.
fn ends_scheme(b: u8) -> bool
    ensures { result ≡ spec.ends_scheme b }
{
    matches!(b, b':' | b'/' | b'?' | b'#')
}

/// The index of the first byte that ends a scheme, or after which none ends.
fn end_of_scheme(text: &[u8]) -> Option<usize>
    ensures { result ≡ position spec.ends_scheme text.now }
{
    text.iter().position(|b| ends_scheme(*b))
}

/// The text before that byte, and the rest, which begins with it.
fn split_at_scheme_end(text: &[u8]) -> (&[u8], &[u8])
    ensures front { result.0.now ≡ up_to spec.ends_scheme text.now }
    ensures rest { result.1.now ≡ from_first spec.ends_scheme text.now }
{
    text.split_at(end_of_scheme(text).unwrap_or(text.len()))
}

/// What follows a leading colon.
fn after_colon(rest: &[u8]) -> Option<&[u8]>
    ensures { option_copied result ≡ spec.after_colon rest.now }
{
    match rest {
        [b':', following @ ..] => Some(following),
        _ => None,
    }
}

/// Cuts a text at its scheme.
///
/// Most texts begin with `https:` or `http:`. Only this function treats the two as special: it
/// recognizes them by their bytes, and searches neither for their colon nor for their name.
#[inline(always)]
pub fn split_scheme(text: &[u8]) -> SchemeSplit<'_>
    ensures scheme { if_some result.scheme.now ≡ scheme_text text.now }
    ensures known { IfSome result.known (λ s. result.scheme.now ≡ name_of s) }
    ensures rest { result.rest.now ≡ after_scheme text.now }
    ensures colon { result.has_colon_segment ≡ spec.has_colon_segment text.now }
{
    match text {
        [b'h', b't', b't', b'p', b's', b':', rest @ ..] => SchemeSplit {
            scheme: b"https",
            known: Some(RegisteredScheme::HTTPS),
            rest,
            has_colon_segment: false,
        },
        [b'h', b't', b't', b'p', b':', rest @ ..] => SchemeSplit {
            scheme: b"http",
            known: Some(RegisteredScheme::HTTP),
            rest,
            has_colon_segment: false,
        },
        _ => split_any_scheme(text),
    }
}

/// Cuts a text at its scheme, by a search for the colon.
fn split_any_scheme(text: &[u8]) -> SchemeSplit<'_>
    ensures scheme { if_some result.scheme.now ≡ scheme_text text.now }
    ensures known { IfSome result.known (λ s. result.scheme.now ≡ name_of s) }
    ensures rest { result.rest.now ≡ after_scheme text.now }
    ensures colon { result.has_colon_segment ≡ spec.has_colon_segment text.now }
{
    let (front, rest) = split_at_scheme_end(text);
    let Some(following) = after_colon(rest) else {
        return SchemeSplit {
            scheme: b"",
            known: None,
            rest: text,
            has_colon_segment: false,
        };
    };
    if is_scheme(front) {
        SchemeSplit {
            scheme: front,
            known: None,
            rest: following,
            has_colon_segment: false,
        }
    } else {
        SchemeSplit {
            scheme: b"",
            known: None,
            rest: text,
            has_colon_segment: true,
        }
    }
}

/// The scheme of a cut with this text and, if it was recognized, this registered scheme.
#[inline(always)]
pub fn scheme_if(text: &[u8], known: Option<RegisteredScheme>) -> Option<Scheme<'_>>
    requires text { IfSome (if_some text.now) (λ s. schemes.is_scheme s ≡ true) }
    requires known { IfSome known (λ s. text.now ≡ name_of s) }
    ensures { result ≡ option_map schemes.named (if_some text.now) }
{
    if let Some(scheme) = known {
        return Some(Scheme::Registered(scheme));
    }
    match text {
        [] => None,
        _ => Some(Scheme::of_checked(text)),
    }
}
