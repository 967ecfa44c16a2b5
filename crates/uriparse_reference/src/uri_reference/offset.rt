//! Where the fault of a text is.
ghost use Rattle.std.specs.Prelude.{◌≡◌, ◌<◌, ◌≤◌, ◌||◌, ◌==◌, IfSome, Some, length};
ghost use Rattle.uriparse_text.specs.declared.internal.class.Class.TheVariants as class;
ghost use Rattle.uriparse_text.specs.Bytes.{number_sign};
ghost use Rattle.uriparse_text.specs.Classes.{is_plain};
ghost use Rattle.uriparse_text.specs.Cuts.{part};
ghost use Rattle.uriparse_text.specs.Offset as text_offset;
ghost use Rattle.uriparse_text.specs.Offset.{offset_after};
ghost use Rattle.uriparse_text.specs.Tokens.{is_escape};
ghost use Rattle.uriparse_authority.specs.Offset as authority;
ghost use Rattle.uriparse_reference.specs.declared.uri_reference.error.URIReferenceError.TheVariants as errors;
ghost use Rattle.uriparse_reference.specs.Cuts.{cut_authority};
ghost use Rattle.uriparse_reference.specs.Offset as spec;

use super::error::URIReferenceError;
use super::read::split_authority;
use uriparse_authority::authority::AuthorityError;
use uriparse_authority::internal::offset_in_authority;
use uriparse_path::internal::offset_of_path_fault;
use uriparse_path::path::PathError;
use uriparse_scheme::internal::split_scheme;
use uriparse_text::internal::{
    Class, TextKind, is_escape, offset_of_fault, split_at_delimiter, without_delimiter,
};
use uriparse_text::segment::SegmentKind;

/// Whether a byte, before these, may be right as the first of a text: a path has it, or an escape
/// begins with it, or it is a delimiter.
fn may_come_first(b: u8, after: &[u8]) -> bool
    ensures { result ≡ (is_plain class.Query b || (b == number_sign || is_escape b after.now)) }
{
    Class::Query.has(b) || b == b'#' || is_escape(b, after)
}

/// The fault of a text that is wrong at its first byte, which is found before the search for a scheme
/// walks the text. Neither a scheme nor an authority begins with such a byte, so it is the first of
/// the path, and the first fault is there whatever follows.
pub(super) fn first_byte_fault(text: &[u8]) -> Option<PathError>
    ensures offset { IfSome result (λ e. spec.first_fault text.now ≡ Some (0, errors.Path e)) }
    ensures some { IfSome result (λ _. 0 < length text.now) }
{
    let (b, after) = text.split_first()?;
    match may_come_first(*b, after) {
        true => None,
        false => Some(SegmentKind::error_of(*b)),
    }
}

/// The place of this error in what follows a scheme.
fn authority_offset(error: &AuthorityError, text: &[u8]) -> usize
    ensures offset { result ≡ offset_after 2 (authority.fault_offset error.now) (cut_authority text.now) }
    ensures within { result ≤ length text.now }
{
    match split_authority(text).0 {
        Some(authority) => 2 + offset_in_authority(error, authority),
        None => 0,
    }
}

/// The place of the fault of a query or a fragment, from its delimiter on.
fn component_offset(text: &[u8]) -> usize
    ensures offset { result ≡ offset_after 1 (text_offset.fault_offset class.Query) (part text.now) }
    ensures within { result ≤ length text.now }
{
    match without_delimiter(text) {
        Some(component) => 1 + offset_of_fault(Class::Query, component),
        None => 0,
    }
}

/// The place of this error in what follows the authority.
fn tail_offset(error: &URIReferenceError, text: &[u8]) -> usize
    ensures offset { result ≡ spec.tail_offset error.now text.now }
    ensures within { result ≤ length text.now }
{
    let (front, fragment) = split_at_delimiter(text, b'#');
    let (path, query) = split_at_delimiter(front, b'?');
    match error {
        URIReferenceError::Path(_) => offset_of_path_fault(path),
        URIReferenceError::Query(_) => path.len() + component_offset(query),
        URIReferenceError::Fragment(_) => front.len() + component_offset(fragment),
        _ => 0,
    }
}

/// The place of this error in the text of a reference. Does not allocate.
pub(super) fn offset_of(error: &URIReferenceError, text: &[u8]) -> usize
    ensures offset { result ≡ spec.fault_offset error.now text.now }
    ensures within { result ≤ length text.now }
{
    let rest = split_scheme(text).rest;
    let (_, following) = split_authority(rest);
    match error {
        URIReferenceError::Authority(error) => {
            text.len() - rest.len() + authority_offset(error, rest)
        }
        URIReferenceError::Scheme(_) => 0,
        _ => text.len() - following.len() + tail_offset(error, following),
    }
}
