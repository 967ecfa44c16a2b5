//! The labels of names, from the last one on: RFC 1034, section 3.1, and RFC 3986, section 3.2.2.
ghost use Rattle.std.specs.Prelude.{◌≡◌, ◌∷◌, ◌++◌, ◌<◌, [], IfSome, MatchOption, length, reverse, true};
ghost use Rattle.std.specs.List.{list_any, slice_split};
ghost use Rattle.uriparse_text.specs.Bytes.{is_hex};
ghost use Rattle.uriparse_text.specs.Canonical.{canonical_lowered, canonical_token};
ghost use Rattle.uriparse_text.specs.Ends.{Puts};
ghost use Rattle.uriparse_text.specs.Tokens.{is_well_formed, spell};
ghost use Rattle.uriparse_text.specs.declared.internal.token.Case.TheVariants as case;
ghost use Rattle.uriparse_text.specs.declared.internal.token.Token.TheVariants.{Escape};
ghost use Rattle.uriparse_authority.specs.Within as hosts;
ghost use Rattle.uriparse.specs.PlaceKey as spec;

use crate::sort_key::prepend_ended;
use uriparse_authority::authority::Ipv4Addr;
use uriparse_text::internal::{
    Case, Form, is_escape, is_unreserved, octet_of, prepend, prepend_formed,
};

/// The unreserved byte that an escape stands for, else `%`.
fn octet_of_escape(high: u8, low: u8) -> u8
    requires high { is_hex high ≡ true }
    requires low { is_hex low ≡ true }
    ensures { hosts.HasOctet result (spell (canonical_token case.Lowered (Escape high low))) }
{
    let octet = octet_of(high, low);
    if is_unreserved(octet) { octet } else { b'%' }
}

/// The first byte of a name's text, or the unreserved byte that a first escape stands for, and what
/// follows.
fn split_octet(text: &[u8]) -> Option<(u8, &[u8])>
    ensures cut { MatchOption result (text.now ≡ []) (λ x. hosts.BeginsWithOctet x.0 text.now x.1.now) }
    ensures token { is_well_formed text.now ≡ true → IfSome result (λ x. spec.BeginsWithToken x.0 text.now x.1.now) }
    ensures formed { is_well_formed text.now ≡ true → IfSome result (λ x. is_well_formed x.1.now ≡ true) }
    ensures shorter { IfSome result (λ x. length x.1.now < length text.now) }
{
    let (&b, after) = text.split_first()?;
    if is_escape(b, after) {
        Some((octet_of_escape(after[0], after[1]), &after[2..]))
    } else {
        Some((b, after))
    }
}

/// The text before the first dot, plain or escaped, and what follows that.
fn split_label(text: &[u8]) -> Option<(&[u8], &[u8])>
    requires { is_well_formed text.now ≡ true }
    ensures cut { MatchOption result (slice_split hosts.is_dot (canonical_lowered text.now) ≡ canonical_lowered text.now ∷ []) (λ x. slice_split hosts.is_dot (canonical_lowered text.now) ≡ canonical_lowered x.0.now ∷ slice_split hosts.is_dot (canonical_lowered x.1.now)) }
    ensures formed { IfSome result (λ x. is_well_formed x.1.now ≡ true) }
    ensures shorter { IfSome result (λ x. length x.1.now < length text.now) }
{
    let mut rest = text;
    'octets: while let Some((octet, after)) = split_octet(rest) {
        if octet == b'.' {
            return Some((&text[..text.len() - rest.len()], after));
        }
        rest = after;
    }
    None
}

/// Whether a dot is first or last, or follows another one, or the text is empty.
fn has_empty_label(text: &[u8]) -> bool
    ensures { result ≡ list_any hosts.is_empty (slice_split hosts.is_dot (canonical_lowered text.now)) }
{
    let mut begins = true;
    let mut rest = text;
    'octets: while let Some((octet, after)) = split_octet(rest) {
        let is_dot = octet == b'.';
        if begins && is_dot {
            return true;
        }
        begins = is_dot;
        rest = after;
    }
    begins
}

/// Whether the canonical spelling of a name has an escape.
fn has_escape(text: &[u8]) -> bool
    ensures { result ≡ hosts.has_escape (canonical_lowered text.now) }
{
    let mut rest = text;
    'octets: while let Some((octet, after)) = split_octet(rest) {
        if octet == b'%' {
            return true;
        }
        rest = after;
    }
    false
}

/// Whether the canonical spelling of a text is an IPv4 address, which has at most 15 bytes.
fn spells_address(text: &[u8]) -> bool
    ensures { result ≡ hosts.is_address (canonical_lowered text.now) }
{
    let mut buffer = [0; 15];
    let len = prepend_formed(Form::Canonical, Case::Lowered, text, &mut buffer, 0);
    len <= 15 && Ipv4Addr::parse_bytes(&buffer[15 - len..]).is_some()
}

/// A name without a dot at its end, plain or escaped, and whether there was one.
fn split_end_dot(text: &[u8]) -> (&[u8], bool)
    requires { is_well_formed text.now ≡ true }
    ensures spelled { canonical_lowered result.0.now ≡ hosts.without_end_dot (canonical_lowered text.now) }
    ensures dot { result.1 ≡ spec.ends_with_dot (canonical_lowered text.now) }
    ensures formed { is_well_formed result.0.now ≡ true }
{
    if let Some(front) = text.strip_suffix(b".") {
        return (front, true);
    }
    if let Some(front) = text.strip_suffix(b"%2E") {
        return (front, true);
    }
    match text.strip_suffix(b"%2e") {
        Some(front) => (front, true),
        None => (text, false),
    }
}

/// Whether a name without a dot at its end can be within a domain other than itself.
fn has_labels(text: &[u8]) -> bool
    ensures { result ≡ spec.are_labels (canonical_lowered text.now) }
{
    !has_empty_label(text) && !has_escape(text) && !spells_address(text)
}

/// Puts the labels from the last one on, each ended.
fn prepend_labels(text: &[u8], out: &mut [u8], len: usize) -> usize
    requires { is_well_formed text.now ≡ true }
    ensures room { length out.new ≡ length out.old }
    ensures puts { Puts (spec.reversed_labels (slice_split hosts.is_dot (canonical_lowered text.now))) out.old len out.new result }
{
    let mut total = len;
    let mut rest = text;
    'labels: while let Some((label, after)) = split_label(rest) {
        total = prepend_ended(Case::Lowered, label, out, total);
        rest = after;
    }
    prepend_ended(Case::Lowered, rest, out, total)
}

/// Puts the prefix of a name.
pub(super) fn prepend_name(name: &[u8], out: &mut [u8], len: usize) -> usize
    requires { is_well_formed name.now ≡ true }
    ensures room { length out.new ≡ length out.old }
    ensures puts { Puts (spec.name_prefix (canonical_lowered name.now)) out.old len out.new result }
{
    let (front, _) = split_end_dot(name);
    if has_labels(front) {
        let len = prepend_labels(front, out, len);
        prepend(b"1", out, len)
    } else {
        let len = prepend_ended(Case::Lowered, name, out, len);
        prepend(b"2", out, len)
    }
}

/// Whether a name ends with a dot, plain or escaped.
pub(super) fn ends_with_dot(name: &[u8]) -> bool
    requires { is_well_formed name.now ≡ true }
    ensures { result ≡ spec.ends_with_dot (canonical_lowered name.now) }
{
    let (_, dot) = split_end_dot(name);
    dot
}
