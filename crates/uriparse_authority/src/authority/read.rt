//! How an authority is cut and its components are read: RFC 3986, sections 3.2 to 3.2.3.
ghost use Rattle.std.specs.Prelude.{◌≡◌, MatchResult, Err, Ok, IsTrue, [], position, true};
ghost use Rattle.std.specs.Option.{option_copied};
ghost use Rattle.uriparse_text.specs.declared.internal.class.Class.TheVariants as class;
ghost use Rattle.uriparse_text.specs.declared.internal.token.Case.TheVariants as case;
ghost use Rattle.uriparse_text.specs.Cuts.{up_to, from_first};
ghost use Rattle.uriparse_text.specs.Spelling.{IsValidText};
ghost use Rattle.uriparse_authority.specs.Authority as authority;

use super::host::read::{find_host, find_name_host};
use super::password::PasswordKind;
use super::scanned::{ScannedAuthority, found_authority};
use super::username::UsernameKind;
use super::{Authority, AuthorityError, Host, HostError, PortError, parse_port};
use uriparse_text::internal::{
    ByteTest, Case, Class, Held, IsAny, ScannedText, find_text_before, find_text_if, first,
    no_text, split_at_delimiter, split_canonical_prefix, without_delimiter,
};

/// The user information, which is the text before the first `@`, and what follows the `@`; without
/// an `@`, `None` and the whole text.
pub fn split_userinfo(text: &[u8]) -> (Option<&[u8]>, &[u8])
    ensures userinfo { option_copied result.0 ≡ authority.userinfo_text text.now }
    ensures host_and_port { result.1.now ≡ authority.host_and_port_text text.now }
{
    let (userinfo, rest) = split_at_delimiter(text, b'@');
    match without_delimiter(rest) {
        Some(host_and_port) => (Some(userinfo), host_and_port),
        None => (None, text),
    }
}

/// Reads user information, if there is any: the user name, which runs to the first `:`, and the
/// password after it.
fn read_userinfo(
    text: Option<&[u8]>,
) -> Result<(ScannedText<'_, UsernameKind>, ScannedText<'_, PasswordKind>), AuthorityError>
    ensures { result ≡ authority.userinfo_reading (option_copied text.entry) }
{
    let Some(text) = text else {
        return Ok((no_text(), no_text()));
    };
    match find_text_before::<UsernameKind>(text, b':') {
        Ok((username, password)) => Ok((username, find_text_if::<PasswordKind>(password)?)),
        Err(error) => Err(AuthorityError::Username(error)),
    }
}

/// The host and the port, which follows the last `:` that no `]` follows.
pub fn split_port(text: &[u8]) -> (&[u8], Option<&[u8]>)
    ensures host { result.0.now ≡ authority.cut_host text.now }
    ensures port { option_copied result.1 ≡ authority.cut_port text.now }
{
    let mut front = text;
    while let Some((last, before)) = front.split_last() {
        if *last == b':' {
            let (_, port) = text.split_at(front.len());
            return (before, Some(port));
        }
        if *last == b']' {
            break;
        }
        front = before;
    }
    (text, None)
}

/// Finds the authority of a text of the class of names, canonical if so marked: its host alone.
#[inline(always)]
fn find_host_alone(bytes: &[u8], canonical: bool) -> ScannedAuthority<'_>
    requires { IsValidText class.Name case.Lowered canonical bytes.now }
    ensures { authority.reading bytes.now ≡ Ok result }
{
    found_authority(no_text(), no_text(), find_name_host(bytes, canonical), None)
}

/// Finds the authority of a text of any form, by cutting it.
#[inline(never)]
#[tactic(auto, unfolding(crate::specs::Authority::reading))]
fn find_any_authority(bytes: &[u8]) -> Result<ScannedAuthority<'_>, AuthorityError>
    ensures { result ≡ authority.reading bytes.now }
{
    let (userinfo, host_and_port) = split_userinfo(bytes);
    let (host, port) = split_port(host_and_port);
    let (username, password) = read_userinfo(userinfo)?;
    let host = find_host(host)?;
    let port = parse_port(port.unwrap_or(b""))?;
    Ok(found_authority(username, password, host, port))
}

/// The bytes that end an authority.
const ENDS: IsAny = IsAny(b'/', b'?', b'#');

/// The place of the first byte that ends an authority.
fn end_of_authority(text: &[u8]) -> Option<usize>
    ensures { result ≡ position authority.ends_authority text.now }
{
    if text.len() < 16 {
        return text.iter().position(|b| ENDS.has(*b));
    }
    let found = first(&ENDS, text);
    (found < text.len()).then_some(found)
}

/// The authority that the text begins with, up to a `/`, `?` or `#`, and what follows it.
pub fn split_before_path(text: &[u8]) -> (&[u8], &[u8])
    ensures front { result.0.now ≡ up_to authority.ends_authority text.now }
    ensures rest { result.1.now ≡ from_first authority.ends_authority text.now }
{
    text.split_at(end_of_authority(text).unwrap_or(text.len()))
}

/// Whether an authority ends where this rest of a text begins.
#[inline(always)]
fn ends_before(rest: &[u8]) -> bool
    ensures { IsTrue result → (up_to authority.ends_authority rest.now ≡ []) × (from_first authority.ends_authority rest.now ≡ rest.now) }
{
    match rest {
        [b, ..] => ENDS.has(*b),
        [] => true,
    }
}

/// Finds the authority that the text begins with, up to a `/`, `?` or `#`, and what follows it.
/// Both borrow the text, and nothing is allocated. A canonical name, as most authorities are, is
/// walked once.
#[inline(always)]
pub fn find_authority(text: &[u8]) -> Result<(ScannedAuthority<'_>, &[u8]), AuthorityError>
    ensures { MatchResult result (λ r. (authority.front_reading text.now ≡ Ok r.0) × (r.1.now ≡ from_first authority.ends_authority text.now)) (λ e. authority.front_reading text.now ≡ Err e) }
{
    let (name, rest) = split_canonical_prefix(Class::Name, Case::Lowered, text);
    if ends_before(rest) {
        return Ok((find_host_alone(name, true), rest));
    }
    let (front, rest) = split_before_path(text);
    match find_any_authority(front) {
        Ok(found) => Ok((found, rest)),
        Err(error) => Err(error),
    }
}

/// The error of a text that goes on after an authority.
fn rest_error(read: &Authority<'_>) -> AuthorityError
    ensures { result ≡ authority.rest_error read.now.port (authority.kind read.now) }
{
    if read.has_port() {
        return AuthorityError::Port(PortError::InvalidCharacter);
    }
    AuthorityError::Host(match read.host() {
        Host::IPv6Address(_) => HostError::InvalidIPv6Character,
        Host::IPvFuture(_) => HostError::InvalidIPvFutureCharacter,
        _ => HostError::InvalidIPv4OrRegisteredNameCharacter,
    })
}

/// Reads an authority that is the whole text.
pub(super) fn read_whole(bytes: &[u8]) -> Result<Authority<'_>, AuthorityError>
    ensures { result ≡ authority.whole_reading bytes.now }
{
    let (found, rest) = find_authority(bytes)?;
    let read = Held(found.to_authority());
    if rest.is_empty() {
        Ok(read.take())
    } else {
        Err(rest_error(&read.0))
    }
}
