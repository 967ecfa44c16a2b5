//! How a host is read: RFC 3986, section 3.2.2.
ghost use Rattle.std.specs.Prelude.{◌≡◌};
ghost use Rattle.std.specs.Option.{option_copied};
ghost use Rattle.std.specs.List.{list_all};
ghost use Rattle.uriparse_text.specs.declared.internal.class.Class.TheVariants as class;
ghost use Rattle.uriparse_text.specs.declared.internal.token.Case.TheVariants as case;
ghost use Rattle.uriparse_text.specs.Address.{is_ipv6_byte};
ghost use Rattle.uriparse_text.specs.Spelling.{IsValidText};
ghost use Rattle.uriparse_authority.specs.Future as future;
ghost use Rattle.uriparse_authority.specs.Host as host;

use super::super::future::{begins_future, future_fault};
use super::HostError;
use super::scanned::{ScannedHost, found_future, found_ipv4, found_ipv6, found_name};
use uriparse_text::address::{Ipv4Addr, Ipv6Addr};
use uriparse_text::internal::{Case, Class, check_bytes};

/// The text before a closing bracket at its end, if there is one.
fn before_closing(bytes: &[u8]) -> Option<&[u8]>
    ensures { option_copied result ≡ host.closed bytes.now }
{
    let (last, inner) = bytes.split_last()?;
    if *last == b']' { Some(inner) } else { None }
}

/// The text between brackets, if the text begins and ends with them.
pub(in crate::authority) fn in_brackets(bytes: &[u8]) -> Option<&[u8]>
    ensures { option_copied result ≡ host.in_brackets bytes.now }
{
    match bytes {
        [b'[', rest @ ..] => before_closing(rest),
        _ => None,
    }
}

fn are_ipv6_bytes(bytes: &[u8]) -> bool
    ensures { result ≡ list_all is_ipv6_byte bytes.now }
{
    bytes
        .iter()
        .all(|b| b.is_ascii_hexdigit() || *b == b':' || *b == b'.')
}

/// Reads an address of a later version.
fn read_future(bytes: &[u8]) -> Result<ScannedHost<'_>, HostError>
    ensures { result ≡ host.future_host (future.reading bytes.now) }
{
    match future_fault(bytes) {
        Some(error) => Err(error),
        None => Ok(found_future(bytes)),
    }
}

/// Reads the text between brackets.
#[inline(never)]
fn read_literal(bytes: &[u8]) -> Result<ScannedHost<'_>, HostError>
    ensures { result ≡ host.literal_reading bytes.now }
{
    if begins_future(bytes) {
        return read_future(bytes);
    }
    if !are_ipv6_bytes(bytes) {
        return Err(HostError::InvalidIPv6Character);
    }
    match Ipv6Addr::parse_bytes(bytes) {
        Some(address) => Ok(found_ipv6(address)),
        None => Err(HostError::InvalidIPv6Format),
    }
}

/// Finds the host that a text of the class of names spells, canonical if so marked: an IPv4 address,
/// or else a name.
#[inline(always)]
pub(in crate::authority) fn find_name_host(bytes: &[u8], canonical: bool) -> ScannedHost<'_>
    requires { IsValidText class.Name case.Lowered canonical bytes.now }
    ensures { host.Spells bytes.now result }
{
    if let Some(address) = Ipv4Addr::parse_bytes(bytes) {
        return found_ipv4(address);
    }
    found_name(bytes, canonical)
}

/// Reads a text without brackets, which is of the class of names.
fn read_name(bytes: &[u8]) -> Result<ScannedHost<'_>, HostError>
    ensures { result ≡ host.name_reading bytes.now }
{
    match check_bytes(Class::Name, Case::Lowered, bytes) {
        Err(_) => Err(HostError::InvalidIPv4OrRegisteredNameCharacter),
        Ok(canonical) => Ok(find_name_host(bytes, canonical)),
    }
}

/// Finds a host, whose text borrows the bytes. Does not allocate.
pub(in crate::authority) fn find_host(bytes: &[u8]) -> Result<ScannedHost<'_>, HostError>
    ensures { result ≡ host.reading bytes.now }
{
    match in_brackets(bytes) {
        Some(inner) => read_literal(inner),
        None => read_name(bytes),
    }
}
