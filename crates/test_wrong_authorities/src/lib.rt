//! Promises of hosts and authorities. In `must-fail` stand wrong bodies, as in `test_wrong_texts`.
#![tactic(auto)]

ghost use Rattle.std.specs.Prelude.{◌≡◌, ◌↔◌, IsTrue, Ok, OnOk, Some, bytes_eq};
ghost use Rattle.std.specs.Fmt.{DisplaysOnOk};
ghost use Rattle.uriparse_text.specs.Canonical.{canonical_lowered};
ghost use Rattle.uriparse_authority.specs.Authority as authorities;
ghost use Rattle.uriparse_authority.specs.Authority.{with_host, with_username};
ghost use Rattle.uriparse_authority.specs.Host.{key, reading, text};
ghost use Rattle.uriparse_authority.specs.Normal.{canonical_host};
ghost use Rattle.uriparse_authority.specs.Public.{IsPublic, address_of as spec_address_of};
ghost use Rattle.uriparse_authority.specs.Within.{IsWithin, has_escapes as spec_has_escapes};
ghost use Rattle.uriparse_authority.specs.Order.{authority_key_cmp, host_key_cmp};

use std::alloc::{AllocError, Global};
use std::cmp::Ordering;
use std::fmt;
use uriparse_authority::authority::{
    Authority, AuthorityError, Host, HostError, IPvFuture, IpAddr, Username,
};

/// Reads a host.
pub fn read_host(bytes: &[u8]) -> Result<Host<'_>, HostError>
    ensures { result ≡ reading bytes.now }
{
    Host::try_from_bytes(bytes)
}

/// Writes a host.
pub fn write_host<W: fmt::Write>(host: &Host<'_>, f: &mut fmt::Formatter<W>) -> fmt::Result
    ensures { DisplaysOnOk W.write_str_gives f.old result (Some (text host.now)) f.new }
{
    fmt::Display::fmt(host, f)
}

/// Puts a host in canonical spelling.
pub fn normalize_host(host: &mut Host<'_>, alloc: Global) -> Result<(), AllocError>
    ensures { OnOk result (host.new ≡ canonical_host host.old) }
{
    host.normalize(alloc)
}

/// Whether two addresses of later versions are equal, so that they differ at most in case.
pub fn same_address(left: &IPvFuture<'_>, right: &IPvFuture<'_>) -> bool
    ensures { result ≡ bytes_eq (canonical_lowered left.now) (canonical_lowered right.now) }
{
    left.eq(right)
}

/// Whether two hosts are equal: of one kind, and of one canonical spelling.
pub fn same_host(left: &Host<'_>, right: &Host<'_>) -> bool
    ensures { result ≡ bytes_eq (key left.now) (key right.now) }
{
    left == right
}

/// Whether a host is a domain or within it.
pub fn is_within(host: &Host<'_>, domain: &Host<'_>) -> bool
    ensures { IsTrue result ↔ IsWithin host.now domain.now }
{
    host.is_within(domain)
}

/// Whether a host is a name whose canonical spelling has an escape.
pub fn has_escapes(host: &Host<'_>) -> bool
    ensures { result ≡ spec_has_escapes host.now }
{
    host.has_escapes()
}

/// Whether a host leads anywhere on the Internet, as far as its text says.
pub fn is_public(host: &Host<'_>) -> bool
    ensures { IsTrue result ↔ IsPublic host.now }
{
    host.is_public()
}

/// The address that a host is.
pub fn address_of(host: &Host<'_>) -> Option<IpAddr>
    ensures { result ≡ spec_address_of host.now }
{
    host.address()
}

/// Sets an authority's user name, or takes it away, with the password.
pub fn set_username<'a>(
    authority: &mut Authority<'a>,
    username: Option<Username<'a>>,
) -> Result<(), AuthorityError>
    ensures answer { result ≡ Ok tt }
    ensures value { authority.new ≡ with_username authority.old username.entry }
{
    authority.set_username(username)
}

/// Sets an authority's host.
pub fn set_host<'a>(authority: &mut Authority<'a>, host: Host<'a>) -> Result<(), AuthorityError>
    ensures answer { result ≡ Ok tt }
    ensures value { authority.new ≡ with_host authority.old host.entry }
{
    authority.set_host(host)
}

/// Compares two hosts: their kinds, and then their numbers or canonical spellings.
pub fn compare_hosts(left: &Host<'_>, right: &Host<'_>) -> Ordering
    ensures { result ≡ host_key_cmp (key left.now) (key right.now) }
{
    left.cmp(right)
}

/// Compares two authorities, component by component.
pub fn compare_authorities(left: &Authority<'_>, right: &Authority<'_>) -> Ordering
    ensures { result ≡ authority_key_cmp (authorities.key left.now) (authorities.key right.now) }
{
    Ord::cmp(left, right)
}
