//! A host that a reader found: plain words that need no drop.
ghost use Rattle.std.specs.Prelude.{◌≡◌, ◌==◌, IfSome, IsTrue, false};
ghost use Rattle.uriparse_authority.specs.declared.authority.host.Host.TheVariants as hosts;
ghost use Rattle.uriparse_text.specs.declared.internal.class.Class.TheVariants as class;
ghost use Rattle.uriparse_text.specs.declared.internal.token.Case.TheVariants as case;
ghost use Rattle.uriparse_text.specs.Spelling.{IsValidText};
ghost use Rattle.uriparse_authority.specs.Future.{IsFuture};
ghost use Rattle.uriparse_authority.specs.Host.{Valid, kind, kind_code};
ghost use Rattle.uriparse_authority.specs.Scanned.{IsCanonicalName, IsNameOf, scanned_host};

use super::super::future::IPvFuture;
use super::super::name::RegisteredName;
use super::Host;
use std::marker::Model;
use uriparse_text::address::{Ipv4Addr, Ipv6Addr};

/// The bytes of a name or of an address of a later version, or an IPv4 or IPv6 address. Contracts
/// see it as the host.
#[derive(Drop)]
pub(in crate::authority) struct ScannedHost<'h> {
    // 0 a name, 4, 6 and 7 an address: a word, since a narrow tag would be moved with its padding.
    kind: usize,
    text: &'h [u8],
    // 1 if the name is canonical.
    canonical: usize,
    ipv6: Ipv6Addr,
    ipv4: Ipv4Addr,
}

impl<'h> Model for ScannedHost<'h> {
    ghost use Rattle.std.specs.Prelude.{◌≡◌, ◌==◌, true};
    ghost use Rattle.uriparse_text.specs.declared.internal.token.Case.TheVariants as case;
    ghost use Rattle.uriparse_text.specs.Canonical.{canonical_in};
    ghost use Rattle.uriparse_authority.specs.declared.authority.host.Host.{Host};
    ghost use Rattle.uriparse_authority.specs.Host.{Valid};
    ghost use Rattle.uriparse_authority.specs.Scanned.{scanned_host};

    ghost Value = { Host };

    ghost view = { λ f. scanned_host f.kind f.text.now f.ipv4 f.ipv6 };

    ghost invariant = { λ f. Valid (scanned_host f.kind f.text.now f.ipv4 f.ipv6) × ((f.canonical == 1) ≡ true → canonical_in case.Lowered f.text.now ≡ f.text.now) };
}

/// A name with these bytes, canonical if so marked.
#[inline(always)]
pub(in crate::authority) fn found_name(bytes: &[u8], canonical: bool) -> ScannedHost<'_>
    requires { IsValidText class.Name case.Lowered canonical bytes.now }
    ensures { result ≡ hosts.RegisteredName bytes.now }
{
    ScannedHost {
        kind: 0,
        text: bytes,
        canonical: usize::from(canonical),
        ipv6: Ipv6Addr::new(0, 0, 0, 0, 0, 0, 0, 0),
        ipv4: Ipv4Addr::new(0, 0, 0, 0),
    }
}

/// An IPv4 address.
#[inline(always)]
pub(in crate::authority) fn found_ipv4(address: Ipv4Addr) -> ScannedHost<'static>
    ensures { result ≡ hosts.IPv4Address address }
{
    ScannedHost {
        kind: 4,
        text: b"",
        canonical: 0,
        ipv6: Ipv6Addr::new(0, 0, 0, 0, 0, 0, 0, 0),
        ipv4: address,
    }
}

/// An IPv6 address.
pub(super) fn found_ipv6(address: Ipv6Addr) -> ScannedHost<'static>
    ensures { result ≡ hosts.IPv6Address address }
{
    ScannedHost {
        kind: 6,
        text: b"",
        canonical: 0,
        ipv6: address,
        ipv4: Ipv4Addr::new(0, 0, 0, 0),
    }
}

/// An address of a later version with these bytes.
pub(super) fn found_future(bytes: &[u8]) -> ScannedHost<'_>
    requires { IsFuture bytes.now }
    ensures { result ≡ hosts.IPvFuture bytes.now }
{
    ScannedHost {
        kind: 7,
        text: bytes,
        canonical: 0,
        ipv6: Ipv6Addr::new(0, 0, 0, 0, 0, 0, 0, 0),
        ipv4: Ipv4Addr::new(0, 0, 0, 0),
    }
}

impl<'h> ScannedHost<'h> {
    /// Whether this is a name of this many bytes that is known to be canonical.
    #[inline(always)]
    pub(in crate::authority) fn is_canonical_name(&self, len: usize) -> bool
        ensures { IsTrue result → IsCanonicalName self.now len }
    {
        self.kind == 0 && self.canonical == 1 && self.text.len() == len
    }

    /// The length of the name and whether it is known to be canonical, if this is a name.
    #[inline(always)]
    pub(in crate::authority) fn name_words(&self) -> Option<(usize, bool)>
        ensures { IfSome result (λ w. IsNameOf w.0 w.1 self.now) }
    {
        if self.kind == 0 {
            Some((self.text.len(), self.canonical == 1))
        } else {
            None
        }
    }

    /// The number of the host's kind: 1 for a name, and 4, 6 or 7 for an address of that version.
    pub(in crate::authority) fn kind_code(&self) -> u32
        ensures { result ≡ kind_code (kind self.now) }
    {
        if self.kind == 0 {
            1
        } else if self.kind == 4 {
            4
        } else if self.kind == 7 {
            7
        } else {
            6
        }
    }

    /// The host, whose text borrows the bytes. Does not allocate.
    #[inline(always)]
    pub(in crate::authority) fn to_host(&self) -> Host<'h>
        ensures { result ≡ self.now }
    {
        if self.kind == 0 {
            Host::RegisteredName(RegisteredName::from_checked(self.text, self.canonical == 1))
        } else {
            address_host(self.kind, self.text, self.ipv4, self.ipv6)
        }
    }
}

/// The host that is an address of this kind, in a call of its own: most hosts are names. It takes
/// words and no reference, which would keep all that a reader found in memory.
#[inline(never)]
fn address_host(kind: usize, text: &[u8], ipv4: Ipv4Addr, ipv6: Ipv6Addr) -> Host<'_>
    requires address { (kind == 0) ≡ false }
    requires valid { Valid (scanned_host kind text.now ipv4 ipv6) }
    ensures { result ≡ scanned_host kind text.now ipv4 ipv6 }
{
    if kind == 4 {
        Host::IPv4Address(ipv4)
    } else if kind == 7 {
        Host::IPvFuture(IPvFuture::of_checked(text))
    } else {
        Host::IPv6Address(ipv6)
    }
}
