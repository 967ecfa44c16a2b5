//! A host: RFC 3986, section 3.2.2.
ghost use Rattle.std.specs.Prelude.{◌≡◌, ◌↔◌, ◌≤◌, IsTrue, IsOk, IfOk, OnOk, OnErr, Some, bytes_eq, fold, length, string_bytes, unwrap_or};
ghost use Rattle.std.proofs.Common.{rules};
ghost use Rattle.std.specs.Ordering.{on};
ghost use Rattle.std.specs.Cmp.Rules.{comparing, hashing};
ghost use Rattle.uriparse_authority.specs.Host as spec;
ghost use Rattle.uriparse_authority.specs.Normal.{canonical_host};

use super::error::HostError;
use super::future::IPvFuture;
use super::name::RegisteredName;
use std::alloc::{AllocError, Global};
use std::fmt;
use std::fmt::Write;
use std::hash::{Hash, Hasher};
use uriparse_text::address::{IpAddr, Ipv4Addr, Ipv6Addr};

pub(in crate::authority) mod read;
pub(in crate::authority) mod scanned;

use read::find_host;

/// The host of an authority: an IPv4 address; an IPv6 address or one of a later version, in
/// brackets; or a registered name. RFC 3986, section 3.2.2.
///
/// IPv4 and IPv6 addresses are held by value. An address of a later version and a name borrow the
/// text that they were read from, or own their text. The readers do not allocate; [`HostError`]
/// says what they reject. Two hosts are equal if they are of one kind and their canonical spellings
/// agree, so the name `%31.2.3.4` isn't the address `1.2.3.4`.
///
/// ```
/// let host = Host::try_from_str("[::FFFF:1.2.3.4]")?;
/// assert!(host.is_ipv6_address());
/// assert_eq!(host.to_string(alloc)?.as_str(), "[::ffff:1.2.3.4]");
/// ```
#[derive(Drop)]
pub enum Host<'h> {
    /// An IPv4 address.
    IPv4Address(Ipv4Addr),
    /// An IPv6 address.
    IPv6Address(Ipv6Addr),
    /// An address of a later version, without its brackets.
    IPvFuture(IPvFuture<'h>),
    /// A name, possibly empty.
    RegisteredName(RegisteredName<'h>),
}

impl<'h> Host<'h> {
    /// Reads a host. A name and an address of a later version borrow the bytes. Does not allocate.
    ///
    /// A text in brackets is an IPv6 address, or an [`IPvFuture`] if it begins with `v` or `V`; any
    /// other text is the IPv4 address that it spells, or else a name. Between brackets, an
    /// [`IPvFuture`] fails as [its own reader](IPvFuture::try_from_bytes) does, an IPv6 address
    /// with [`InvalidIPv6Character`](HostError::InvalidIPv6Character) for a byte that no such
    /// address has, else with [`InvalidIPv6Format`](HostError::InvalidIPv6Format). Without
    /// brackets, a byte that is not allowed in a name and a broken escape fail with
    /// [`InvalidIPv4OrRegisteredNameCharacter`](HostError::InvalidIPv4OrRegisteredNameCharacter).
    pub fn try_from_bytes(bytes: &'h [u8]) -> Result<Host<'h>, HostError>
        ensures { result ≡ spec.reading bytes.now }
    {
        match find_host(bytes) {
            Ok(found) => Ok(found.to_host()),
            Err(error) => Err(error),
        }
    }

    /// Like [`try_from_bytes`](Host::try_from_bytes), for a `str`.
    pub fn try_from_str(text: &'h str) -> Result<Host<'h>, HostError>
        ensures { result ≡ spec.reading text.now }
    {
        Host::try_from_bytes(text.as_bytes())
    }

    /// Whether the host is an IPv4 address.
    pub fn is_ipv4_address(&self) -> bool
        ensures { IsTrue result ↔ (spec.kind self.now ≡ spec.V4) }
    {
        matches!(self, Host::IPv4Address(_))
    }

    /// Whether the host is an IPv6 address.
    pub fn is_ipv6_address(&self) -> bool
        ensures { IsTrue result ↔ (spec.kind self.now ≡ spec.V6) }
    {
        matches!(self, Host::IPv6Address(_))
    }

    /// Whether the host is an address of a later version.
    pub fn is_ipvfuture_address(&self) -> bool
        ensures { IsTrue result ↔ (spec.kind self.now ≡ spec.Future) }
    {
        matches!(self, Host::IPvFuture(_))
    }

    /// Whether the host is a registered name.
    pub fn is_registered_name(&self) -> bool
        ensures { IsTrue result ↔ (spec.kind self.now ≡ spec.Name) }
    {
        matches!(self, Host::RegisteredName(_))
    }

    /// Whether the host is empty, as in `file:///a`: a registered name without a byte.
    pub fn is_empty(&self) -> bool
        ensures { result ≡ spec.is_empty self.now }
    {
        match self {
            Host::RegisteredName(name) => name.as_bytes().is_empty(),
            _ => false,
        }
    }

    /// A copy that borrows this host's text. Does not allocate.
    pub fn as_borrowed(&self) -> Host<'_>
        ensures { result ≡ self.now }
    {
        match self {
            Host::IPv4Address(address) => Host::IPv4Address(*address),
            Host::IPv6Address(address) => Host::IPv6Address(*address),
            Host::IPvFuture(address) => Host::IPvFuture(address.as_borrowed()),
            Host::RegisteredName(name) => Host::RegisteredName(name.as_borrowed()),
        }
    }

    /// The host, owned. Borrowed text is copied, which allocates; if memory runs out, the host
    /// is dropped. An IPv4 or IPv6 address is never dropped: it has no text to copy.
    pub fn into_owned(self, alloc: Global) -> Result<Host<'static>, AllocError>
        ensures value { IfOk result (λ h. h ≡ self.entry) }
        ensures takes_no_memory { (a : IpAddr) → self.entry ≡ spec.host_at a → IsOk result }
    {
        match self {
            Host::IPv4Address(address) => Ok(Host::IPv4Address(address)),
            Host::IPv6Address(address) => Ok(Host::IPv6Address(address)),
            Host::IPvFuture(address) => Ok(Host::IPvFuture(address.into_owned(alloc)?)),
            Host::RegisteredName(name) => Ok(Host::RegisteredName(name.into_owned(alloc)?)),
        }
    }

    /// A copy that owns its text, in one call. Allocates, but not for an IPv4 or IPv6 address.
    pub fn to_owned(&self, alloc: Global) -> Result<Host<'static>, AllocError>
        ensures value { IfOk result (λ h. h ≡ self.now) }
        ensures takes_no_memory { (a : IpAddr) → self.now ≡ spec.host_at a → IsOk result }
    {
        self.as_borrowed().into_owned(alloc)
    }

    /// Whether the host's text is its canonical spelling: RFC 3986, section 6.2.2. The text of an
    /// IPv4 or IPv6 address always is. Does not allocate.
    pub fn is_normalized(&self) -> bool
        ensures { IsTrue result ↔ (spec.text (canonical_host self.now) ≡ spec.text self.now) }
    {
        match self {
            Host::IPv4Address(_) | Host::IPv6Address(_) => true,
            Host::IPvFuture(address) => address.is_normalized(),
            Host::RegisteredName(name) => name.is_normalized(),
        }
    }

    /// A canonical copy of a host whose text isn't canonical, else none. Allocates only for such a
    /// host.
    pub(super) fn canonical_copy(&self, alloc: Global) -> Result<Option<Host<'static>>, AllocError>
        ensures copy { IfOk result (λ copy. unwrap_or copy self.now ≡ canonical_host self.now) }
        ensures takes_no_memory { spec.text (canonical_host self.now) ≡ spec.text self.now → IsOk result }
    {
        match self {
            Host::IPv4Address(_) | Host::IPv6Address(_) => Ok(None),
            Host::IPvFuture(address) => {
                if address.is_normalized() {
                    return Ok(None);
                }
                Ok(Some(Host::IPvFuture(address.to_normalized(alloc)?)))
            }
            Host::RegisteredName(name) => {
                if name.is_normalized() {
                    return Ok(None);
                }
                Ok(Some(Host::RegisteredName(name.to_normalized(alloc)?)))
            }
        }
    }

    /// Puts a name or an address of a later version in canonical spelling, with letters in lower
    /// case: RFC 3986, section 6.2.2. A name stays a name, even if its text then spells an IPv4
    /// address. IPv4 and IPv6 addresses do not change. A second call changes nothing. Allocates
    /// only if the text changes; if memory runs out, the host is unchanged.
    pub fn normalize(&mut self, alloc: Global) -> Result<(), AllocError>
        ensures ok { OnOk result (self.new ≡ canonical_host self.old) }
        ensures err { OnErr result (self.new ≡ self.old) }
        ensures takes_no_memory { spec.text (canonical_host self.old) ≡ spec.text self.old → IsOk result }
    {
        match self {
            Host::IPv4Address(_) | Host::IPv6Address(_) => Ok(()),
            Host::IPvFuture(address) => address.normalize(alloc),
            Host::RegisteredName(name) => name.normalize(alloc),
        }
    }

    /// Does nothing. The host is valid, which is known once its address or its text is read.
    pub(crate) fn assert_valid(&self)
        ensures { spec.Valid self.now }
    {
        match self {
            Host::IPv4Address(address) => {
                address.octets();
            }
            Host::IPv6Address(address) => {
                address.segments();
            }
            Host::IPvFuture(address) => {
                address.as_str();
            }
            Host::RegisteredName(name) => {
                name.as_str();
            }
        }
    }

    /// An upper bound on the number of bytes of the host's text.
    pub(super) fn most_bytes(&self) -> usize
        ensures { length (spec.text self.now) ≤ result }
    {
        match self {
            // At most three digits of each octet, and dots between them.
            Host::IPv4Address(address) => 4 * address.octets().len() - 1,
            // At most four digits of each group, colons between them, and two brackets.
            Host::IPv6Address(address) => 5 * address.segments().len() + 1,
            Host::IPvFuture(address) => address.as_str().len() + 2,
            Host::RegisteredName(name) => name.as_str().len(),
        }
    }

    /// A copy of the host's text. Allocates.
    pub fn to_string(&self, alloc: Global) -> Result<String, AllocError>
        ensures { IfOk result (λ s. string_bytes s ≡ spec.text self.now) }
    {
        let mut text = String::with_capacity(alloc, self.most_bytes())?;
        write!(text, "{self}")?;
        Ok(text)
    }
}

impl<'h> From<Ipv4Addr> for Host<'h> {
    ghost use Rattle.uriparse_authority.specs.declared.authority.host.Host.TheVariants.{IPv4Address};

    ghost from_gives = { λ a h. h ≡ IPv4Address a };

    fn from(address: Ipv4Addr) -> Host<'h> {
        Host::IPv4Address(address)
    }
}

impl<'h> From<Ipv6Addr> for Host<'h> {
    ghost use Rattle.uriparse_authority.specs.declared.authority.host.Host.TheVariants.{IPv6Address};

    ghost from_gives = { λ a h. h ≡ IPv6Address a };

    fn from(address: Ipv6Addr) -> Host<'h> {
        Host::IPv6Address(address)
    }
}

impl<'h> From<IPvFuture<'h>> for Host<'h> {
    ghost use Rattle.uriparse_authority.specs.declared.authority.host.Host.TheVariants as hosts;

    ghost from_gives = { λ f h. h ≡ hosts.IPvFuture f };

    fn from(address: IPvFuture<'h>) -> Host<'h> {
        Host::IPvFuture(address)
    }
}

impl<'h> From<IpAddr> for Host<'h> {
    ghost use Rattle.uriparse_authority.specs.Host.{host_at};

    ghost from_gives = { λ a h. h ≡ host_at a };

    fn from(address: IpAddr) -> Host<'h> {
        match address {
            IpAddr::V4(address) => Host::IPv4Address(address),
            IpAddr::V6(address) => Host::IPv6Address(address),
        }
    }
}

impl<'h> PartialEq for Host<'h> {
    ghost eq = { on spec.key bytes_eq };

    ghost laws = { Prim.search (comparing, rules) };

    fn eq(&self, other: &Host<'h>) -> bool {
        match (self, other) {
            (Host::IPv4Address(left), Host::IPv4Address(right)) => left.octets() == right.octets(),
            (Host::IPv6Address(left), Host::IPv6Address(right)) => {
                left.segments() == right.segments()
            }
            (Host::IPvFuture(left), Host::IPvFuture(right)) => left == right,
            (Host::RegisteredName(left), Host::RegisteredName(right)) => left == right,
            _ => false,
        }
    }
}

impl<'h> Eq for Host<'h> {
    ghost laws = { Prim.search (comparing, rules) };
}

impl<'h> Hash for Host<'h> {
    ghost hash_input = { λ h. spec.fed_key (spec.key h) };

    ghost respects_eq = { Prim.search (hashing, rules) };

    fn hash<H: Hasher>(&self, state: &mut H)
        ensures fed { state.new ≡ fold H.write state.old (spec.fed self.now) }
        ensures key { state.new ≡ fold H.write state.old (spec.fed_key (spec.key self.now)) }
    {
        match self {
            Host::IPv4Address(address) => {
                state.write_u8(4);
                address.octets().hash(state);
            }
            Host::IPv6Address(address) => {
                state.write_u8(6);
                address.segments().hash(state);
            }
            Host::IPvFuture(address) => {
                state.write_u8(7);
                address.hash(state);
            }
            Host::RegisteredName(name) => {
                state.write_u8(1);
                name.hash(state);
            }
        }
    }
}

impl<'h> fmt::Display for Host<'h> {
    ghost output = { λ h. Some (spec.text h) };

    // The formatter's options have no effect.
    ghost styled_output = { λ h _. Some (spec.text h) };

    fn fmt<W: fmt::Write>(&self, f: &mut fmt::Formatter<W>) -> fmt::Result {
        match self {
            Host::IPv4Address(address) => fmt::Display::fmt(address, f),
            Host::IPv6Address(address) => {
                f.write_str("[")?;
                fmt::Display::fmt(address, f)?;
                f.write_str("]")
            }
            Host::IPvFuture(address) => {
                f.write_str("[")?;
                f.write_str(address.as_str())?;
                f.write_str("]")
            }
            Host::RegisteredName(name) => f.write_str(name.as_str()),
        }
    }
}

impl<'h> fmt::Debug for Host<'h> {
    fn fmt<W: fmt::Write>(&self, f: &mut fmt::Formatter<W>) -> fmt::Result {
        match self {
            Host::IPv4Address(address) => f.debug_tuple("IPv4Address").field(address).finish(),
            Host::IPv6Address(address) => f.debug_tuple("IPv6Address").field(address).finish(),
            Host::IPvFuture(address) => fmt::Debug::fmt(address, f),
            Host::RegisteredName(name) => fmt::Debug::fmt(name, f),
        }
    }
}
