//! IPv6 addresses: `IPv6address` of RFC 3986, section 3.2.2.
ghost use Rattle.std.specs.Prelude.{◌≡◌, ℕ, List, [], ◌∷◌, Some, IfSome};
ghost use Rattle.uriparse_text.specs.Address.{IsSegments, SpellsIpv6, ipv6_text, ipv6_reading};

use crate::internal::write_plain;
use std::marker::Model;
use std::{fmt, net};

/// An IPv6 address: eight segments of 16 bits.
///
/// Its text is groups of one to four hexadecimal digits of either case, separated by colons. `::`
/// appears at most once, for one or more zero groups, and a dotted IPv4 address may take the place
/// of the last two groups. Many texts spell one address; no text spells two.
///
/// It is printed as RFC 5952 recommends: in lower case, without leading zeros, with `::` for the
/// first of the longest runs of at least two zero groups, and as `::ffff:a.b.c.d` if it maps an
/// IPv4 address. No call allocates.
///
/// ```
/// let address = Ipv6Addr::parse_bytes(b"2001:DB8:0:0::1");
/// assert!(address == Some(Ipv6Addr::new(0x2001, 0xdb8, 0, 0, 0, 0, 0, 1)));
/// assert!(Ipv6Addr::parse_bytes(b"[::1]").is_none());
/// ```
#[derive(Clone, Copy, PartialEq, Eq, PartialOrd, Ord, Hash)]
pub struct Ipv6Addr {
    segments: [u16; 8],
    // Takes no room. It aligns the address to a word, so that what holds it is moved by words.
    words: [u64; 0],
}

impl Model for Ipv6Addr {
    ghost Value = { List ℕ };

    ghost view = { λ a. a.segments };

    ghost invariant = { λ a. IsSegments a.segments × (a.words ≡ []) };

    ghost inverse = { λ segments. record { segments = segments; words = [] } };
}

impl Ipv6Addr {
    /// The address `a:b:c:d:e:f:g:h`.
    pub fn new(a: u16, b: u16, c: u16, d: u16, e: u16, f: u16, g: u16, h: u16) -> Ipv6Addr
        ensures { result ≡ a ∷ b ∷ c ∷ d ∷ e ∷ f ∷ g ∷ h ∷ [] }
    {
        Ipv6Addr::of([a, b, c, d, e, f, g, h])
    }

    // A parameter's type says that there are eight segments of 16 bits.
    fn of(segments: [u16; 8]) -> Ipv6Addr
        ensures { result ≡ segments }
    {
        Ipv6Addr {
            segments,
            words: [],
        }
    }

    /// The eight segments, in the order of the text.
    pub fn segments(&self) -> [u16; 8]
        ensures value { result ≡ self.now }
        ensures segments { IsSegments self.now }
    {
        self.segments
    }

    /// The address that the bytes, without brackets, spell, or `None` if they spell none. Does not
    /// allocate.
    pub fn parse_bytes(bytes: &[u8]) -> Option<Ipv6Addr>
        ensures value { result ≡ ipv6_reading bytes.now }
        ensures found { IfSome result (SpellsIpv6 bytes.now) }
        ensures only { (a : List ℕ) → SpellsIpv6 bytes.now a → result ≡ Some a }
    {
        match net::Ipv6Addr::parse_ascii(bytes) {
            Ok(address) => Some(Ipv6Addr::of(address.segments())),
            Err(_) => None,
        }
    }
}

impl fmt::Display for Ipv6Addr {
    ghost output = { λ a. Some (ipv6_text a) };

    // The formatter's options have no effect.
    ghost styled_output = { λ a _. Some (ipv6_text a) };

    fn fmt<W: fmt::Write>(&self, f: &mut fmt::Formatter<W>) -> fmt::Result {
        write_plain(net::Ipv6Addr::from_segments(self.segments), f)
    }
}

impl fmt::Debug for Ipv6Addr {
    fn fmt<W: fmt::Write>(&self, f: &mut fmt::Formatter<W>) -> fmt::Result {
        f.debug_struct("Ipv6Addr")
            .field("segments", &self.segments)
            .finish()
    }
}
