//! IPv4 addresses: `IPv4address` of RFC 3986, section 3.2.2.
ghost use Rattle.std.specs.Prelude.{◌≡◌, ℕ, List, [], ◌∷◌, Some, IfSome, IsTrue};
ghost use Rattle.uriparse_text.specs.Address.{IsOctets, SpellsIpv4, ipv4_text, ipv4_reading};

use crate::internal::write_plain;
use std::marker::Model;
use std::{fmt, net};

/// An IPv4 address: four octets.
///
/// Its text is four decimal numbers of at most 255, without leading zeros, separated by dots. No
/// other text spells it. No call allocates.
///
/// ```
/// let address = Ipv4Addr::parse_bytes(b"127.0.0.1");
/// assert!(address == Some(Ipv4Addr::new(127, 0, 0, 1)));
/// assert!(Ipv4Addr::parse_bytes(b"127.0.0.01").is_none());
/// ```
#[derive(Clone, Copy, PartialEq, Eq, PartialOrd, Ord, Hash)]
pub struct Ipv4Addr {
    octets: [u8; 4],
    // Takes no room. It aligns the address to a word, so that what holds it is moved by words.
    words: [u64; 0],
}

impl Model for Ipv4Addr {
    ghost Value = { List ℕ };

    ghost view = { λ a. a.octets };

    ghost invariant = { λ a. IsOctets a.octets × (a.words ≡ []) };

    ghost inverse = { λ octets. record { octets = octets; words = [] } };
}

/// Whether the text begins with a byte that no address has, as most names do.
fn begins_as_name(bytes: &[u8]) -> bool
    ensures { IsTrue result → (a : List ℕ) → ¬ (SpellsIpv4 bytes.now a) }
{
    match bytes {
        [b, ..] => !b.is_ascii_digit() && *b != b'.',
        [] => false,
    }
}

impl Ipv4Addr {
    /// The address `a.b.c.d`.
    pub fn new(a: u8, b: u8, c: u8, d: u8) -> Ipv4Addr
        ensures { result ≡ a ∷ b ∷ c ∷ d ∷ [] }
    {
        Ipv4Addr {
            octets: [a, b, c, d],
            words: [],
        }
    }

    /// The four octets, in the order of the text.
    pub fn octets(&self) -> [u8; 4]
        ensures value { result ≡ self.now }
        ensures octets { IsOctets self.now }
    {
        self.octets
    }

    /// The address that the bytes spell, or `None` if they spell none. Does not allocate.
    pub fn parse_bytes(bytes: &[u8]) -> Option<Ipv4Addr>
        ensures value { result ≡ ipv4_reading bytes.now }
        ensures found { IfSome result (SpellsIpv4 bytes.now) }
        ensures only { (a : List ℕ) → SpellsIpv4 bytes.now a → result ≡ Some a }
    {
        if begins_as_name(bytes) {
            return None;
        }
        match net::Ipv4Addr::parse_ascii(bytes) {
            Ok(address) => Some(Ipv4Addr {
                octets: address.octets(),
                words: [],
            }),
            Err(_) => None,
        }
    }
}

impl fmt::Display for Ipv4Addr {
    ghost output = { λ a. Some (ipv4_text a) };

    // The formatter's options have no effect.
    ghost styled_output = { λ a _. Some (ipv4_text a) };

    fn fmt<W: fmt::Write>(&self, f: &mut fmt::Formatter<W>) -> fmt::Result {
        write_plain(net::Ipv4Addr::from_octets(self.octets), f)
    }
}

impl fmt::Debug for Ipv4Addr {
    fn fmt<W: fmt::Write>(&self, f: &mut fmt::Formatter<W>) -> fmt::Result {
        f.debug_struct("Ipv4Addr")
            .field("octets", &self.octets)
            .finish()
    }
}
