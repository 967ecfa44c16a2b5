//! Where an address leads, by IANA's registries of special-purpose addresses: RFC 6890.
ghost use Rattle.std.specs.Prelude.{◌≡◌, [], ◌∷◌};
ghost use Rattle.std.specs.Net.Addr.{octets_of};
ghost use Rattle.uriparse_text.specs.Reach as spec;

use super::{IpAddr, Ipv4Addr, Ipv6Addr};

/// Where an address leads: anywhere on the Internet, or only somewhere near.
///
/// The blocks are those of IANA's registries of special-purpose addresses, RFC 6890, that are not
/// globally reachable, and multicast. What no block has is [`Global`](Reach::Global), also if it
/// isn't allocated yet. A check against server-side request forgery lets [`Global`](Reach::Global)
/// pass and nothing else.
///
/// ```
/// assert!(Ipv4Addr::new(100, 64, 0, 1).reach() == Reach::Shared);
/// assert!(Ipv6Addr::parse_bytes(b"::ffff:10.0.0.1").map(|a| a.reach()) == Some(Reach::Private));
/// ```
#[derive(Clone, Copy, Debug, PartialEq, Eq, Hash)]
pub enum Reach {
    /// The Internet: no special-purpose block has the address, or one that is globally reachable.
    Global,
    /// The host itself: `127.0.0.0/8` and `::1`.
    Loopback,
    /// A private network: `10.0.0.0/8`, `172.16.0.0/12` and `192.168.0.0/16`, RFC 1918, and
    /// `64:ff9b:1::/48`, for local translation to IPv4, RFC 8215.
    Private,
    /// The network between a provider and its customers: `100.64.0.0/10`, RFC 6598.
    Shared,
    /// The same link: `169.254.0.0/16`, RFC 3927, where clouds serve metadata, and `fe80::/10`.
    LinkLocal,
    /// A private network: `fc00::/7`, RFC 4193.
    UniqueLocal,
    /// Nowhere, for examples: `192.0.2.0/24`, `198.51.100.0/24` and `203.0.113.0/24`, RFC 5737,
    /// `2001:db8::/32`, RFC 3849, and `3fff::/20`, RFC 9637.
    Documentation,
    /// A test network: `198.18.0.0/15`, RFC 2544, and `2001:2::/48`, RFC 5180.
    Benchmarking,
    /// A group of hosts: `224.0.0.0/4`, RFC 5771, and `ff00::/8`, RFC 4291.
    Multicast,
    /// Nowhere, or the use of a protocol: `0.0.0.0/8`, `192.0.0.0/24` and `240.0.0.0/4`; `100::/64`,
    /// `100:0:0:1::/64`, `2001::/23`, `5f00::/16`, and `fec0::/10`, which was site-local, RFC 3879.
    Reserved,
    /// No address: `0.0.0.0` and `::`. Many systems connect to the host itself.
    Unspecified,
    /// All hosts of the link: `255.255.255.255`.
    Broadcast,
}

impl Ipv4Addr {
    /// Where the address leads: RFC 6890. Does not allocate.
    ///
    /// ```
    /// assert!(Ipv4Addr::new(169, 254, 169, 254).reach() == Reach::LinkLocal);
    /// assert!(Ipv4Addr::new(8, 8, 8, 8).reach() == Reach::Global);
    /// ```
    #[tactic(auto, unfolding(crate::specs::Reach::ipv4_reach, crate::specs::Reach::ipv4_rows))]
    pub fn reach(self) -> Reach
        ensures { result ≡ spec.ipv4_reach self }
    {
        let [a, b, c, d] = self.octets();
        match a {
            0 if b == 0 && c == 0 && d == 0 => Reach::Unspecified,
            10 => Reach::Private,
            100 if b / 64 == 1 => Reach::Shared,
            127 => Reach::Loopback,
            169 if b == 254 => Reach::LinkLocal,
            172 if b / 16 == 1 => Reach::Private,
            192 => reach_of_192(b, c, d),
            198 if b / 2 == 9 => Reach::Benchmarking,
            198 if b == 51 && c == 100 => Reach::Documentation,
            203 if b == 0 && c == 113 => Reach::Documentation,
            224..=239 => Reach::Multicast,
            255 if b == 255 && c == 255 && d == 255 => Reach::Broadcast,
            0 | 240..=255 => Reach::Reserved,
            _ => Reach::Global,
        }
    }
}

/// Where `192.b.c.d` leads.
#[tactic(auto, unfolding(crate::specs::Reach::ipv4_reach, crate::specs::Reach::ipv4_rows))]
fn reach_of_192(b: u8, c: u8, d: u8) -> Reach
    ensures { result ≡ spec.ipv4_reach (192 ∷ b ∷ c ∷ d ∷ []) }
{
    match (b, c) {
        (0, 0) if d == 9 || d == 10 => Reach::Global,
        (0, 0) => Reach::Reserved,
        (0, 2) => Reach::Documentation,
        (168, _) => Reach::Private,
        _ => Reach::Global,
    }
}

impl Ipv6Addr {
    /// Where the address leads: RFC 6890. Does not allocate.
    ///
    /// An address that embeds an IPv4 address leads where that one does: `::ffff:a.b.c.d`,
    /// `::a.b.c.d` (deprecated), `64:ff9b::a.b.c.d` (NAT64, RFC 6052) and `2002::/16` (6to4, RFC 3056).
    /// A Teredo address, RFC 4380, embeds its client's and its server's, and is global if both are;
    /// else it leads where the client's does, or the server's if only that one isn't global. An
    /// address with a NAT64 prefix of a network's own can't be told from others.
    ///
    /// ```
    /// let reach = |text: &[u8]| Ipv6Addr::parse_bytes(text).map(|address| address.reach());
    /// assert!(reach(b"64:ff9b::a00:1") == Some(Reach::Private));
    /// assert!(reach(b"2002:7f00:1::") == Some(Reach::Loopback));
    /// assert!(reach(b"2606:4700:4700::1111") == Some(Reach::Global));
    /// ```
    #[tactic(auto, unfolding(crate::specs::Reach::ipv6_reach, crate::specs::Reach::ipv6_rows))]
    pub fn reach(self) -> Reach
        ensures { result ≡ spec.ipv6_reach self }
    {
        let [a, b, c, d, e, f, g, h] = self.segments();
        match a {
            0 if b == 0 && c == 0 && d == 0 && e == 0 => reach_of_zeros(f, g, h),
            0x64 if b == 0xff9b && c == 0 && d == 0 && e == 0 && f == 0 => reach_of_embedded(g, h),
            0x64 if b == 0xff9b && c == 1 => Reach::Private,
            0x100 if b == 0 && c == 0 && d <= 1 => Reach::Reserved,
            0x2001 => reach_of_2001(b, c, d, e, f, g, h),
            0x2002 => reach_of_embedded(b, c),
            0x3fff if b < 0x1000 => Reach::Documentation,
            0x5f00 => Reach::Reserved,
            0xfc00..=0xfdff => Reach::UniqueLocal,
            0xfe80..=0xfebf => Reach::LinkLocal,
            0xfec0..=0xfeff => Reach::Reserved,
            0xff00..=0xffff => Reach::Multicast,
            _ => Reach::Global,
        }
    }
}

/// Where `::f:g:h` leads.
#[tactic(auto, unfolding(crate::specs::Reach::ipv6_reach, crate::specs::Reach::ipv6_rows))]
fn reach_of_zeros(f: u16, g: u16, h: u16) -> Reach
    ensures { result ≡ spec.ipv6_reach (0 ∷ 0 ∷ 0 ∷ 0 ∷ 0 ∷ f ∷ g ∷ h ∷ []) }
{
    match (f, g, h) {
        (0, 0, 0) => Reach::Unspecified,
        (0, 0, 1) => Reach::Loopback,
        (0 | 0xffff, _, _) => reach_of_embedded(g, h),
        _ => Reach::Global,
    }
}

/// Where `2001:b:c:d:e:f:g:h` leads.
#[tactic(auto, unfolding(crate::specs::Reach::ipv6_reach, crate::specs::Reach::ipv6_rows))]
fn reach_of_2001(b: u16, c: u16, d: u16, e: u16, f: u16, g: u16, h: u16) -> Reach
    ensures { result ≡ spec.ipv6_reach (0x2001 ∷ b ∷ c ∷ d ∷ e ∷ f ∷ g ∷ h ∷ []) }
{
    match b {
        0 => reach_of_teredo(c, d, g, h),
        1 if c == 0 && d == 0 && e == 0 && f == 0 && g == 0 && h >= 1 && h <= 3 => Reach::Global,
        2 if c == 0 => Reach::Benchmarking,
        3 => Reach::Global,
        4 if c == 0x112 => Reach::Global,
        0x20..=0x3f => Reach::Global,
        0..=0x1ff => Reach::Reserved,
        0xdb8 => Reach::Documentation,
        _ => Reach::Global,
    }
}

/// Where a Teredo address leads, whose server is at `c:d` and whose client at the inverse of `g:h`.
fn reach_of_teredo(c: u16, d: u16, g: u16, h: u16) -> Reach
    ensures { result ≡ spec.teredo_reach (0x2001 ∷ 0 ∷ c ∷ d ∷ 0 ∷ 0 ∷ g ∷ h ∷ []) }
{
    match reach_of_embedded(!g, !h) {
        Reach::Global => reach_of_embedded(c, d),
        client => client,
    }
}

/// Where the IPv4 address in two segments leads.
fn reach_of_embedded(high: u16, low: u16) -> Reach
    ensures { result ≡ spec.ipv4_reach (octets_of (high ∷ low ∷ [])) }
{
    let [a, b] = high.to_be_bytes();
    let [c, d] = low.to_be_bytes();
    Ipv4Addr::new(a, b, c, d).reach()
}

impl IpAddr {
    /// Where the address leads: RFC 6890. Does not allocate.
    ///
    /// ```
    /// assert!(IpAddr::V4(Ipv4Addr::new(127, 0, 0, 1)).reach() == Reach::Loopback);
    /// ```
    pub fn reach(self) -> Reach
        ensures { result ≡ spec.ip_reach self }
    {
        match self {
            IpAddr::V4(address) => address.reach(),
            IpAddr::V6(address) => address.reach(),
        }
    }
}
