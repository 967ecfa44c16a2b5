//! The order of hosts and of authorities: component by component, each by its canonical spelling.
//! Nothing here allocates.
ghost use Rattle.std.specs.Prelude.{◌≡◌, refl};
ghost use Rattle.std.specs.Cmp.Lexicographic.{slice_cmp};
ghost use Rattle.std.specs.Ordering.{as_partial_cmp, nat_cmp, on};
ghost use Rattle.uriparse_authority.specs.Authority as authority;
ghost use Rattle.uriparse_authority.specs.Host as host;
ghost use Rattle.uriparse_authority.specs.Order.{authority_key_cmp, authority_po, authority_ties, authority_total, host_key_cmp, host_po, host_rank, host_ties, host_total, rank, rank_cmp};

use super::{Authority, Host};
use std::cmp::Ordering;

impl<'h> Host<'h> {
    /// A number for the kind of the host.
    fn kind_number(&self) -> u8
        ensures value { result ≡ host.kind_code (host.kind self.now) }
        ensures valid { host.Valid self.now }
    {
        match self {
            Host::IPv4Address(address) => {
                let _octets = address.octets();
                4
            }
            Host::IPv6Address(address) => {
                let _segments = address.segments();
                6
            }
            Host::IPvFuture(address) => {
                let _text = address.as_bytes();
                7
            }
            Host::RegisteredName(name) => {
                let _text = name.as_bytes();
                1
            }
        }
    }

    /// Compares the kinds, and then addresses by their numbers, other hosts by their canonical
    /// spellings.
    fn compare_ranks(&self, other: &Host<'h>) -> Ordering
        ensures { result ≡ slice_cmp nat_cmp (host_rank self.now) (host_rank other.now) }
    {
        match (self, other) {
            (Host::IPv4Address(left), Host::IPv4Address(right)) => {
                left.octets().cmp(&right.octets())
            }
            (Host::IPv6Address(left), Host::IPv6Address(right)) => {
                left.segments().cmp(&right.segments())
            }
            (Host::IPvFuture(left), Host::IPvFuture(right)) => left.cmp(right),
            (Host::RegisteredName(left), Host::RegisteredName(right)) => left.cmp(right),
            _ => self.kind_number().cmp(&other.kind_number()),
        }
    }
}

impl<'h> PartialOrd for Host<'h> {
    ghost partial_cmp = { as_partial_cmp (on host.key host_key_cmp) };

    ghost laws = { host_po };

    fn partial_cmp(&self, other: &Host<'h>) -> Option<Ordering> {
        Some(self.cmp(other))
    }
}

/// Names precede IPv4 addresses, these precede IPv6 addresses, and these precede addresses of later
/// versions. Addresses are ordered by their numbers, other hosts by their canonical spellings.
impl<'h> Ord for Host<'h> {
    ghost cmp = { on host.key host_key_cmp };

    ghost total = { host_total };

    ghost matches_partial_cmp = { λ g h. refl };

    ghost matches_eq = { host_ties };

    fn cmp(&self, other: &Host<'h>) -> Ordering
        ensures key { result ≡ host_key_cmp (host.key self.now) (host.key other.now) }
        ensures rank { result ≡ slice_cmp nat_cmp (host_rank self.now) (host_rank other.now) }
    {
        let _kind = self.kind_number();
        let _other_kind = other.kind_number();
        self.compare_ranks(other)
    }
}

impl<'a> Authority<'a> {
    /// Compares the components in their order.
    fn compare_each(&self, other: &Authority<'a>) -> Ordering
        ensures test { result ≡ rank_cmp (rank self.now) (rank other.now) }
        ensures valid { authority.Valid self.now × authority.Valid other.now }
    {
        match self.username.cmp(&other.username) {
            Ordering::Equal => {}
            order => return order,
        }
        match self.password.cmp(&other.password) {
            Ordering::Equal => {}
            order => return order,
        }
        match self.host.cmp(&other.host) {
            Ordering::Equal => {}
            order => return order,
        }
        self.port.cmp(&other.port)
    }
}

impl<'a> PartialOrd for Authority<'a> {
    ghost partial_cmp = { as_partial_cmp (on authority.key authority_key_cmp) };

    ghost laws = { authority_po };

    fn partial_cmp(&self, other: &Authority<'a>) -> Option<Ordering> {
        Some(self.cmp(other))
    }
}

/// The first component that differs decides: the user name, the password, the host or the port. An
/// absent one is less than any that is present.
impl<'a> Ord for Authority<'a> {
    ghost cmp = { on authority.key authority_key_cmp };

    ghost total = { authority_total };

    ghost matches_partial_cmp = { λ a b. refl };

    ghost matches_eq = { authority_ties };

    fn cmp(&self, other: &Authority<'a>) -> Ordering
        ensures key { result ≡ authority_key_cmp (authority.key self.now) (authority.key other.now) }
        ensures rank { result ≡ rank_cmp (rank self.now) (rank other.now) }
    {
        self.compare_each(other)
    }
}
