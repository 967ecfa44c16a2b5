//! IPv4 and IPv6 addresses, which a host may be: RFC 3986, section 3.2.2.
//!
//! They are read and printed without the brackets that a URI puts around an IPv6 address. Nothing
//! here allocates.

mod ipv4;
mod ipv6;
pub(crate) mod printed;
mod reach;

pub use ipv4::Ipv4Addr;
pub use ipv6::Ipv6Addr;
pub use reach::Reach;
use std::fmt;

/// An IPv4 or an IPv6 address.
///
/// Addresses of different kinds are never equal: `1.2.3.4` is not `::ffff:1.2.3.4`.
///
/// ```
/// let loopback = IpAddr::V4(Ipv4Addr::new(127, 0, 0, 1));
/// assert!(loopback != IpAddr::V6(Ipv6Addr::new(0, 0, 0, 0, 0, 0xffff, 0x7f00, 1)));
/// ```
#[derive(Clone, Copy, Debug, PartialEq, Eq, PartialOrd, Ord, Hash)]
pub enum IpAddr {
    /// An IPv4 address.
    V4(Ipv4Addr),
    /// An IPv6 address.
    V6(Ipv6Addr),
}

impl fmt::Display for IpAddr {
    ghost use Rattle.std.specs.Prelude.{Some};
    ghost use Rattle.uriparse_text.specs.IpAddr.{ip_text};

    ghost output = { λ a. Some (ip_text a) };

    // The formatter's options have no effect.
    ghost styled_output = { λ a _. Some (ip_text a) };

    fn fmt<W: fmt::Write>(&self, f: &mut fmt::Formatter<W>) -> fmt::Result {
        match self {
            IpAddr::V4(address) => fmt::Display::fmt(address, f),
            IpAddr::V6(address) => fmt::Display::fmt(address, f),
        }
    }
}
