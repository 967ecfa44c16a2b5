//! The address that a host is, and whether a host leads anywhere on the Internet: RFC 6890, and RFC
//! 3986, sections 3.2.2 and 7.4.
ghost use Rattle.std.specs.Prelude.{◌≡◌, ◌↔◌, IsTrue};
ghost use Rattle.uriparse_authority.specs.Public as spec;

use super::Host;
use uriparse_text::address::{IpAddr, Reach};

impl<'h> Host<'h> {
    /// The address that the host is, or `None` for a name and for an address of a later version.
    /// Does not allocate.
    ///
    /// ```
    /// let address = Host::try_from_str("127.0.0.1")?.address();
    /// assert_eq!(address, Some(IpAddr::V4(Ipv4Addr::new(127, 0, 0, 1))));
    /// assert!(Host::try_from_str("%31.2.3.4")?.address().is_none());
    /// ```
    pub fn address(&self) -> Option<IpAddr>
        ensures { result ≡ spec.address_of self.now }
    {
        match self {
            Host::IPv4Address(address) => Some(IpAddr::V4(*address)),
            Host::IPv6Address(address) => Some(IpAddr::V6(*address)),
            _ => None,
        }
    }

    /// Whether the host leads anywhere on the Internet, as far as its text says: it is an address
    /// whose [reach](IpAddr::reach) is [`Global`](Reach::Global), or a name that isn't
    /// [empty](Host::is_empty), has no [escapes](Host::has_escapes), doesn't
    /// [hide an address](Host::hides_address) and [isn't numeric](Host::may_be_numeric). An address
    /// of a later version is not public. RFC 6890, and RFC 3986, section 7.4. Does not allocate.
    ///
    /// A check against server-side request forgery rejects what isn't public, and then still has to
    /// do two things. DNS may answer for any name with an address of a private network, and with
    /// another one each time: check the [reach](IpAddr::reach) of the address that the connection
    /// is made to. And `localhost`, names that end in `.localhost`, `.local` or `.internal`, and names
    /// without a dot are names like all others here: reject them if they lead into the network that
    /// you protect.
    ///
    /// ```
    /// assert!(Host::try_from_str("example.com")?.is_public());
    /// assert!(Host::try_from_str("[64:ff9b::808:808]")?.is_public());
    /// assert!(!Host::try_from_str("[::ffff:10.0.0.1]")?.is_public());
    /// assert!(!Host::try_from_str("2130706433")?.is_public());
    /// ```
    pub fn is_public(&self) -> bool
        ensures { IsTrue result ↔ spec.IsPublic self.now }
    {
        match self {
            Host::IPv4Address(address) => address.reach() == Reach::Global,
            Host::IPv6Address(address) => address.reach() == Reach::Global,
            Host::IPvFuture(_) => false,
            Host::RegisteredName(_) => {
                !self.is_empty()
                    && !self.has_escapes()
                    && !self.hides_address()
                    && !self.may_be_numeric()
            }
        }
    }
}
