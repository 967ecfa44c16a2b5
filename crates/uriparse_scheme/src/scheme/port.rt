//! The default ports of schemes: RFC 3986, section 3.2.3.
ghost use Rattle.std.specs.Prelude.{◌≡◌};
ghost use Rattle.uriparse_scheme.specs.DefaultPort as spec;

use super::Scheme;
use super::registered::RegisteredScheme;

impl RegisteredScheme {
    /// The port of this scheme's URIs that name none, if the list of default ports has one: RFC
    /// 3986, section 3.2.3. Does not allocate.
    ///
    /// ```
    /// assert_eq!(RegisteredScheme::HTTPS.default_port(), Some(443));
    /// assert_eq!(RegisteredScheme::MailTo.default_port(), None);
    /// ```
    #[tactic(auto, unfolding(crate::specs::DefaultPort::registered_port))]
    pub fn default_port(self) -> Option<u16>
        ensures { result ≡ spec.registered_port self }
    {
        match self {
            // schemes.tsv: ports
            RegisteredScheme::AAA => Some(3868),
            RegisteredScheme::AAAS => Some(5658),
            RegisteredScheme::ACAP => Some(674),
            RegisteredScheme::CAP => Some(1026),
            RegisteredScheme::CoAP => Some(5683),
            RegisteredScheme::CoAPTCP => Some(5683),
            RegisteredScheme::CoAPWS => Some(80),
            RegisteredScheme::CoAPS => Some(5684),
            RegisteredScheme::CoAPSTCP => Some(5684),
            RegisteredScheme::CoAPSWS => Some(443),
            RegisteredScheme::DICT => Some(2628),
            RegisteredScheme::DNS => Some(53),
            RegisteredScheme::FTP => Some(21),
            RegisteredScheme::Go => Some(1096),
            RegisteredScheme::Gopher => Some(70),
            RegisteredScheme::HTTP => Some(80),
            RegisteredScheme::HTTPS => Some(443),
            RegisteredScheme::ICAP => Some(1344),
            RegisteredScheme::IMAP => Some(143),
            RegisteredScheme::IPP => Some(631),
            RegisteredScheme::IPPS => Some(631),
            RegisteredScheme::LDAP => Some(389),
            RegisteredScheme::MTQP => Some(1038),
            RegisteredScheme::MUpdate => Some(3905),
            RegisteredScheme::NFS => Some(2049),
            RegisteredScheme::NNTP => Some(119),
            RegisteredScheme::POP => Some(110),
            RegisteredScheme::Prospero => Some(1525),
            RegisteredScheme::Redis => Some(6379),
            RegisteredScheme::RedisS => Some(6379),
            RegisteredScheme::RSync => Some(873),
            RegisteredScheme::RTMFP => Some(1935),
            RegisteredScheme::RTSP => Some(554),
            RegisteredScheme::RTSPS => Some(322),
            RegisteredScheme::RTSPU => Some(554),
            RegisteredScheme::SFTP => Some(22),
            RegisteredScheme::Sieve => Some(4190),
            RegisteredScheme::SNMP => Some(161),
            RegisteredScheme::SSH => Some(22),
            RegisteredScheme::Telnet => Some(23),
            RegisteredScheme::TFTP => Some(69),
            RegisteredScheme::TIP => Some(3372),
            RegisteredScheme::TN3270 => Some(23),
            RegisteredScheme::VEMMI => Some(575),
            RegisteredScheme::VNC => Some(5900),
            RegisteredScheme::WAIS => Some(210),
            RegisteredScheme::WS => Some(80),
            RegisteredScheme::WSS => Some(443),
            RegisteredScheme::Z3950R => Some(210),
            RegisteredScheme::Z3950S => Some(210),
            // schemes.tsv: end
            _ => None,
        }
    }
}

impl<'s> Scheme<'s> {
    /// The default port of the scheme, if it is registered and the list of default ports has one.
    /// RFC 3986, section 3.2.3. Does not allocate.
    pub fn default_port(&self) -> Option<u16>
        ensures { result ≡ spec.default_port self.now }
    {
        match self {
            Scheme::Registered(scheme) => scheme.default_port(),
            Scheme::Unregistered(_) => None,
        }
    }
}
