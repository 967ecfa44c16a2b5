//! Whether an authority, or its normal form, prints the text that the authority was read from: RFC
//! 3986, sections 3.2 and 6.2.2.
ghost use Rattle.std.specs.Prelude.{◌≡◌, ◌≤◌, ◌↔◌, IsTrue, length, option_copied};
ghost use Rattle.std.specs.Option.{option_map};
ghost use Rattle.uriparse_authority.specs.Authority.{Spells, print};
ghost use Rattle.uriparse_authority.specs.Host as hosts;
ghost use Rattle.uriparse_authority.specs.Normal.{canonical_authority};
ghost use Rattle.uriparse_authority.specs.Port as ports;

use super::read::{split_port, split_userinfo};
use super::write::prepend_host;
use super::{Authority, Host};
use uriparse_text::internal::{Form, prepend_decimal};

/// Whether the text is the port's.
fn is_decimal(port: u16, text: &[u8]) -> bool
    ensures { IsTrue result ↔ (ports.text port ≡ text.now) }
{
    let mut buffer = [0; 5];
    let len = prepend_decimal(port, &mut buffer, 0);
    &buffer[5 - len..] == text
}

/// Whether the text is the port's, or there is neither.
fn is_printed_port(port: Option<u16>, text: Option<&[u8]>) -> bool
    ensures { IsTrue result ↔ (option_map ports.text port ≡ option_copied text.entry) }
{
    match (port, text) {
        (Some(port), Some(text)) => is_decimal(port, text),
        (None, None) => true,
        _ => false,
    }
}

/// Whether the text is the host's, which is short.
fn is_short_host(host: &Host<'_>, text: &[u8]) -> bool
    requires { length (hosts.text host.now) ≤ 41 }
    ensures { IsTrue result ↔ (hosts.text host.now ≡ text.now) }
{
    let mut buffer = [0; 41];
    let len = prepend_host(Form::AsIs, host, &mut buffer, 0);
    &buffer[41 - len..] == text
}

/// Whether the host, which was read from the text, prints it: only IPv6 addresses have several
/// texts.
fn is_printed_host(host: &Host<'_>, text: &[u8]) -> bool
    requires { hosts.Spells text.now host.now }
    ensures { IsTrue result ↔ (hosts.text host.now ≡ text.now) }
{
    match host {
        Host::IPv6Address(address) => {
            let _segments = address.segments();
            is_short_host(host, text)
        }
        _ => true,
    }
}

impl<'a> Authority<'a> {
    /// Whether the authority prints the text, from which it was read.
    pub(crate) fn is_printed(&self, text: &[u8]) -> bool
        requires { Spells text.now self.now }
        ensures { IsTrue result ↔ (print self.now ≡ text.now) }
    {
        let (_, rest) = split_userinfo(text);
        let (host, port) = split_port(rest);
        is_printed_port(self.port, port) && is_printed_host(&self.host, host)
    }

    /// Whether the authority's normal form prints the text, from which the authority was read.
    pub(crate) fn prints_normal(&self, text: &[u8]) -> bool
        requires { Spells text.now self.now }
        ensures { IsTrue result ↔ (print (canonical_authority self.now) ≡ text.now) }
    {
        self.is_normalized() && self.is_printed(text)
    }
}
