//! The text of an authority, put together from its end in the last bytes of a buffer: RFC 3986,
//! sections 3.2 and 6.2.2.
ghost use Rattle.std.specs.Prelude.{◌≡◌, ◌++◌, length};
ghost use Rattle.std.specs.Option.{option_map};
ghost use Rattle.uriparse_text.specs.declared.internal.token.Case.TheVariants as case;
ghost use Rattle.uriparse_text.specs.Bytes.{at_sign, colon};
ghost use Rattle.uriparse_text.specs.Cuts.{ahead, following};
ghost use Rattle.uriparse_text.specs.Ends.{Puts, formed};
ghost use Rattle.uriparse_authority.specs.Host as hosts;
ghost use Rattle.uriparse_authority.specs.Port as ports;
ghost use Rattle.uriparse_authority.specs.Authority.{print, userinfo};
ghost use Rattle.uriparse_authority.specs.Ends.{formed_authority, formed_host};

use super::{Authority, Host, Password, Username};
use uriparse_text::internal::{
    Case, Form, prepend, prepend_decimal, prepend_following, prepend_formed, prepend_ipv4,
    prepend_ipv6,
};

/// Puts a colon and the port, if there is one.
fn prepend_port(port: Option<u16>, out: &mut [u8], len: usize) -> usize
    ensures room { length out.new ≡ length out.old }
    ensures puts { Puts (following colon (option_map ports.text port)) out.old len out.new result }
{
    match port {
        Some(port) => {
            let len = prepend_decimal(port, out, len);
            prepend(b":", out, len)
        }
        None => len,
    }
}

/// Puts a host.
pub(super) fn prepend_host(form: Form, host: &Host<'_>, out: &mut [u8], len: usize) -> usize
    ensures room { length out.new ≡ length out.old }
    ensures puts { Puts (hosts.text (formed_host form host.now)) out.old len out.new result }
{
    match host {
        Host::IPv4Address(address) => prepend_ipv4(*address, out, len),
        Host::IPv6Address(address) => {
            let len = prepend(b"]", out, len);
            let len = prepend_ipv6(*address, out, len);
            prepend(b"[", out, len)
        }
        Host::IPvFuture(address) => {
            let len = prepend(b"]", out, len);
            let len = prepend_formed(form, Case::Lowered, address.as_str().as_bytes(), out, len);
            prepend(b"[", out, len)
        }
        Host::RegisteredName(name) => {
            prepend_formed(form, Case::Lowered, name.as_str().as_bytes(), out, len)
        }
    }
}

/// Puts a host and, if there is one, a colon and the port.
pub(crate) fn prepend_host_and_port(
    form: Form,
    host: &Host<'_>,
    port: Option<u16>,
    out: &mut [u8],
    len: usize,
) -> usize
    ensures room { length out.new ≡ length out.old }
    ensures puts { Puts (hosts.text (formed_host form host.now) ++ following colon (option_map ports.text port)) out.old len out.new result }
{
    let len = prepend_port(port, out, len);
    prepend_host(form, host, out, len)
}

/// Puts the user name, the password and an `@`, if there is a user name.
fn prepend_user(
    form: Form,
    username: &Option<Username<'_>>,
    password: &Option<Password<'_>>,
    out: &mut [u8],
    len: usize,
) -> usize
    ensures room { length out.new ≡ length out.old }
    ensures puts { Puts (ahead at_sign (userinfo (option_map (formed form case.Kept) username.now) (option_map (formed form case.Kept) password.now))) out.old len out.new result }
{
    match username {
        Some(username) => {
            let len = prepend(b"@", out, len);
            let len = prepend_following(form, b':', password, out, len);
            prepend_formed(form, Case::Kept, username.as_bytes(), out, len)
        }
        None => len,
    }
}

impl<'a> Authority<'a> {
    /// Puts the authority, without its `//`.
    pub(crate) fn prepend(&self, form: Form, out: &mut [u8], len: usize) -> usize
        ensures room { length out.new ≡ length out.old }
        ensures puts { Puts (print (formed_authority form self.now)) out.old len out.new result }
    {
        let len = prepend_host_and_port(form, &self.host, self.port, out, len);
        prepend_user(form, &self.username, &self.password, out, len)
    }
}
