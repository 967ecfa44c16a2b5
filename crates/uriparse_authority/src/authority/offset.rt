//! Where the fault of an authority is: RFC 3986, section 3.2.
ghost use Rattle.std.specs.Prelude.{◌≡◌, ◌+◌, ◌≤◌, [], Some, length, not, position, unwrap_or};
ghost use Rattle.std.specs.List.{position_or_len};
ghost use Rattle.uriparse_text.specs.declared.internal.class.Class.TheVariants as class;
ghost use Rattle.uriparse_text.specs.Address.{is_ipv6_byte};
ghost use Rattle.uriparse_text.specs.Offset as text_offset;
ghost use Rattle.uriparse_text.specs.Offset.{offset_after};
ghost use Rattle.uriparse_authority.specs.Authority.{password_in, username_in};
ghost use Rattle.uriparse_authority.specs.Future.{is_future_byte};
ghost use Rattle.uriparse_authority.specs.Offset as spec;
ghost use Rattle.uriparse_authority.specs.Port.{is_other};

use super::host::read::in_brackets;
use super::read::{split_port, split_userinfo};
use super::{AuthorityError, HostError, PortError};
use uriparse_text::internal::{
    Class, Outside, first, offset_of_fault, split_at_delimiter, without_delimiter,
};

/// Where the first byte is that no IPv6 address has.
fn other_in_ipv6(text: &[u8]) -> Option<usize>
    ensures { result ≡ position (λ b. not (is_ipv6_byte b)) text.now }
{
    text.iter()
        .position(|b| !(b.is_ascii_hexdigit() || *b == b':' || *b == b'.'))
}

/// Where the first byte is that no address of a later version has, or the length.
#[tactic(auto, unfolding(uriparse_text::specs::Classes::is_plain))]
fn other_in_future(text: &[u8]) -> usize
    ensures offset { result ≡ position_or_len (λ b. not (is_future_byte b)) text.now }
    ensures within { result ≤ length text.now }
{
    first(&Outside(Class::UserInfo), text)
}

/// Where the first byte is that is no decimal digit.
fn other_in_port(text: &[u8]) -> Option<usize>
    ensures { result ≡ position is_other text.now }
{
    text.iter().position(|b| !b.is_ascii_digit())
}

/// The place of a byte that no IPv6 address has.
fn ipv6_offset(text: &[u8]) -> usize
    ensures offset { result ≡ spec.literal_offset is_ipv6_byte text.now }
    ensures within { result ≤ length text.now }
{
    match in_brackets(text) {
        Some(inner) => 1 + other_in_ipv6(inner).unwrap_or(inner.len()),
        None => 0,
    }
}

/// The place of a byte that no address of a later version has.
fn future_offset(text: &[u8]) -> usize
    ensures offset { result ≡ spec.literal_offset is_future_byte text.now }
    ensures within { result ≤ length text.now }
{
    match in_brackets(text) {
        Some(inner) => 1 + other_in_future(inner),
        None => 0,
    }
}

/// The place of this error in the text of a host.
fn host_offset(error: &HostError, text: &[u8]) -> usize
    ensures offset { result ≡ spec.host_offset error.now text.now }
    ensures within { result ≤ length text.now }
{
    match error {
        HostError::InvalidIPv4OrRegisteredNameCharacter => offset_of_fault(Class::Name, text),
        HostError::InvalidIPv6Character => ipv6_offset(text),
        HostError::InvalidIPvFutureCharacter => future_offset(text),
        _ => 0,
    }
}

/// The place of this error in the text of a port.
fn port_offset(error: &PortError, text: &[u8]) -> usize
    ensures offset { result ≡ spec.port_offset error.now text.now }
    ensures within { result ≤ length text.now }
{
    match error {
        PortError::InvalidCharacter => other_in_port(text).unwrap_or(text.len()),
        PortError::Overflow => 0,
    }
}

/// The place of the fault of the user name in user information.
fn username_offset(text: &[u8]) -> usize
    ensures offset { result ≡ offset_after 0 (text_offset.fault_offset class.Name) (username_in (Some text.now)) }
    ensures within { result ≤ length text.now }
{
    let (username, _) = split_at_delimiter(text, b':');
    offset_of_fault(Class::Name, username)
}

/// The place of the fault of the password in user information.
fn password_offset(text: &[u8]) -> usize
    ensures offset { result ≡ length (unwrap_or (username_in (Some text.now)) []) + offset_after 1 (text_offset.fault_offset class.UserInfo) (password_in (Some text.now)) }
    ensures within { result ≤ length text.now }
{
    let (username, rest) = split_at_delimiter(text, b':');
    match without_delimiter(rest) {
        Some(password) => username.len() + 1 + offset_of_fault(Class::UserInfo, password),
        None => username.len(),
    }
}

/// The place of this error in the text of an authority: of a wrong byte or a broken escape its own,
/// of a host's form or a port's range the beginning of that component. Walks the text once and does
/// not allocate.
pub fn offset_in_authority(error: &AuthorityError, text: &[u8]) -> usize
    ensures offset { result ≡ spec.fault_offset error.now text.now }
    ensures within { result ≤ length text.now }
{
    let (userinfo, rest) = split_userinfo(text);
    let (host, port) = split_port(rest);
    let before = text.len() - rest.len();
    match (error, userinfo, port) {
        (AuthorityError::Username(_), Some(userinfo), _) => username_offset(userinfo),
        (AuthorityError::Password(_), Some(userinfo), _) => password_offset(userinfo),
        (AuthorityError::Host(error), _, _) => before + host_offset(error, host),
        (AuthorityError::Port(error), _, Some(port)) => {
            before + host.len() + 1 + port_offset(error, port)
        }
        (AuthorityError::Port(_), _, None) => before + host.len(),
        _ => 0,
    }
}
