//! Equality of components in the same spelling, where `==` compares canonical spellings.
ghost use Rattle.std.specs.Prelude.{◌≡◌, ◌↔◌, IsTrue, option_copied};

use uriparse_authority::authority::{Authority, Host};
use uriparse_scheme::scheme::Scheme;
use uriparse_text::internal::{Text, TextKind};

/// Whether the schemes are equal, in the same spelling.
fn is_same_scheme(left: &Scheme<'_>, right: &Scheme<'_>) -> bool
    ensures { IsTrue result ↔ (left.now ≡ right.now) }
{
    left.as_bytes() == right.as_bytes()
}

/// Whether both are absent, or present and equal in the same spelling.
pub fn has_same_scheme(left: Option<&Scheme<'_>>, right: Option<&Scheme<'_>>) -> bool
    ensures { IsTrue result ↔ (option_copied left.entry ≡ option_copied right.entry) }
{
    match (left, right) {
        (Some(one), Some(other)) => is_same_scheme(one, other),
        (None, None) => true,
        _ => false,
    }
}

/// Whether both are absent, or present and equal in the same spelling.
pub fn has_same_text<K: TextKind>(left: Option<&Text<'_, K>>, right: Option<&Text<'_, K>>) -> bool
    ensures { IsTrue result ↔ (option_copied left.entry ≡ option_copied right.entry) }
{
    match (left, right) {
        (Some(one), Some(other)) => one.as_bytes() == other.as_bytes(),
        (None, None) => true,
        _ => false,
    }
}

/// Whether the hosts are equal, in the same spelling.
fn is_same_host(left: &Host<'_>, right: &Host<'_>) -> bool
    ensures { IsTrue result ↔ (left.now ≡ right.now) }
{
    match (left, right) {
        (Host::IPv4Address(one), Host::IPv4Address(other)) => one == other,
        (Host::IPv6Address(one), Host::IPv6Address(other)) => one == other,
        (Host::IPvFuture(one), Host::IPvFuture(other)) => one.as_bytes() == other.as_bytes(),
        (Host::RegisteredName(one), Host::RegisteredName(other)) => {
            one.as_bytes() == other.as_bytes()
        }
        _ => false,
    }
}

/// Whether the authorities are equal, component by component and in the same spelling.
fn is_same_authority(left: &Authority<'_>, right: &Authority<'_>) -> bool
    ensures { IsTrue result ↔ (left.now ≡ right.now) }
{
    is_same_host(left.host(), right.host())
        && left.port() == right.port()
        && has_same_text(left.username(), right.username())
        && has_same_text(left.password(), right.password())
}

/// Whether both are absent, or present and equal in the same spelling.
pub fn has_same_authority(left: Option<&Authority<'_>>, right: Option<&Authority<'_>>) -> bool
    ensures { IsTrue result ↔ (option_copied left.entry ≡ option_copied right.entry) }
{
    match (left, right) {
        (Some(one), Some(other)) => is_same_authority(one, other),
        (None, None) => true,
        _ => false,
    }
}
