//! How the components of an authority are listed, each with its name.

use crate::answer::{Answer, add, said};
use std::alloc::{AllocError, Global};
use uriparse_authority::authority::{Authority, Host, Password, Username};

/// The host's kind, where its four tests agree.
pub fn kind_of(host: &Host<'_>) -> &'static str {
    let address = (host.is_ipv4_address(), host.is_ipv6_address());
    let other = (host.is_ipvfuture_address(), host.is_registered_name());
    match (host, address, other) {
        (Host::IPv4Address(_), (true, false), (false, false)) => "ipv4",
        (Host::IPv6Address(_), (false, true), (false, false)) => "ipv6",
        (Host::IPvFuture(_), (false, false), (true, false)) => "ipvfuture",
        (Host::RegisteredName(_), (false, false), (false, true)) => "name",
        _ => "several kinds",
    }
}

/// A user name, a password, a host and a port.
pub type AuthorityParts<'r, 't> = (
    Option<&'r Username<'t>>,
    Option<&'r Password<'t>>,
    Option<&'r Host<'t>>,
    Option<u16>,
);

/// Adds the host with its kind, if it is present.
fn add_host(text: &mut String, host: Option<&Host<'_>>) -> Result<(), AllocError> {
    match host {
        Some(host) => add(text, kind_of(host), Some(host)),
        None => Ok(()),
    }
}

/// Adds the parts that there are.
pub fn add_authority(text: &mut String, parts: AuthorityParts<'_, '_>) -> Result<(), AllocError> {
    let (username, password, host, port) = parts;
    add(text, "username", username)?;
    add(text, "password", password)?;
    add_host(text, host)?;
    add(text, "port", port.as_ref())
}

/// The parts of an authority.
fn parts_of<'r, 't>(authority: &'r Authority<'t>) -> AuthorityParts<'r, 't> {
    (
        authority.username(),
        authority.password(),
        Some(authority.host()),
        authority.port(),
    )
}

/// The parts with their names.
pub fn listed_authority(alloc: Global, authority: &Authority<'_>) -> Answer {
    let mut text = String::new(alloc);
    add_authority(&mut text, parts_of(authority))?;
    said(alloc, text.as_str().trim_start())
}
