//! Links that lead to one host, found in their texts, and names that readers take for other hosts.
//!
//! ```
//! let host = Host::try_from_str("example.com")?;
//! assert!(leads_to("https://user@EXAMPLE.com:8080/a#b", &host));
//! assert!(!leads_to("../a", &host) && !leads_to("https://example.com.evil.org/", &host));
//! ```
ghost use Rattle.std.specs.Prelude.{◌≡◌, ◌↔◌, IsTrue};
ghost use Rattle.examples.specs.Hosts as spec;
ghost use Rattle.examples.specs.Hosts.{IsPlainName, LeadsTo};

use uriparse::{Host, ReferenceView};

/// Whether a link leads to this host, in whatever spelling. A link without a host does not, nor
/// does a text that is no link. Does not allocate, so it suits a page of a million links.
pub fn leads_to(link: &str, host: &Host<'_>) -> bool
    ensures { IsTrue result ↔ LeadsTo link.now host.now }
{
    let Ok(view) = ReferenceView::try_from_str(link) else {
        return false;
    };
    match view.host() {
        Some(there) => there == *host,
        None => false,
    }
}

/// Whether the host is a name that a reader may take for another host: it hides an address, resolvers may take it for one, or it has
/// escapes, which some readers decode. Does not allocate.
pub fn is_deceptive(host: &Host<'_>) -> bool
    ensures { result ≡ spec.is_deceptive host.now }
{
    host.hides_address() || host.may_be_numeric() || host.has_escapes()
}

/// Whether the host is a name, which readers take for no other host. Does not allocate.
///
/// ```
/// assert!(is_plain_name(&Host::try_from_str("www.example.com")?));
/// assert!(!is_plain_name(&Host::try_from_str("127.0.0.1")?));
/// assert!(!is_plain_name(&Host::try_from_str("0x7f.1")?));
/// assert!(!is_plain_name(&Host::try_from_str("evil.org%2F.example.com")?));
/// ```
pub fn is_plain_name(host: &Host<'_>) -> bool
    ensures { IsTrue result ↔ IsPlainName host.now }
{
    matches!(host, Host::RegisteredName(_)) && !is_deceptive(host)
}
