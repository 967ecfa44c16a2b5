//! The origin of a URI, and its port: RFC 3986, sections 3.2.3 and 6.2.3; RFC 6454, sections 4 to 6.
ghost use Rattle.std.specs.Prelude.{◌≡◌, ⊤, IfOk, fold, string_bytes};
ghost use Rattle.std.proofs.Common.{rules};
ghost use Rattle.std.specs.Cmp.Rules.{comparing, hashing};
ghost use Rattle.uriparse_reference.specs.Into.{Writes};
ghost use Rattle.uriparse_reference.specs.Ports.{port_or_default, without_default_port};
ghost use Rattle.uriparse.specs.Origin as spec;

use super::within::assert_port;
use super::{URI, URIView};
use std::alloc::{AllocError, Global};
use std::hash::{Hash, Hasher};
use uriparse_authority::authority::Host;
use uriparse_authority::internal::prepend_host_and_port;
use uriparse_reference::internal::{PutText, make_string, write};
use uriparse_reference::uri_reference::BufferError;
use uriparse_scheme::scheme::Scheme;
use uriparse_text::internal::{Case, Form, Held, prepend, prepend_formed};

/// The length in bytes of a usual origin's text.
const USUAL_LEN: usize = 64;

/// The origin of a URI: its scheme, its host, and its port or the scheme's default port. RFC 6454,
/// section 4. It borrows the texts of the URI.
///
/// Two origins are equal, and then hash alike, if their schemes, their hosts and their ports are:
/// letters may be of either case and escaped, and the default port may be named or not. To compare
/// the origins of two URIs use [`same_origin`](URI::same_origin), since URIs that have none have
/// none in common.
///
/// ```
/// let page = URI::try_from_str(alloc, "https://example.com/a")?;
/// let link = URI::try_from_str(alloc, "HTTPS://EXAMPLE.com:443/b?c")?;
/// assert!(page.same_origin(&link) && page.origin() == link.origin());
/// let mail = URI::try_from_str(alloc, "mailto:a@example.com")?;
/// assert!(mail.origin().is_none() && !mail.same_origin(&mail));
/// ```
#[derive(Debug, Drop)]
pub struct Origin<'o> {
    scheme: Scheme<'o>,
    host: Host<'o>,
    port: u16,
}

impl<'o> Origin<'o> {
    /// The scheme.
    pub fn scheme(&self) -> &Scheme<'o>
        ensures { result.now ≡ self.now.scheme }
    {
        &self.scheme
    }

    /// The host.
    pub fn host(&self) -> &Host<'o>
        ensures { result.now ≡ self.now.host }
    {
        &self.host
    }

    /// The port, which may be the scheme's default port.
    pub fn port(&self) -> u16
        ensures { result ≡ self.now.port }
    {
        self.port
    }

    /// The text of the origin, the same for equal origins: `scheme://host` in canonical spelling, and
    /// `:port` unless that is the scheme's default port. RFC 6454, section 6.2. The name of a host is
    /// printed as it is, without IDNA. Allocates once, exactly the text's length.
    ///
    /// ```
    /// let uri = URI::try_from_str(alloc, "HTTPS://EXAMPLE.com:443/b?c")?;
    /// let origin = uri.origin().unwrap();
    /// assert_eq!(origin.to_string(alloc)?.as_str(), "https://example.com");
    /// ```
    pub fn to_string(&self, alloc: Global) -> Result<String, AllocError>
        ensures { IfOk result (λ s. string_bytes s ≡ spec.text self.now) }
    {
        make_string(alloc, self)
    }

    /// Writes the text that [`to_string`](Origin::to_string) returns to the start of the buffer and
    /// returns its length in bytes; what follows it in the buffer is unchanged.
    ///
    /// If the buffer is too small, it is unchanged, and the error is
    /// [`TooSmall`](BufferError::TooSmall) with the length needed; so a call with an empty buffer
    /// returns the length. Does not allocate.
    ///
    /// ```
    /// let view = URIView::try_from_str("HTTPS://EXAMPLE.com:443/b?c")?;
    /// let origin = view.origin().unwrap();
    /// let mut buffer = [0; 64];
    /// let len = origin.write_into(&mut buffer)?;
    /// assert!(&buffer[..len] == b"https://example.com".as_slice());
    /// assert!(origin.write_into(&mut buffer[..4]) == Err(BufferError::TooSmall(19)));
    /// ```
    pub fn write_into(&self, out: &mut [u8]) -> Result<usize, BufferError>
        ensures { Writes (spec.text self.now) result out.old out.new }
    {
        write(self, USUAL_LEN, out)
    }

    /// The port, unless it is the scheme's default port.
    fn named_port(&self) -> Option<u16>
        ensures { result ≡ spec.named_port self.now }
    {
        let port = Some(self.port);
        if port == self.scheme.default_port() {
            None
        } else {
            port
        }
    }
}

impl<'o> PutText for Origin<'o> {
    ghost can_be_put = { λ _. ⊤ };

    ghost text = { spec.text };

    fn put(&self, out: &mut [u8]) -> usize {
        let port = self.named_port();
        assert_port(port);
        let len = prepend_host_and_port(Form::Canonical, &self.host, port, out, 0);
        let len = prepend(b"://", out, len);
        let scheme = self.scheme.as_str().as_bytes();
        prepend_formed(Form::Canonical, Case::Lowered, scheme, out, len)
    }
}

impl<'o> PartialEq for Origin<'o> {
    ghost eq = { spec.are_alike };

    ghost laws = { Prim.search (comparing, rules) };

    fn eq(&self, other: &Origin<'o>) -> bool {
        self.scheme == other.scheme && self.host == other.host && self.port == other.port
    }
}

impl<'o> Eq for Origin<'o> {
    ghost laws = { Prim.search (comparing, rules) };
}

impl<'o> Hash for Origin<'o> {
    ghost hash_input = { spec.fed };

    ghost respects_eq = { Prim.search (hashing, rules) };

    fn hash<H: Hasher>(&self, state: &mut H)
        ensures { state.new ≡ fold H.write state.old (spec.fed self.now) }
    {
        self.scheme.hash(state);
        self.host.hash(state);
        self.port.hash(state);
    }
}

/// Whether both are there, and are equal.
fn are_both(own: &Option<Origin<'_>>, other: &Option<Origin<'_>>) -> bool
    ensures { result ≡ spec.are_both own.now other.now }
{
    match (own, other) {
        (Some(own), Some(other)) => own == other,
        _ => false,
    }
}

impl<'u> URI<'u> {
    /// The port, or the scheme's default port if the authority names none. `None` without an
    /// authority, or if the scheme has no default port. RFC 3986, section 3.2.3. Does not allocate.
    pub fn port_or_default(&self) -> Option<u16>
        ensures { result ≡ port_or_default self.now }
    {
        self.reference.port_or_default()
    }

    /// Removes the port if it is the scheme's default port: RFC 3986, section 6.2.3. The origin
    /// stays; the URI is equivalent, but not equal. Nothing else changes. Does not allocate.
    pub fn normalize_port(&mut self)
        ensures { self.new ≡ without_default_port self.old }
    {
        self.reference.normalize_port();
    }

    /// The origin: RFC 6454, section 4. `None` without an authority, with an empty host (RFC 9110,
    /// section 4.2.1), or if neither the authority names a port nor the scheme has a default one. Such
    /// a URI has an origin of its own, which no other has, so compare origins by
    /// [`same_origin`](URI::same_origin). Does not allocate.
    ///
    /// ```
    /// assert!(URI::try_from_str(alloc, "http://h/a")?.origin().is_some());
    /// assert!(URI::try_from_str(alloc, "http:///a")?.origin().is_none());
    /// ```
    pub fn origin(&self) -> Option<Origin<'_>>
        ensures { result ≡ spec.origin self.now }
    {
        let host = self.reference.host()?;
        if host.is_empty() {
            return None;
        }
        let port = self.reference.port_or_default()?;
        Some(Origin {
            scheme: self.scheme().as_borrowed(),
            host: host.as_borrowed(),
            port,
        })
    }

    /// Whether this URI and the other one have the same origin: RFC 6454, section 5. A URI without
    /// an [`origin`](URI::origin) has it in common with no URI. Does not allocate.
    ///
    /// ```
    /// let page = URI::try_from_str(alloc, "http://example.com/a")?;
    /// let link = URI::try_from_str(alloc, "http://%65xample.com:80")?;
    /// assert!(page.same_origin(&link));
    /// let file = URI::try_from_str(alloc, "file:///a")?;
    /// assert!(!file.same_origin(&file) && !file.same_origin(&page));
    /// ```
    pub fn same_origin(&self, other: &URI<'_>) -> bool
        ensures { result ≡ spec.have_same_origin self.now other.now }
    {
        are_both(&Held(self.origin()).0, &Held(other.origin()).0)
    }
}

impl<'u> URIView<'u> {
    /// The port, or the scheme's default port, as [`URI::port_or_default`](URI::port_or_default) returns it.
    /// Does not allocate.
    ///
    /// ```
    /// assert!(URIView::try_from_str("https://h/a")?.port_or_default() == Some(443));
    /// assert!(URIView::try_from_str("https:a")?.port_or_default() == None);
    /// ```
    pub fn port_or_default(&self) -> Option<u16>
        ensures { result ≡ port_or_default self.now.parts }
    {
        if !self.view.has_authority() {
            return None;
        }
        match self.view.port() {
            Some(port) => Some(port),
            None => self.scheme().default_port(),
        }
    }

    /// The origin, as [`URI::origin`](URI::origin) returns it. Does not allocate.
    pub fn origin(&self) -> Option<Origin<'u>>
        ensures { result ≡ spec.origin self.now.parts }
    {
        let scheme = Held(self.scheme());
        let host = Held(self.view.host()?);
        if host.0.is_empty() {
            return None;
        }
        let port = self.view.port().or(scheme.0.default_port())?;
        Some(Origin {
            scheme: scheme.take(),
            host: host.take(),
            port,
        })
    }

    /// Whether this URI and the other one have the same origin, as
    /// [`URI::same_origin`](URI::same_origin) reports. Does not allocate.
    pub fn same_origin(&self, other: &URIView<'_>) -> bool
        ensures { result ≡ spec.have_same_origin self.now.parts other.now.parts }
    {
        are_both(&Held(self.origin()).0, &Held(other.origin()).0)
    }
}
