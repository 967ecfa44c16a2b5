//! The port of a reference or of its scheme: RFC 3986, sections 3.2.3 and 6.2.3.
ghost use Rattle.std.specs.Prelude.{◌≡◌};
ghost use Rattle.uriparse_reference.specs.Ports as spec;

use super::URIReference;

impl<'r> URIReference<'r> {
    /// The default port of the scheme, if there is a scheme and the list of default ports has one.
    fn default_port(&self) -> Option<u16>
        ensures { result ≡ spec.default_port_of self.now }
    {
        match &self.scheme {
            Some(scheme) => scheme.default_port(),
            None => None,
        }
    }

    /// The port, or the scheme's default port if the authority names none. `None` without an
    /// authority, or if the scheme has no default port. RFC 3986, section 3.2.3. Does not allocate.
    pub fn port_or_default(&self) -> Option<u16>
        ensures { result ≡ spec.port_or_default self.now }
    {
        match &self.authority {
            Some(authority) => authority.port().or(self.default_port()),
            None => None,
        }
    }

    /// Whether there is a port and it is the scheme's default one.
    fn has_default_port(&self) -> bool
        ensures { result ≡ spec.has_default_port self.now }
    {
        let port = self.port();
        port.is_some() && port == self.default_port()
    }

    /// Removes the port if it is the scheme's default port: RFC 3986, section 6.2.3. Such
    /// references are equivalent, but not equal. Nothing else changes. Does not allocate.
    ///
    /// ```
    /// let mut reference = URIReference::try_from_str(alloc, "https://h:443/a")?;
    /// reference.normalize_port();
    /// assert_eq!(reference.to_string(alloc)?.as_str(), "https://h/a");
    /// ```
    pub fn normalize_port(&mut self)
        ensures { self.new ≡ spec.without_default_port self.old }
    {
        if !self.has_default_port() {
            return;
        }
        if let Some(authority) = &mut self.authority {
            authority.set_port(None);
        }
    }
}
