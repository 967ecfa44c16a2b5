//! Which components a reference has, and which kind of reference it is: RFC 3986, sections 4.1 to
//! 4.3.
ghost use Rattle.std.specs.Prelude.{◌≡◌, is_some};
ghost use Rattle.uriparse_reference.specs.Kinds as kinds;

use super::URIReference;

impl<'r> URIReference<'r> {
    /// Whether there is a scheme.
    pub fn has_scheme(&self) -> bool
        ensures { result ≡ is_some self.now.scheme }
    {
        self.scheme.is_some()
    }

    /// Whether there is an authority.
    pub fn has_authority(&self) -> bool
        ensures { result ≡ is_some self.now.authority }
    {
        self.authority.is_some()
    }

    /// Whether there is a query, which may be empty.
    pub fn has_query(&self) -> bool
        ensures { result ≡ is_some self.now.query }
    {
        self.query.is_some()
    }

    /// Whether there is a fragment, which may be empty.
    pub fn has_fragment(&self) -> bool
        ensures { result ≡ is_some self.now.fragment }
    {
        self.fragment.is_some()
    }

    /// Whether it is a URI: it has a scheme. RFC 3986, section 3.
    pub fn is_uri(&self) -> bool
        ensures { result ≡ kinds.is_uri self.now }
    {
        self.scheme.is_some()
    }

    /// Whether it is a relative reference: it has no scheme. RFC 3986, section 4.2.
    pub fn is_relative_reference(&self) -> bool
        ensures { result ≡ kinds.is_relative_reference self.now }
    {
        self.scheme.is_none()
    }

    /// Whether it is a relative reference with an authority. RFC 3986, section 4.2.
    pub fn is_network_path_reference(&self) -> bool
        ensures { result ≡ kinds.is_network_path_reference self.now }
    {
        self.scheme.is_none() && self.authority.is_some()
    }

    /// Whether it is a relative reference without an authority and with an absolute path. RFC 3986,
    /// section 4.2.
    pub fn is_absolute_path_reference(&self) -> bool
        ensures { result ≡ kinds.is_absolute_path_reference self.now }
    {
        self.scheme.is_none() && self.authority.is_none() && self.path.is_absolute()
    }

    /// Whether it is a relative reference without an authority and with a relative path, such as
    /// the empty one. RFC 3986, section 4.2.
    pub fn is_relative_path_reference(&self) -> bool
        ensures { result ≡ kinds.is_relative_path_reference self.now }
    {
        self.scheme.is_none() && self.authority.is_none() && self.path.is_relative()
    }

    /// Whether it is an absolute URI, as a base must be: it has a scheme and no fragment. RFC
    /// 3986, sections 4.3 and 5.1.
    pub fn can_be_a_base(&self) -> bool
        ensures { result ≡ kinds.can_be_a_base self.now }
    {
        self.scheme.is_some() && self.fragment.is_none()
    }
}
