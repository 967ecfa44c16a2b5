//! Which kind of reference a view is: RFC 3986, sections 4.1 to 4.3.
ghost use Rattle.std.specs.Prelude.{◌≡◌};
ghost use Rattle.uriparse_reference.specs.Kinds as kinds;

use super::ReferenceView;

impl<'t> ReferenceView<'t> {
    /// Whether the path is absolute. After an authority it always is.
    fn has_absolute_path(&self) -> bool
        ensures { result ≡ self.now.parts.path.absolute }
    {
        self.has_authority() || matches!(self.pieces.tail.path, [b'/', ..])
    }

    /// Whether it is a URI: it has a scheme. RFC 3986, section 3.
    pub fn is_uri(&self) -> bool
        ensures { result ≡ kinds.is_uri self.now.parts }
    {
        self.has_scheme()
    }

    /// Whether it is a relative reference: it has no scheme. RFC 3986, section 4.2.
    pub fn is_relative_reference(&self) -> bool
        ensures { result ≡ kinds.is_relative_reference self.now.parts }
    {
        !self.has_scheme()
    }

    /// Whether it is a relative reference with an authority. RFC 3986, section 4.2.
    pub fn is_network_path_reference(&self) -> bool
        ensures { result ≡ kinds.is_network_path_reference self.now.parts }
    {
        !self.has_scheme() && self.has_authority()
    }

    /// Whether it is a relative reference without an authority and with an absolute path. RFC 3986,
    /// section 4.2.
    pub fn is_absolute_path_reference(&self) -> bool
        ensures { result ≡ kinds.is_absolute_path_reference self.now.parts }
    {
        !self.has_scheme() && !self.has_authority() && self.has_absolute_path()
    }

    /// Whether it is a relative reference without an authority and with a relative path, such as
    /// the empty one. RFC 3986, section 4.2.
    pub fn is_relative_path_reference(&self) -> bool
        ensures { result ≡ kinds.is_relative_path_reference self.now.parts }
    {
        !self.has_scheme() && !self.has_authority() && !self.has_absolute_path()
    }

    /// Whether it is an absolute URI, as a base must be: it has a scheme and no fragment. RFC
    /// 3986, sections 4.3 and 5.1.
    pub fn can_be_a_base(&self) -> bool
        ensures { result ≡ kinds.can_be_a_base self.now.parts }
    {
        self.has_scheme() && !self.has_fragment()
    }
}
