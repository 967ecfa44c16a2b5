//! Whether a reference is in normal form, in its text: RFC 3986, section 6.2.2.
ghost use Rattle.std.specs.Prelude.{◌≡◌, ◌↔◌, IsTrue, bytes_eq};
ghost use Rattle.std.specs.Option.{option_eq, option_map};
ghost use Rattle.uriparse_text.specs.Canonical.{canonical};
ghost use Rattle.uriparse_authority.specs.Authority as authorities;
ghost use Rattle.uriparse_scheme.specs.Scheme as schemes;
ghost use Rattle.uriparse_path.specs.Normal.{is_normal_at};
ghost use Rattle.uriparse_reference.specs.Reference.{authority_part, print, scheme_part};
ghost use Rattle.uriparse_reference.specs.Normal.{is_normal, is_normal_outside, normal};
ghost use Rattle.uriparse_reference.specs.Normal.{context as context_of};

use super::super::normal::{is_canonical_authority, is_canonical_scheme};
use super::ReferenceView;
use uriparse_path::internal::{PathContext, is_normal_path_text};
use uriparse_text::internal::{Held, is_canonical_part};

impl<'t> ReferenceView<'t> {
    /// Whether the scheme, if present, is in canonical spelling.
    fn has_canonical_scheme(&self) -> bool
        ensures { result ≡ option_eq bytes_eq (option_map schemes.canonical_text self.now.parts.scheme) (scheme_part self.now.parts) }
    {
        is_canonical_scheme(&Held(self.scheme()).0)
    }

    /// Whether the authority, if present, is in canonical spelling.
    fn has_canonical_authority(&self) -> bool
        ensures { result ≡ option_eq bytes_eq (option_map authorities.canonical_text self.now.parts.authority) (authority_part self.now.parts) }
    {
        is_canonical_authority(&Held(self.authority()).0)
    }

    /// Whether the query, if present, is in canonical spelling.
    fn has_canonical_query(&self) -> bool
        ensures { result ≡ option_eq bytes_eq (option_map canonical self.now.parts.query) self.now.parts.query }
    {
        is_canonical_part(&Held(self.query()).0)
    }

    /// Whether the fragment, if present, is in canonical spelling.
    fn has_canonical_fragment(&self) -> bool
        ensures { result ≡ option_eq bytes_eq (option_map canonical self.now.parts.fragment) self.now.parts.fragment }
    {
        is_canonical_part(&Held(self.fragment()).0)
    }

    /// Whether the path has the text of its normal form at this place.
    fn has_normal_path(&self, context: PathContext) -> bool
        ensures { result ≡ is_normal_at context self.now.parts.path }
    {
        is_normal_path_text(self.path_bytes(), context)
    }

    /// What precedes the path.
    pub(super) fn context(&self) -> PathContext
        ensures { result ≡ context_of self.now.parts }
    {
        PathContext {
            has_scheme: self.pieces.has_scheme(),
            has_authority: self.pieces.authority.is_some(),
        }
    }

    /// Whether each component but the authority has the text of its normal form, with the path at
    /// this place.
    pub(super) fn is_normal_outside(&self, context: PathContext) -> bool
        requires { context ≡ context_of self.now.parts }
        ensures { result ≡ is_normal_outside self.now.parts }
    {
        self.has_canonical_scheme()
            && self.has_normal_path(context)
            && self.has_canonical_query()
            && self.has_canonical_fragment()
    }

    /// Whether each component has the text of its normal form, with the path at this place.
    fn is_normal(&self, context: PathContext) -> bool
        requires { context ≡ context_of self.now.parts }
        ensures { result ≡ is_normal self.now.parts }
    {
        self.has_canonical_scheme()
            && self.has_canonical_authority()
            && self.has_normal_path(context)
            && self.has_canonical_query()
            && self.has_canonical_fragment()
    }

    /// Whether the reference that the view builds is in normal form, as
    /// [`URIReference::is_normalized`](crate::uri_reference::URIReference::is_normalized) reports:
    /// the text that this reference prints is its normal form's. What reading itself changes
    /// does not count, such as the case of a registered scheme, so the view's own text may differ.
    /// Does not allocate.
    pub fn is_normalized(&self) -> bool
        ensures text { IsTrue result ↔ (print (normal self.now.parts) ≡ print self.now.parts) }
        ensures form { IsTrue result → normal self.now.parts ≡ self.now.parts }
    {
        self.assert_valid();
        self.is_normal(self.context())
    }
}
