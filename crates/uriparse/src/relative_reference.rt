//! A relative reference: RFC 3986, section 4.2.
ghost use Rattle.std.specs.Prelude.{◌≡◌, IfOk, IsOk, None, length};
ghost use Rattle.uriparse_reference.specs.Edits.{of_parts};
ghost use Rattle.uriparse_reference.specs.Kinds as kinds;
ghost use Rattle.uriparse.specs.Kinds.{with_mapped_error};
ghost use Rattle.uriparse.specs.RelativeReference as spec;

use crate::builder_of::BuilderOf;
use crate::kind::ReferenceKind;
use crate::reference_of::ReferenceOf;
use crate::text_of::TextOf;
use crate::view_of::ViewOf;
use std::alloc::{AllocError, Global};
use uriparse_authority::authority::Authority;
use uriparse_path::path::Path;
use uriparse_reference::uri_reference::{URIReference, URIReferenceError};
use uriparse_text::fragment::Fragment;
use uriparse_text::query::Query;

mod error;

pub use error::RelativeReferenceError;

/// The kind of reference that a relative reference is.
pub struct WithoutScheme;

impl ReferenceKind for WithoutScheme {
    type Error = RelativeReferenceError;

    ghost use Rattle.std.specs.Prelude.{false};
    ghost use Rattle.uriparse.specs.RelativeReference.{map_error};
    ghost use Rattle.uriparse.specs.declared.relative_reference.error.RelativeReferenceError.TheVariants.{NotRelativeReference};

    ghost has_scheme = { false };

    ghost map_error = { map_error };

    ghost other = { NotRelativeReference };

    fn name() -> &'static str {
        "RelativeReference"
    }

    fn has_scheme() -> bool {
        false
    }

    fn map_error(error: URIReferenceError) -> RelativeReferenceError {
        RelativeReferenceError::from(error)
    }

    fn other() -> RelativeReferenceError {
        RelativeReferenceError::NotRelativeReference
    }
}

/// A relative reference: a reference without a scheme. RFC 3986, section 4.2.
///
/// Its components borrow the text that it was read from, or own their texts. Two of them are equal
/// if their hosts, if present, are of one kind and the canonical spellings of their texts agree.
/// Reading allocates only the list of the path's segments, if there is more than one; an owned copy and a normal form allocate
/// texts too. A setter that fails changes nothing. [`RelativeReferenceError`] says what is
/// rejected. It shares with URIs the calls of [`ReferenceOf`].
///
/// ```
/// let reference = RelativeReference::try_from_str(alloc, "../a?q")?;
/// assert!(reference.is_relative_path_reference() && reference.has_query());
/// ```
pub type RelativeReference<'r> = ReferenceOf<'r, WithoutScheme>;

/// Builds a relative reference component by component. Only the path is required. The calls that it
/// shares with the builder of URIs are at [`BuilderOf`].
///
/// ```
/// let mut builder = RelativeReference::builder();
/// builder.try_path(alloc, b"a")?;
/// assert_eq!(builder.build()?.to_string(alloc)?.as_str(), "a");
/// ```
pub type RelativeReferenceBuilder<'b> = BuilderOf<'b, WithoutScheme>;

/// A relative reference in its text: a [`ReferenceView`](crate::ReferenceView) without a scheme.
/// The calls that it shares with views of URIs are at [`ViewOf`].
///
/// ```
/// let view = RelativeReferenceView::try_from_str("../a?q")?;
/// assert!(view.as_reference_view().path() == "../a");
/// assert!(RelativeReferenceView::try_from_str("s:a").is_err());
/// ```
pub type RelativeReferenceView<'r> = ViewOf<'r, WithoutScheme>;

/// A relative reference in a text that it owns: a [`ReferenceText`](crate::ReferenceText) without a
/// scheme. The calls that it shares with texts of URIs are at [`TextOf`].
///
/// ```
/// let text = RelativeReferenceText::try_from_str(alloc, "../a?q")?;
/// assert!(text.as_view().as_reference_view().path() == "../a" && text.as_str() == "../a?q");
/// assert!(RelativeReferenceText::try_from_str(alloc, "s:a").is_err());
/// ```
pub type RelativeReferenceText = TextOf<WithoutScheme>;

impl<'r> RelativeReferenceView<'r> {
    /// The relative reference, whose components borrow the text. Allocates only for the list of the
    /// path's segments, if there is more than one; no byte is checked again.
    pub fn to_relative_reference(&self, alloc: Global) -> Result<RelativeReference<'r>, AllocError>
        ensures reference { IfOk result (λ r. r ≡ self.now.parts) }

        // A path of one segment takes no memory.
        ensures takes_no_memory { length self.now.parts.path.segments ≡ 1 → IsOk result }
    {
        self.to_value(alloc)
    }
}

impl<'r> RelativeReference<'r> {
    ghost use Rattle.uriparse_reference.specs.Reference.{Valid};

    /// The relative reference of these components: RFC 3986, sections 3.3 and 4.2. With an
    /// authority the path is made absolute, else it becomes the one that its text spells. Does not
    /// allocate.
    ///
    /// Without an authority, fails with
    /// [`AbsolutePathStartsWithTwoSlashes`](RelativeReferenceError::AbsolutePathStartsWithTwoSlashes)
    /// if the path's text begins with two slashes, else with
    /// [`SchemelessPathStartsWithColonSegment`](RelativeReferenceError::SchemelessPathStartsWithColonSegment)
    /// if it has a colon before any slash.
    pub fn from_parts(
        authority: Option<Authority<'r>>,
        path: Path<'r>,
        query: Option<Query<'r>>,
        fragment: Option<Fragment<'r>>,
    ) -> Result<RelativeReference<'r>, RelativeReferenceError>
        ensures { result ≡ with_mapped_error spec.map_error (of_parts (record { scheme = None; authority = authority.entry; path = path.entry; query = query.entry; fragment = fragment.entry })) }
    {
        let answer = URIReference::from_parts(None, authority, path, query, fragment);
        ReferenceOf::map_error_of_checked(answer)
    }

    /// The authority, the path, the query and the fragment. Does not allocate.
    pub fn into_parts(
        self,
    ) -> (
        Option<Authority<'r>>,
        Path<'r>,
        Option<Query<'r>>,
        Option<Fragment<'r>>,
    )
        ensures scheme { self.entry.scheme ≡ None }
        ensures authority { result.0 ≡ self.entry.authority }
        ensures path { result.1 ≡ self.entry.path }
        ensures query { result.2 ≡ self.entry.query }
        ensures fragment { result.3 ≡ self.entry.fragment }
        ensures valid { Valid self.entry }
    {
        let (_, authority, path, query, fragment) = self.reference.into_parts();
        (authority, path, query, fragment)
    }

    /// Whether it has an authority. RFC 3986, section 4.2.
    pub fn is_network_path_reference(&self) -> bool
        ensures { result ≡ kinds.is_network_path_reference self.now }
    {
        self.reference.is_network_path_reference()
    }

    /// Whether it has no authority and an absolute path. RFC 3986, section 4.2.
    pub fn is_absolute_path_reference(&self) -> bool
        ensures { result ≡ kinds.is_absolute_path_reference self.now }
    {
        self.reference.is_absolute_path_reference()
    }

    /// Whether it has no authority and a relative path, such as the empty one. RFC 3986, section
    /// 4.2.
    pub fn is_relative_path_reference(&self) -> bool
        ensures { result ≡ kinds.is_relative_path_reference self.now }
    {
        self.reference.is_relative_path_reference()
    }
}

impl<'b> RelativeReferenceBuilder<'b> {
    /// The relative reference of the components. Does not allocate.
    ///
    /// Fails with [`MissingPath`](RelativeReferenceError::MissingPath) if there is no path, else as
    /// [`from_parts`](RelativeReference::from_parts) does. An error consumes the builder.
    pub fn build(self) -> Result<RelativeReference<'b>, RelativeReferenceError>
        ensures { result ≡ spec.relative_built self.entry }
    {
        match self.builder.build() {
            Ok(reference) => Ok(ReferenceOf::of_checked(reference)),
            Err(error) => Err(WithoutScheme::map_error(error)),
        }
    }
}
