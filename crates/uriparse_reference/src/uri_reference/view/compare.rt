//! Comparing and hashing references in their texts: RFC 3986, section 6.2.2.
ghost use Rattle.std.specs.Prelude.{◌≡◌, ◌↔◌, IsTrue, bytes_eq, fold};
ghost use Rattle.std.proofs.Common.{rules};
ghost use Rattle.std.specs.Option.{option_eq};
ghost use Rattle.std.specs.Ordering.{on};
ghost use Rattle.std.specs.Cmp.Rules.{comparing, hashing};
ghost use Rattle.uriparse_text.specs.Canonical.{canonical};
ghost use Rattle.uriparse_path.specs.Path.{text};
ghost use Rattle.uriparse_authority.specs.Authority as authorities;
ghost use Rattle.uriparse_reference.specs.Key.{each_alike, ends_alike, fed, fed_key, key, authority_and_path_alike};
ghost use Rattle.uriparse_reference.specs.Reference.{Same};
ghost use Rattle.uriparse_reference.specs.View.{view_key};

use super::super::URIReference;
use super::ReferenceView;
use std::hash::{Hash, Hasher};
use uriparse_path::internal::{are_path_texts_alike, feed_path_text};
use uriparse_text::internal::Held;

impl<'t> ReferenceView<'t> {
    /// Whether the schemes, fragments and queries are equal, each in canonical spelling.
    fn has_ends_alike(&self, other: &ReferenceView<'t>) -> bool
        ensures { result ≡ ends_alike self.now.parts other.now.parts }
    {
        Held(self.scheme()).0 == Held(other.scheme()).0
            && Held(self.fragment()).0 == Held(other.fragment()).0
            && Held(self.query()).0 == Held(other.query()).0
    }

    /// Whether the authorities and paths are equal, each in canonical spelling.
    fn eq_authority_and_path(&self, other: &ReferenceView<'t>) -> bool
        ensures { result ≡ authority_and_path_alike self.now.parts other.now.parts }
    {
        Held(self.authority()).0 == Held(other.authority()).0
            && are_path_texts_alike(self.path_bytes(), other.path_bytes())
    }

    /// Whether the components are equal, each in canonical spelling. Compares the shortest first.
    fn is_each_alike(&self, other: &ReferenceView<'t>) -> bool
        ensures { result ≡ each_alike self.now.parts other.now.parts }
    {
        self.has_ends_alike(other) && self.eq_authority_and_path(other)
    }

    /// Whether the scheme, fragment and query equal the reference's, each in canonical
    /// spelling.
    fn has_ends_of(&self, reference: &URIReference<'_>) -> bool
        ensures { result ≡ ends_alike self.now.parts reference.now }
    {
        Held(self.scheme()).0 == reference.scheme
            && Held(self.fragment()).0 == reference.fragment
            && Held(self.query()).0 == reference.query
    }

    /// Whether the authority equals the reference's, in canonical spelling.
    fn has_authority_of(&self, reference: &URIReference<'_>) -> bool
        ensures { result ≡ option_eq (on authorities.key bytes_eq) self.now.parts.authority reference.now.authority }
    {
        Held(self.authority()).0 == reference.authority
    }

    /// Whether the path's text equals the reference's, in canonical spelling.
    fn has_path_of(&self, reference: &URIReference<'_>) -> bool
        ensures { result ≡ bytes_eq (canonical (text self.now.parts.path)) (canonical (text reference.now.path)) }
    {
        reference.path.eq_bytes(self.path_bytes())
    }

    /// Whether the components equal the reference's, each in canonical spelling. Compares the
    /// shortest first.
    fn has_each_of(&self, reference: &URIReference<'_>) -> bool
        ensures { result ≡ each_alike self.now.parts reference.now }
    {
        self.has_ends_of(reference)
            && self.has_authority_of(reference)
            && self.has_path_of(reference)
    }

    /// Whether the reference is equal to the one that the view builds. Does not allocate.
    ///
    /// ```
    /// let reference = URIReference::try_from_str(alloc, "http://example.com/%7ea")?;
    /// let view = ReferenceView::try_from_str("HTTP://Example.com/~a")?;
    /// assert!(view.eq_reference(&reference) && reference.eq_view(&view));
    /// ```
    pub fn eq_reference(&self, reference: &URIReference<'_>) -> bool
        ensures key { result ≡ bytes_eq (key self.now.parts) (key reference.now) }
        ensures same { IsTrue result ↔ Same self.now.parts reference.now }
    {
        self.assert_valid();
        let _path = &reference.path;
        self.has_each_of(reference)
    }
}

impl<'r> URIReference<'r> {
    /// Whether the reference is equal to the one that a view builds. Does not allocate.
    pub fn eq_view(&self, view: &ReferenceView<'_>) -> bool
        ensures key { result ≡ bytes_eq (key self.now) (key view.now.parts) }
        ensures same { IsTrue result ↔ Same self.now view.now.parts }
    {
        view.eq_reference(self)
    }
}

impl<'t> PartialEq for ReferenceView<'t> {
    ghost eq = { on view_key bytes_eq };

    ghost laws = { Prim.search (comparing, rules) };

    fn eq(&self, other: &ReferenceView<'t>) -> bool {
        self.text == other.text || self.is_each_alike(other)
    }
}

impl<'t> Eq for ReferenceView<'t> {
    ghost laws = { Prim.search (comparing, rules) };
}

impl<'t> Hash for ReferenceView<'t> {
    ghost hash_input = { λ v. fed_key (view_key v) };

    ghost respects_eq = { Prim.search (hashing, rules) };

    fn hash<H: Hasher>(&self, state: &mut H)
        ensures fed { state.new ≡ fold H.write state.old (fed self.now.parts) }
        ensures key { state.new ≡ fold H.write state.old (fed_key (key self.now.parts)) }
    {
        self.scheme().hash(state);
        self.authority().hash(state);
        feed_path_text(self.path_bytes(), state);
        self.query().hash(state);
        self.fragment().hash(state);
    }
}
