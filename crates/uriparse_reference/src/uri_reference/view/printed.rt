//! Whether the text of a view is the one that its reference prints, or its normal form's: RFC
//! 3986, sections 5.3 and 6.2.2.
ghost use Rattle.std.specs.Prelude.{◌≡◌, ◌↔◌, [], IsTrue, unwrap_or};
ghost use Rattle.uriparse_path.specs.Path.{text};
ghost use Rattle.uriparse_reference.specs.Cuts.{authority_text, path_text, scheme_text};
ghost use Rattle.uriparse_reference.specs.Reference.{authority_part, print, scheme_part};
ghost use Rattle.uriparse_reference.specs.Normal.{HasOwnTexts, normal};

use super::super::read::split_authority;
use super::ReferenceView;
use uriparse_scheme::internal::split_scheme;

impl<'t> ReferenceView<'t> {
    /// Whether printing the scheme gives back the input.
    fn has_own_scheme_text(&self) -> bool
        ensures { IsTrue result ↔ (scheme_part self.now.parts ≡ scheme_text self.now.text) }
    {
        match self.scheme() {
            Some(scheme) => scheme.as_str().as_bytes() == self.pieces.scheme,
            None => true,
        }
    }

    /// The text of the authority, empty without one.
    fn authority_bytes(&self) -> &'t [u8]
        ensures { result.now ≡ unwrap_or (authority_text self.now.text) [] }
    {
        let (authority, _) = split_authority(split_scheme(self.text).rest);
        authority.unwrap_or(b"")
    }

    /// Whether the text of the authority, if present, is its normal form's.
    fn has_normal_authority_text(&self) -> bool
        ensures { IsTrue result ↔ (authority_part (normal self.now.parts) ≡ authority_text self.now.text) }
    {
        self.assert_valid();
        match &self.pieces.authority {
            Some(found) => found.is_normal_text(self.authority_bytes()),
            None => true,
        }
    }

    /// Whether the path prints its text.
    fn has_own_path_text(&self) -> bool
        ensures { IsTrue result ↔ (text self.now.parts.path ≡ path_text self.now.text) }
    {
        // The contract of `assert_valid` does not say how the path was found.
        let _text = &self.text;
        !self.has_implied_root()
    }

    /// Whether the path, and the scheme, if present, print their texts, and the authority's text,
    /// if present, is its normal form's.
    fn has_own_texts(&self) -> bool
        ensures { IsTrue result ↔ HasOwnTexts self.now.text self.now.parts }
    {
        self.has_own_path_text() && self.has_own_scheme_text() && self.has_normal_authority_text()
    }

    /// Whether the text that was read is the normal form's, byte for byte: what
    /// [`normalize_into`](ReferenceView::normalize_into) would write. Other than
    /// [`is_normalized`](ReferenceView::is_normalized), it also counts what reading itself changes:
    /// the case of a registered scheme, another text of an IPv6 address, leading zeros of a port or
    /// a port without digits, and an empty path after an authority. Does not allocate.
    ///
    /// ```
    /// let view = ReferenceView::try_from_str("HTTP://example.com/")?;
    /// assert!(view.is_normalized() && !view.is_normalized_text());
    /// assert!(ReferenceView::try_from_str("http://example.com/")?.is_normalized_text());
    /// ```
    pub fn is_normalized_text(&self) -> bool
        ensures { IsTrue result ↔ (print (normal self.now.parts) ≡ self.now.text) }
    {
        self.assert_valid();
        self.has_own_texts() && self.is_normal_outside(self.context())
    }
}
