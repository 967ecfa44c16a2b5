//! The text of the target of a reference in a buffer of the caller: RFC 3986, section 5.2.
ghost use Rattle.std.specs.Prelude.{◌≡◌, ◌≤◌, ◌&&◌, ◌++◌, Err, false, is_some, length, nat_lt, true};
ghost use Rattle.std.specs.Option.{option_or};
ghost use Rattle.uriparse_text.specs.declared.internal.backward_buffer.Form.TheVariants.{AsIs};
ghost use Rattle.uriparse_text.specs.Ends.{EndsWith, Puts};
ghost use Rattle.uriparse_path.specs.Edits.{with_dot_prefix_unless};
ghost use Rattle.uriparse_path.specs.Path.{is_rooted, max_segments, pieces, text};
ghost use Rattle.uriparse_reference.specs.declared.uri_reference.error.BufferError.TheVariants as errors;
ghost use Rattle.uriparse_reference.specs.Reference.{Valid};
ghost use Rattle.uriparse_reference.specs.Target.{dots_removed, is_empty, is_merged, merge, target};
ghost use Rattle.uriparse_reference.specs.Into as spec;

use super::super::error::BufferError;
use super::ReferenceView;
use super::put::{PutText, write};
use super::write::{prepend_query_and_fragment, prepend_scheme_and_authority};
use uriparse_path::internal::{prepend_merged, prepend_undotted};
use uriparse_path::path::MAX_SEGMENTS;
use uriparse_text::internal::{Form, prepend};

/// The text of the target of a reference against a base.
#[derive(Drop)]
pub(super) struct TargetText<'v, 't> {
    pub(super) base: &'v ReferenceView<'t>,
    pub(super) reference: &'v ReferenceView<'t>,
}

impl<'v, 't> PutText for TargetText<'v, 't> {
    ghost can_be_put = { λ t. (is_some t.base.now.parts.scheme ≡ true) × (is_merged t.reference.now.parts ≡ true → length (pieces (merge t.base.now.parts t.reference.now.parts)) ≤ max_segments) };

    ghost text = { λ t. spec.print_if (target t.base.now.parts t.reference.now.parts) };

    #[inline(always)]
    fn put(&self, out: &mut [u8]) -> usize {
        let (base, reference) = (self.base, self.reference);
        base.assert_valid();
        reference.assert_valid();
        base.prepend_target(reference, out)
    }
}

impl<'t> ReferenceView<'t> {
    /// The number of segments of the path.
    fn segment_count(&self) -> usize
        ensures count { result ≡ length self.now.parts.path.segments }
        ensures valid { Valid self.now.parts }
    {
        self.pieces.tail.count
    }

    /// Whether the path's text is empty.
    fn has_empty_path(&self) -> bool
        ensures { result ≡ is_empty (text self.now.parts.path) }
    {
        self.path_bytes().is_empty()
    }

    /// Whether the path's text begins with a slash.
    fn has_rooted_path(&self) -> bool
        ensures { result ≡ is_rooted (text self.now.parts.path) }
    {
        matches!(self.path_bytes(), [b'/', ..])
    }

    /// Whether the target's path is made of merged paths.
    fn is_merged(&self) -> bool
        ensures { result ≡ is_merged self.now.parts }
    {
        !self.has_scheme()
            && !self.has_authority()
            && !self.has_empty_path()
            && !self.has_rooted_path()
    }

    /// Whether the merged paths of this base and a reference have more segments than a path may
    /// have.
    fn merges_too_long(&self, reference: &ReferenceView<'_>) -> bool
        requires { is_merged reference.now.parts ≡ true }
        ensures { result ≡ nat_lt max_segments (length (pieces (merge self.now.parts reference.now.parts))) }
    {
        self.segment_count() - 1 + reference.segment_count() > MAX_SEGMENTS
    }

    /// Whether the merged paths of this base and a reference, if they are merged, have too many
    /// segments: then there is no target.
    pub(super) fn lacks_target(&self, reference: &ReferenceView<'_>) -> bool
        ensures { result ≡ (is_merged reference.now.parts && nat_lt max_segments (length (pieces (merge self.now.parts reference.now.parts)))) }
    {
        reference.is_merged() && self.merges_too_long(reference)
    }

    /// Puts the path without its dot segments, the query and the fragment at the end of the buffer.
    fn prepend_own_tail(&self, has_authority: bool, out: &mut [u8]) -> usize
        ensures room { length out.new ≡ length out.old }
        ensures ends { EndsWith out.new result (spec.tail_text (with_dot_prefix_unless has_authority (dots_removed (text self.now.parts.path))) self.now.parts.query self.now.parts.fragment) }
    {
        let len = prepend_query_and_fragment(Form::AsIs, &self.query(), &self.fragment(), out);
        prepend_undotted(Form::AsIs, has_authority, self.path_bytes(), out, len)
    }

    /// Puts the path of this base as it is, the query of the reference or else of the base, and the
    /// fragment of the reference.
    fn prepend_same_tail(&self, reference: &ReferenceView<'_>, out: &mut [u8]) -> usize
        ensures room { length out.new ≡ length out.old }
        ensures valid { Valid self.now.parts }
        ensures ends { EndsWith out.new result (spec.tail_text self.now.parts.path (option_or reference.now.parts.query self.now.parts.query) reference.now.parts.fragment) }
    {
        let query = reference.query().or(self.query());
        let len = prepend_query_and_fragment(Form::AsIs, &query, &reference.fragment(), out);
        prepend(self.path_bytes(), out, len)
    }

    /// Puts the merged paths without their dot segments, and the query and the fragment of the
    /// reference.
    fn prepend_merged_tail(&self, reference: &ReferenceView<'_>, out: &mut [u8]) -> usize
        requires merged { is_merged reference.now.parts ≡ true }
        requires short { length (pieces (merge self.now.parts reference.now.parts)) ≤ max_segments }
        ensures room { length out.new ≡ length out.old }
        ensures ends { EndsWith out.new result (spec.merged_tail self.now.parts reference.now.parts) }
    {
        let len = prepend_query_and_fragment(
            Form::AsIs,
            &reference.query(),
            &reference.fragment(),
            out,
        );
        let has_authority = self.has_authority();
        prepend_merged(
            has_authority,
            self.path_bytes(),
            reference.path_bytes(),
            out,
            len,
        )
    }

    /// Puts the path, the query and the fragment of the target of a reference that has neither a
    /// scheme nor an authority.
    fn prepend_inherited_tail(&self, reference: &ReferenceView<'_>, out: &mut [u8]) -> usize
        requires scheme { is_some reference.now.parts.scheme ≡ false }
        requires authority { is_some reference.now.parts.authority ≡ false }
        requires short { is_merged reference.now.parts ≡ true → length (pieces (merge self.now.parts reference.now.parts)) ≤ max_segments }
        ensures room { length out.new ≡ length out.old }
        ensures ends { EndsWith out.new result (spec.tail_if (target self.now.parts reference.now.parts)) }
    {
        if reference.has_empty_path() {
            return self.prepend_same_tail(reference, out);
        }
        if reference.has_rooted_path() {
            return reference.prepend_own_tail(self.has_authority(), out);
        }
        self.prepend_merged_tail(reference, out)
    }

    /// Puts the scheme and the authority, each with its delimiter, if present.
    #[inline(always)]
    fn prepend_own_scheme_and_authority(&self, out: &mut [u8], len: usize) -> usize
        ensures room { length out.new ≡ length out.old }
        ensures puts { Puts (spec.scheme_front AsIs self.now.parts.scheme ++ spec.authority_front AsIs self.now.parts.authority) out.old len out.new result }
    {
        prepend_scheme_and_authority(Form::AsIs, &self.scheme(), &self.authority(), out, len)
    }

    /// Puts this scheme and the authority of `reference`, each with its delimiter, if present.
    #[inline(always)]
    fn prepend_scheme_with_authority_of(
        &self,
        reference: &ReferenceView<'_>,
        out: &mut [u8],
        len: usize,
    ) -> usize
        ensures room { length out.new ≡ length out.old }
        ensures puts { Puts (spec.scheme_front AsIs self.now.parts.scheme ++ spec.authority_front AsIs reference.now.parts.authority) out.old len out.new result }
    {
        prepend_scheme_and_authority(Form::AsIs, &self.scheme(), &reference.authority(), out, len)
    }

    /// Puts the text of the target at the end of the buffer. Returns its length. If there is no
    /// room, only the length is counted.
    fn prepend_target(&self, reference: &ReferenceView<'_>, out: &mut [u8]) -> usize
        requires { is_merged reference.now.parts ≡ true → length (pieces (merge self.now.parts reference.now.parts)) ≤ max_segments }
        ensures room { length out.new ≡ length out.old }
        ensures ends { EndsWith out.new result (spec.print_if (target self.now.parts reference.now.parts)) }
    {
        if reference.has_scheme() {
            let len = reference.prepend_own_tail(reference.has_authority(), out);
            return reference.prepend_own_scheme_and_authority(out, len);
        }
        if reference.has_authority() {
            let len = reference.prepend_own_tail(true, out);
            return self.prepend_scheme_with_authority_of(reference, out, len);
        }
        let len = self.prepend_inherited_tail(reference, out);
        self.prepend_own_scheme_and_authority(out, len)
    }

    /// The number of bytes of the texts that the target is put together from: the reference's,
    /// and this base's if the reference has no scheme; or the largest number.
    fn source_len(&self, reference: &ReferenceView<'_>) -> usize {
        if reference.has_scheme() {
            reference.text.len()
        } else {
            self.text.len().saturating_add(reference.text.len())
        }
    }

    /// Resolves a reference against this base, writes the text of the target to the start of the
    /// buffer and returns its length in bytes; what follows it in the buffer is unchanged. Nothing
    /// is normalized, but dot segments are removed. RFC 3986, section 5.2.
    ///
    /// On an error the buffer is unchanged. The error is
    /// [`RelativeBase`](BufferError::RelativeBase) if this base has no scheme, else
    /// [`TooManySegments`](BufferError::TooManySegments) if the merged paths have more segments
    /// than a path may have, else [`TooSmall`](BufferError::TooSmall) with the length needed if the
    /// buffer is too small; so a call with an empty buffer returns the length. Does not allocate.
    ///
    /// ```
    /// let base = ReferenceView::try_from_str("http://a/b/c/d;p?q")?;
    /// let reference = ReferenceView::try_from_str("../g?y")?;
    /// let mut buffer = [0; 64];
    /// let len = base.resolve_into(&reference, &mut buffer)?;
    /// assert!(&buffer[..len] == b"http://a/b/g?y".as_slice());
    /// ```
    pub fn resolve_into(
        &self,
        reference: &ReferenceView<'_>,
        out: &mut [u8],
    ) -> Result<usize, BufferError>
        // A base without a scheme is rejected.
        ensures base { is_some self.now.parts.scheme ≡ false → (result ≡ Err errors.RelativeBase) × (out.new ≡ out.old) }

        // Else the target's text is written, if there is a target.
        ensures target { is_some self.now.parts.scheme ≡ true → spec.WritesTarget self.now.parts reference.now.parts result out.old out.new }
    {
        if !self.has_scheme() {
            return Err(BufferError::RelativeBase);
        }
        if self.lacks_target(reference) {
            return Err(BufferError::TooManySegments);
        }
        let target = TargetText {
            base: self,
            reference,
        };
        write(&target, self.source_len(reference), out)
    }
}
