//! The components of a reference, each with its delimiter, and the text of its normal form in a
//! buffer of the caller: RFC 3986, sections 5.3 and 6.2.2.
ghost use Rattle.std.specs.Prelude.{◌≡◌, ◌++◌, length, ⊤};
ghost use Rattle.std.specs.Option.{option_map};
ghost use Rattle.uriparse_text.specs.declared.internal.token.Case.TheVariants as case;
ghost use Rattle.uriparse_text.specs.Bytes.{number_sign, question_mark};
ghost use Rattle.uriparse_text.specs.Cuts.{following};
ghost use Rattle.uriparse_text.specs.Ends.{EndsWith, Puts, formed};
ghost use Rattle.uriparse_reference.specs.Reference.{print};
ghost use Rattle.uriparse_reference.specs.Normal.{normal};
ghost use Rattle.uriparse_reference.specs.Into as spec;

use super::super::error::BufferError;
use super::ReferenceView;
use super::put::{PutText, copy_into, write};
use uriparse_authority::authority::Authority;
use uriparse_authority::internal as authority;
use uriparse_path::internal::prepend_normal_path;
use uriparse_scheme::scheme::Scheme;
use uriparse_text::fragment::Fragment;
use uriparse_text::internal::{Case, Form, prepend, prepend_following, prepend_formed};
use uriparse_text::query::Query;

/// Puts the query and the fragment, each with its delimiter, if present, at the end of the buffer.
/// Returns their length. If there is no room, only the length is counted.
pub fn prepend_query_and_fragment(
    form: Form,
    query: &Option<Query<'_>>,
    fragment: &Option<Fragment<'_>>,
    out: &mut [u8],
) -> usize
    ensures room { length out.new ≡ length out.old }
    ensures ends { EndsWith out.new result (following question_mark (option_map (formed form case.Kept) query.now) ++ following number_sign (option_map (formed form case.Kept) fragment.now)) }
{
    let len = prepend_following(form, b'#', fragment, out, 0);
    prepend_following(form, b'?', query, out, len)
}

/// Puts two slashes and the authority, if there is one.
fn prepend_authority(
    form: Form,
    authority: &Option<Authority<'_>>,
    out: &mut [u8],
    len: usize,
) -> usize
    ensures room { length out.new ≡ length out.old }
    ensures puts { Puts (spec.authority_front form authority.now) out.old len out.new result }
{
    match authority {
        Some(authority) => {
            let len = authority::prepend_authority(authority, form, out, len);
            prepend(b"//", out, len)
        }
        None => len,
    }
}

/// Puts the scheme and a colon, if there is one.
fn prepend_scheme(form: Form, scheme: &Option<Scheme<'_>>, out: &mut [u8], len: usize) -> usize
    ensures room { length out.new ≡ length out.old }
    ensures puts { Puts (spec.scheme_front form scheme.now) out.old len out.new result }
{
    match scheme {
        Some(scheme) => {
            let len = prepend(b":", out, len);
            prepend_formed(form, Case::Lowered, scheme.as_str().as_bytes(), out, len)
        }
        None => len,
    }
}

/// Puts the scheme and the authority, each with its delimiter, if present.
pub fn prepend_scheme_and_authority(
    form: Form,
    scheme: &Option<Scheme<'_>>,
    authority: &Option<Authority<'_>>,
    out: &mut [u8],
    len: usize,
) -> usize
    ensures room { length out.new ≡ length out.old }
    ensures puts { Puts (spec.scheme_front form scheme.now ++ spec.authority_front form authority.now) out.old len out.new result }
{
    let len = prepend_authority(form, authority, out, len);
    prepend_scheme(form, scheme, out, len)
}

/// The text of the normal form of a view.
#[derive(Drop)]
pub(super) struct NormalText<'v, 't>(pub(super) &'v ReferenceView<'t>);

impl<'v, 't> PutText for NormalText<'v, 't> {
    ghost can_be_put = { λ _. ⊤ };

    ghost text = { λ s. print (normal s.0.now.parts) };

    fn put(&self, out: &mut [u8]) -> usize {
        let view = self.0;
        let len = prepend_query_and_fragment(Form::Canonical, &view.query(), &view.fragment(), out);
        let len = prepend_normal_path(view.path_bytes(), view.context(), out, len);
        prepend_scheme_and_authority(Form::Canonical, &view.scheme(), &view.authority(), out, len)
    }
}

impl<'t> ReferenceView<'t> {
    /// Writes the text of the normal form to the start of the buffer and returns its length in
    /// bytes; what follows it in the buffer is unchanged. The text is the one that
    /// [`URIReference::normalize`](crate::uri_reference::URIReference::normalize) makes. RFC 3986,
    /// section 6.2.2.
    ///
    /// A text doesn't keep the kind of a host: the name in `//%31.2.3.4` is written as `1.2.3.4`,
    /// which is read as an address. Any other text that is written is read as the normal form.
    ///
    /// If the buffer is too small, it is unchanged, and the error is
    /// [`TooSmall`](BufferError::TooSmall) with the length needed; so a call with an empty buffer
    /// returns the length. Does not allocate.
    ///
    /// ```
    /// let view = ReferenceView::try_from_str("HTTP://Example.com/a/./b/../%7e")?;
    /// let mut buffer = [0; 64];
    /// let len = view.normalize_into(&mut buffer)?;
    /// assert!(&buffer[..len] == b"http://example.com/a/~".as_slice());
    /// assert!(view.normalize_into(&mut buffer[..4]) == Err(BufferError::TooSmall(22)));
    /// ```
    pub fn normalize_into(&self, out: &mut [u8]) -> Result<usize, BufferError>
        ensures { spec.Writes (print (normal self.now.parts)) result out.old out.new }
    {
        if self.is_normalized_text() {
            return copy_into(self.text, out);
        }
        write(&NormalText(self), self.text.len(), out)
    }
}
