//! The string of a reference with components changed: RFC 3986, section 5.3.
ghost use Rattle.std.specs.Prelude.{◌≡◌, length, string_bytes};
ghost use Rattle.std.specs.Option.{option_copied, option_map};
ghost use Rattle.uriparse_text.specs.Bytes.{at_sign, colon};
ghost use Rattle.uriparse_text.specs.Cuts.{ahead, following};
ghost use Rattle.uriparse_text.specs.Ends.{EndsWith, Puts};
ghost use Rattle.uriparse_text.specs.Starts.{WritesOr};
ghost use Rattle.uriparse_authority.specs.Authority.{userinfo};
ghost use Rattle.uriparse_reference.specs.Reference.{Parts, Spells, after_slashes};
ghost use Rattle.uriparse_reference.specs.View.{Viewed};
ghost use Rattle.uriparse_reference.specs.Change as spec;
ghost use Rattle.uriparse_reference.specs.declared.uri_reference.change.ChangeError.TheVariants as errors;

use super::super::change::check::change;
use super::super::change::strings::{AuthorityStrings, Strings};
use super::super::change::{ChangeError, Changes};
use super::ReferenceView;
use super::put::{PutText, make_string};
use std::alloc::{AllocError, Global};
use uriparse_text::internal::prepend;

/// Puts a delimiter and the string that follows it, if it is present.
fn prepend_following(delimiter: u8, string: Option<&[u8]>, out: &mut [u8], len: usize) -> usize
    ensures room { length out.new ≡ length out.old }
    ensures puts { Puts (following delimiter (option_copied string.entry)) out.old len out.new result }
{
    match string {
        Some(string) => {
            let len = prepend(string, out, len);
            prepend(&[delimiter], out, len)
        }
        None => len,
    }
}

/// Puts the user name, the password and an `@`, if there is a user name.
fn prepend_user(
    username: Option<&[u8]>,
    password: Option<&[u8]>,
    out: &mut [u8],
    len: usize,
) -> usize
    ensures room { length out.new ≡ length out.old }
    ensures puts { Puts (ahead at_sign (userinfo (option_copied username.entry) (option_copied password.entry))) out.old len out.new result }
{
    match username {
        Some(username) => {
            let len = prepend(b"@", out, len);
            let len = prepend_following(b':', password, out, len);
            prepend(username, out, len)
        }
        None => len,
    }
}

/// Puts two slashes and the authority, if there is one.
fn prepend_authority(strings: &Option<AuthorityStrings<'_>>, out: &mut [u8], len: usize) -> usize
    ensures room { length out.new ≡ length out.old }
    ensures puts { Puts (after_slashes (option_map spec.authority_whole strings.now)) out.old len out.new result }
{
    match strings {
        Some(strings) => {
            let len = prepend_following(b':', strings.port, out, len);
            let len = prepend(strings.host, out, len);
            let len = prepend_user(strings.username, strings.password, out, len);
            prepend(b"//", out, len)
        }
        None => len,
    }
}

/// Puts the path, with a slash before it if it needs one after an authority.
fn prepend_path(has_authority: bool, path: &[u8], out: &mut [u8], len: usize) -> usize
    ensures room { length out.new ≡ length out.old }
    ensures puts { Puts (spec.after_authority has_authority path.now) out.old len out.new result }
{
    let len = prepend(path, out, len);
    match path {
        [] | [b'/', ..] => len,
        _ if has_authority => prepend(b"/", out, len),
        _ => len,
    }
}

/// Puts the scheme and a colon, if there is one.
fn prepend_scheme(scheme: Option<&[u8]>, out: &mut [u8], len: usize) -> usize
    ensures room { length out.new ≡ length out.old }
    ensures puts { Puts (ahead colon (option_copied scheme.entry)) out.old len out.new result }
{
    match scheme {
        Some(scheme) => {
            let len = prepend(b":", out, len);
            prepend(scheme, out, len)
        }
        None => len,
    }
}

/// The string that the strings of components make.
#[derive(Drop)]
struct ChangedText<'s>(Strings<'s>);

impl<'s> PutText for ChangedText<'s> {
    ghost can_be_put = { λ t. (p : Parts) × Spells (spec.whole t.0) p };

    ghost text = { λ t. spec.whole t.0 };

    fn put(&self, out: &mut [u8]) -> usize {
        let strings = &self.0;
        let len = prepend_following(b'#', strings.fragment, out, 0);
        let len = prepend_following(b'?', strings.query, out, len);
        let len = prepend_path(strings.authority.is_some(), strings.path, out, len);
        let len = prepend_authority(&strings.authority, out, len);
        prepend_scheme(strings.scheme, out, len)
    }
}

/// Writes the string to the start of the buffer.
fn write_changed(text: &ChangedText<'_>, out: &mut [u8]) -> Result<usize, ChangeError>
    requires { (p : Parts) × Spells (spec.whole text.now.0) p }
    ensures { WritesOr errors.TooSmall (spec.whole text.now.0) result out.old out.new }
{
    let needed = text.put(&mut []);
    if needed > out.len() {
        return Err(ChangeError::TooSmall(needed));
    }
    Ok(text.put(&mut out[..needed]))
}

impl<'t> ReferenceView<'t> {
    /// Writes the reference's string with some components changed to the start of the buffer, and
    /// returns its length in bytes; what follows it in the buffer is unchanged. A component that is
    /// not changed keeps its bytes. All changes are made at once. RFC 3986, sections 3 and 5.3.
    ///
    /// A path that is not empty gets a leading `/` if it has none and there is an authority. An
    /// empty path after an authority stands for `/`, and becomes that if the authority is removed.
    ///
    /// On an error the buffer is unchanged. It is [`MissingHost`](ChangeError::MissingHost) if a
    /// user name, a password or a port is set and there is no host; else
    /// [`Reference`](ChangeError::Reference) of the first component with a fault, in the order
    /// scheme, user name, password, host, port, path, query, fragment, where the path's rules
    /// follow its own faults: without an authority it may not start with `//`, and with neither a
    /// scheme nor an authority it has no colon before any slash. Else it is
    /// [`TooSmall`](ChangeError::TooSmall) with the length needed if the buffer is too small; so a
    /// call with an empty buffer returns the length. Does not allocate.
    ///
    /// ```
    /// let view = ReferenceView::try_from_str("HTTP://u:p@h:80/%7Ea?q#f")?;
    /// let mut changes = Changes::none();
    /// changes.username = Change::Remove;
    /// changes.port = Change::Set(b"8080");
    /// let mut buffer = [0; 64];
    /// let len = view.change_into(&changes, &mut buffer)?;
    /// assert!(&buffer[..len] == b"HTTP://h:8080/%7Ea?q#f".as_slice());
    /// ```
    pub fn change_into(&self, changes: &Changes<'_>, out: &mut [u8]) -> Result<usize, ChangeError>
        ensures { spec.WritesChanged (spec.changing changes.now self.now.text) result out.old out.new }
    {
        let text = ChangedText(change(self.as_str().as_bytes(), changes)?);
        write_changed(&text, out)
    }

    /// The string that [`change_into`](ReferenceView::change_into) writes, with the same errors in
    /// the same order; then [`OutOfMemory`](ChangeError::OutOfMemory) if memory runs out. Allocates
    /// once, exactly its length.
    ///
    /// ```
    /// let view = ReferenceView::try_from_str("a:b/c")?;
    /// let mut changes = Changes::none();
    /// changes.host = Change::Set(b"h");
    /// assert_eq!(view.change_to_string(alloc, &changes)?.as_str(), "a://h/b/c");
    /// ```
    pub fn change_to_string(
        &self,
        alloc: Global,
        changes: &Changes<'_>,
    ) -> Result<String, ChangeError>
        ensures { spec.ChangesTo (λ s (v : Viewed). string_bytes s ≡ v.text) (spec.changing changes.now self.now.text) result }
    {
        let text = ChangedText(change(self.as_str().as_bytes(), changes)?);
        match make_string(alloc, &text) {
            Ok(string) => Ok(string),
            Err(AllocError) => Err(ChangeError::OutOfMemory),
        }
    }
}
