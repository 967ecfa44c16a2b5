//! A text that is put together from its end, in the last bytes of a buffer. If it is longer than
//! the buffer, only its length is counted.
ghost use Rattle.std.specs.Prelude.{◌≡◌, length};
ghost use Rattle.std.specs.Option.{option_map};
ghost use Rattle.uriparse_text.specs.Canonical.{canonical_in};
ghost use Rattle.uriparse_text.specs.Cuts.{following};
ghost use Rattle.uriparse_text.specs.Ends.{Puts, formed};

use super::canonical::{MayChange, is_canonical, only_raises, spelling_len};
use super::canonical_escape::raise_digits;
use super::forward_buffer::append_rewritten;
use super::text::{Text, TextKind};
use super::token::Case;

/// Whether texts are put as they are or in canonical spelling.
#[derive(Clone, Copy)]
pub enum Form {
    AsIs,
    Canonical,
}

/// Puts bytes in front of a text of `len` bytes. Returns the length of both.
pub fn prepend(bytes: &[u8], out: &mut [u8], len: usize) -> usize
    ensures room { length out.new ≡ length out.old }
    ensures puts { Puts bytes.now out.old len out.new result }
{
    let total = len.saturating_add(bytes.len());
    if total <= out.len() {
        let at = out.len() - total;
        out[at..at + bytes.len()].copy_from_slice(bytes);
    }
    total
}

/// Writes the text's canonical spelling to a buffer of its length. A text that differs only in
/// lower-case digits is copied whole, and others run by run.
fn write_spelling(case: Case, text: &[u8], out: &mut [u8])
    requires { length out.old ≡ length (canonical_in case text.now) }
    ensures { out.new ≡ canonical_in case text.now }
{
    if only_raises(case, text, out.len()) {
        out.copy_from_slice(text);
        raise_digits(out);
    } else {
        let _ = append_rewritten(&MayChange(case), text, out, 0);
    }
}

/// Puts the text's canonical spelling. Most texts are their own, and are copied whole.
pub fn prepend_spelling(case: Case, text: &[u8], out: &mut [u8], len: usize) -> usize
    ensures room { length out.new ≡ length out.old }
    ensures puts { Puts (canonical_in case text.now) out.old len out.new result }
{
    if is_canonical(case, text) {
        return prepend(text, out, len);
    }
    prepend_respelled(case, text, out, len)
}

/// Puts the canonical spelling of any text.
fn prepend_respelled(case: Case, text: &[u8], out: &mut [u8], len: usize) -> usize
    ensures room { length out.new ≡ length out.old }
    ensures puts { Puts (canonical_in case text.now) out.old len out.new result }
{
    let spelling = spelling_len(case, text);
    let total = len.saturating_add(spelling);
    if total <= out.len() {
        let at = out.len() - total;
        write_spelling(case, text, &mut out[at..at + spelling]);
    }
    total
}

/// Puts the text in this form.
pub fn prepend_formed(form: Form, case: Case, text: &[u8], out: &mut [u8], len: usize) -> usize
    ensures room { length out.new ≡ length out.old }
    ensures puts { Puts (formed form case text.now) out.old len out.new result }
{
    match form {
        Form::AsIs => prepend(text, out, len),
        Form::Canonical => prepend_spelling(case, text, out, len),
    }
}

/// Puts a delimiter and the text that follows it, if there is one.
pub fn prepend_following<K: TextKind>(
    form: Form,
    delimiter: u8,
    text: &Option<Text<'_, K>>,
    out: &mut [u8],
    len: usize,
) -> usize
    ensures room { length out.new ≡ length out.old }
    ensures puts { Puts (following delimiter (option_map (formed form K.case) text.now)) out.old len out.new result }
{
    match text {
        Some(text) => {
            let len = prepend_formed(form, K::case(), text.as_bytes(), out, len);
            prepend(&[delimiter], out, len)
        }
        None => len,
    }
}
