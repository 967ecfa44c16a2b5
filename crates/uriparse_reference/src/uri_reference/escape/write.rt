//! Escaping into a buffer of the caller, without memory.
ghost use Rattle.std.specs.Prelude.{◌≡◌, length};
ghost use Rattle.std.specs.Option.{option_copied, option_map};
ghost use Rattle.uriparse_text.specs.Bytes.{colon};
ghost use Rattle.uriparse_text.specs.Cuts.{ahead, following};
ghost use Rattle.uriparse_text.specs.Starts.{Appends, LeavesRest, StartsWith, Writes};
ghost use Rattle.uriparse_scheme.specs.Cuts.{if_some};
ghost use Rattle.uriparse_reference.specs.Escaped as spec;
ghost use Rattle.uriparse_reference.specs.Reference.{after_slashes};

use super::super::read::split_authority;
use uriparse_scheme::internal::split_scheme;
use uriparse_text::internal::{
    Case, Class, TooSmall, append, append_escaped, split_at_delimiter, split_canonical_prefix,
    without_delimiter,
};

/// Appends the scheme and its colon, if it is present: its text is not empty.
fn append_scheme(scheme: &[u8], out: &mut [u8], len: usize) -> usize
    ensures room { length out.new ≡ length out.old }
    ensures appends { Appends (ahead colon (if_some scheme.now)) out.old len out.new result }
    ensures rest { LeavesRest out.old len out.new result }
{
    if scheme.is_empty() {
        return len;
    }
    let len = append(scheme, out, len);
    append(b":", out, len)
}

/// Appends two slashes and the escaped authority, if it is present.
fn append_authority(authority: Option<&[u8]>, out: &mut [u8], len: usize) -> usize
    ensures room { length out.new ≡ length out.old }
    ensures appends { Appends (after_slashes (option_map spec.escaped_authority (option_copied authority.entry))) out.old len out.new result }
    ensures rest { LeavesRest out.old len out.new result }
{
    match authority {
        Some(authority) => {
            let len = append(b"//", out, len);
            append_escaped(Class::UserInfo, b"@[]", authority, out, len)
        }
        None => len,
    }
}

/// Appends a delimiter and the escaped component that follows it, if it is present.
fn append_following(delimiter: u8, component: Option<&[u8]>, out: &mut [u8], len: usize) -> usize
    ensures room { length out.new ≡ length out.old }
    ensures appends { Appends (following delimiter (option_map spec.escaped_component (option_copied component.entry))) out.old len out.new result }
    ensures rest { LeavesRest out.old len out.new result }
{
    match component {
        Some(component) => {
            let len = append(&[delimiter], out, len);
            append_escaped(Class::Query, b"", component, out, len)
        }
        None => len,
    }
}

/// Appends the escaped path, query and fragment. Most are bytes that a query may have: these are found
/// and copied at once, and no `#` is among them. A `?` may stand in a query, so path and query are
/// escaped as one.
fn append_end(end: &[u8], out: &mut [u8], len: usize) -> usize
    ensures room { length out.new ≡ length out.old }
    ensures appends { Appends (spec.escaped_end end.now) out.old len out.new result }
    ensures rest { LeavesRest out.old len out.new result }
{
    let (plain, later) = split_canonical_prefix(Class::Query, Case::Kept, end);
    let len = append(plain, out, len);
    let (front, fragment) = split_at_delimiter(later, b'#');
    let len = append_escaped(Class::Query, b"", front, out, len);
    append_following(b'#', without_delimiter(fragment), out, len)
}

/// Writes the text with its components escaped to the start of the buffer. Returns its length. If
/// there is no room, only the length is counted.
fn write_components(text: &[u8], out: &mut [u8]) -> usize
    ensures room { length out.new ≡ length out.old }
    ensures starts { StartsWith out.new result (spec.escaped text.now) }
    ensures rest { LeavesRest out.old 0 out.new result }
{
    let cut = split_scheme(text);
    let (authority, rest) = split_authority(cut.rest);
    let len = append_scheme(cut.scheme, out, 0);
    let len = append_authority(authority, out, len);
    append_end(rest, out, len)
}

/// Writes the text that [`escape_invalid`](super::escape_invalid) returns to the start of the buffer
/// and returns its length in bytes; what follows it in the buffer is unchanged.
///
/// If the buffer is too small, it is unchanged, and the error has the length needed; so a call with
/// an empty buffer returns that. Does not allocate.
///
/// ```
/// let mut buffer = [0; 32];
/// let len = escape_invalid_into(b"http://h/a b?100%", &mut buffer)?;
/// assert!(&buffer[..len] == b"http://h/a%20b?100%25".as_slice());
/// assert!(escape_invalid_into(b"a b", &mut buffer[..4]) == Err(TooSmall { needed: 5 }));
/// ```
pub fn escape_invalid_into(text: &[u8], out: &mut [u8]) -> Result<usize, TooSmall>
    ensures { Writes (spec.escaped text.now) result out.old out.new }
{
    // With three times as many bytes as the text has there surely is room.
    if text.len() > out.len() / 3 {
        let needed = write_components(text, &mut []);
        if needed > out.len() {
            return Err(TooSmall { needed });
        }
    }
    Ok(write_components(text, out))
}
