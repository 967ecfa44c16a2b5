//! `--explain`: where a rejected text is wrong, and why, on three lines.

use crate::failure::Failure;
use crate::topic::Topic;
use std::cmp::min;
use std::io;
use std::io::Write;
use uriparse::{AuthorityError, URI, URIError, URIReference, URIReferenceError};

pub static ABOUT: Topic = (
    "--explain",
    "\
Shows where rejected input is wrong.

Usage: uri --explain parse TEXT
       uri --explain --json parse TEXT
       uri --explain resolve BASE REF
       uri --lines --explain parse
       uri --lines --explain resolve BASE

Use it to mend a URI. Three lines on standard error show the input, a caret
under the wrong byte, and the error with its component and the number of bytes
before the wrong one. With resolve the third line says which input is wrong,
with --lines on which line it is.

If several components are invalid, the first is reported. In a path, an invalid
byte is reported before a colon in the first segment. An invalid address, a port
that is too large, and such a colon are reported where the component begins.
Long input is cut to 72 bytes around the wrong one, and a byte that is not
printable ASCII is shown as a dot.

Exit status: 0 on success, 1 if input is rejected, 2 on a usage error.

Example:
    uri --explain parse 'http://h/a b' 2>&1
prints
    http://h/a b
              ^
    path at byte 10: invalid path character
",
);

/// How many bytes of a text are shown at most.
const WIDTH: usize = 72;

/// The component of an authority that the error is about.
fn part_of_authority(error: &AuthorityError) -> &'static str {
    match error {
        AuthorityError::Username(_) => "username",
        AuthorityError::Password(_) => "password",
        AuthorityError::Host(_) => "host",
        AuthorityError::Port(_) => "port",
    }
}

/// The component of a reference that the error is about.
fn part_of_reference(error: &URIReferenceError) -> &'static str {
    match error {
        URIReferenceError::Scheme(_) => "scheme",
        URIReferenceError::Authority(error) => part_of_authority(error),
        URIReferenceError::Query(_) => "query",
        URIReferenceError::Fragment(_) => "fragment",
        _ => "path",
    }
}

/// The component of a URI that the error is about.
fn part_of_uri(error: &URIError) -> &'static str {
    match error {
        URIError::NotURI | URIError::MissingScheme | URIError::Scheme(_) => "scheme",
        URIError::Authority(error) => part_of_authority(error),
        URIError::Query(_) => "query",
        URIError::Fragment(_) => "fragment",
        _ => "path",
    }
}

/// The byte if it is printable ASCII, else a dot.
fn shown(b: u8) -> u8 {
    match b {
        b' '..=b'~' => b,
        _ => b'.',
    }
}

/// Where the bytes begin that are shown of a text of this length, round this place.
fn window(len: usize, offset: usize) -> usize {
    min(offset.saturating_sub(WIDTH / 2), len.saturating_sub(WIDTH))
}

/// Writes a line with the bytes of the text from this one on.
fn write_text<E: Write>(text: &[u8], start: usize, err: &mut E) -> io::Result<()> {
    for b in text.iter().skip(start).take(WIDTH) {
        err.write_all(&[shown(*b)])?;
    }
    err.write_all(b"\n")
}

/// Writes a line with a caret in this column.
fn write_caret<E: Write>(column: usize, err: &mut E) -> io::Result<()> {
    for _ in 0..column {
        err.write_all(b" ")?;
    }
    err.write_all(b"^\n")
}

/// Writes the text, or what is round this place in it, and a caret under the place.
fn write_offset<E: Write>(text: &[u8], offset: usize, err: &mut E) -> io::Result<()> {
    let start = window(text.len(), offset);
    write_text(text, start, err)?;
    write_caret(offset.saturating_sub(start), err)
}

/// Writes a line with up to 72 bytes of the text around this place, each as printable ASCII.
pub fn write_around<E: Write>(text: &[u8], offset: usize, err: &mut E) -> io::Result<()> {
    write_text(text, window(text.len(), offset), err)
}

/// Explains why a base is no URI. Returns whether it is none.
fn explain_base<E: Write>(text: &[u8], err: &mut E) -> io::Result<bool> {
    let Some((offset, error)) = URI::first_fault(text) else {
        return Ok(false);
    };
    write_offset(text, offset, err)?;
    let part = part_of_uri(&error);
    writeln!(err, "base: {part} at byte {offset}: {error}")?;
    Ok(true)
}

/// Explains why a text is no reference, by this name of the text. Returns whether it is none.
fn explain_reference<E: Write>(name: &str, text: &[u8], err: &mut E) -> io::Result<bool> {
    let Some((offset, error)) = URIReference::first_fault(text) else {
        return Ok(false);
    };
    write_offset(text, offset, err)?;
    let part = part_of_reference(&error);
    writeln!(err, "{name}{part} at byte {offset}: {error}")?;
    Ok(true)
}

/// Explains why a text is no reference, by its line's number. Returns whether it is none.
pub fn explain_line<E: Write>(number: u64, text: &[u8], err: &mut E) -> io::Result<bool> {
    let Some((offset, error)) = URIReference::first_fault(text) else {
        return Ok(false);
    };
    write_offset(text, offset, err)?;
    let part = part_of_reference(&error);
    writeln!(err, "line {number}: {part} at byte {offset}: {error}")?;
    Ok(true)
}

/// Explains which of two texts is wrong, the base or the reference. Returns whether one is.
fn explain_either<E: Write>(base: &str, reference: &str, err: &mut E) -> io::Result<bool> {
    if explain_base(base.as_bytes(), err)? {
        return Ok(true);
    }
    explain_reference("reference: ", reference.as_bytes(), err)
}

/// Explains why a text of the command of this name is rejected. Returns whether one is.
fn explain_texts<E: Write>(name: &str, texts: &[&str], err: &mut E) -> io::Result<bool> {
    match (name, texts) {
        ("parse", [text]) => explain_reference("", text.as_bytes(), err),
        ("resolve", [base]) => explain_base(base.as_bytes(), err),
        ("resolve", [base, reference]) => explain_either(base, reference, err),
        _ => Ok(false),
    }
}

/// Writes three lines on the text that the command of this name rejects: the text, a caret under
/// the byte that its fault is about, and the fault. If the command fails for another reason, only
/// that is written.
pub fn explain<E: Write>(
    name: &str,
    texts: &[&str],
    failure: &Failure,
    err: &mut E,
) -> io::Result<()> {
    if explain_texts(name, texts, err)? {
        return Ok(());
    }
    writeln!(err, "{failure}")
}
