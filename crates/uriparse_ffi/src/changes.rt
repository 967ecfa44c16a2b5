//! A reference with components changed, in a caller's buffer. Nothing here allocates.
ghost use Rattle.std.specs.Prelude.{◌≡◌, Err, Ok, Some, false, true};
ghost use Rattle.uriparse_reference.specs.Change.{changing};
ghost use Rattle.uriparse_reference.specs.Reading.{fault};
ghost use Rattle.uriparse_reference.specs.Reference.{Parts, Spells};
ghost use Rattle.uriparse_reference.specs.View.{Viewed};
ghost use Rattle.uriparse_reference.specs.Wanted.{wish};
ghost use Rattle.uriparse_reference.specs.declared.uri_reference.change.ChangeError.TheVariants as errors;
ghost use Rattle.uriparse_reference.specs.declared.uri_reference.error.URIReferenceError.{URIReferenceError};
ghost use Rattle.uriparse_ffi.specs.Changes.{IsChanged, are_wishes, changed_code, changed_needed, is_wish, wanted_in, wish_at};
ghost use Rattle.uriparse_ffi.specs.Code as spec;
ghost use Rattle.uriparse_ffi.specs.Put.{IsPut, IsRefused};

use crate::code::{ACCEPTED, BAD_CHANGE, MISSING_HOST, NO_ROOM, OUT_OF_MEMORY, code_of};
use crate::put::refuse;
use crate::texts::view;
use uriparse::{Change, ChangeError, Changes, ReferenceView};

/// What a caller wants of a component: `action` is 0 if it is kept, 1 if it is set to the bytes of
/// the values from `begin` to `end`, and 2 if it is removed.
#[repr(C)]
#[derive(Clone, Copy)]
pub struct UriValue {
    pub begin: usize,
    pub end: usize,
    pub action: u8,
}

/// What a caller wants of each component.
#[repr(C)]
#[derive(Clone, Copy)]
pub struct UriChanges {
    pub scheme: UriValue,
    pub username: UriValue,
    pub password: UriValue,
    pub host: UriValue,
    pub port: UriValue,
    pub path: UriValue,
    pub query: UriValue,
    pub fragment: UriValue,
}

/// Whether what is wanted of a component has a meaning.
fn is_change(values: &[u8], wanted: UriValue) -> bool
    ensures { result ≡ is_wish values.now wanted }
{
    match wanted.action {
        0 | 2 => true,
        1 => wanted.begin <= wanted.end && wanted.end <= values.len(),
        _ => false,
    }
}

/// Whether what is wanted of each component has a meaning.
fn are_changes(values: &[u8], wanted: &UriChanges) -> bool
    ensures { result ≡ are_wishes values.now wanted.now }
{
    is_change(values, wanted.scheme)
        && is_change(values, wanted.username)
        && is_change(values, wanted.password)
        && is_change(values, wanted.host)
        && is_change(values, wanted.port)
        && is_change(values, wanted.path)
        && is_change(values, wanted.query)
        && is_change(values, wanted.fragment)
}

/// What becomes of a component.
fn change_at(values: &[u8], wanted: UriValue) -> Change<'_>
    requires { is_wish values.now wanted ≡ true }
    ensures { wish result ≡ wish_at values.now wanted }
{
    match wanted.action {
        1 => Change::Set(&values[wanted.begin..wanted.end]),
        2 => Change::Remove,
        _ => Change::Keep,
    }
}

/// What becomes of each component.
fn changes_in<'v>(values: &'v [u8], wanted: &UriChanges) -> Changes<'v>
    requires { are_wishes values.now wanted.now ≡ true }
    ensures { result ≡ wanted_in values.now wanted.now }
{
    Changes {
        scheme: change_at(values, wanted.scheme),
        username: change_at(values, wanted.username),
        password: change_at(values, wanted.password),
        host: change_at(values, wanted.host),
        port: change_at(values, wanted.port),
        path: change_at(values, wanted.path),
        query: change_at(values, wanted.query),
        fragment: change_at(values, wanted.fragment),
    }
}

/// Returns the code of a string that was written to a buffer, or was not, and sets `needed` to its
/// length.
fn answer_change(written: Result<usize, ChangeError>, needed: &mut usize) -> u32
    ensures code { result ≡ changed_code written }
    ensures needed { needed.new ≡ changed_needed written }
{
    match written {
        Ok(len) => {
            *needed = len;
            ACCEPTED
        }
        Err(ChangeError::TooSmall(len)) => {
            *needed = len;
            NO_ROOM
        }
        Err(ChangeError::MissingHost) => refuse(MISSING_HOST, needed),
        Err(ChangeError::Reference(error)) => refuse(code_of(error), needed),
        Err(ChangeError::OutOfMemory) => refuse(OUT_OF_MEMORY, needed),
    }
}

/// Writes the string of a reference with these changes, or returns why there is none.
pub(crate) fn write_with(
    view: &ReferenceView<'_>,
    changes: &Changes<'_>,
    out: &mut [u8],
    needed: &mut usize,
) -> u32
    ensures { IsChanged (changing changes.now view.now.text) out.old out.new needed.new result }
{
    answer_change(view.change_into(changes, out), needed)
}

/// Writes the string of a reference with components changed, or returns why there is none.
fn write_changed_of(
    view: &ReferenceView<'_>,
    wanted: &UriChanges,
    values: &[u8],
    out: &mut [u8],
    needed: &mut usize,
) -> u32
    requires { are_wishes values.now wanted.now ≡ true }
    ensures { IsChanged (changing (wanted_in values.now wanted.now) view.now.text) out.old out.new needed.new result }
{
    let changes = changes_in(values, wanted);
    write_with(view, &changes, out, needed)
}

/// Writes the string of the reference that a text spells with components changed, or returns the
/// code of the text's error, of a change without a meaning, or of the result's fault.
pub fn write_changed(
    text: &[u8],
    wanted: &UriChanges,
    values: &[u8],
    out: &mut [u8],
    needed: &mut usize,
) -> u32
    ensures written { (p : Parts) (v : Viewed) → Spells text.now p → are_wishes values.now wanted.now ≡ true → changing (wanted_in values.now wanted.now) text.now ≡ Ok v → IsPut v.text out.old out.new needed.new result }
    ensures host { (p : Parts) → Spells text.now p → are_wishes values.now wanted.now ≡ true → changing (wanted_in values.now wanted.now) text.now ≡ Err errors.MissingHost → IsRefused spec.missing_host out.old out.new needed.new result }
    ensures rejected { (p : Parts) (e : URIReferenceError) → Spells text.now p → are_wishes values.now wanted.now ≡ true → changing (wanted_in values.now wanted.now) text.now ≡ Err (errors.Reference e) → IsRefused (spec.code_of e) out.old out.new needed.new result }
    ensures malformed { (p : Parts) → Spells text.now p → are_wishes values.now wanted.now ≡ false → IsRefused spec.bad_change out.old out.new needed.new result }
    ensures refused { (e : URIReferenceError) → fault text.now ≡ Some e → IsRefused (spec.code_of e) out.old out.new needed.new result }
{
    match view(text) {
        Ok(view) => {
            if are_changes(values, wanted) {
                write_changed_of(&view, wanted, values, out, needed)
            } else {
                refuse(BAD_CHANGE, needed)
            }
        }
        Err(code) => refuse(code, needed),
    }
}
