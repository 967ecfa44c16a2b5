//! Sort keys in a caller's buffer. Nothing here allocates.
ghost use Rattle.std.specs.Prelude.{◌≡◌, None, Some};
ghost use Rattle.uriparse_reference.specs.declared.uri_reference.error.URIReferenceError.{URIReferenceError};
ghost use Rattle.uriparse_reference.specs.Reading.{fault};
ghost use Rattle.uriparse_reference.specs.Reference.{Parts, Spells};
ghost use Rattle.uriparse.specs.declared.sort_key.KeyForm.{KeyForm};
ghost use Rattle.uriparse.specs.SortKey.{in_form, sort_key};
ghost use Rattle.uriparse_ffi.specs.Code as spec;
ghost use Rattle.uriparse_ffi.specs.Keys as keys;
ghost use Rattle.uriparse_ffi.specs.Put.{IsPut, IsRefused};

use crate::code::KEY_FLAGS;
use crate::put::{answer, refuse};
use crate::texts::view;
use uriparse::{KeyForm, sort_key_into};

/// What a key is of, by its flags.
fn form_of(flags: u32) -> Option<KeyForm>
    ensures { result ≡ keys.form_of flags }
{
    if flags >= 8 {
        return None;
    }
    Some(KeyForm {
        normalized: flags % 2 == 1,
        without_default_port: flags / 2 % 2 == 1,
        without_fragment: flags / 4 % 2 == 1,
    })
}

/// Writes the sort key of the reference that a text spells, in this form, or returns the code of the
/// text's error.
fn write_formed(form: KeyForm, text: &[u8], out: &mut [u8], needed: &mut usize) -> u32
    ensures written { (p : Parts) → Spells text.now p → IsPut (sort_key (in_form form p)) out.old out.new needed.new result }
    ensures refused { (e : URIReferenceError) → fault text.now ≡ Some e → IsRefused (spec.code_of e) out.old out.new needed.new result }
{
    match view(text) {
        Ok(view) => answer(sort_key_into(&view, form, out), needed),
        Err(code) => refuse(code, needed),
    }
}

/// Writes the sort key of the reference that a text spells, in the form that the flags ask for, or
/// returns the code of the text's error.
pub fn write_key(flags: u32, text: &[u8], out: &mut [u8], needed: &mut usize) -> u32
    ensures written { (f : KeyForm) (p : Parts) → keys.form_of flags ≡ Some f → Spells text.now p → IsPut (sort_key (in_form f p)) out.old out.new needed.new result }
    ensures refused { (f : KeyForm) (e : URIReferenceError) → keys.form_of flags ≡ Some f → fault text.now ≡ Some e → IsRefused (spec.code_of e) out.old out.new needed.new result }
    ensures unknown { keys.form_of flags ≡ None → IsRefused spec.key_flags out.old out.new needed.new result }
{
    match form_of(flags) {
        Some(form) => write_formed(form, text, out, needed),
        None => refuse(KEY_FLAGS, needed),
    }
}
