//! The texts and numbers that are computed for a caller. Nothing here allocates.
ghost use Rattle.std.specs.Prelude.{◌≡◌, IfOk, Ok, Err, Some, None, bytes_eq, is_some, true, false};
ghost use Rattle.uriparse_reference.specs.Key.{key};
ghost use Rattle.uriparse_reference.specs.declared.uri_reference.error.URIReferenceError.{URIReferenceError};
ghost use Rattle.uriparse_reference.specs.Normal.{normal};
ghost use Rattle.uriparse_reference.specs.Reading.{fault};
ghost use Rattle.uriparse_reference.specs.Reference.{Parts, Spells, print};
ghost use Rattle.uriparse_reference.specs.Target.{target};
ghost use Rattle.uriparse.specs.declared.uri.error.URIError.TheVariants as errors;
ghost use Rattle.uriparse.specs.Uri.{map_error};
ghost use Rattle.uriparse_ffi.specs.Code as spec;
ghost use Rattle.uriparse_ffi.specs.Hash.{hash_of};
ghost use Rattle.uriparse_ffi.specs.Put.{IsPut, IsRefused, IsRelativePut};

use crate::code::{base_code, code_of, uri_code};
use crate::put::{answer, refuse};
use std::hash::{DefaultHasher, Hash, Hasher};
use uriparse::{ReferenceView, URIError};
use uriparse_reference::internal::relativize_into;

/// Views a reference in its text, or returns the code of its error.
pub(crate) fn view(text: &[u8]) -> Result<ReferenceView<'_>, u32>
    ensures found { (p : Parts) → Spells text.now p → result ≡ Ok (record { text = text.now; parts = p }) }
    ensures fault { (e : URIReferenceError) → fault text.now ≡ Some e → result ≡ Err (spec.code_of e) }
{
    match ReferenceView::try_from_bytes(text) {
        Ok(view) => Ok(view),
        Err(error) => Err(code_of(error)),
    }
}

/// Views a URI in its text, or returns why the text spells none.
pub(crate) fn view_uri(text: &[u8]) -> Result<ReferenceView<'_>, URIError>
    ensures found { (p : Parts) → Spells text.now p → is_some p.scheme ≡ true → result ≡ Ok (record { text = text.now; parts = p }) }
    ensures kind { IfOk result (λ v. is_some v.parts.scheme ≡ true) }
    ensures relative { (p : Parts) → Spells text.now p → is_some p.scheme ≡ false → result ≡ Err errors.NotURI }
    ensures fault { (e : URIReferenceError) → fault text.now ≡ Some e → result ≡ Err (map_error e) }
{
    match ReferenceView::try_from_bytes(text) {
        Ok(view) => {
            if view.has_scheme() {
                Ok(view)
            } else {
                Err(URIError::NotURI)
            }
        }
        Err(error) => Err(URIError::from(error)),
    }
}

/// Writes the text of the normal form of the reference that a text spells, or returns the code of
/// the text's error.
pub fn write_normal(text: &[u8], out: &mut [u8], needed: &mut usize) -> u32
    ensures written { (p : Parts) → Spells text.now p → IsPut (print (normal p)) out.old out.new needed.new result }
    ensures refused { (e : URIReferenceError) → fault text.now ≡ Some e → IsRefused (spec.code_of e) out.old out.new needed.new result }
{
    match view(text) {
        Ok(view) => answer(view.normalize_into(out), needed),
        Err(code) => refuse(code, needed),
    }
}

/// Writes the text of the target of the reference that a text spells, or returns the code of the
/// text's error.
fn write_target_of(
    base: &ReferenceView<'_>,
    reference: &[u8],
    out: &mut [u8],
    needed: &mut usize,
) -> u32
    requires { is_some base.now.parts.scheme ≡ true }
    ensures written { (r t : Parts) → Spells reference.now r → target base.now.parts r ≡ Some t → IsPut (print t) out.old out.new needed.new result }
    ensures too_long { (r : Parts) → Spells reference.now r → target base.now.parts r ≡ None → IsRefused spec.too_many_segments out.old out.new needed.new result }
    ensures refused { (e : URIReferenceError) → fault reference.now ≡ Some e → IsRefused (spec.code_of e) out.old out.new needed.new result }
{
    match view(reference) {
        Ok(reference) => answer(base.resolve_into(&reference, out), needed),
        Err(code) => refuse(code, needed),
    }
}

/// Writes the text of the target of a reference against a base, both read from texts, or returns
/// the code of a text's error. Of two faulty texts the base is rejected.
pub fn write_target(base: &[u8], reference: &[u8], out: &mut [u8], needed: &mut usize) -> u32
    ensures written { (b r t : Parts) → Spells base.now b → is_some b.scheme ≡ true → Spells reference.now r → target b r ≡ Some t → IsPut (print t) out.old out.new needed.new result }
    ensures too_long { (b r : Parts) → Spells base.now b → is_some b.scheme ≡ true → Spells reference.now r → target b r ≡ None → IsRefused spec.too_many_segments out.old out.new needed.new result }
    ensures relative { (b : Parts) → Spells base.now b → is_some b.scheme ≡ false → IsRefused (spec.base_code spec.no_scheme) out.old out.new needed.new result }
    ensures base { (e : URIReferenceError) → fault base.now ≡ Some e → IsRefused (spec.base_code (spec.fault_code e)) out.old out.new needed.new result }
    ensures reference { (b : Parts) (e : URIReferenceError) → Spells base.now b → is_some b.scheme ≡ true → fault reference.now ≡ Some e → IsRefused (spec.code_of e) out.old out.new needed.new result }
{
    match view_uri(base) {
        Ok(base) => write_target_of(&base, reference, out, needed),
        Err(error) => refuse(base_code(error), needed),
    }
}

/// Writes the text of the reference that leads from a base to the URI that a text spells, or returns
/// the code of the text's error.
fn write_relative_to(
    base: &ReferenceView<'_>,
    uri: &[u8],
    out: &mut [u8],
    needed: &mut usize,
) -> u32
    ensures written { (t : Parts) → Spells uri.now t → is_some t.scheme ≡ true → IsRelativePut base.now.parts t out.old out.new needed.new result }
    ensures relative { (t : Parts) → Spells uri.now t → is_some t.scheme ≡ false → IsRefused spec.no_scheme out.old out.new needed.new result }
    ensures refused { (e : URIReferenceError) → fault uri.now ≡ Some e → IsRefused (spec.fault_code e) out.old out.new needed.new result }
{
    match view_uri(uri) {
        Ok(target) => answer(relativize_into(base, &target, out), needed),
        Err(error) => refuse(uri_code(error), needed),
    }
}

/// Writes the text of the reference that leads from a base to a URI, both read from texts, or returns
/// the code of a text's error. Of two faulty texts the base is rejected.
pub fn write_relative(base: &[u8], uri: &[u8], out: &mut [u8], needed: &mut usize) -> u32
    ensures written { (b t : Parts) → Spells base.now b → is_some b.scheme ≡ true → Spells uri.now t → is_some t.scheme ≡ true → IsRelativePut b t out.old out.new needed.new result }
    ensures relative_base { (b : Parts) → Spells base.now b → is_some b.scheme ≡ false → IsRefused (spec.base_code spec.no_scheme) out.old out.new needed.new result }
    ensures base { (e : URIReferenceError) → fault base.now ≡ Some e → IsRefused (spec.base_code (spec.fault_code e)) out.old out.new needed.new result }
    ensures relative { (b t : Parts) → Spells base.now b → is_some b.scheme ≡ true → Spells uri.now t → is_some t.scheme ≡ false → IsRefused spec.no_scheme out.old out.new needed.new result }
    ensures refused { (b : Parts) (e : URIReferenceError) → Spells base.now b → is_some b.scheme ≡ true → fault uri.now ≡ Some e → IsRefused (spec.fault_code e) out.old out.new needed.new result }
{
    match view_uri(base) {
        Ok(base) => write_relative_to(&base, uri, out, needed),
        Err(error) => refuse(base_code(error), needed),
    }
}

/// Whether a reference equals the one that a text spells, or the code of the text's error.
fn equal_to(left: &ReferenceView<'_>, right: &[u8]) -> Result<bool, u32>
    ensures compared { (q : Parts) → Spells right.now q → result ≡ Ok (bytes_eq (key left.now.parts) (key q)) }
    ensures fault { (e : URIReferenceError) → fault right.now ≡ Some e → result ≡ Err (spec.code_of e) }
{
    match view(right) {
        Ok(right) => Ok(left == &right),
        Err(code) => Err(code),
    }
}

/// Whether two texts spell equal references, or the code of the first text's error, if it has one,
/// or else of the second's.
pub fn equal_texts(left: &[u8], right: &[u8]) -> Result<bool, u32>
    ensures compared { (p q : Parts) → Spells left.now p → Spells right.now q → result ≡ Ok (bytes_eq (key p) (key q)) }
    ensures left { (e : URIReferenceError) → fault left.now ≡ Some e → result ≡ Err (spec.code_of e) }
    ensures right { (p : Parts) (e : URIReferenceError) → Spells left.now p → fault right.now ≡ Some e → result ≡ Err (spec.code_of e) }
{
    match view(left) {
        Ok(left) => equal_to(&left, right),
        Err(code) => Err(code),
    }
}

/// The hash of a reference, by std's hasher with its fixed key.
fn hash_of_reference(reference: &ReferenceView<'_>) -> u64
    ensures { result ≡ hash_of (key reference.now.parts) }
{
    let mut state = DefaultHasher::new();
    reference.hash(&mut state);
    state.finish()
}

/// The hash of the reference that a text spells, or the code of the text's error.
pub fn hashed(text: &[u8]) -> Result<u64, u32>
    ensures hashed { (p : Parts) → Spells text.now p → result ≡ Ok (hash_of (key p)) }
    ensures fault { (e : URIReferenceError) → fault text.now ≡ Some e → result ≡ Err (spec.code_of e) }
{
    match view(text) {
        Ok(reference) => Ok(hash_of_reference(&reference)),
        Err(code) => Err(code),
    }
}
