//! The text of the origin of a URI in a caller's buffer, and whether two URIs have one origin: RFC 6454,
//! sections 4, 5 and 6.2. Nothing here allocates.
ghost use Rattle.std.specs.Prelude.{◌≡◌, Some, None};
ghost use Rattle.uriparse_reference.specs.Reading.{fault};
ghost use Rattle.uriparse_reference.specs.Reference.{Parts, Spells};
ghost use Rattle.uriparse_reference.specs.declared.uri_reference.error.URIReferenceError.{URIReferenceError};
ghost use Rattle.uriparse.specs.declared.uri.origin.Origin.{Origin};
ghost use Rattle.uriparse.specs.Origin as origins;
ghost use Rattle.uriparse_ffi.specs.Code as spec;
ghost use Rattle.uriparse_ffi.specs.Put.{IsPut, IsRefused};

use crate::code::{ACCEPTED, NO_ORIGIN, truth_of};
use crate::put::{answer, refuse};
use crate::texts::view;
use uriparse::{Origin, ReferenceView, URIView};

/// The origin of a reference. A relative reference has none.
fn origin_of(view: ReferenceView<'_>) -> Option<Origin<'_>>
    ensures { result ≡ origins.origin view.entry.parts }
{
    match URIView::try_from(view) {
        Ok(uri) => uri.origin(),
        Err(_) => None,
    }
}

/// Writes the text of an origin, or returns the code of a reference that has none.
fn write_if(origin: Option<Origin<'_>>, out: &mut [u8], needed: &mut usize) -> u32
    ensures written { (o : Origin) → origin.entry ≡ Some o → IsPut (origins.text o) out.old out.new needed.new result }
    ensures without { origin.entry ≡ None → IsRefused spec.no_origin out.old out.new needed.new result }
{
    match origin {
        Some(origin) => answer(origin.write_into(out), needed),
        None => refuse(NO_ORIGIN, needed),
    }
}

/// Writes the text of the origin of the reference that a text spells, or returns the code of the
/// text's error, or of a reference without an origin.
pub fn write_origin(text: &[u8], out: &mut [u8], needed: &mut usize) -> u32
    ensures written { (p : Parts) (o : Origin) → Spells text.now p → origins.origin p ≡ Some o → IsPut (origins.text o) out.old out.new needed.new result }
    ensures without { (p : Parts) → Spells text.now p → origins.origin p ≡ None → IsRefused spec.no_origin out.old out.new needed.new result }
    ensures refused { (e : URIReferenceError) → fault text.now ≡ Some e → IsRefused (spec.code_of e) out.old out.new needed.new result }
{
    match view(text) {
        Ok(view) => write_if(origin_of(view), out, needed),
        Err(code) => refuse(code, needed),
    }
}

/// Whether two references have one origin. A reference without an origin has it in common with none.
fn share_origin(left: ReferenceView<'_>, right: ReferenceView<'_>) -> bool
    ensures { result ≡ origins.have_same_origin left.entry.parts right.entry.parts }
{
    let (Ok(left), Ok(right)) = (URIView::try_from(left), URIView::try_from(right)) else {
        return false;
    };
    left.same_origin(&right)
}

/// Writes whether a reference and the one that a text spells have one origin, or returns the code of the
/// text's error.
fn write_same_origin_of(left: ReferenceView<'_>, right: &[u8], same: &mut u8) -> u32
    ensures compared { (q : Parts) → Spells right.now q → (result ≡ spec.accepted) × (same.new ≡ spec.truth (origins.have_same_origin left.entry.parts q)) }
    ensures refused { (e : URIReferenceError) → fault right.now ≡ Some e → (result ≡ spec.code_of e) × (same.new ≡ same.old) }
{
    match view(right) {
        Ok(right) => {
            *same = truth_of(share_origin(left, right));
            ACCEPTED
        }
        Err(code) => code,
    }
}

/// Writes whether the references that two texts spell have one origin, or returns the code of a text's
/// error. Of two faulty texts the left one is rejected.
pub fn write_same_origin(left: &[u8], right: &[u8], same: &mut u8) -> u32
    ensures compared { (p q : Parts) → Spells left.now p → Spells right.now q → (result ≡ spec.accepted) × (same.new ≡ spec.truth (origins.have_same_origin p q)) }
    ensures left { (e : URIReferenceError) → fault left.now ≡ Some e → (result ≡ spec.code_of e) × (same.new ≡ same.old) }
    ensures right { (p : Parts) (e : URIReferenceError) → Spells left.now p → fault right.now ≡ Some e → (result ≡ spec.code_of e) × (same.new ≡ same.old) }
{
    match view(left) {
        Ok(left) => write_same_origin_of(left, right, same),
        Err(code) => code,
    }
}
