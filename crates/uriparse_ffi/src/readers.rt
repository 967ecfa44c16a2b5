//! Where readers of a URI may disagree. Nothing here allocates.
ghost use Rattle.std.specs.Prelude.{◌≡◌, Err, Ok, Some, is_some, true};
ghost use Rattle.uriparse_reference.specs.declared.uri_reference.error.URIReferenceError.{URIReferenceError};
ghost use Rattle.uriparse_reference.specs.Reading.{fault};
ghost use Rattle.uriparse_reference.specs.Reference.{Parts, Spells};
ghost use Rattle.uriparse.specs.Disagreement.{disagrees};
ghost use Rattle.uriparse_ffi.specs.Checks.{flag};
ghost use Rattle.uriparse_ffi.specs.Code as spec;
ghost use Rattle.uriparse_ffi.specs.Readers.{disagreement_flags};

use crate::texts::view;
use uriparse::{Disagreement, ReferenceView, URIView};

/// The flag, if readers may disagree for this reason.
fn flag_of(uri: &URIView<'_>, reason: Disagreement, bit: u32) -> u32
    ensures { result ≡ flag bit (disagrees reason uri.now.parts) }
{
    if uri.disagrees(reason) { bit } else { 0 }
}

/// The sum of the flags of the reasons for which readers may disagree.
fn reasons_of_uri(uri: &URIView<'_>) -> u32
    ensures { is_some uri.now.parts.scheme ≡ true → result ≡ disagreement_flags uri.now.parts }
{
    flag_of(uri, Disagreement::Scheme, 1)
        + flag_of(uri, Disagreement::NoHost, 2)
        + flag_of(uri, Disagreement::LaterAddress, 4)
        + flag_of(uri, Disagreement::EscapedName, 8)
        + flag_of(uri, Disagreement::NumericName, 16)
        + flag_of(uri, Disagreement::EncodedName, 32)
        + flag_of(uri, Disagreement::EscapedDots, 64)
        + flag_of(uri, Disagreement::UserInformation, 128)
}

/// The same of a view, or the flag of the scheme if it has none.
fn reasons_of(view: ReferenceView<'_>) -> u32
    ensures { result ≡ disagreement_flags view.entry.parts }
{
    match URIView::try_from(view) {
        Ok(uri) => reasons_of_uri(&uri),
        Err(_) => 1,
    }
}

/// The sum of the flags of the reasons for which readers may disagree on the reference that a text
/// spells, or the code of the text's error.
pub fn reasons(text: &[u8]) -> Result<u32, u32>
    ensures checked { (p : Parts) → Spells text.now p → result ≡ Ok (disagreement_flags p) }
    ensures fault { (e : URIReferenceError) → fault text.now ≡ Some e → result ≡ Err (spec.code_of e) }
{
    match view(text) {
        Ok(view) => Ok(reasons_of(view)),
        Err(code) => Err(code),
    }
}
