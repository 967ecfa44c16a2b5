//! The string of a reference without its scheme's default port, or without its password, in a caller's
//! buffer: RFC 3986, sections 6.2.3 and 7.5. Nothing here allocates.
ghost use Rattle.std.specs.Prelude.{◌≡◌, Some, None};
ghost use Rattle.uriparse_reference.specs.Masked.{stars};
ghost use Rattle.uriparse_reference.specs.Ports as ports;
ghost use Rattle.uriparse_reference.specs.Reading.{fault};
ghost use Rattle.uriparse_reference.specs.Reference.{Parts, Spells};
ghost use Rattle.uriparse_reference.specs.Wanted.{unchanged};
ghost use Rattle.uriparse_reference.specs.declared.uri_reference.error.URIReferenceError.{URIReferenceError};
ghost use Rattle.uriparse_ffi.specs.Code as spec;
ghost use Rattle.uriparse_ffi.specs.Hidden.{masked_text, text_without_default_port};
ghost use Rattle.uriparse_ffi.specs.Put.{IsPut, IsRefused};

use crate::changes::write_with;
use crate::put::{refuse, write_plain};
use crate::texts::view;
use uriparse::{Change, Changes, ReferenceView};

/// Whether the port of a reference is the default port of its scheme.
fn has_default_port(view: &ReferenceView<'_>) -> bool
    ensures { result ≡ ports.has_default_port view.now.parts }
{
    let port = view.port();
    match view.scheme() {
        Some(scheme) => port.is_some() && port == scheme.default_port(),
        None => false,
    }
}

/// The change that removes the port alone.
fn without_port() -> Changes<'static>
    ensures { result ≡ record unchanged { port = Some None } }
{
    let mut changes = Changes::none();
    changes.port = Change::Remove;
    changes
}

/// The change that puts stars in place of the password alone.
fn with_stars() -> Changes<'static>
    ensures { result ≡ record unchanged { password = Some (Some stars) } }
{
    let mut changes = Changes::none();
    changes.password = Change::Set(b"***");
    changes
}

/// Writes the string of the reference that a text spells, without the port if that is the default port
/// of its scheme, or returns the code of the text's error.
pub fn write_without_default_port(text: &[u8], out: &mut [u8], needed: &mut usize) -> u32
    ensures written { (p : Parts) → Spells text.now p → IsPut (text_without_default_port text.now p) out.old out.new needed.new result }
    ensures refused { (e : URIReferenceError) → fault text.now ≡ Some e → IsRefused (spec.code_of e) out.old out.new needed.new result }
{
    match view(text) {
        Ok(view) => {
            if has_default_port(&view) {
                write_with(&view, &without_port(), out, needed)
            } else {
                write_plain(text, out, needed)
            }
        }
        Err(code) => refuse(code, needed),
    }
}

/// Writes the string of the reference that a text spells, with stars in place of its password, or
/// returns the code of the text's error.
pub fn write_masked(text: &[u8], out: &mut [u8], needed: &mut usize) -> u32
    ensures written { (p : Parts) → Spells text.now p → IsPut (masked_text text.now p) out.old out.new needed.new result }
    ensures refused { (e : URIReferenceError) → fault text.now ≡ Some e → IsRefused (spec.code_of e) out.old out.new needed.new result }
{
    match view(text) {
        Ok(view) => {
            if view.has_password() {
                write_with(&view, &with_stars(), out, needed)
            } else {
                write_plain(text, out, needed)
            }
        }
        Err(code) => refuse(code, needed),
    }
}
