//! Place keys and what they begin with, in a caller's buffer. Nothing here allocates.
ghost use Rattle.std.specs.Prelude.{◌≡◌, Err, Ok, Some, false, is_some, true};
ghost use Rattle.uriparse_authority.specs.Host as hosts;
ghost use Rattle.uriparse_authority.specs.declared.authority.error.HostError.{HostError};
ghost use Rattle.uriparse_authority.specs.declared.authority.host.Host.{Host};
ghost use Rattle.uriparse_reference.specs.declared.uri_reference.error.URIReferenceError.{URIReferenceError};
ghost use Rattle.uriparse_reference.specs.Reading.{fault};
ghost use Rattle.uriparse_reference.specs.Reference.{Parts, Spells};
ghost use Rattle.uriparse.specs.PlaceKey.{base_prefix, domain_prefix, place_key};
ghost use Rattle.uriparse_ffi.specs.Code as spec;
ghost use Rattle.uriparse_ffi.specs.Put.{IsPut, IsRefused};

use crate::code::{NO_SCHEME, of_host, uri_code};
use crate::put::{answer, refuse};
use crate::texts::view_uri;
use uriparse::{
    Host, ReferenceView, URIView, base_prefix_into, domain_prefix_into, place_key_into,
};

/// Writes the place key of a view that has a scheme.
fn put_key(view: ReferenceView<'_>, out: &mut [u8], needed: &mut usize) -> u32
    requires { is_some view.parts.scheme ≡ true }
    ensures { IsPut (place_key view.entry.parts) out.old out.new needed.new result }
{
    match URIView::try_from(view) {
        Ok(uri) => answer(place_key_into(&uri, out), needed),
        Err(_) => refuse(NO_SCHEME, needed),
    }
}

/// Writes what the keys below a base begin with. The view has a scheme.
fn put_base(view: ReferenceView<'_>, out: &mut [u8], needed: &mut usize) -> u32
    requires { is_some view.parts.scheme ≡ true }
    ensures { IsPut (base_prefix view.entry.parts) out.old out.new needed.new result }
{
    match URIView::try_from(view) {
        Ok(base) => answer(base_prefix_into(&base, out), needed),
        Err(_) => refuse(NO_SCHEME, needed),
    }
}

/// Writes the place key of the URI that a text spells, or returns the code of the text's error.
pub fn write_place_key(text: &[u8], out: &mut [u8], needed: &mut usize) -> u32
    ensures written { (p : Parts) → Spells text.now p → is_some p.scheme ≡ true → IsPut (place_key p) out.old out.new needed.new result }
    ensures relative { (p : Parts) → Spells text.now p → is_some p.scheme ≡ false → IsRefused spec.no_scheme out.old out.new needed.new result }
    ensures refused { (e : URIReferenceError) → fault text.now ≡ Some e → IsRefused (spec.fault_code e) out.old out.new needed.new result }
{
    match view_uri(text) {
        Ok(view) => put_key(view, out, needed),
        Err(error) => refuse(uri_code(error), needed),
    }
}

/// Writes what the place keys of all URIs below a base begin with, or returns the code of the text's
/// error.
pub fn write_base_prefix(text: &[u8], out: &mut [u8], needed: &mut usize) -> u32
    ensures written { (b : Parts) → Spells text.now b → is_some b.scheme ≡ true → IsPut (base_prefix b) out.old out.new needed.new result }
    ensures relative { (b : Parts) → Spells text.now b → is_some b.scheme ≡ false → IsRefused spec.no_scheme out.old out.new needed.new result }
    ensures refused { (e : URIReferenceError) → fault text.now ≡ Some e → IsRefused (spec.fault_code e) out.old out.new needed.new result }
{
    match view_uri(text) {
        Ok(view) => put_base(view, out, needed),
        Err(error) => refuse(uri_code(error), needed),
    }
}

/// Writes what the place keys of all URIs within a domain begin with, or returns the code of the text's
/// error.
pub fn write_domain_prefix(domain: &[u8], out: &mut [u8], needed: &mut usize) -> u32
    ensures written { (d : Host) → hosts.reading domain.now ≡ Ok d → IsPut (domain_prefix d) out.old out.new needed.new result }
    ensures refused { (e : HostError) → hosts.reading domain.now ≡ Err e → IsRefused (spec.host_code e) out.old out.new needed.new result }
{
    match Host::try_from_bytes(domain) {
        Ok(domain) => answer(domain_prefix_into(&domain, out), needed),
        Err(error) => refuse(of_host(error), needed),
    }
}
