//! The bytes of the IP address that is the host of a reference: RFC 3986, section 3.2.2. Nothing here
//! allocates.
ghost use Rattle.std.specs.Prelude.{◌≡◌, List, None, Some, ℕ};
ghost use Rattle.std.specs.Option.{option_and_then};
ghost use Rattle.uriparse_reference.specs.Reading.{fault};
ghost use Rattle.uriparse_reference.specs.Reference.{Parts, Spells, host_of};
ghost use Rattle.uriparse_reference.specs.declared.uri_reference.error.URIReferenceError.{URIReferenceError};
ghost use Rattle.uriparse_ffi.specs.Addresses.{address_bytes};
ghost use Rattle.uriparse_ffi.specs.Code as spec;
ghost use Rattle.uriparse_ffi.specs.Put.{IsPut, IsRefused};

use crate::code::NO_ADDRESS;
use crate::put::{refuse, write_plain};
use crate::texts::view;
use std::net;
use uriparse::{Host, ReferenceView};

/// Writes the bytes of the host's address, or returns the code of a host that is none.
fn write_address_of(host: &Host<'_>, out: &mut [u8], needed: &mut usize) -> u32
    ensures written { (b : List ℕ) → address_bytes host.now ≡ Some b → IsPut b out.old out.new needed.new result }
    ensures without { address_bytes host.now ≡ None → IsRefused spec.no_address out.old out.new needed.new result }
{
    match host {
        Host::IPv4Address(address) => write_plain(&address.octets(), out, needed),
        Host::IPv6Address(address) => {
            let address = net::Ipv6Addr::from_segments(address.segments());
            write_plain(&address.octets(), out, needed)
        }
        Host::IPvFuture(_) | Host::RegisteredName(_) => refuse(NO_ADDRESS, needed),
    }
}

/// Writes the bytes of the address that is the host of a reference, or returns the code of a reference
/// without such a host.
fn write_address_in(view: &ReferenceView<'_>, out: &mut [u8], needed: &mut usize) -> u32
    ensures written { (b : List ℕ) → option_and_then address_bytes (host_of view.now.parts) ≡ Some b → IsPut b out.old out.new needed.new result }
    ensures without { option_and_then address_bytes (host_of view.now.parts) ≡ None → IsRefused spec.no_address out.old out.new needed.new result }
{
    match view.host() {
        Some(host) => write_address_of(&host, out, needed),
        None => refuse(NO_ADDRESS, needed),
    }
}

/// Writes the bytes of the address that is the host of the reference that a text spells, or returns the
/// code of the text's error, or of a reference without such a host.
pub fn write_address(text: &[u8], out: &mut [u8], needed: &mut usize) -> u32
    ensures written { (p : Parts) (b : List ℕ) → Spells text.now p → option_and_then address_bytes (host_of p) ≡ Some b → IsPut b out.old out.new needed.new result }
    ensures without { (p : Parts) → Spells text.now p → option_and_then address_bytes (host_of p) ≡ None → IsRefused spec.no_address out.old out.new needed.new result }
    ensures refused { (e : URIReferenceError) → fault text.now ≡ Some e → IsRefused (spec.code_of e) out.old out.new needed.new result }
{
    match view(text) {
        Ok(view) => write_address_in(&view, out, needed),
        Err(code) => refuse(code, needed),
    }
}
