//! The target of an HTTP request for a reference, in a caller's buffer: RFC 9112, section 3.2.1. Nothing
//! here allocates.
ghost use Rattle.std.specs.Prelude.{◌≡◌, false, length, true};
ghost use Rattle.std.specs.Option.{option_copied};
ghost use Rattle.uriparse_text.specs.Bytes.{question_mark};
ghost use Rattle.uriparse_text.specs.Cuts.{following};
ghost use Rattle.uriparse_text.specs.Starts.{Appends, LeavesRest};
ghost use Rattle.uriparse_reference.specs.Reading.{fault};
ghost use Rattle.uriparse_reference.specs.Reference.{Parts, Spells, is_abempty};
ghost use Rattle.uriparse_reference.specs.declared.uri_reference.error.URIReferenceError.{URIReferenceError};
ghost use Rattle.uriparse_ffi.specs.Code as code;
ghost use Rattle.uriparse_ffi.specs.Put.{IsPut, IsRefused};
ghost use Rattle.uriparse_ffi.specs.Requests as spec;

use crate::code::{NO_TARGET, code_of};
use crate::places::bytes_of;
use crate::put::{answer_room, refuse};
use uriparse_reference::internal::find_pieces;
use uriparse_text::internal::{Appending, append, write_text};

/// The path, or `/` in place of an empty one.
fn or_root(path: &[u8]) -> &[u8]
    ensures { result.now ≡ spec.or_root path.now }
{
    match path {
        [] => b"/",
        _ => path,
    }
}

/// Appends a `?` and the query, if there is one.
fn append_query(query: Option<&[u8]>, out: &mut [u8], len: usize) -> usize
    ensures room { length out.new ≡ length out.old }
    ensures appends { Appends (following question_mark (option_copied query.entry)) out.old len out.new result }
    ensures rest { LeavesRest out.old len out.new result }
{
    match query {
        Some(query) => {
            let len = append(b"?", out, len);
            append(query, out, len)
        }
        None => len,
    }
}

/// The path and the query of a request.
#[derive(Clone, Copy)]
struct OriginForm<'t> {
    path: &'t [u8],
    query: Option<&'t [u8]>,
}

impl<'t> Appending for OriginForm<'t> {
    ghost use Rattle.std.specs.Option.{option_copied};
    ghost use Rattle.uriparse_ffi.specs.Requests.{origin_form};

    ghost text = { λ s. origin_form s.path.now (option_copied s.query) };

    fn append_to(&self, out: &mut [u8], len: usize) -> usize {
        let len = append(or_root(self.path), out, len);
        append_query(self.query, out, len)
    }
}

/// Writes the target of a request with this path and this query, or returns the code of a path that is
/// in none.
fn write_form(path: &[u8], query: Option<&[u8]>, out: &mut [u8], needed: &mut usize) -> u32
    ensures written { is_abempty path.now ≡ true → IsPut (spec.origin_form path.now (option_copied query.entry)) out.old out.new needed.new result }
    ensures without { is_abempty path.now ≡ false → IsRefused code.no_target out.old out.new needed.new result }
{
    match path {
        [] | [b'/', ..] => answer_room(write_text(&OriginForm { path, query }, out), needed),
        _ => refuse(NO_TARGET, needed),
    }
}

/// Writes the target of a request for the reference that a text spells, or returns the code of the
/// text's error, or of a path that is in no such target.
pub fn write_target_of_request(text: &[u8], out: &mut [u8], needed: &mut usize) -> u32
    ensures written { (p : Parts) (s : Spells text.now p) → is_abempty s.path_text ≡ true → IsPut (spec.origin_form s.path_text p.query) out.old out.new needed.new result }
    ensures without { (p : Parts) (s : Spells text.now p) → is_abempty s.path_text ≡ false → IsRefused code.no_target out.old out.new needed.new result }
    ensures refused { (e : URIReferenceError) → fault text.now ≡ Some e → IsRefused (code.code_of e) out.old out.new needed.new result }
{
    match find_pieces(text) {
        Ok(pieces) => {
            let query = pieces.tail.query.to_text();
            write_form(pieces.tail.path, bytes_of(&query), out, needed)
        }
        Err(error) => refuse(code_of(error), needed),
    }
}
