//! Decoding, encoding, escaping and trimming into a caller's buffer. Nothing here allocates.
ghost use Rattle.std.specs.Prelude.{◌≡◌, None, Some, Err};
ghost use Rattle.uriparse_text.specs.declared.internal.class.Class.{Class};
ghost use Rattle.uriparse_text.specs.declared.query.QueryError.{QueryError};
ghost use Rattle.uriparse_text.specs.Coding.{decoded, encoded};
ghost use Rattle.uriparse_text.specs.Link.{link};
ghost use Rattle.uriparse_text.specs.Pairs.{encoded_in_pair};
ghost use Rattle.uriparse_text.specs.Query as query;
ghost use Rattle.uriparse_reference.specs.Escaped.{escaped};
ghost use Rattle.uriparse_ffi.specs.Code as spec;
ghost use Rattle.uriparse_ffi.specs.Components as components;
ghost use Rattle.uriparse_ffi.specs.Put.{IsPut, IsRefused};

use crate::code::{NO_COMPONENT, of_query};
use crate::put::{answer_room, refuse, write_plain};
use uriparse::{Query, escape_invalid_into, trim_link};
use uriparse_text::internal::{Class, InPair, encode_into, write_text};

/// Writes the bytes that the text of a query represents, or returns the code of its error.
pub fn write_decoded(text: &[u8], out: &mut [u8], needed: &mut usize) -> u32
    ensures written { query.IsQuery text.now → IsPut (decoded text.now) out.old out.new needed.new result }
    ensures refused { (e : QueryError) → query.reading text.now ≡ Err e → IsRefused (spec.query_code e) out.old out.new needed.new result }
{
    match Query::try_from_bytes(text) {
        Ok(query) => answer_room(query.decode_into(out), needed),
        Err(error) => refuse(of_query(error), needed),
    }
}

/// The class of the component with this number.
fn class_of(component: u32) -> Option<Class>
    ensures { result ≡ components.class_of component }
{
    match component {
        0x10 => Some(Class::Name),
        0x20 => Some(Class::UserInfo),
        0x50 => Some(Class::Segment),
        0x60 | 0x70 => Some(Class::Query),
        _ => None,
    }
}

/// The number of a name or a value of a pair.
const PAIR: u32 = 0x90;

/// Writes the bytes encoded as the component with this number, or as a name or a value of a pair.
pub fn write_encoded(component: u32, bytes: &[u8], out: &mut [u8], needed: &mut usize) -> u32
    ensures written { (c : Class) → components.class_of component ≡ Some c → IsPut (encoded c bytes.now) out.old out.new needed.new result }
    ensures pair { component ≡ components.pair_number → IsPut (encoded_in_pair bytes.now) out.old out.new needed.new result }
    ensures unknown { components.class_of component ≡ None → (component ≡ components.pair_number → ⊥) → IsRefused spec.no_component out.old out.new needed.new result }
{
    if component == PAIR {
        return answer_room(write_text(&InPair(bytes), out), needed);
    }
    match class_of(component) {
        Some(class) => answer_room(encode_into(class, bytes, out), needed),
        None => refuse(NO_COMPONENT, needed),
    }
}

/// Writes the text with escapes for the bytes that a reference can't have where they stand.
pub fn write_escaped(text: &[u8], out: &mut [u8], needed: &mut usize) -> u32
    ensures { IsPut (escaped text.now) out.old out.new needed.new result }
{
    answer_room(escape_invalid_into(text, out), needed)
}

/// Writes the reference in a text that was cut out of a page.
pub fn write_trimmed(text: &[u8], out: &mut [u8], needed: &mut usize) -> u32
    ensures { IsPut (link text.now) out.old out.new needed.new result }
{
    write_plain(trim_link(text), out, needed)
}
