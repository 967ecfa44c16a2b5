//! The bytes that a name or a value of an HTML form represents, in a caller's buffer. Nothing here
//! allocates.
ghost use Rattle.std.specs.Prelude.{◌≡◌, ◌<◌, ◌∷◌, Err, length};
ghost use Rattle.uriparse_text.specs.Coding.{form_decoded};
ghost use Rattle.uriparse_text.specs.Query as query;
ghost use Rattle.uriparse_text.specs.Starts.{Appends, LeavesRest};
ghost use Rattle.uriparse_text.specs.declared.query.QueryError.{QueryError};
ghost use Rattle.uriparse_ffi.specs.Code as spec;
ghost use Rattle.uriparse_ffi.specs.Put.{IsPut, IsRefused};

use crate::pair_edits::write_if_query;
use uriparse_text::internal::{Appending, append, is_escape, octet_of};

/// The byte that the first token represents, which begins with `b`, and what follows the token.
fn split_byte(b: u8, after: &[u8]) -> (u8, &[u8])
    ensures cut { form_decoded (b ∷ after.now) ≡ result.0 ∷ form_decoded result.1.now }
    ensures shorter { length result.1.now < length (b ∷ after.now) }
{
    if is_escape(b, after) {
        return (octet_of(after[0], after[1]), &after[2..]);
    }
    (if b == b'+' { b' ' } else { b }, after)
}

/// A text of a form.
#[derive(Clone, Copy)]
struct Form<'t>(&'t [u8]);

impl<'t> Appending for Form<'t> {
    ghost use Rattle.uriparse_text.specs.Coding.{form_decoded};

    ghost text = { λ s. form_decoded s.0.now };

    fn append_to(&self, out: &mut [u8], len: usize) -> usize {
        let mut total = len;
        let mut rest = self.0;
        while let Some((&b, after)) = rest.split_first() {
            let (byte, later) = split_byte(b, after);
            rest = later;
            total = append(&[byte], out, total);
        }
        total
    }
}

/// Writes the bytes that the text of a form represents, or returns the code of its error.
pub fn write_form_decoded(text: &[u8], out: &mut [u8], needed: &mut usize) -> u32
    ensures written { query.IsQuery text.now → IsPut (form_decoded text.now) out.old out.new needed.new result }
    ensures refused { (e : QueryError) → query.reading text.now ≡ Err e → IsRefused (spec.query_code e) out.old out.new needed.new result }
{
    write_if_query(text, &Form(text), out, needed)
}
