//! Where the segments of a path are in its text, one after another: RFC 3986, section 3.3. Nothing here
//! allocates.
ghost use Rattle.std.specs.Prelude.{◌≡◌, ◌+◌, ◌∷◌, ℕ, [], IfSome, IsSome, List, None, Some};
ghost use Rattle.uriparse_ffi.specs.Segments as spec;
ghost use Rattle.uriparse_ffi.specs.Spans.{span};

use crate::span::{UriSpan, place};
use uriparse_text::internal::split_at_delimiter;

/// Where the first segment begins that is left of a path from this place.
fn begin_of(path: &[u8], at: usize) -> usize
    ensures { result ≡ spec.segment_begin path.now at }
{
    if at == 0 && matches!(path, [b'/', ..]) {
        1
    } else {
        at
    }
}

/// Where the first segment is that is left of a path from this place; `None` after the path's end.
pub fn segment_at(path: &[u8], at: usize) -> Option<UriSpan>
    // It is the first of those that are left from there, and the others follow the byte after its end.
    ensures found { (s : List ℕ) (ss : List (List ℕ)) → spec.segments_left path.now at ≡ s ∷ ss → IsSome result × IfSome result (λ o. o ≡ span (spec.segment_begin path.now at) (Some s)) }
    ensures others { (s : List ℕ) (ss : List (List ℕ)) → spec.segments_left path.now at ≡ s ∷ ss → IfSome result (λ o. spec.segments_left path.now (o.end + 1) ≡ ss) }

    // If no segment is left, there is none.
    ensures none { spec.segments_left path.now at ≡ [] → result ≡ None }
{
    if at > path.len() {
        return None;
    }
    let begin = begin_of(path, at);
    let (segment, _) = split_at_delimiter(&path[begin..], b'/');
    Some(place(begin, Some(segment)))
}
