//! The text of a path's normal form, and of a path without dot segments, put together from its end
//! in the last bytes of a buffer: RFC 3986, sections 5.2.3, 5.2.4 and 6.2.2.
ghost use Rattle.std.specs.Prelude.{◌≡◌, ℕ, Bool, ◌<◌, ◌≤◌, ◌++◌, ◌||◌, ◌&&◌, List, length, false, not, true};
ghost use Rattle.std.specs.List.{join_with_byte, slice_split};
ghost use Rattle.uriparse_text.specs.declared.internal.token.Case.TheVariants as case;
ghost use Rattle.uriparse_text.specs.declared.internal.backward_buffer.Form.{Form};
ghost use Rattle.uriparse_text.specs.declared.internal.backward_buffer.Form.TheVariants.{Canonical};
ghost use Rattle.uriparse_text.specs.Bytes.{slash};
ghost use Rattle.uriparse_text.specs.Ends.{EndsWith, Puts, formed};
ghost use Rattle.uriparse_path.specs.Path as path;
ghost use Rattle.uriparse_path.specs.Path.{IsPath, is_rooted, is_slash, max_segments, root, spelled, unrooted};
ghost use Rattle.uriparse_path.specs.Dots.{has_dot_segment, replayed, undot};
ghost use Rattle.uriparse_path.specs.Last.{IsLast};
ghost use Rattle.uriparse_path.specs.Edits.{with_dot_prefix_unless};
ghost use Rattle.uriparse_path.specs.Merge.{merged};
ghost use Rattle.uriparse_path.specs.Relative.{relative_normal};
ghost use Rattle.uriparse_path.specs.Normal.{normal_at};
ghost use Rattle.uriparse_path.specs.Remaining as spec;

use super::backward::BackwardState;
use super::last::{ends_in_dots, last_dots};
use crate::path::normal::PathContext;
use crate::path::read::split_root;
use crate::path::segment::has_colon;
use uriparse_text::internal::{Case, Form, prepend, prepend_formed, split_at_delimiter};

/// Whether a text needs a leading `/.`: no authority precedes it, and it begins with two slashes.
fn needs_dot_prefix(has_authority: bool, twice: bool) -> bool
    ensures { result ≡ (not has_authority && twice) }
{
    !has_authority && twice
}

/// Puts what precedes the segments of a path from which dot segments are removed: its root, and `/.`
/// if it would begin with two slashes without an authority.
fn prepend_root_prefix(
    state: BackwardState,
    rooted: bool,
    has_authority: bool,
    out: &mut [u8],
) -> usize
    ensures room { length out.new ≡ length out.old }
    ensures puts { spec.PutsRootPrefix has_authority rooted state out.old result out.new }
{
    let text = state.text.prepend_root(rooted || state.removed, out);
    if needs_dot_prefix(has_authority, text.twice) {
        return prepend(b"/.", out, text.len);
    }
    text.len
}

/// Whether the removal of dot segments keeps the text as it is. `last` says where the last one begins
/// in what follows the root.
fn stays_whole(has_authority: bool, last: Option<usize>, text: &[u8]) -> bool
    requires { IsLast last (unrooted text.now) }
    ensures with_dot_prefix { result ≡ true → (not has_authority && path.has_two_slashes text.now) ≡ false }
    ensures dots { result ≡ true → has_dot_segment (path.pieces text.now) ≡ false }
{
    match last {
        Some(_) => false,
        None => !needs_dot_prefix(has_authority, matches!(text, [b'/', b'/', ..])),
    }
}

/// Puts the text without its dot segments. Without an authority, a text that would start with `//`
/// gets a leading `/.`. Most texts have no dot segment and are put whole, since removal keeps them.
pub fn prepend_undotted(
    form: Form,
    has_authority: bool,
    text: &[u8],
    out: &mut [u8],
    len: usize,
) -> usize
    requires { IsPath text.now }
    ensures room { length out.new ≡ length out.old }
    ensures puts { Puts (path.text (with_dot_prefix_unless has_authority (spelled (formed form case.Kept (undot text.now))))) out.old len out.new result }
{
    let (rooted, rest) = split_root(text);
    let last = last_dots(rest);
    if stays_whole(has_authority, last, text) {
        return prepend_formed(form, Case::Kept, text, out, len);
    }
    let ended = ends_in_dots(last, rest);
    let state = BackwardState::none(len).process(form, ended, rest, last, out);
    prepend_root_prefix(state, rooted, has_authority, out)
}

/// Puts the merged paths without their dot segments: the base's up to its last slash, then the
/// reference's.
pub fn prepend_merged(
    has_authority: bool,
    base: &[u8],
    reference: &[u8],
    out: &mut [u8],
    len: usize,
) -> usize
    requires base { IsPath base.now }
    requires reference { IsPath reference.now }
    requires relative { is_rooted reference.now ≡ false }
    requires short { length (merged (spelled base.now) (spelled reference.now)).segments ≤ max_segments }
    ensures room { length out.new ≡ length out.old }
    ensures puts { Puts (path.text (with_dot_prefix_unless has_authority (spelled (path.text (replayed (merged (spelled base.now) (spelled reference.now))))))) out.old len out.new result }
{
    let (rooted, rest) = split_root(base);
    let last = last_dots(reference);
    let ended = ends_in_dots(last, reference);
    let state = BackwardState::none(len).process(Form::AsIs, ended, reference, last, out);
    let state = state.process_directory(Form::AsIs, ended, rest, out);
    prepend_root_prefix(state, rooted, has_authority, out)
}

/// Puts this many `../`.
pub fn prepend_parent_steps(count: usize, out: &mut [u8], len: usize) -> usize
    ensures room { length out.new ≡ length out.old }
    ensures puts { (t : List ℕ) → EndsWith out.old len t → EndsWith out.new result (spec.with_parent_steps count t) }
{
    let mut total = len;
    for _ in 0..count {
        total = prepend(b"../", out, total);
    }
    total
}

/// Puts this many `..`, with slashes between them, and with one at the end if a text follows.
fn prepend_double_dots(double_dots: usize, more: bool, out: &mut [u8], len: usize) -> usize
    requires { 0 < double_dots }
    ensures room { length out.new ≡ length out.old }
    ensures puts { (t : List ℕ) → EndsWith out.old len t → EndsWith out.new result (spec.climbed double_dots more t) }
{
    if more {
        return prepend_parent_steps(double_dots, out, len);
    }
    let len = prepend(b"..", out, len);
    prepend_parent_steps(double_dots - 1, out, len)
}

/// Puts what precedes the segments of a path that stays relative: the `..` that are left, or `./` if
/// it is needed.
fn prepend_relative_prefix(state: BackwardState, had_colon: bool, out: &mut [u8]) -> usize
    ensures room { length out.new ≡ length out.old }
    ensures puts { (ended : Bool) (l : spec.Remaining) (t : List ℕ) → spec.IsBackwardState Canonical ended l state out.old t → EndsWith out.new result (spec.relative_text had_colon ended l ++ t) }
{
    if state.double_dots > 0 {
        return prepend_double_dots(state.double_dots, state.kept, out, state.text.len);
    }
    if state.text.rooted || (state.colon && !had_colon) {
        return prepend(b"./", out, state.text.len);
    }
    state.text.len
}

/// Puts the relative normal form of a text that begins with no slash.
fn prepend_relative(text: &[u8], out: &mut [u8], len: usize) -> usize
    requires path { IsPath text.now }
    requires relative { is_rooted text.now ≡ false }
    ensures room { length out.new ≡ length out.old }
    ensures puts { Puts (join_with_byte slash (relative_normal (slice_split is_slash text.now))) out.old len out.new result }
{
    let (first, _) = split_at_delimiter(text, b'/');
    let last = last_dots(text);
    let ended = ends_in_dots(last, text);
    let state = BackwardState::none(len).process(Form::Canonical, ended, text, last, out);
    prepend_relative_prefix(state, has_colon(first), out)
}

/// Puts the normal form of a path's text at this place in a reference.
pub fn prepend_normal_path(text: &[u8], context: PathContext, out: &mut [u8], len: usize) -> usize
    requires { IsPath text.now }
    ensures room { length out.new ≡ length out.old }
    ensures puts { Puts (path.text (normal_at context (spelled text.now))) out.old len out.new result }
{
    let (rooted, _) = split_root(text);
    if context.has_scheme || rooted {
        prepend_undotted(Form::Canonical, context.has_authority, text, out, len)
    } else {
        prepend_relative(text, out, len)
    }
}
