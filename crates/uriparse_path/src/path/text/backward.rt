//! What dot segments leave of a path's text, put together from its end in the last bytes of a
//! buffer: RFC 3986, section 5.2.4. Read from the last segment to the first, a segment is kept or
//! removed for good: nothing that is written is ever taken back.
ghost use Rattle.std.specs.Prelude.{◌≡◌, ℕ, Bool, ◌+◌, ◌<◌, ◌≤◌, ◌++◌, ◌∷◌, [], List, drop, length, true, false};
ghost use Rattle.std.specs.List.{list_all, slice_split};
ghost use Rattle.std.specs.Option.{option_copied};
ghost use Rattle.uriparse_text.specs.declared.internal.token.Case.TheVariants as case;
ghost use Rattle.uriparse_text.specs.declared.internal.backward_buffer.Form.{Form};
ghost use Rattle.uriparse_text.specs.Ends.{EndsWith, formed};
ghost use Rattle.uriparse_text.specs.Segment.{is_segment};
ghost use Rattle.uriparse_path.specs.Path.{is_rooted, is_slash, root};
ghost use Rattle.uriparse_path.specs.Relative.{is_first};
ghost use Rattle.uriparse_path.specs.Last.{IsLast};
ghost use Rattle.uriparse_path.specs.Dots.{all_but_last, has_dot_segment, is_dot_segment};
ghost use Rattle.uriparse_path.specs.Text.{pieces_left};
ghost use Rattle.uriparse_path.specs.Remaining as spec;

use super::last::last_dots;
use crate::path::segment::{has_colon, is_double_dots};
use uriparse_text::internal::{
    Case, Form, prepend, prepend_formed, split_at_delimiter, without_delimiter,
};

/// A text at the end of a buffer, before what follows it there.
#[derive(Clone, Copy)]
pub(super) struct Placed {
    /// The text begins with a slash.
    pub(super) rooted: bool,
    /// It begins with two.
    pub(super) twice: bool,
    /// The length of the text and of what follows it.
    pub(super) len: usize,
}

impl Placed {
    /// The empty text, before `len` bytes that follow it.
    fn empty(len: usize) -> Placed
        ensures { result ≡ record { rooted = false; twice = false; len = len } }
    {
        Placed {
            rooted: false,
            twice: false,
            len,
        }
    }

    /// Puts a slash, if there is to be one.
    pub(super) fn prepend_root(self, rooted: bool, out: &mut [u8]) -> Placed
        ensures room { length out.new ≡ length out.old }
        ensures placed { (u t : List ℕ) → spec.IsPlaced self out.old u t → spec.IsPlaced result out.new (root rooted ++ u) t }
    {
        if !rooted {
            return self;
        }
        Placed {
            rooted: true,
            twice: self.rooted,
            len: prepend(b"/", out, self.len),
        }
    }

    /// Puts a text.
    fn prepend_text(self, form: Form, text: &[u8], out: &mut [u8]) -> Placed
        ensures room { length out.new ≡ length out.old }
        ensures placed { (u t : List ℕ) → spec.IsPlaced self out.old u t → spec.IsPlaced result out.new (formed form case.Kept text.now ++ u) t }
    {
        Placed {
            rooted: begins_with_slash(text, self.rooted),
            twice: begins_with_two(text, self),
            len: prepend_formed(form, Case::Kept, text, out, self.len),
        }
    }
}

/// Whether the text begins with a slash, or what follows it if it is empty.
fn begins_with_slash(text: &[u8], follows: bool) -> bool
    ensures { result ≡ is_rooted (text.now ++ root follows) }
{
    match text.first() {
        Some(b) => *b == b'/',
        None => follows,
    }
}

/// Whether the text begins with two slashes before what is placed.
fn begins_with_two(text: &[u8], placed: Placed) -> bool
    ensures { result ≡ spec.is_twice text.now placed.rooted placed.twice }
{
    match text.split_first() {
        Some((b, rest)) => *b == b'/' && begins_with_slash(rest, placed.rooted),
        None => placed.twice,
    }
}

/// What is left of the segments that were read, from the last one on, and its text.
#[derive(Clone, Copy)]
pub(super) struct BackwardState {
    /// The number of `..` that have not met a segment to remove.
    pub(super) double_dots: usize,
    /// A segment is kept, apart from the empty one at the end.
    pub(super) kept: bool,
    /// The first segment, apart from dot segments, is removed.
    pub(super) removed: bool,
    /// The first segment that is kept has a colon.
    pub(super) colon: bool,
    /// The text of those that are kept.
    pub(super) text: Placed,
}

impl BackwardState {
    /// Nothing, before `len` bytes that follow the path.
    pub(super) fn none(len: usize) -> BackwardState
        ensures is { (form : Form) (ended : Bool) (buffer t : List ℕ) → EndsWith buffer len t → spec.IsBackwardState form ended spec.nothing result buffer t }
        ensures double_dots { result.double_dots ≡ 0 }
    {
        BackwardState {
            double_dots: 0,
            kept: false,
            removed: false,
            colon: false,
            text: Placed::empty(len),
        }
    }

    /// Keeps all segments of a text, of which none is a dot segment: puts the text in one piece, since
    /// nothing is removed of it, and a slash if anything of the path follows.
    fn keep(self, form: Form, ended: bool, text: &[u8], out: &mut [u8]) -> BackwardState
        requires none { self.double_dots ≡ 0 }
        requires segments { list_all is_segment (slice_split is_slash text.now) ≡ true }
        requires dots { has_dot_segment (slice_split is_slash text.now) ≡ false }
        ensures room { length out.new ≡ length out.old }
        ensures double_dots { result.double_dots ≡ 0 }
        ensures is { spec.ProcessesAll form ended (slice_split is_slash text.now) self out.old result out.new }
    {
        let (first, _) = split_at_delimiter(text, b'/');
        let placed = self.text.prepend_root(self.kept || ended, out);
        BackwardState {
            double_dots: 0,
            kept: true,
            removed: false,
            colon: has_colon(first),
            text: placed.prepend_text(form, text, out),
        }
    }

    /// A segment that is no dot segment, before a `..` that removes it.
    fn remove(self) -> BackwardState
        requires { 0 < self.double_dots }
        ensures double_dots { result.double_dots + 1 ≡ self.double_dots }
        ensures is { (s : List ℕ) → is_dot_segment s ≡ false → spec.ProcessesOne s self result }
    {
        BackwardState {
            double_dots: self.double_dots - 1,
            removed: true,
            ..self
        }
    }

    /// A dot segment, before those that were read: a `..` removes a segment before it.
    fn add_double_dot(self, segment: &[u8]) -> BackwardState
        requires few { self.double_dots < usize.MAX }
        requires segment { is_segment segment.now ≡ true }
        requires dots { is_dot_segment segment.now ≡ true }
        ensures double_dots { result.double_dots ≤ self.double_dots + 1 }
        ensures is { spec.ProcessesOne segment.now self result }
    {
        if !is_double_dots(segment) {
            return self;
        }
        BackwardState {
            double_dots: self.double_dots + 1,
            ..self
        }
    }

    /// Segments of which none is a dot segment, before those that were read. Each `..` that is left
    /// removes the last of them; the others are kept as one text.
    fn stretch(self, form: Form, ended: bool, text: &[u8], out: &mut [u8]) -> BackwardState
        requires segments { list_all is_segment (slice_split is_slash text.now) ≡ true }
        requires dots { has_dot_segment (slice_split is_slash text.now) ≡ false }
        ensures room { length out.new ≡ length out.old }
        ensures double_dots { result.double_dots ≤ self.double_dots }
        ensures is { spec.ProcessesAll form ended (slice_split is_slash text.now) self out.old result out.new }
    {
        let mut state = self;
        let mut rest = text;
        'removed: while state.double_dots > 0 {
            state = state.remove();
            let (front, _) = split_last(rest);
            match front {
                Some(front) => rest = front,
                None => return state,
            }
        }
        state.keep(form, ended, rest, out)
    }

    /// Segments of which the first is a dot segment and no other is, before those that were read.
    fn step(self, form: Form, ended: bool, text: &[u8], out: &mut [u8]) -> BackwardState
        requires few { self.double_dots < usize.MAX }
        requires segments { list_all is_segment (slice_split is_slash text.now) ≡ true }
        requires first { is_first is_dot_segment (slice_split is_slash text.now) ≡ true }
        requires later { has_dot_segment (drop 1 (slice_split is_slash text.now)) ≡ false }
        ensures room { length out.new ≡ length out.old }
        ensures double_dots { result.double_dots ≤ self.double_dots + 1 }
        ensures is { spec.ProcessesAll form ended (slice_split is_slash text.now) self out.old result out.new }
    {
        let (first, following) = split_at_delimiter(text, b'/');
        match without_delimiter(following) {
            Some(later) => self.stretch(form, ended, later, out).add_double_dot(first),
            None => self.add_double_dot(first),
        }
    }

    /// All segments of a text, from the last one to the first. `ended` says that an empty segment
    /// follows those that are kept, `last` where the last dot segment begins. The segments between dot
    /// segments are looked at one by one only as long as a `..` is left to remove one of them.
    pub(super) fn process(
        self,
        form: Form,
        ended: bool,
        text: &[u8],
        last: Option<usize>,
        out: &mut [u8],
    ) -> BackwardState
        requires few { self.double_dots + length (slice_split is_slash text.now) ≤ usize.MAX }
        requires segments { list_all is_segment (slice_split is_slash text.now) ≡ true }
        requires last { IsLast last text.now }
        ensures room { length out.new ≡ length out.old }
        ensures double_dots { result.double_dots ≤ self.double_dots + length (slice_split is_slash text.now) }
        ensures is { spec.ProcessesAll form ended (slice_split is_slash text.now) self out.old result out.new }
    {
        let mut state = self;
        let mut rest = text;
        let mut last = last;
        'dots: while let Some(at) = last {
            state = state.step(form, ended, &rest[at..], out);
            if at == 0 {
                return state;
            }
            rest = &rest[..at - 1];
            last = last_dots(rest);
        }
        state.stretch(form, ended, rest, out)
    }

    /// All segments of a text but the last one, from the last of these to the first, as
    /// [`process`](BackwardState::process) goes over all.
    pub(super) fn process_directory(
        self,
        form: Form,
        ended: bool,
        text: &[u8],
        out: &mut [u8],
    ) -> BackwardState
        requires few { self.double_dots + length (slice_split is_slash text.now) ≤ usize.MAX }
        requires segments { list_all is_segment (slice_split is_slash text.now) ≡ true }
        ensures room { length out.new ≡ length out.old }
        ensures is { spec.ProcessesAll form ended (all_but_last (slice_split is_slash text.now)) self out.old result out.new }
    {
        let (front, _) = split_last(text);
        match front {
            Some(front) => self.process(form, ended, front, last_dots(front), out),
            None => self,
        }
    }
}

/// Cuts off the last segment: what precedes the last slash, if there is one, and what follows it.
pub(super) fn split_last(text: &[u8]) -> (Option<&[u8]>, &[u8])
    ensures { slice_split is_slash text.now ≡ pieces_left (option_copied result.0) ++ result.1.now ∷ [] }
{
    match text.iter().rposition(|&b| b == b'/') {
        Some(at) => (Some(&text[..at]), &text[at + 1..]),
        None => (None, text),
    }
}
