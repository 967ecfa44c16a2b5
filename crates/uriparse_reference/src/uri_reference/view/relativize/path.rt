//! The path that leads from a base's path to another one, by a walk over their texts: RFC 3986,
//! sections 4.2 and 5.2.
ghost use Rattle.std.specs.Prelude.{◌≡◌, ◌==◌, ◌&&◌, ◌+◌, ◌<◌, ◌++◌, ◌∷◌, [], IfSome, MatchOption, is_some, length, nat_lt};
ghost use Rattle.std.specs.List.{slice_split};
ghost use Rattle.uriparse_text.specs.Ends.{Puts};
ghost use Rattle.uriparse_path.specs.Dots as dots;
ghost use Rattle.uriparse_path.specs.Path.{IsPath, is_slash, max_segments, spelled};
ghost use Rattle.uriparse_path.specs.Relate as relate;
ghost use Rattle.uriparse_path.specs.Relative.{is_first};
ghost use Rattle.uriparse_reference.specs.Relate as reference;
ghost use Rattle.uriparse_reference.specs.RelativeText as spec;

use uriparse_path::internal::{has_dot_segment, prepend_parent_steps, segments_of, split_root};
use uriparse_path::path::{MAX_SEGMENTS, Segments};
use uriparse_text::internal::{prepend, split_at_delimiter, without_delimiter};

/// The text of a path: `./` or nothing, then this many `../`, then the rest.
#[derive(Drop)]
pub(super) struct PathText<'t> {
    dotted: bool,
    parents: usize,
    rest: &'t [u8],
}

/// The text of a whole path.
pub(super) fn whole_path(path: &[u8]) -> PathText<'_>
    ensures { spec.path_text result ≡ path.now }
{
    PathText {
        dotted: false,
        parents: 0,
        rest: path,
    }
}

/// Whether one of the segments before the last is a dot segment.
fn has_dots_before_last(segments: Segments<'_>) -> bool
    ensures { result ≡ dots.has_dot_segment (dots.all_but_last segments.entry) }
{
    let mut found = false;
    for segment in segments {
        if found {
            return true;
        }
        found = segment.is_dot_segment();
    }
    false
}

/// The first directory of a text and what follows its slash, or `None` if the text is one segment.
fn split_directory(text: &[u8]) -> Option<(&[u8], &[u8])>
    ensures { MatchOption result (slice_split is_slash text.now ≡ text.now ∷ []) (λ r. slice_split is_slash text.now ≡ r.0.now ∷ slice_split is_slash r.1.now) }
{
    let (directory, following) = split_at_delimiter(text, b'/');
    Some((directory, without_delimiter(following)?))
}

/// How many directories the text has: one for each slash.
fn count_directories(text: &[u8]) -> usize
    ensures { result ≡ length (spec.directories text.now) }
{
    let mut count = 0;
    let mut left = text;
    'directories: while let Some((_, following)) = split_directory(left) {
        count += 1;
        left = following;
    }
    count
}

/// What follows a first directory that both texts begin with, if there is one.
fn after_shared<'b, 't>(base: &'b [u8], target: &'t [u8]) -> Option<(&'b [u8], &'t [u8])>
    ensures apart { MatchOption result (spec.AreApart base.now target.now) (λ r. spec.apart_of base.now target.now ≡ spec.apart_of r.0.now r.1.now) }
    ensures fewer { IfSome result (λ r. length (spec.directories r.0.now) < length (spec.directories base.now)) }
    ensures below { 0 < length (spec.directories base.now) → relate.stays_below (spec.directories base.now) (slice_split is_slash target.now) ≡ is_some result }
{
    let (directory, left) = split_directory(base)?;
    let (own, rest) = split_directory(target)?;
    if directory == own {
        Some((left, rest))
    } else {
        None
    }
}

/// What is left of both texts after the directories that both begin with.
fn apart<'b, 't>(base: &'b [u8], target: &'t [u8]) -> (&'b [u8], &'t [u8])
    ensures { spec.apart_of base.now target.now ≡ relate.double_dots (spec.directories result.0.now) ++ slice_split is_slash result.1.now }
{
    let mut left = base;
    let mut rest = target;
    'directories: while let Some((later, following)) = after_shared(left, rest) {
        left = later;
        rest = following;
    }
    (left, rest)
}

/// Whether the base is in no directory, or the target is in the base's first one.
fn stays_below(base: &[u8], target: &[u8]) -> bool
    ensures { result ≡ relate.stays_below (spec.directories base.now) (slice_split is_slash target.now) }
{
    match split_directory(base) {
        Some(_) => after_shared(base, target).is_some(),
        None => true,
    }
}

/// Whether both are absolute, or neither is and no `..` has to leave the base's first directory.
fn have_one_root(base: &[u8], target: &[u8]) -> bool
    ensures { result ≡ relate.have_one_root (spelled base.now) (spelled target.now) }
{
    let (base_rooted, base) = split_root(base);
    let (target_rooted, target) = split_root(target);
    if base_rooted {
        return target_rooted;
    }
    !target_rooted && stays_below(base, target)
}

/// Whether they have one root in this way, and neither has a dot segment, except as the base's last
/// one.
fn may_lead(base: &[u8], target: &[u8]) -> bool
    requires base { IsPath base.now }
    requires target { IsPath target.now }
    ensures { result ≡ relate.may_lead (spelled base.now) (spelled target.now) }
{
    have_one_root(base, target)
        && !has_dots_before_last(segments_of(base))
        && !has_dot_segment(segments_of(target))
}

/// Whether these directories, and one segment, are fewer than the maximum of segments.
fn has_room(base: usize, left: usize, rest: usize) -> bool
    ensures { result ≡ nat_lt (base + (left + (rest + 1))) max_segments }
{
    base.saturating_add(left)
        .saturating_add(rest)
        .saturating_add(1)
        < MAX_SEGMENTS
}

/// Whether the first segment of a text is empty or has a colon.
fn begins_taken(text: &[u8]) -> bool
    ensures { result ≡ is_first relate.is_taken (slice_split is_slash text.now) }
{
    let (first, _) = split_at_delimiter(text, b'/');
    first.is_empty() || first.contains(&b':')
}

/// Whether this many `../`, and then the text, need a leading `./`.
fn needs_dot(parents: usize, text: &[u8]) -> bool
    ensures { result ≡ ((parents == 0) && is_first relate.is_taken (slice_split is_slash text.now)) }
{
    parents == 0 && begins_taken(text)
}

/// The relative path that leads from the base's path to the target's, if there is one: a `../` for
/// each directory of the base that the target is not in, then the target's text after the shared
/// directories. A leading `./` precedes a first segment that is empty or has a colon.
fn leading<'t>(base: &[u8], target: &'t [u8]) -> Option<PathText<'t>>
    requires base { IsPath base.now }
    requires target { IsPath target.now }
    ensures { spec.IsOfPath result (relate.leading (spelled base.now) (spelled target.now)) }
{
    if !may_lead(base, target) {
        return None;
    }
    let (_, base) = split_root(base);
    let (_, target) = split_root(target);
    let (left, rest) = apart(base, target);
    let parents = count_directories(left);
    if !has_room(count_directories(base), parents, count_directories(rest)) {
        return None;
    }
    Some(PathText {
        dotted: needs_dot(parents, rest),
        parents,
        rest,
    })
}

/// Whether the path is absolute, and its text does not start with `//`.
fn stands_alone(path: &[u8]) -> bool
    ensures { result ≡ reference.stands_alone (spelled path.now) }
{
    let (rooted, rest) = split_root(path);
    let (twice, _) = split_root(rest);
    rooted && !twice
}

/// The path that leads from the base's path to the target's, if schemes and authorities are equal.
pub(super) fn inner<'t>(base: &[u8], target: &'t [u8]) -> Option<PathText<'t>>
    requires base { IsPath base.now }
    requires target { IsPath target.now }
    ensures { spec.IsOfPath result (reference.inner (spelled base.now) (spelled target.now)) }
{
    if let Some(path) = leading(base, target) {
        return Some(path);
    }
    if stands_alone(target) {
        return Some(whole_path(target));
    }
    None
}

/// Puts the text of the path before a text of `len` bytes at the end of the buffer.
pub(super) fn prepend_path(path: &PathText<'_>, out: &mut [u8], len: usize) -> usize
    ensures room { length out.new ≡ length out.old }
    ensures puts { Puts (spec.path_text path.now) out.old len out.new result }
{
    let len = prepend(path.rest, out, len);
    let len = prepend_parent_steps(path.parents, out, len);
    if path.dotted {
        prepend(b"./", out, len)
    } else {
        len
    }
}
