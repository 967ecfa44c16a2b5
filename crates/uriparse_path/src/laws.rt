//! Laws of the definitions that contracts cite. Each function does nothing: its contract is the
//! law.
ghost use Rattle.std.specs.Prelude.{◌≡◌, ◌<◌, ◌≤◌, ◌↔◌, ◌∷◌, [], ℕ, List, Bool, None, Some, Ok, Err, codes, length, slice_get, take, true, false};
ghost use Rattle.std.specs.List.{list_all, list_any, slice_split, join_with_byte};
ghost use Rattle.std.specs.Option.{option_map};
ghost use Rattle.uriparse_text.specs.Ambiguous.{is_ambiguous};
ghost use Rattle.uriparse_text.specs.Bytes.{percent, slash};
ghost use Rattle.uriparse_text.specs.Canonical.{canonical};
ghost use Rattle.uriparse_text.specs.Segment.{is_segment};
ghost use Rattle.uriparse_path.specs.Path.{PathParts, IsListed, IsPath, max_segments, is_slash, is_rooted, pieces, text, spelled, respelled};
ghost use Rattle.uriparse_path.specs.Faults.{PassesLimit, error_of, fault};
ghost use Rattle.uriparse_text.specs.declared.segment.error.PathError.{PathError};
ghost use Rattle.uriparse_path.specs.Offset.{fault_offset};
ghost use Rattle.uriparse_path.specs.Dots.{has_dot_segment, is_double_dot, Step, Undots, rooted_after, replayed, undot, without_dots};
ghost use Rattle.uriparse_path.specs.Relative.{is_first, has_colon, Leads, IsIrreducible, IsRelNormal, reduced, relative_normal};
ghost use Rattle.uriparse_path.specs.Edits.{cleared, popped, pushed, pushing};
ghost use Rattle.uriparse_text.specs.Segment as segment;
ghost use Rattle.uriparse_text.specs.declared.segment.error.PathError.TheVariants as errors;
ghost use Rattle.uriparse_path.specs.Merge.{LeadsTo};
ghost use Rattle.uriparse_path.specs.Relate.{double_dots_in, leading};
ghost use Rattle.uriparse_path.specs.Within.{removed_segments, removes_unclear};
ghost use Rattle.uriparse_path.specs.Normal.{canonical_path, pnormal, begins_with_double_dots, is_normal};

use crate::path::MAX_SEGMENTS;

/// The definitions and the code have the same limit.
pub fn one_limit() -> usize
    ensures { result ≡ max_segments }
{
    MAX_SEGMENTS
}

/// A text has no fault exactly if its pieces are the segments of a path. Running out of memory is
/// not a fault of a text.
pub fn no_fault()
    ensures none { (t : List ℕ) → (fault t ≡ None) ↔ IsListed (pieces t) }
    ensures memory { (t : List ℕ) → fault t ≡ Some errors.OutOfMemory → ⊥ }
{}

/// A text is rejected for its length exactly if a prefix without fault has as many segments as a
/// path may have and a slash follows it.
pub fn length_fault()
    ensures { (t : List ℕ) → (fault t ≡ Some errors.ExceededMaximumLength) ↔ PassesLimit t }
{}

/// A text's fault is the byte's at its place: a slash there begins one segment too many. So the
/// byte is a `%` exactly if the error is about a percent-encoding. What precedes the place has no
/// fault, and the place precedes the end of the text.
pub fn one_offset_of_fault()
    ensures byte { (t : List ℕ) → fault t ≡ option_map error_of (slice_get t (fault_offset t)) }
    ensures escape { (t : List ℕ) (e : PathError) → fault t ≡ Some e → (e ≡ errors.InvalidPercentEncoding) ↔ (slice_get t (fault_offset t) ≡ Some percent) }
    ensures before { (t : List ℕ) → fault (take (fault_offset t) t) ≡ None }
    ensures within { (t : List ℕ) (e : PathError) → fault t ≡ Some e → fault_offset t < length t }
{}

/// Splitting at slashes and joining with slashes undo each other.
pub fn splitting_and_joining()
    ensures joined { (t : List ℕ) → join_with_byte slash (slice_split is_slash t) ≡ t }
    ensures split { (s : List ℕ) (ss : List (List ℕ)) → list_all is_segment (s ∷ ss) ≡ true → slice_split is_slash (join_with_byte slash (s ∷ ss)) ≡ s ∷ ss }
{}

/// The path that a text spells has that text. The path that a path's text spells is that path, or
/// an absolute one if the text of a relative path begins with a slash.
pub fn reading_back()
    ensures text { (t : List ℕ) → text (spelled t) ≡ t }
    ensures path { (p : PathParts) → IsListed p.segments → spelled (text p) ≡ respelled p }
    ensures listed { (p : PathParts) → IsListed p.segments → IsListed (respelled p).segments }
{}

/// The steps that remove dot segments are deterministic, and lead from each text to exactly one
/// text. From a path's text they lead to the text of its replayed segments. A text without dot
/// segments is unchanged.
pub fn one_text_without_dots()
    ensures step { (i o j p k q : List ℕ) → Step i o j p → Step i o k q → (j ≡ k) × (p ≡ q) }
    ensures text { (t u : List ℕ) → Undots t u ↔ (u ≡ undot t) }
    ensures path { (p : PathParts) → IsListed p.segments → undot (text p) ≡ text (replayed p) }
    ensures kept { (p : PathParts) → IsListed p.segments → has_dot_segment p.segments ≡ false → undot (text p) ≡ text p }
    ensures root { (out ss : List (List ℕ)) → rooted_after true out ss ≡ true }
{}

/// Canonical spelling and the removal of dot segments yield the same text in either order. A path
/// and the path in canonical spelling have the same normal form.
pub fn spelling_before_or_after()
    ensures dots { (t : List ℕ) → IsPath t → undot (canonical t) ≡ canonical (undot t) }
    ensures normal { (p : PathParts) (r : Bool) → IsListed p.segments → pnormal (canonical_path p) r ≡ pnormal p r }
{}

/// A path without its dot segments is a path, has no dot segment, and is no longer than before.
pub fn without_dot_segments()
    ensures listed { (p : PathParts) → IsListed p.segments → IsListed (without_dots p).segments }
    ensures none { (p : PathParts) → IsListed p.segments → has_dot_segment (without_dots p).segments ≡ false }
    ensures no_longer { (p : PathParts) → IsListed p.segments → length (without_dots p).segments ≤ length p.segments }
{}

/// Deletions lead from each list of segments to exactly one irreducible list, in which `..`
/// segments come first and no other dot segment is left. So each list has exactly one relative
/// normal form.
pub fn one_relative_normal_form()
    ensures list { (l m : List (List ℕ)) → (Leads m l × IsIrreducible m) ↔ (m ≡ reduced l) }
    ensures irreducible { (l : List (List ℕ)) → IsIrreducible l ↔ (begins_with_double_dots l ≡ true) }
    ensures normal { (l n : List (List ℕ)) → IsRelNormal l n ↔ (n ≡ relative_normal l) }
{}

/// The normal form of a path is a path, no longer than the path, and its own normal form. A path
/// has the text of its normal form exactly if it is normal, and then it is that form.
pub fn one_normal_form()
    ensures listed { (p : PathParts) (r : Bool) → IsListed p.segments → IsListed (pnormal p r).segments }
    ensures no_longer { (p : PathParts) (r : Bool) → IsListed p.segments → length (pnormal p r).segments ≤ length p.segments }
    ensures twice { (p : PathParts) (r : Bool) → IsListed p.segments → pnormal (pnormal p r) r ≡ pnormal p r }
    ensures text { (p : PathParts) (r : Bool) → IsListed p.segments → (is_normal p r ≡ true) ↔ (text (pnormal p r) ≡ text p) }
    ensures kept { (p : PathParts) (r : Bool) → IsListed p.segments → is_normal p r ≡ true → pnormal p r ≡ p }
{}

/// If a path is the one that its text spells, so is its normal form. The normal form of an absolute
/// path is absolute. In a reference without a scheme it begins with a slash exactly if the path
/// does, and its first segment has no colon if the path's first one has none.
pub fn normal_form_in_place()
    ensures spelled { (p : PathParts) (r : Bool) → IsListed p.segments → spelled (text p) ≡ p → spelled (text (pnormal p r)) ≡ pnormal p r }
    ensures absolute { (p : PathParts) (r : Bool) → IsListed p.segments → p.absolute ≡ true → (pnormal p r).absolute ≡ true }
    ensures rooted { (p : PathParts) (r : Bool) → IsListed p.segments → is_rooted (text p) ≡ true → is_rooted (text (pnormal p r)) ≡ true }
    ensures rootless { (p : PathParts) → IsListed p.segments → is_rooted (text p) ≡ false → is_rooted (text (pnormal p true)) ≡ false }
    ensures colon { (p : PathParts) → is_rooted (text p) ≡ false → is_first has_colon p.segments ≡ false → is_first has_colon (pnormal p true).segments ≡ false }
{}

/// Texts before and after the removal of dot segments. Dots may be escaped.
#[tactic(auto, unfolding(crate::specs::Dots::undot, crate::specs::Dots::is_single_dot, crate::specs::Dots::is_double_dot, crate::specs::Relative::relative_normal, uriparse_text::specs::Canonical::canonical_in, uriparse_text::specs::Tokens::tokens, uriparse_text::specs::Bytes::is_unreserved))]
pub fn examples_without_dot_segments()
    ensures two_levels { undot (codes "/a/b/c/./../../g") ≡ codes "/a/g" }
    ensures past_the_start { undot (codes "a/../..") ≡ codes "/" }
    ensures escaped_at_the_end { undot (codes "/a/b/%2E%2e") ≡ codes "/a/" }
    ensures in_the_middle { undot (codes "mid/content=5/../6") ≡ codes "mid/6" }
    ensures empty_segment { undot (codes "a/..//b") ≡ codes "//b" }
    ensures plain_at_the_end { undot (codes "/a/b/..") ≡ codes "/a/" }
    ensures escaped_in_front { undot (codes "%2e%2E/x") ≡ codes "x" }
    ensures above_the_root { undot (codes "/..//x") ≡ codes "//x" }
    ensures first_of_two { undot (codes "a/../b") ≡ codes "/b" }
{}

/// Texts of paths and of their normal forms in a reference without a scheme.
#[tactic(auto, unfolding(crate::specs::Dots::undot, crate::specs::Dots::is_single_dot, crate::specs::Dots::is_double_dot, crate::specs::Relative::relative_normal, uriparse_text::specs::Canonical::canonical_in, uriparse_text::specs::Tokens::tokens, uriparse_text::specs::Bytes::is_unreserved))]
pub fn examples_of_relative_normal_forms()
    ensures single { text (pnormal (spelled (codes ".")) true) ≡ codes "" }
    ensures double { text (pnormal (spelled (codes "..")) true) ≡ codes ".." }
    ensures double_slash { text (pnormal (spelled (codes "../")) true) ≡ codes "../" }
    ensures rooted_double { text (pnormal (spelled (codes "/..")) true) ≡ codes "/" }
    ensures one_up { text (pnormal (spelled (codes "a/..")) true) ≡ codes "" }
    ensures two_up { text (pnormal (spelled (codes "a/../..")) true) ≡ codes ".." }
    ensures colon_after_double { text (pnormal (spelled (codes "./../a:b")) true) ≡ codes "../a:b" }
    ensures colon_in_front { text (pnormal (spelled (codes "a/.././a:b")) true) ≡ codes "./a:b" }
    ensures up_and_slash { text (pnormal (spelled (codes "../a/../")) true) ≡ codes "../" }
    ensures rooted_single_and_double { text (pnormal (spelled (codes "/a/b/./..")) true) ≡ codes "/a/" }
    ensures colon_guarded { text (pnormal (spelled (codes "x/../c:d")) true) ≡ codes "./c:d" }
    ensures empty_guarded { text (pnormal (spelled (codes ".//x")) true) ≡ codes ".//x" }
    ensures slash_after_dots { text (pnormal (spelled (codes "a/b/..")) true) ≡ codes "a/" }
    ensures no_slash_after_double { text (pnormal (spelled (codes "../a/../..")) true) ≡ codes "../.." }
    ensures leading_dot_is_no_colon { text (pnormal (spelled (codes "./a:b/../c:d")) true) ≡ codes "./c:d" }
    ensures escaped_single { text (pnormal (spelled (codes "%2e/c:d")) true) ≡ codes "./c:d" }
    ensures single_at_both_ends { text (pnormal (spelled (codes ".//.")) true) ≡ codes ".//" }
    ensures old_colon { text (pnormal (spelled (codes "c:d/.")) true) ≡ codes "c:d/" }
    ensures old_colon_again { text (pnormal (spelled (codes "a:b/../c:d")) true) ≡ codes "c:d" }
    ensures spelled { text (pnormal (spelled (codes "this/is/a/t%65st/path/%ff")) true) ≡ codes "this/is/a/test/path/%FF" }
    ensures empty_and_double { text (pnormal (spelled (codes "a//..")) true) ≡ codes "a/" }
    ensures comes_to_begin_empty { text (pnormal (spelled (codes "x/..//y")) true) ≡ codes ".//y" }
    ensures double_dots { text (pnormal (spelled (codes "a/../../b")) true) ≡ codes "../b" }
    ensures escaped_double { text (pnormal (spelled (codes "%2E%2e/a")) true) ≡ codes "../a" }
    ensures plain_kept { text (pnormal (spelled (codes "../.")) true) ≡ codes ".." }
{}

/// Texts of paths and of their normal forms elsewhere.
#[tactic(auto, unfolding(crate::specs::Dots::undot, crate::specs::Dots::is_single_dot, crate::specs::Dots::is_double_dot, crate::specs::Relative::relative_normal, uriparse_text::specs::Canonical::canonical_in, uriparse_text::specs::Tokens::tokens, uriparse_text::specs::Bytes::is_unreserved))]
pub fn examples_of_other_normal_forms()
    ensures single { text (pnormal (spelled (codes ".")) false) ≡ codes "" }
    ensures double { text (pnormal (spelled (codes "..")) false) ≡ codes "" }
    ensures double_slash { text (pnormal (spelled (codes "../")) false) ≡ codes "" }
    ensures rooted_double { text (pnormal (spelled (codes "/..")) false) ≡ codes "/" }
    ensures one_up { text (pnormal (spelled (codes "a/..")) false) ≡ codes "/" }
    ensures two_up { text (pnormal (spelled (codes "a/../..")) false) ≡ codes "/" }
    ensures colon_after_double { text (pnormal (spelled (codes "./../a:b")) false) ≡ codes "a:b" }
    ensures colon_in_front { text (pnormal (spelled (codes "a/.././a:b")) false) ≡ codes "/a:b" }
    ensures up_and_slash { text (pnormal (spelled (codes "../a/../")) false) ≡ codes "/" }
    ensures rooted_single_and_double { text (pnormal (spelled (codes "/a/b/./..")) false) ≡ codes "/a/" }
    ensures empty_guarded { text (pnormal (spelled (codes ".//x")) false) ≡ codes "/x" }
    ensures spelled { text (pnormal (spelled (codes "this/is/a/t%65st/path/%ff")) false) ≡ codes "this/is/a/test/path/%FF" }
    ensures rooted_empty { text (pnormal (spelled (codes "/a/..//b")) false) ≡ codes "//b" }
    ensures colon_popped { text (pnormal (spelled (codes "a:b/../c")) false) ≡ codes "/c" }
{}

/// Merging the relative path that leads from a base's path to another one with the base's path, and
/// removing the dot segments, yields the other path's segments. No relative path leads there with
/// fewer `..`.
pub fn fewest_double_dots()
    ensures leads { (b t p : PathParts) → 0 < length t.segments → leading b t ≡ Some p → LeadsTo b p t }
    ensures fewest { (b t p q : PathParts) → leading b t ≡ Some p → 0 < length t.segments → 0 < length q.segments → LeadsTo b q t → double_dots_in p.segments ≤ double_dots_in q.segments }
{}

/// Relative paths that lead from a base's path to another one, if there is one.
#[tactic(auto, unfolding(crate::specs::Dots::is_single_dot, crate::specs::Dots::is_double_dot, uriparse_text::specs::Canonical::canonical_in, uriparse_text::specs::Tokens::tokens, uriparse_text::specs::Bytes::is_unreserved, crate::specs::Path::max_segments))]
pub fn examples_of_leading()
    ensures one_up { leading (spelled (codes "/b/c/d;p")) (spelled (codes "/b/g")) ≡ Some (spelled (codes "../g")) }
    ensures directory { leading (spelled (codes "/b/c/d;p")) (spelled (codes "/b/c/")) ≡ Some (spelled (codes "./")) }
    ensures root { leading (spelled (codes "/b/c/d;p")) (spelled (codes "/")) ≡ Some (spelled (codes "../../")) }
    ensures below { leading (spelled (codes "/b/c")) (spelled (codes "/b/c/d")) ≡ Some (spelled (codes "c/d")) }
    ensures above { leading (spelled (codes "/b/c/d")) (spelled (codes "/b")) ≡ Some (spelled (codes "../../b")) }
    ensures same { leading (spelled (codes "/b/c")) (spelled (codes "/b/c")) ≡ Some (spelled (codes "c")) }
    ensures colon { leading (spelled (codes "/b/c")) (spelled (codes "/b/g:h")) ≡ Some (spelled (codes "./g:h")) }
    ensures empty_segment { leading (spelled (codes "/b/c")) (spelled (codes "/b//g")) ≡ Some (spelled (codes ".//g")) }
    ensures two_slashes { leading (spelled (codes "/b/c")) (spelled (codes "//g")) ≡ Some (spelled (codes "..//g")) }
    ensures spelling { leading (spelled (codes "/%7Eb/c")) (spelled (codes "/~b/c")) ≡ Some (spelled (codes "../~b/c")) }
    ensures last_dots { leading (spelled (codes "/b/..")) (spelled (codes "/b/g")) ≡ Some (spelled (codes "g")) }
    ensures dots_in_base { leading (spelled (codes "/b/../c")) (spelled (codes "/b/g")) ≡ None }
    ensures dots_in_target { leading (spelled (codes "/b/c")) (spelled (codes "/b/%2E/g")) ≡ None }
    ensures rootless { leading (spelled (codes "b")) (spelled (codes "c")) ≡ Some (spelled (codes "c")) }
    ensures rootless_colon { leading (spelled (codes "b:1")) (spelled (codes "b:2")) ≡ Some (spelled (codes "./b:2")) }
    ensures rootless_empty { leading (spelled (codes "b")) (spelled (codes "")) ≡ Some (spelled (codes "./")) }
    ensures rootless_up { leading (spelled (codes "a/b/c")) (spelled (codes "a/d")) ≡ Some (spelled (codes "../d")) }
    ensures rootless_out { leading (spelled (codes "a/b")) (spelled (codes "c")) ≡ None }
    ensures one_root { leading (spelled (codes "/b")) (spelled (codes "c")) ≡ None }
{}

/// Paths before and after edits.
#[tactic(auto, unfolding(crate::specs::Dots::undot, crate::specs::Dots::is_single_dot, crate::specs::Dots::is_double_dot, crate::specs::Relative::relative_normal, uriparse_text::specs::Canonical::canonical_in, uriparse_text::specs::Tokens::tokens, uriparse_text::specs::Bytes::is_unreserved, crate::specs::Path::max_segments, uriparse_text::specs::Faults::fault, uriparse_text::specs::Classes::is_plain, uriparse_text::specs::Bytes::is_sub_delim))]
pub fn examples_of_edits()
    ensures last_of_two { text (popped (spelled (codes "a/b"))) ≡ codes "a" }
    ensures only_one { text (popped (spelled (codes "/a"))) ≡ codes "/" }
    ensures all { text (cleared (spelled (codes "/a/b"))) ≡ codes "/" }
    ensures in_place { text (pushed (spelled (codes "")) (codes "x")) ≡ codes "x" }
    ensures empty_and_another { text (pushed (pushed (spelled (codes "")) (codes "")) (codes "x")) ≡ codes "//x" }
    ensures escaped { pushing (spelled (codes "a")) (segment.reading (codes "%7e")) ≡ Ok (spelled (codes "a/%7e")) }
    ensures slash { pushing (spelled (codes "a")) (segment.reading (codes "a/b")) ≡ Err errors.InvalidCharacter }
    ensures broken_escape { pushing (spelled (codes "a")) (segment.reading (codes "%4")) ≡ Err errors.InvalidPercentEncoding }
{}

/// A segment is ambiguous exactly if its canonical spelling is. Without a `..` no segment is removed.
pub fn one_check_of_segments()
    ensures spelled { (s : List ℕ) → is_segment s ≡ true → is_ambiguous (canonical s) ≡ is_ambiguous s }
    ensures kept { (ss : List (List ℕ)) → list_any is_double_dot ss ≡ false → removed_segments ss ≡ [] }
{}

/// The segments that `..` remove: the last one that is left before each, but no dot segment and
/// nothing above the root. Dots may be escaped.
#[tactic(auto, unfolding(crate::specs::Dots::is_single_dot, crate::specs::Dots::is_double_dot, uriparse_text::specs::Ambiguous::is_ambiguous, uriparse_text::specs::Coding::decoded, uriparse_text::specs::Canonical::canonical_in, uriparse_text::specs::Tokens::tokens, uriparse_text::specs::Bytes::is_unreserved))]
pub fn examples_of_removed_segments()
    ensures one { removed_segments (spelled (codes "/a/b/../c")).segments ≡ codes "b" ∷ [] }
    ensures two { removed_segments (spelled (codes "/a/b/c/../../d")).segments ≡ codes "b" ∷ codes "c" ∷ [] }
    ensures apart { removed_segments (spelled (codes "/a/../b/c/..")).segments ≡ codes "a" ∷ codes "c" ∷ [] }
    ensures single_dots { removed_segments (spelled (codes "/a/b/./.././c")).segments ≡ codes "b" ∷ [] }
    ensures above_the_root { removed_segments (spelled (codes "/../a")).segments ≡ [] }
    ensures kept { removed_segments (spelled (codes "/a/./b/")).segments ≡ [] }
    ensures empty { removed_segments (spelled (codes "/a//../b")).segments ≡ [] ∷ [] }
    ensures escaped { removed_segments (spelled (codes "/a/b/%2e%2E/c")).segments ≡ codes "b" ∷ [] }
    ensures relative { removed_segments (spelled (codes "a/../../b")).segments ≡ codes "a" ∷ [] }
    ensures dots_with_parameters { removed_segments (spelled (codes "/a/..;/../b")).segments ≡ codes "..;" ∷ [] }
{}

/// Paths of which a `..` removes a segment on which readers disagree, and paths of which none does.
#[tactic(auto, unfolding(crate::specs::Dots::is_single_dot, crate::specs::Dots::is_double_dot, uriparse_text::specs::Ambiguous::is_ambiguous, uriparse_text::specs::Coding::decoded, uriparse_text::specs::Canonical::canonical_in, uriparse_text::specs::Tokens::tokens, uriparse_text::specs::Bytes::is_unreserved))]
pub fn examples_of_unclear_removals()
    ensures dots_with_parameters { removes_unclear (spelled (codes "/app/..;/../a")) ≡ true }
    ensures after_a_plain_one { removes_unclear (spelled (codes "/app/x/..;/../admin")) ≡ true }
    ensures with_a_plain_one { removes_unclear (spelled (codes "/app/%2f../../admin")) ≡ true }
    ensures encoded_slash { removes_unclear (spelled (codes "/app/..%2fadmin%2fx/../")) ≡ true }
    ensures empty { removes_unclear (spelled (codes "/app//../admin")) ≡ true }
    ensures no_name { removes_unclear (spelled (codes "/app/;x/../admin")) ≡ true }
    ensures escaped_end { removes_unclear (spelled (codes "/app/%3Bx/../admin")) ≡ true }
    ensures dots_with_an_escaped_end { removes_unclear (spelled (codes "/app/..%3f/../a")) ≡ true }
    ensures escaped_dots { removes_unclear (spelled (codes "/app//%2e%2E/admin")) ≡ true }
    ensures early { removes_unclear (spelled (codes "//../app/a")) ≡ true }
    ensures kept { removes_unclear (spelled (codes "/app/..;/a")) ≡ false }
    ensures kept_empty { removes_unclear (spelled (codes "/app//a/../b")) ≡ false }
    ensures plain { removes_unclear (spelled (codes "/app/x/../a")) ≡ false }
    ensures parameters { removes_unclear (spelled (codes "/app/x;y/../a")) ≡ false }
    ensures single_dot { removes_unclear (spelled (codes "/app/x//./a")) ≡ false }
{}
