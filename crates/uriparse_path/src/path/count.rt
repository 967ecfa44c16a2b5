//! How the counts of a path's segments change as the path is read and edited.
ghost use Rattle.std.specs.Prelude.{◌≡◌, ◌+◌, ◌<◌, ◌≤◌, ◌∷◌, ◌++◌, [], ℕ, List, true, false, not, if◌then◌else◌, length, map};
ghost use Rattle.std.specs.List.{list_all};
ghost use Rattle.uriparse_text.specs.Bytes.{dot};
ghost use Rattle.uriparse_text.specs.Canonical.{canonical};
ghost use Rattle.uriparse_text.specs.Segment.{is_dot_segment, is_segment};
ghost use Rattle.uriparse_path.specs.Dots.{all_but_last, has_dot_segment};
ghost use Rattle.uriparse_path.specs.Normal.{begins_with_double_dots, is_canonical};
ghost use Rattle.uriparse_path.specs.Edits.{with_last};
ghost use Rattle.uriparse_path.specs.Counts as spec;

use super::Segment;
use super::counts::Counts;
use super::segments::replaces_only_empty;

/// The number, plus one if `is_more`.
#[inline(always)]
fn one_more(n: u32, is_more: bool) -> u32
    requires { n < u32.MAX }
    ensures { result ≡ n + (if is_more then 1 else 0) }
{
    if is_more { n + 1 } else { n }
}

/// The number, minus one if `is_less`.
#[inline(always)]
fn one_less(n: u32, is_less: bool) -> u32
    requires { is_less ≡ true → 0 < n }
    ensures { result + (if is_less then 1 else 0) ≡ n }
{
    if is_less { n - 1 } else { n }
}

/// Whether the segment begins with a dot. A canonical one that does not is no dot segment.
#[inline(always)]
fn begins_with_dot(segment: &Segment<'_>) -> bool
    ensures { result ≡ false → canonical segment.now ≡ segment.now → is_dot_segment segment.now ≡ false }
{
    match segment.as_bytes().first() {
        Some(&b) => b == b'.',
        None => false,
    }
}

impl Counts {
    /// The counts of no segments.
    #[inline(always)]
    pub(super) fn none() -> Counts
        ensures { result ≡ spec.counts [] }
    {
        Counts {
            single: 0,
            double: 0,
            leading: 0,
            non_canonical: 0,
        }
    }

    /// The counts of canonical segments without dot segments, except for a leading `.` if `dotted`.
    #[inline(always)]
    pub(super) fn without_dots(dotted: bool) -> Counts
        ensures plain { (ss : List (List ℕ)) → has_dot_segment ss ≡ false → list_all is_canonical ss ≡ true → dotted ≡ false → result ≡ spec.counts ss }
        ensures dotted { (ss : List (List ℕ)) → has_dot_segment ss ≡ false → list_all is_canonical ss ≡ true → dotted ≡ true → result ≡ spec.counts ((dot ∷ []) ∷ ss) }
    {
        Counts {
            single: one_more(0, dotted),
            double: 0,
            leading: 0,
            non_canonical: 0,
        }
    }

    /// Adds a canonical segment after these segments. One that does not begin with a dot changes
    /// nothing.
    #[inline(always)]
    fn add(&mut self, segments: &[Segment<'_>], last: &Segment<'_>)
        requires counted { self.old ≡ spec.counts segments.now }
        requires room { length segments.now < u32.MAX }
        requires canonical { canonical last.now ≡ last.now }
        ensures { self.new ≡ spec.counts (segments.now ++ last.now ∷ []) }
    {
        if begins_with_dot(last) {
            *self = self.with_canonical(segments, last);
        }
    }

    /// The counts with a canonical segment after these segments. A canonical dot segment is `.` or
    /// `..` itself.
    #[inline(never)]
    fn with_canonical(self, segments: &[Segment<'_>], last: &Segment<'_>) -> Counts
        requires counted { self ≡ spec.counts segments.now }
        requires room { length segments.now < u32.MAX }
        requires canonical { canonical last.now ≡ last.now }
        ensures { result ≡ spec.counts (segments.now ++ last.now ∷ []) }
    {
        let is_single = last.as_bytes() == b".".as_slice();
        let is_double = last.as_bytes() == b"..".as_slice();
        let leads = is_double && self.leading as usize == segments.len();
        Counts {
            single: one_more(self.single, is_single),
            double: one_more(self.double, is_double),
            leading: one_more(self.leading, leads),
            non_canonical: self.non_canonical,
        }
    }

    /// The counts with one more segment after these segments.
    fn with(self, segments: &[Segment<'_>], last: &Segment<'_>) -> Counts
        requires counted { self ≡ spec.counts segments.now }
        requires room { length segments.now < u32.MAX }
        ensures { result ≡ spec.counts (segments.now ++ last.now ∷ []) }
    {
        let is_double = last.is_double_dot_segment();
        Counts {
            single: one_more(self.single, last.is_single_dot_segment()),
            double: one_more(self.double, is_double),
            leading: one_more(
                self.leading,
                is_double && self.leading as usize == segments.len(),
            ),
            non_canonical: one_more(self.non_canonical, !last.is_normalized()),
        }
    }

    /// The counts of canonical segments.
    pub(super) fn of(segments: &[Segment<'_>]) -> Counts
        requires short { length segments.now ≤ u32.MAX }
        requires canonical { list_all is_canonical segments.now ≡ true }
        ensures { result ≡ spec.counts segments.now }
    {
        let mut counts = Counts::none();
        for at in 0..segments.len() {
            counts.add(&segments[..at], &segments[at]);
        }
        counts
    }

    /// The counts of the same segments in canonical spelling.
    #[inline(always)]
    pub(super) fn of_canonical(self) -> Counts
        ensures { (ss : List (List ℕ)) → self ≡ spec.counts ss → list_all is_segment ss ≡ true → result ≡ spec.counts (map canonical ss) }
    {
        Counts {
            non_canonical: 0,
            ..self
        }
    }

    /// The counts of one list followed by another, from the counts of both.
    pub(super) fn joined(self, front: &[Segment<'_>], more: Counts, back: &[Segment<'_>]) -> Counts
        requires front { self ≡ spec.counts front.now }
        requires back { more ≡ spec.counts back.now }
        requires room { length front.now + length back.now ≤ u32.MAX }
        ensures { result ≡ spec.counts (front.now ++ back.now) }
    {
        let climbing = self.leading as usize == front.len();
        Counts {
            single: self.single + more.single,
            double: self.double + more.double,
            leading: self.leading + if climbing { more.leading } else { 0 },
            non_canonical: self.non_canonical + more.non_canonical,
        }
    }

    /// The counts of the segments without the last one.
    pub(super) fn without_last(self, segments: &[Segment<'_>]) -> Counts
        requires { self ≡ spec.counts segments.now }
        ensures { result ≡ spec.counts (all_but_last segments.now) }
    {
        match segments.split_last() {
            Some((last, _)) => {
                let is_double = last.is_double_dot_segment();
                Counts {
                    single: one_less(self.single, last.is_single_dot_segment()),
                    double: one_less(self.double, is_double),
                    leading: one_less(
                        self.leading,
                        is_double && self.leading as usize == segments.len(),
                    ),
                    non_canonical: one_less(self.non_canonical, !last.is_normalized()),
                }
            }
            None => self,
        }
    }

    /// The counts after a push: the segment follows these segments, or replaces the only, empty
    /// one.
    pub(super) fn pushed(self, segments: &[Segment<'_>], segment: &Segment<'_>) -> Counts
        requires counted { self ≡ spec.counts segments.now }
        requires room { length segments.now < u32.MAX }
        ensures { result ≡ spec.counts (with_last segments.now segment.now) }
    {
        if replaces_only_empty(segments, segment) {
            return Counts::none().with(&[], segment);
        }
        self.with(segments, segment)
    }

    /// Whether there is a dot segment.
    #[inline]
    pub(super) fn has_dots(self) -> bool
        ensures { (ss : List (List ℕ)) → self ≡ spec.counts ss → result ≡ has_dot_segment ss }
    {
        self.single != 0 || self.double != 0
    }

    /// Whether `..` segments come first and no dot segment follows them.
    #[inline]
    pub(super) fn begins_with_double_dots(self) -> bool
        ensures { (ss : List (List ℕ)) → self ≡ spec.counts ss → result ≡ begins_with_double_dots ss }
    {
        self.single == 0 && self.double == self.leading
    }

    /// Whether each segment is canonical.
    #[inline]
    pub(super) fn all_canonical(self) -> bool
        ensures { (ss : List (List ℕ)) → self ≡ spec.counts ss → result ≡ list_all is_canonical ss }
    {
        self.non_canonical == 0
    }
}
