//! Pairs of a query whose names are among others, found for many pairs at a time.
ghost use Rattle.std.specs.Prelude.{◌≡◌, ◌<◌, ◌≤◌, Bool, List, ℕ, false, length, map, take};
ghost use Rattle.std.specs.List.{list_any};
ghost use Rattle.uriparse_text.specs.Bytes.{ampersand};
ghost use Rattle.uriparse_text.specs.Cuts.{after, before};
ghost use Rattle.uriparse_text.specs.Ahead.{Knows, marked, name_of};
ghost use Rattle.uriparse_text.specs.Pairs as spec;

use super::find::stands_for;
use crate::internal::{split_at_delimiter, without_delimiter};

/// The most pairs that are looked at together.
const BLOCK: usize = 64;

/// Whether the next pairs of a query pass a test.
#[derive(Clone, Copy)]
pub struct Ahead {
    answers: [bool; BLOCK],
    at: usize,
    end: usize,
}

/// The names of the first pairs, and how many there are.
fn first_names(query: &[u8]) -> ([&[u8]; BLOCK], usize)
    ensures some { 0 < result.1 }
    ensures most { result.1 ≤ 64 }
    ensures size { length result.0 ≡ 64 }
    ensures names { map (λ s. s.now) (take result.1 result.0) ≡ map name_of (take result.1 (spec.pairs query.now)) }
{
    let mut names: [&[u8]; BLOCK] = [b""; BLOCK];
    let mut rest = Some(query);
    for at in 0..BLOCK {
        let Some(left) = rest else {
            return (names, at);
        };
        let (piece, following) = split_at_delimiter(left, b'&');
        rest = without_delimiter(following);
        let (name, _) = split_at_delimiter(piece, b'=');
        names[at] = name;
    }
    (names, BLOCK)
}

/// Sets the answers at the names that the pattern stands for.
fn mark(pattern: &[u8], names: &[&[u8]], answers: &mut [bool; BLOCK])
    requires { length names.now ≤ 64 }
    ensures { answers.new ≡ marked pattern.now (map (λ s. s.now) names.now) answers.old }
{
    for at in 0..names.len() {
        if !answers[at] {
            answers[at] = stands_for(pattern, names[at]);
        }
    }
}

/// Sets the answers at those of the first names that are among the names. Walks the names once.
fn mark_all(names: &[u8], firsts: &[&[u8]], answers: &mut [bool; BLOCK])
    requires few { length firsts.now ≤ 64 }
    requires none { take (length firsts.now) answers.old ≡ map (λ s. false) firsts.now }
    ensures { take (length firsts.now) answers.new ≡ map (λ s. list_any (λ n. spec.stands_for n.0 s.now) (spec.pairs names.now)) firsts.now }
{
    let mut rest = Some(names);
    while let Some(left) = rest {
        let (piece, following) = split_at_delimiter(left, b'&');
        rest = without_delimiter(following);
        let (pattern, _) = split_at_delimiter(piece, b'=');
        mark(pattern, firsts, answers);
    }
}

/// Which of the first pairs are among the names.
fn look_ahead(query: &[u8], names: &[u8]) -> Ahead
    ensures knows { Knows (spec.is_among_names (spec.pairs names.now)) result (spec.pairs query.now) }
    ensures some { result.at < result.end }
{
    let (firsts, count) = first_names(query);
    let mut answers = [false; BLOCK];
    mark_all(names, &firsts[..count], &mut answers);
    Ahead {
        answers,
        at: 0,
        end: count,
    }
}

impl Ahead {
    /// Nothing is known.
    pub fn nothing() -> Ahead
        ensures { (is : spec.Pair → Bool) (ps : List spec.Pair) → Knows is result ps }
    {
        Ahead {
            answers: [false; BLOCK],
            at: 0,
            end: 0,
        }
    }

    /// Nothing is known any more.
    pub(super) fn forget(&mut self)
        ensures { (is : spec.Pair → Bool) (ps qs : List spec.Pair) → Knows is self.old ps → Knows is self.new qs }
    {
        self.end = 0;
    }

    /// Whether the first pair of what is left of a query is among the names. Looks at the next pairs
    /// together if nothing is known of this one.
    pub(super) fn next(&mut self, left: &[u8], names: &[u8]) -> bool
        requires { Knows (spec.is_among_names (spec.pairs names.now)) self.old (spec.pairs left.now) }
        ensures answer { result ≡ spec.is_among_names (spec.pairs names.now) (spec.pair_of (before ampersand left.now)) }
        ensures knows { Knows (spec.is_among_names (spec.pairs names.now)) self.new (spec.pairs_left (after ampersand left.now)) }
    {
        if self.at >= self.end {
            *self = look_ahead(left, names);
        }
        let answer = self.answers[self.at];
        self.at += 1;
        answer
    }
}
