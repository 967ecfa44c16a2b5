//! A query with pairs set, appended or left out, in a caller's buffer: RFC 3986, section 3.4. Nothing
//! here allocates.
ghost use Rattle.std.specs.Prelude.{◌≡◌, ◌↔◌, ◌∷◌, [], ℕ, IfSome, IsTrue, List, flat_map, is_some, length, not};
ghost use Rattle.std.specs.List.{filter, list_any};
ghost use Rattle.std.specs.Option.{option_copied};
ghost use Rattle.uriparse_text.specs.Bytes.{ampersand};
ghost use Rattle.uriparse_text.specs.Pairs as spec;
ghost use Rattle.uriparse_text.specs.Starts.{Appends, LeavesRest, Writes};
ghost use Rattle.uriparse_text.specs.Written.{IsFirstAt};

use super::ahead::Ahead;
use super::append::mark_after;
use super::find::{Among, Named, PairTest, find_pair};
use crate::internal::{
    Class, TooSmall, append, append_encoded, split_at_delimiter, without_delimiter,
};

/// A text that can be appended to another one in a buffer.
pub trait Appending {
    ghost text: { Self → List ℕ };

    /// Appends the text to one of `len` bytes. Returns the length of both.
    fn append_to(&self, out: &mut [u8], len: usize) -> usize
        ensures room { length out.new ≡ length out.old }
        ensures appends { Appends (text self.now) out.old len out.new result }
        ensures rest { LeavesRest out.old len out.new result };
}

/// Writes the text to the start of the buffer, if it has room for it, and returns its length.
pub fn write_text<A: Appending>(text: &A, out: &mut [u8]) -> Result<usize, TooSmall>
    ensures { Writes (A.text text.now) result out.old out.new }
{
    let needed = text.append_to(&mut [], 0);
    if needed > out.len() {
        return Err(TooSmall { needed });
    }
    Ok(text.append_to(out, 0))
}

/// The other test is not passed.
#[derive(Clone, Copy)]
struct Not<T>(T);

impl<T: PairTest> PairTest for Not<T> {
    ghost passes = { λ s p. not (T.passes s.0 p) };

    ghost seen = { λ s p. T.seen s.0 p };

    fn has(&self, piece: &[u8]) -> bool {
        !self.0.has(piece)
    }

    fn has_next(&self, left: &[u8], piece: &[u8], ahead: &mut Ahead) -> bool {
        !self.0.has_next(left, piece, ahead)
    }
}

/// Bytes encoded as a name or a value of a pair.
#[derive(Clone, Copy)]
pub struct InPair<'b>(pub &'b [u8]);

impl<'b> Appending for InPair<'b> {
    ghost text = { λ s. spec.encoded_in_pair s.0.now };

    fn append_to(&self, out: &mut [u8], len: usize) -> usize {
        append_encoded(Class::Query, b"&=+*", self.0, out, len)
    }
}

/// Appends the piece of the pair.
fn append_pair(name: &[u8], value: Option<&[u8]>, out: &mut [u8], len: usize) -> usize
    ensures room { length out.new ≡ length out.old }
    ensures appends { Appends (spec.piece_of (spec.encoded_pair (name.now, option_copied value.entry))) out.old len out.new result }
    ensures rest { LeavesRest out.old len out.new result }
{
    let len = InPair(name).append_to(out, len);
    let Some(value) = value else {
        return len;
    };
    let len = append(b"=", out, len);
    InPair(value).append_to(out, len)
}

/// Appends the pairs that don't pass, each after a `&`.
fn append_others<T: PairTest>(test: &T, pairs: Option<&[u8]>, out: &mut [u8], len: usize) -> usize
    ensures room { length out.new ≡ length out.old }
    ensures appends { Appends (flat_map (λ p. ampersand ∷ spec.piece_of p) (filter (λ p. not (T.passes test.now p)) (spec.pairs_left (option_copied pairs.entry)))) out.old len out.new result }
    ensures rest { LeavesRest out.old len out.new result }
{
    let mut ahead = Ahead::nothing();
    let mut total = len;
    let mut rest = pairs;
    while let Some(left) = rest {
        let (piece, following) = split_at_delimiter(left, b'&');
        rest = without_delimiter(following);
        if !test.has_next(left, piece, &mut ahead) {
            total = append(b"&", out, total);
            total = append(piece, out, total);
        }
    }
    total
}

/// A query with a pair after all others.
#[derive(Clone, Copy)]
pub struct Appended<'q> {
    pub query: &'q [u8],
    pub name: &'q [u8],
    pub value: Option<&'q [u8]>,
}

impl<'q> Appending for Appended<'q> {
    ghost text = { λ s. spec.joined_pairs (spec.with_appended (spec.encoded_pair (s.name.now, option_copied s.value)) (spec.pairs s.query.now)) };

    fn append_to(&self, out: &mut [u8], len: usize) -> usize {
        let len = append(self.query, out, len);
        let len = append(mark_after(self.query), out, len);
        append_pair(self.name, self.value, out, len)
    }
}

/// A query with one pair of a name.
#[derive(Clone, Copy)]
pub struct WithPair<'q>(pub Appended<'q>);

impl<'q> Appending for WithPair<'q> {
    ghost text = { λ s. spec.joined_pairs (spec.with_pair s.0.name.now (spec.encoded_pair (s.0.name.now, option_copied s.0.value)) (spec.pairs s.0.query.now)) };

    fn append_to(&self, out: &mut [u8], len: usize) -> usize {
        let Appended { query, name, value } = self.0;
        let Some(left) = find_pair(&Named(name), query) else {
            return self.0.append_to(out, len);
        };
        let (_, following) = split_at_delimiter(left, b'&');
        let len = append(&query[..query.len() - left.len()], out, len);
        let len = append_pair(name, value, out, len);
        append_others(&Named(name), without_delimiter(following), out, len)
    }
}

/// A query without the pairs of some names.
#[derive(Clone, Copy)]
pub struct Without<'q> {
    pub query: &'q [u8],
    pub names: &'q [u8],
}

impl<'q> Without<'q> {
    /// What is left of the query from the first pair of another name on.
    fn from_first(&self) -> Option<&'q [u8]>
        ensures some { is_some result ≡ list_any (λ p. not (spec.is_among_names (spec.pairs self.now.names.now) p)) (spec.pairs self.now.query.now) }
        ensures place { IfSome result (λ left. IsFirstAt (λ p. not (spec.is_among_names (spec.pairs self.now.names.now) p)) self.now.query.now left.now) }
    {
        find_pair(&Not(Among(self.names)), self.query)
    }

    /// Whether no pair is left.
    pub fn is_empty(&self) -> bool
        ensures { IsTrue result ↔ (spec.without_names (spec.pairs self.now.names.now) (spec.pairs self.now.query.now) ≡ []) }
    {
        self.from_first().is_none()
    }
}

impl<'q> Appending for Without<'q> {
    ghost text = { λ s. spec.joined_pairs (spec.without_names (spec.pairs s.names.now) (spec.pairs s.query.now)) };

    fn append_to(&self, out: &mut [u8], len: usize) -> usize {
        let Some(left) = self.from_first() else {
            return len;
        };
        let (piece, following) = split_at_delimiter(left, b'&');
        let len = append(piece, out, len);
        append_others(&Among(self.names), without_delimiter(following), out, len)
    }
}
