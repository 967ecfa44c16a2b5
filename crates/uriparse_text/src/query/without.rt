//! Queries without some of their pairs: RFC 3986, section 3.4.
ghost use Rattle.std.specs.Prelude.{◌≡◌, Bool, List, ℕ, IfOk, Some, map, not};
ghost use Rattle.std.specs.List.{filter};
ghost use Rattle.uriparse_text.specs.Pairs as spec;
ghost use Rattle.uriparse_text.specs.Query.{IsQuery};
ghost use Rattle.uriparse_text.specs.Written.{ArePairsWritten, AreWritten};

use super::Query;
use super::ahead::Ahead;
use super::find::{Among, Named, PairTest};
use super::pairs::pair_of;
use crate::internal::{split_at_delimiter, text_from_checked_vec, without_delimiter};
use std::alloc::{AllocError, Global};

/// Calls the test at the pair of a piece of a query.
fn passes<F>(test: &mut F, piece: &[u8]) -> bool
where
    F: FnMut(Query<'_>, Option<Query<'_>>) -> bool,
    requires query { IsQuery piece.now }
    requires callable { F.IsAlwaysCallable test.old }
    ensures step { F.step test.old (spec.pair_of piece.now).0 (spec.pair_of piece.now).1 result test.new }
    ensures again { F.IsAlwaysCallable test.new }
{
    let (name, value) = pair_of(piece);
    test(name, value)
}

/// The pieces of the query at whose pairs the test returns false, each with a `&` after it.
fn kept_pieces<F>(alloc: Global, query: &[u8], mut test: F) -> Result<Vec<u8>, AllocError>
where
    F: FnMut(Query<'_>, Option<Query<'_>>) -> bool,
    requires query { IsQuery query.now }
    requires callable { F.IsAlwaysCallable test }
    ensures { IfOk result (λ v. (ss : List (List ℕ)) × AreWritten ss v.items × spec.IsWithout F.step test (spec.pairs query.now) (map spec.pair_of ss)) }
{
    let mut text = Vec::with_capacity(alloc, query.len().saturating_add(1))?;
    let mut rest = Some(query);
    while let Some(left) = rest {
        let (piece, following) = split_at_delimiter(left, b'&');
        rest = without_delimiter(following);
        if !passes(&mut test, piece) {
            text.extend_from_slice(piece)?;
            text.push(b'&')?;
        }
    }
    Ok(text)
}

/// The pieces of the query whose pairs don't pass, each with a `&` after it.
fn other_pieces<T: PairTest>(alloc: Global, query: &[u8], test: &T) -> Result<Vec<u8>, AllocError>
    requires { IsQuery query.now }
    ensures { IfOk result (λ v. ArePairsWritten (filter (λ p. not (T.passes test.now p)) (spec.pairs query.now)) v.items) }
{
    let mut text = Vec::with_capacity(alloc, query.len().saturating_add(1))?;
    let mut ahead = Ahead::nothing();
    let mut rest = Some(query);
    while let Some(left) = rest {
        let (piece, following) = split_at_delimiter(left, b'&');
        rest = without_delimiter(following);
        if !test.has_next(left, piece, &mut ahead) {
            text.extend_from_slice(piece)?;
            text.push(b'&')?;
        }
    }
    Ok(text)
}

/// The query of the pieces in the text, without the `&` after the last one, or `None` if there are
/// no pieces.
fn query_of_pieces(mut text: Vec<u8>) -> Option<Query<'static>>
    requires { (ss : List (List ℕ)) × AreWritten ss text.items }
    ensures { (ss : List (List ℕ)) → AreWritten ss text.items → spec.pairs_left result ≡ map spec.pair_of ss }
{
    match text.pop() {
        None => None,
        Some(_) => Some(text_from_checked_vec(text)),
    }
}

impl<'q> Query<'q> {
    /// The query without the pairs at which the test returns true, or `None` if no pair is left. The
    /// others stay in order, byte for byte. The test is called once at the name and the value of each
    /// of the [`pairs`](Query::pairs), in order. Reserves capacity once.
    ///
    /// ```
    /// let query = Query::try_from_str("utm_source=a&q=b%20c&utm_id=1&z")?;
    /// let query = query.without_pairs(alloc, |name, _| name.as_str().starts_with("utm_"))?;
    /// assert_eq!(query.unwrap().as_str(), "q=b%20c&z");
    /// ```
    pub fn without_pairs<F>(
        &self,
        alloc: Global,
        test: F,
    ) -> Result<Option<Query<'static>>, AllocError>
    where
        F: FnMut(Query<'_>, Option<Query<'_>>) -> bool,
        requires { F.IsAlwaysCallable test }
        // The pairs at which the test returned false, called at each in turn.
        ensures pairs { IfOk result (λ q. spec.IsWithout F.step test (spec.pairs self.now) (spec.pairs_left q)) }

        // If the test's answer is a function of the pair, those at which that function is false.
        ensures chosen { (is : spec.Pair → Bool) → spec.AnswersBy F.step is → IfOk result (λ q. spec.pairs_left q ≡ filter (λ p. not (is p)) (spec.pairs self.now)) }
    {
        let text = kept_pieces(alloc, self.as_bytes(), test)?;
        Ok(query_of_pieces(text))
    }

    /// The query without the pairs whose names stand for these bytes, or `None` if no pair is left.
    /// The others stay in order, byte for byte. Reserves capacity once.
    ///
    /// Names are compared by the bytes that they stand for, so `%61` is `a`, and `+` is no space.
    ///
    /// ```
    /// let query = Query::try_from_str("lang=de&%6Cang&Lang=en&q=%2f")?;
    /// let query = query.without_name(alloc, b"lang")?;
    /// assert_eq!(query.unwrap().as_str(), "Lang=en&q=%2f");
    /// ```
    pub fn without_name(
        &self,
        alloc: Global,
        name: &[u8],
    ) -> Result<Option<Query<'static>>, AllocError>
        // The pairs of other names.
        ensures pairs { IfOk result (λ q. spec.pairs_left q ≡ spec.without_name name.now (spec.pairs self.now)) }

        // A query without a pair of the name is returned as it is.
        ensures kept { spec.without_name name.now (spec.pairs self.now) ≡ spec.pairs self.now → IfOk result (λ q. q ≡ Some self.now) }
    {
        let text = other_pieces(alloc, self.as_bytes(), &Named(name))?;
        Ok(query_of_pieces(text))
    }
    /// The query without the pairs whose names are among the names of the pairs of `names`, or `None`
    /// if no pair is left. The others stay in order, byte for byte. A name of `names` that ends in a
    /// literal `*` stands for each name that begins with what precedes the `*`. The values of `names`
    /// don't matter. Reserves capacity once. Takes time in proportion to the length of the query times
    /// the number of names, plus the length of the names for each 64 pairs of the query.
    ///
    /// Names are compared by the bytes that they stand for, so `%61` is `a`, and `+` is no space. The
    /// escape `%2A` is a `*` of the name itself.
    ///
    /// ```
    /// let query = Query::try_from_str("%75tm_id=1&q=b%20c&gclid=2&utm&z")?;
    /// let query = query.without_pairs_named(alloc, &Query::try_from_str("utm_*&gclid")?)?;
    /// assert_eq!(query.unwrap().as_str(), "q=b%20c&utm&z");
    /// ```
    pub fn without_pairs_named(
        &self,
        alloc: Global,
        names: &Query<'_>,
    ) -> Result<Option<Query<'static>>, AllocError>
        // The pairs of other names.
        ensures pairs { IfOk result (λ q. spec.pairs_left q ≡ spec.without_names (spec.pairs names.now) (spec.pairs self.now)) }

        // A query without a pair of these names is returned as it is.
        ensures kept { spec.without_names (spec.pairs names.now) (spec.pairs self.now) ≡ spec.pairs self.now → IfOk result (λ q. q ≡ Some self.now) }
    {
        let text = other_pieces(alloc, self.as_bytes(), &Among(names.as_bytes()))?;
        Ok(query_of_pieces(text))
    }
}
