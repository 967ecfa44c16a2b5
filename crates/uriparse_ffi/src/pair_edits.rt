//! A query with pairs set, appended or left out, in a caller's buffer. Nothing here allocates.
ghost use Rattle.std.specs.Prelude.{◌≡◌, ◌∷◌, [], List, Err, None, Some};
ghost use Rattle.std.specs.Option.{option_copied};
ghost use Rattle.uriparse_text.specs.Pairs as spec;
ghost use Rattle.uriparse_text.specs.Query.{IsQuery, reading};
ghost use Rattle.uriparse_text.specs.declared.query.QueryError.{QueryError};
ghost use Rattle.uriparse_ffi.specs.Code as code;
ghost use Rattle.uriparse_ffi.specs.Pairs.{value_given};
ghost use Rattle.uriparse_ffi.specs.Put.{IsPut, IsRefused};

use crate::code::{BAD_NAMES, NO_PAIRS, of_query};
use crate::put::{answer_room, refuse};
use uriparse::{Query, QueryError};
use uriparse_text::internal::{Appended, Appending, WithPair, Without, write_text};

/// The value of a pair, if it has one.
fn value_if(has_value: bool, value: &[u8]) -> Option<&[u8]>
    ensures { option_copied result ≡ value_given has_value value.now }
{
    if has_value { Some(value) } else { None }
}

/// Why the bytes are no query, or `None` if they are one.
fn fault_of(query: &[u8]) -> Option<QueryError>
    ensures none { IsQuery query.now → result ≡ None }
    ensures fault { (e : QueryError) → reading query.now ≡ Err e → result ≡ Some e }
{
    if let Err(error) = Query::try_from_bytes(query) {
        return Some(error);
    }
    None
}

/// Writes the text if the query is one, or returns the code of its error.
pub fn write_if_query<A: Appending>(
    query: &[u8],
    text: &A,
    out: &mut [u8],
    needed: &mut usize,
) -> u32
    ensures written { IsQuery query.now → IsPut (A.text text.now) out.old out.new needed.new result }
    ensures refused { (e : QueryError) → reading query.now ≡ Err e → IsRefused (code.query_code e) out.old out.new needed.new result }
{
    match fault_of(query) {
        None => answer_room(write_text(text, out), needed),
        Some(error) => refuse(of_query(error), needed),
    }
}

/// Writes the query with one pair of the name, or returns the code of its error.
pub fn write_with_pair(
    query: &[u8],
    name: &[u8],
    value: &[u8],
    has_value: bool,
    out: &mut [u8],
    needed: &mut usize,
) -> u32
    ensures written { IsQuery query.now → IsPut (spec.joined_pairs (spec.with_pair name.now (spec.encoded_pair (name.now, value_given has_value value.now)) (spec.pairs query.now))) out.old out.new needed.new result }
    ensures refused { (e : QueryError) → reading query.now ≡ Err e → IsRefused (code.query_code e) out.old out.new needed.new result }
{
    let value = value_if(has_value, value);
    write_if_query(
        query,
        &WithPair(Appended { query, name, value }),
        out,
        needed,
    )
}

/// Writes the query with this pair after all others, or returns the code of its error.
pub fn write_appended(
    query: &[u8],
    name: &[u8],
    value: &[u8],
    has_value: bool,
    out: &mut [u8],
    needed: &mut usize,
) -> u32
    ensures written { IsQuery query.now → IsPut (spec.joined_pairs (spec.with_appended (spec.encoded_pair (name.now, value_given has_value value.now)) (spec.pairs query.now))) out.old out.new needed.new result }
    ensures refused { (e : QueryError) → reading query.now ≡ Err e → IsRefused (code.query_code e) out.old out.new needed.new result }
{
    let value = value_if(has_value, value);
    write_if_query(query, &Appended { query, name, value }, out, needed)
}

/// Writes the query without the pairs of some names, or returns that no pair is left.
fn write_left(query: &[u8], names: &[u8], out: &mut [u8], needed: &mut usize) -> u32
    ensures written { (p : spec.Pair) (ps : List spec.Pair) → spec.without_names (spec.pairs names.now) (spec.pairs query.now) ≡ p ∷ ps → IsPut (spec.joined_pairs (p ∷ ps)) out.old out.new needed.new result }
    ensures nothing { spec.without_names (spec.pairs names.now) (spec.pairs query.now) ≡ [] → IsRefused code.no_pairs out.old out.new needed.new result }
{
    let left = Without { query, names };
    if left.is_empty() {
        return refuse(NO_PAIRS, needed);
    }
    answer_room(write_text(&left, out), needed)
}

/// Writes the query without the pairs of some names, or returns the code of its error, of the names',
/// or of a query of which no pair is left.
pub fn write_without(query: &[u8], names: &[u8], out: &mut [u8], needed: &mut usize) -> u32
    ensures written { (p : spec.Pair) (ps : List spec.Pair) → IsQuery query.now → IsQuery names.now → spec.without_names (spec.pairs names.now) (spec.pairs query.now) ≡ p ∷ ps → IsPut (spec.joined_pairs (p ∷ ps)) out.old out.new needed.new result }
    ensures nothing { IsQuery query.now → IsQuery names.now → spec.without_names (spec.pairs names.now) (spec.pairs query.now) ≡ [] → IsRefused code.no_pairs out.old out.new needed.new result }
    ensures refused { (e : QueryError) → reading query.now ≡ Err e → IsRefused (code.query_code e) out.old out.new needed.new result }
    ensures names { (e : QueryError) → IsQuery query.now → reading names.now ≡ Err e → IsRefused code.bad_names out.old out.new needed.new result }
{
    match fault_of(query) {
        Some(error) => refuse(of_query(error), needed),
        None => match fault_of(names) {
            Some(_) => refuse(BAD_NAMES, needed),
            None => write_left(query, names, out, needed),
        },
    }
}
