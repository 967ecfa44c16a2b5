//! Promises of text components, addresses and pairs. In `must-fail` stand wrong bodies, which the prover
//! must reject.
//!
//! Each function hands on what the library returns, and its clauses follow from the contracts of
//! the calls alone. So a body that breaks a clause breaks the library's too: what the prover
//! rejects here, no body of the library does. No proof is written for a function: the search finds
//! it.
#![tactic(auto)]

ghost use Rattle.std.specs.Prelude.{◌≡◌, ◌↔◌, [], Bool, IfOk, IsTrue, OnOk, Some, bytes_eq, fold, map, not, unwrap_or};
ghost use Rattle.std.specs.Cmp.Lexicographic.{slice_cmp};
ghost use Rattle.std.specs.Fmt.{DisplaysOnOk};
ghost use Rattle.std.specs.List.{filter, find, list_any};
ghost use Rattle.std.specs.Option.{option_copied, option_map};
ghost use Rattle.std.specs.Ordering.{nat_cmp};
ghost use Rattle.uriparse_text.specs.declared.internal.token.Case.TheVariants as case;
ghost use Rattle.uriparse_text.specs.Address.{ipv4_reading, ipv6_text};
ghost use Rattle.uriparse_text.specs.Ambiguous as ambiguous;
ghost use Rattle.uriparse_text.specs.Canonical.{SpellsAlike, canonical, fed_text};
ghost use Rattle.uriparse_text.specs.Coding.{decoded, encoded, form_decoded};
ghost use Rattle.uriparse_text.specs.Link as links;
ghost use Rattle.uriparse_text.specs.Pairs as pairs;
ghost use Rattle.uriparse_text.specs.Query.{reading};
ghost use Rattle.uriparse_text.specs.Reach.{ip_reach, ipv4_reach, ipv6_reach};
ghost use Rattle.uriparse_text.specs.Starts.{Writes};
ghost use Rattle.uriparse_text.specs.declared.internal.class.Class.TheVariants as class;

use std::alloc::{AllocError, Global};
use std::cmp::Ordering;
use std::fmt;
use std::hash::{Hash, Hasher};
use uriparse_text::address::{IpAddr, Ipv4Addr, Ipv6Addr, Reach};
use uriparse_text::internal::TooSmall;
use uriparse_text::link::trim_link;
use uriparse_text::query::{Pairs, Query, QueryError};
use uriparse_text::segment::Segment;

pub mod lifetimes;

/// Whether a query is its own canonical spelling.
pub fn is_normalized(query: &Query<'_>) -> bool
    ensures { IsTrue result ↔ (canonical query.now ≡ query.now) }
{
    query.is_normalized()
}

/// Whether two queries are equal, so that their texts have one canonical spelling.
pub fn same_query(left: &Query<'_>, right: &Query<'_>) -> bool
    ensures { result ≡ bytes_eq (canonical left.now) (canonical right.now) }
{
    left == right
}

/// Whether bytes spell a query's text.
pub fn eq_bytes(query: &Query<'_>, bytes: &[u8]) -> bool
    ensures { IsTrue result ↔ SpellsAlike case.Kept bytes.now query.now }
{
    query.eq_bytes(bytes)
}

/// Feeds a query to a hasher.
pub fn hash<H: Hasher>(query: &Query<'_>, state: &mut H)
    ensures { state.new ≡ fold H.write state.old (fed_text (canonical query.now)) }
{
    query.hash(state);
}

/// Reads an IPv4 address.
pub fn read_address(bytes: &[u8]) -> Option<Ipv4Addr>
    ensures { result ≡ ipv4_reading bytes.now }
{
    Ipv4Addr::parse_bytes(bytes)
}

/// Writes an IPv6 address.
pub fn write_address<W: fmt::Write>(address: &Ipv6Addr, f: &mut fmt::Formatter<W>) -> fmt::Result
    ensures { DisplaysOnOk W.write_str_gives f.old result (Some (ipv6_text address.now)) f.new }
{
    fmt::Display::fmt(address, f)
}

/// Where an IPv4 address leads.
pub fn reach_of_ipv4(ipv4: Ipv4Addr) -> Reach
    ensures { result ≡ ipv4_reach ipv4 }
{
    ipv4.reach()
}

/// Where an IPv6 address leads.
#[tactic(auto, unfolding(uriparse_text::specs::Reach::ipv6_reach, uriparse_text::specs::Reach::ipv6_rows))]
pub fn reach_of_ipv6(ipv6: Ipv6Addr) -> Reach
    ensures { result ≡ ipv6_reach ipv6 }
{
    ipv6.reach()
}

/// Where an address of either kind leads.
pub fn reach_of_ip(ip: IpAddr) -> Reach
    ensures { result ≡ ip_reach ip }
{
    ip.reach()
}

/// The query that stands for these bytes.
pub fn encode(alloc: Global, bytes: &[u8]) -> Result<Query<'static>, AllocError>
    ensures text { IfOk result (λ q. q ≡ encoded class.Query bytes.now) }
    ensures back { IfOk result (λ q. decoded q ≡ bytes.now) }
{
    Query::encode(alloc, bytes)
}

/// The query of these pairs.
pub fn write_pairs(
    alloc: Global,
    given: &[(&[u8], Option<&[u8]>)],
) -> Result<Query<'static>, AllocError>
    ensures text { IfOk result (λ q. q ≡ pairs.joined_pairs (map pairs.encoded_pair (map pairs.given given.now))) }
{
    Query::from_pairs(alloc, given)
}

/// The pairs of a query that are left.
pub fn read_pairs<'q>(query: &'q Query<'_>) -> Pairs<'q>
    ensures { result ≡ pairs.pairs query.now }
{
    query.pairs()
}

/// The bytes that a query stands for.
pub fn decode(alloc: Global, query: &Query<'_>) -> Result<Vec<u8>, AllocError>
    ensures { IfOk result (λ v. v.items ≡ decoded query.now) }
{
    query.decode(alloc)
}

/// Reads a query.
pub fn read_query(bytes: &[u8]) -> Result<Query<'_>, QueryError>
    ensures { result ≡ reading bytes.now }
{
    Query::try_from_bytes(bytes)
}

/// Puts a query in canonical spelling.
pub fn normalize(query: &mut Query<'_>, alloc: Global) -> Result<(), AllocError>
    ensures { OnOk result (query.new ≡ canonical query.old) }
{
    query.normalize(alloc)
}

/// Compares two queries by their canonical spellings.
pub fn compare(left: &Query<'_>, right: &Query<'_>) -> Ordering
    ensures { result ≡ slice_cmp nat_cmp (canonical left.now) (canonical right.now) }
{
    left.cmp(right)
}

/// Writes the bytes that a query stands for to a buffer.
pub fn decode_into(query: &Query<'_>, out: &mut [u8]) -> Result<usize, TooSmall>
    ensures { Writes (decoded query.now) result out.old out.new }
{
    query.decode_into(out)
}

/// The bytes that a query of an HTML form stands for.
pub fn decode_form(alloc: Global, query: &Query<'_>) -> Result<Vec<u8>, AllocError>
    ensures { IfOk result (λ v. v.items ≡ form_decoded query.now) }
{
    query.decode_form(alloc)
}

/// The query with this pair, and with no other of its name.
pub fn with_pair(
    alloc: Global,
    query: &Query<'_>,
    name: &[u8],
    value: Option<&[u8]>,
) -> Result<Query<'static>, AllocError>
    ensures { IfOk result (λ q. pairs.pairs q ≡ pairs.with_pair name.now (pairs.encoded_pair (name.now, option_copied value.entry)) (pairs.pairs query.now)) }
{
    query.with_pair(alloc, name, value)
}

/// The value of the first pair of this name.
pub fn pair<'q>(query: &'q Query<'_>, name: &[u8]) -> Option<Query<'q>>
    ensures { result ≡ option_map (λ p. unwrap_or p.1 []) (find (pairs.is_named name.now) (pairs.pairs query.now)) }
{
    query.pair(name)
}

/// Whether there is a pair of this name.
pub fn has_pair(query: &Query<'_>, name: &[u8]) -> bool
    ensures { result ≡ list_any (pairs.is_named name.now) (pairs.pairs query.now) }
{
    query.has_pair(name)
}

/// The query with this pair after all others.
pub fn with_appended_pair(
    alloc: Global,
    query: &Query<'_>,
    name: &[u8],
    value: Option<&[u8]>,
) -> Result<Query<'static>, AllocError>
    ensures { IfOk result (λ q. pairs.pairs q ≡ pairs.with_appended (pairs.encoded_pair (name.now, option_copied value.entry)) (pairs.pairs query.now)) }
{
    query.with_appended_pair(alloc, name, value)
}

/// The query without the pairs of these names.
pub fn without_pairs_named(
    alloc: Global,
    query: &Query<'_>,
    names: &Query<'_>,
) -> Result<Option<Query<'static>>, AllocError>
    ensures { IfOk result (λ q. pairs.pairs_left q ≡ pairs.without_names (pairs.pairs names.now) (pairs.pairs query.now)) }
{
    query.without_pairs_named(alloc, names)
}

/// The query without the pairs of this name.
pub fn without_name(
    alloc: Global,
    query: &Query<'_>,
    name: &[u8],
) -> Result<Option<Query<'static>>, AllocError>
    ensures { IfOk result (λ q. pairs.pairs_left q ≡ pairs.without_name name.now (pairs.pairs query.now)) }
{
    query.without_name(alloc, name)
}

/// The query without the pairs that pass the test.
pub fn without_pairs<F>(
    alloc: Global,
    query: &Query<'_>,
    test: F,
) -> Result<Option<Query<'static>>, AllocError>
where
    F: FnMut(Query<'_>, Option<Query<'_>>) -> bool,
    requires { F.IsAlwaysCallable test }
    ensures { (is : pairs.Pair → Bool) → pairs.AnswersBy F.step is → IfOk result (λ q. pairs.pairs_left q ≡ filter (λ p. not (is p)) (pairs.pairs query.now)) }
{
    query.without_pairs(alloc, test)
}

/// The query with its pairs in the order of their names.
pub fn sorted_pairs(alloc: Global, query: &Query<'_>) -> Result<Query<'static>, AllocError>
    ensures { IfOk result (λ q. pairs.pairs q ≡ pairs.sorted_pairs (pairs.pairs query.now)) }
{
    query.sorted_pairs(alloc)
}

/// Whether servers may take a segment for several segments, or for a dot segment.
pub fn is_ambiguous(segment: &Segment<'_>) -> bool
    ensures { result ≡ ambiguous.is_ambiguous segment.now }
{
    segment.is_ambiguous()
}

/// The reference in a text that was cut out of a page.
pub fn link(text: &[u8]) -> &[u8]
    ensures { result.now ≡ links.link text.now }
{
    trim_link(text)
}
