//! The library for callers in C, and in languages that call C.
//!
//! A `&[u8]` crosses as a pointer and a length. No call allocates. `bindings/c/uriparse.h` declares the
//! exports. Each restates the contract of the library's call that it makes. In the clauses `p`
//! is what a text spells by the grammar, and `fault` is why it spells nothing.
#![tactic(auto)]

ghost use Rattle.std.specs.Prelude.{◌≡◌, ◌⊎◌, ◌↔◌, ◌+◌, ◌<◌, ◌∷◌, ℕ, [], IsTrue, List, Err, Ok, Some, None, bytes_eq, is_some, length, true, false};
ghost use Rattle.std.specs.List.{find};
ghost use Rattle.std.specs.Option.{option_and_then};
ghost use Rattle.uriparse_text.specs.declared.internal.class.Class.{Class};
ghost use Rattle.uriparse_text.specs.declared.query.QueryError.{QueryError};
ghost use Rattle.uriparse_text.specs.Ambiguous.{is_ambiguous};
ghost use Rattle.uriparse_text.specs.Coding.{decoded, encoded, form_decoded};
ghost use Rattle.uriparse_text.specs.Link.{link};
ghost use Rattle.uriparse_text.specs.Segment as segments;
ghost use Rattle.uriparse_text.specs.Segment.{IsSegment};
ghost use Rattle.uriparse_text.specs.declared.segment.error.PathError.{PathError};
ghost use Rattle.uriparse_text.specs.Pairs.{Pair, encoded_in_pair, encoded_pair, is_named, joined_pairs, pairs, pairs_left, with_appended, with_pair, without_names};
ghost use Rattle.uriparse_text.specs.Query.{IsQuery, reading};
ghost use Rattle.uriparse_text.specs.Starts.{most};
ghost use Rattle.uriparse_reference.specs.Change.{changing};
ghost use Rattle.uriparse_reference.specs.Escaped.{escaped};
ghost use Rattle.uriparse_reference.specs.Key.{key};
ghost use Rattle.uriparse_reference.specs.declared.uri_reference.error.URIReferenceError.{URIReferenceError};
ghost use Rattle.uriparse_reference.specs.Normal.{normal};
ghost use Rattle.uriparse_reference.specs.Ports.{port_or_default};
ghost use Rattle.uriparse_reference.specs.Offset.{first_fault};
ghost use Rattle.uriparse_reference.specs.Reading.{fault};
ghost use Rattle.uriparse_reference.specs.Order.{reference_cmp};
ghost use Rattle.uriparse_reference.specs.Reference.{Parts, Spells, host_of, is_abempty, print};
ghost use Rattle.uriparse_reference.specs.Target.{target};
ghost use Rattle.uriparse_reference.specs.View.{Viewed};
ghost use Rattle.uriparse_reference.specs.declared.uri_reference.change.ChangeError.TheVariants as changes;
ghost use Rattle.uriparse.specs.declared.uri.origin.Origin.{Origin};
ghost use Rattle.uriparse.specs.Origin.{have_same_origin, origin, text as origin_text};
ghost use Rattle.uriparse.specs.PlaceKey.{base_prefix, domain_prefix, place_key};
ghost use Rattle.uriparse.specs.SortKey.{in_form, sort_key};
ghost use Rattle.uriparse.specs.declared.sort_key.KeyForm.{KeyForm};
ghost use Rattle.uriparse.specs.Within.{IsWithin};
ghost use Rattle.uriparse_ffi.specs.Keys.{form_of};
ghost use Rattle.uriparse_authority.specs.Host as hosts;
ghost use Rattle.uriparse_authority.specs.declared.authority.error.HostError.{HostError};
ghost use Rattle.uriparse_authority.specs.declared.authority.host.Host.{Host};
ghost use Rattle.uriparse_scheme.specs.Scheme as schemes;
ghost use Rattle.uriparse_ffi.specs.Addresses.{address_bytes};
ghost use Rattle.uriparse_ffi.specs.Changes.{are_wishes, wanted_in};
ghost use Rattle.uriparse_ffi.specs.Checks.{IsHostWithin, IsPublicHost, Tells, default_port_of, host_flags, order_number, port_or_minus_one};
ghost use Rattle.uriparse_ffi.specs.Code as spec;
ghost use Rattle.uriparse_ffi.specs.Components.{class_of, pair_number};
ghost use Rattle.uriparse_ffi.specs.Domains.{IsWithinOne, domains as domains_in, first_error};
ghost use Rattle.uriparse_ffi.specs.Hash.{hash_of};
ghost use Rattle.uriparse_ffi.specs.Hidden.{masked_text, text_without_default_port};
ghost use Rattle.uriparse_ffi.specs.Pairs.{IsFirstNamedAt, IsNextNamedAt, IsPairAt, left_from, value_given};
ghost use Rattle.uriparse_ffi.specs.Places.{ArePlacesOf};
ghost use Rattle.uriparse_ffi.specs.Put.{IsPut, IsRefused, IsRelativePut};
ghost use Rattle.uriparse_ffi.specs.Readers.{disagreement_flags};
ghost use Rattle.uriparse_ffi.specs.Requests.{origin_form};
ghost use Rattle.uriparse_ffi.specs.Segments.{segment_begin, segments_left};
ghost use Rattle.uriparse_ffi.specs.Spans.{span};

use uriparse_ffi::addresses::write_address;
use uriparse_ffi::changes::{UriChanges, write_changed};
use uriparse_ffi::checks::{
    default_port, flags, write_host_within, write_is_ambiguous, write_is_normalized,
    write_is_public, write_order, write_port, write_within,
};
use uriparse_ffi::code::{ACCEPTED, code_of, truth_of};
use uriparse_ffi::coding::{write_decoded, write_encoded, write_escaped, write_trimmed};
use uriparse_ffi::domains::write_within_any;
use uriparse_ffi::forms::write_form_decoded;
use uriparse_ffi::hidden::{write_masked, write_without_default_port};
use uriparse_ffi::keys::write_key;
use uriparse_ffi::origins::{write_origin, write_same_origin};
use uriparse_ffi::pair_edits::{write_appended, write_with_pair, write_without};
use uriparse_ffi::pairs::{UriPair, named_pair, next_named_pair, pair_at};
use uriparse_ffi::place_keys::{write_base_prefix, write_domain_prefix, write_place_key};
use uriparse_ffi::places::{UriParts, places};
use uriparse_ffi::readers::reasons as reasons_of_text;
use uriparse_ffi::requests::write_target_of_request;
use uriparse_ffi::segments::segment_at;
use uriparse_ffi::span::UriSpan;
use uriparse_ffi::texts::{equal_texts, hashed, write_normal, write_relative, write_target};
use uriparse_reference::internal::find_pieces;
use uriparse_reference::uri_reference::URIReference;

/// Reads a reference, and says where its components are. Does not allocate.
#[unsafe(no_mangle)]
pub extern "C" fn uriparse_parse(text: &[u8], out: &mut UriParts) -> u32
    // If the text spells a reference, each span is the component's.
    ensures parsed { (p : Parts) (s : Spells text.now p) → (result ≡ spec.accepted) × ArePlacesOf text.now p s out.new }

    // Any other text is rejected with its fault, and nothing is written.
    ensures refused { (e : URIReferenceError) → fault text.now ≡ Some e → (result ≡ spec.code_of e) × (out.new ≡ out.old) }
{
    match find_pieces(text) {
        Ok(pieces) => {
            *out = places(text, &pieces);
            ACCEPTED
        }
        Err(error) => code_of(error),
    }
}

/// Says why a text is no reference, and where its first fault is. Does not allocate.
#[unsafe(no_mangle)]
pub extern "C" fn uriparse_first_fault(text: &[u8], place: &mut usize) -> u32
    // A text that spells a reference has no fault, and nothing is written.
    ensures accepted { (p : Parts) → Spells text.now p → (result ≡ spec.accepted) × (place.new ≡ place.old) }

    // Of any other text the fault's code is returned, and written is how many bytes precede it.
    ensures found { (n : ℕ) (e : URIReferenceError) → first_fault text.now ≡ Some (n, e) → (result ≡ spec.code_of e) × (place.new ≡ n) }
{
    match URIReference::first_fault(text) {
        Some((at, error)) => {
            *place = at;
            code_of(error)
        }
        None => ACCEPTED,
    }
}

/// Whether a text is a URI: a reference that has a scheme. Does not allocate.
#[unsafe(no_mangle)]
pub extern "C" fn uriparse_is_uri(text: &[u8]) -> bool
    ensures { IsTrue result ↔ ((p : Parts) × Spells text.now p × (is_some p.scheme ≡ true)) }
{
    match find_pieces(text) {
        Ok(pieces) => pieces.has_scheme(),
        Err(_) => false,
    }
}

/// Writes whether two texts are equal references, as the library compares them. Does not allocate.
#[unsafe(no_mangle)]
pub extern "C" fn uriparse_equal(left: &[u8], right: &[u8], equal: &mut u8) -> u32
    // For two references the result of the comparison is written.
    ensures compared { (p q : Parts) → Spells left.now p → Spells right.now q → (result ≡ spec.accepted) × (equal.new ≡ spec.truth (bytes_eq (key p) (key q))) }

    // A faulty text is rejected, the left one first, and nothing is written.
    ensures left { (e : URIReferenceError) → fault left.now ≡ Some e → (result ≡ spec.code_of e) × (equal.new ≡ equal.old) }
    ensures right { (p : Parts) (e : URIReferenceError) → Spells left.now p → fault right.now ≡ Some e → (result ≡ spec.code_of e) × (equal.new ≡ equal.old) }
{
    match equal_texts(left, right) {
        Ok(answer) => {
            *equal = truth_of(answer);
            ACCEPTED
        }
        Err(code) => code,
    }
}

/// Writes the order of two references: -1, 0 or 1. Does not allocate.
#[unsafe(no_mangle)]
pub extern "C" fn uriparse_compare(left: &[u8], right: &[u8], order: &mut i32) -> u32
    // For two references the number of their order is written.
    ensures compared { (p q : Parts) → Spells left.now p → Spells right.now q → (result ≡ spec.accepted) × (order.new ≡ order_number (reference_cmp p q)) }

    // A faulty text is rejected, the left one first, and nothing is written.
    ensures left { (e : URIReferenceError) → fault left.now ≡ Some e → (result ≡ spec.code_of e) × (order.new ≡ order.old) }
    ensures right { (p : Parts) (e : URIReferenceError) → Spells left.now p → fault right.now ≡ Some e → (result ≡ spec.code_of e) × (order.new ≡ order.old) }
{
    write_order(left, right, order)
}

/// Writes whether two references have one origin. Does not allocate.
#[unsafe(no_mangle)]
pub extern "C" fn uriparse_same_origin(left: &[u8], right: &[u8], same: &mut u8) -> u32
    // For two references, 1 is written if both have an origin and it is one, else 0.
    ensures compared { (p q : Parts) → Spells left.now p → Spells right.now q → (result ≡ spec.accepted) × (same.new ≡ spec.truth (have_same_origin p q)) }

    // A faulty text is rejected, the left one first, and nothing is written.
    ensures left { (e : URIReferenceError) → fault left.now ≡ Some e → (result ≡ spec.code_of e) × (same.new ≡ same.old) }
    ensures right { (p : Parts) (e : URIReferenceError) → Spells left.now p → fault right.now ≡ Some e → (result ≡ spec.code_of e) × (same.new ≡ same.old) }
{
    write_same_origin(left, right, same)
}

/// Writes whether a text is the normal form of the reference that it spells. Does not allocate.
#[unsafe(no_mangle)]
pub extern "C" fn uriparse_is_normalized(text: &[u8], normalized: &mut u8) -> u32
    // For a reference, 1 is written if its normal form is printed as this text, else 0.
    ensures checked { (p : Parts) → Spells text.now p → (result ≡ spec.accepted) × Tells (print (normal p) ≡ text.now) normalized.new }

    // A faulty text is rejected, and nothing is written.
    ensures refused { (e : URIReferenceError) → fault text.now ≡ Some e → (result ≡ spec.code_of e) × (normalized.new ≡ normalized.old) }
{
    write_is_normalized(text, normalized)
}

/// Writes whether a URI is within another one. Does not allocate.
#[unsafe(no_mangle)]
pub extern "C" fn uriparse_is_within(text: &[u8], base: &[u8], within: &mut u8) -> u32
    // For two URIs, 1 is written if the first is within the second, else 0.
    ensures checked { (p b : Parts) → Spells text.now p → is_some p.scheme ≡ true → Spells base.now b → is_some b.scheme ≡ true → (result ≡ spec.accepted) × Tells (IsWithin p b) within.new }

    // A text that spells no URI is rejected, and nothing is written.
    ensures relative { (p : Parts) → Spells text.now p → is_some p.scheme ≡ false → (result ≡ spec.no_scheme) × (within.new ≡ within.old) }
    ensures refused { (e : URIReferenceError) → fault text.now ≡ Some e → (result ≡ spec.fault_code e) × (within.new ≡ within.old) }

    // If the first text spells one, so is the base.
    ensures relative_base { (p b : Parts) → Spells text.now p → is_some p.scheme ≡ true → Spells base.now b → is_some b.scheme ≡ false → (result ≡ spec.base_code spec.no_scheme) × (within.new ≡ within.old) }
    ensures base { (p : Parts) (e : URIReferenceError) → Spells text.now p → is_some p.scheme ≡ true → fault base.now ≡ Some e → (result ≡ spec.base_code (spec.fault_code e)) × (within.new ≡ within.old) }
{
    write_within(text, base, within)
}

/// Writes whether the host of a reference is a domain or within it. Does not allocate.
#[unsafe(no_mangle)]
pub extern "C" fn uriparse_host_is_within(text: &[u8], domain: &[u8], within: &mut u8) -> u32
    // For a reference and a host, 1 is written if the reference's host is within the other, else 0.
    ensures checked { (p : Parts) (d : Host) → Spells text.now p → hosts.reading domain.now ≡ Ok d → (result ≡ spec.accepted) × Tells (IsHostWithin p d) within.new }

    // A faulty text is rejected, and nothing is written. If there is none, so is a domain that is no host.
    ensures refused { (e : URIReferenceError) → fault text.now ≡ Some e → (result ≡ spec.code_of e) × (within.new ≡ within.old) }
    ensures domain { (p : Parts) (e : HostError) → Spells text.now p → hosts.reading domain.now ≡ Err e → (result ≡ spec.in_base + spec.host_code e) × (within.new ≡ within.old) }
{
    write_host_within(text, domain, within)
}

/// Writes whether the host of a reference is one of several domains or within one, which spaces separate.
/// Does not allocate.
#[unsafe(no_mangle)]
pub extern "C" fn uriparse_host_is_within_any(text: &[u8], domains: &[u8], within: &mut u8) -> u32
    // For a reference and domains that are hosts, 1 is written if its host is within one of these, else 0.
    ensures checked { (p : Parts) → Spells text.now p → first_error (domains_in domains.now) ≡ None → (result ≡ spec.accepted) × Tells (IsWithinOne p (domains_in domains.now)) within.new }

    // A faulty text is rejected, and nothing is written. If there is none, so is the first domain that is no host.
    ensures refused { (e : URIReferenceError) → fault text.now ≡ Some e → (result ≡ spec.code_of e) × (within.new ≡ within.old) }
    ensures domain { (p : Parts) (e : HostError) → Spells text.now p → first_error (domains_in domains.now) ≡ Some e → (result ≡ spec.in_base + spec.host_code e) × (within.new ≡ within.old) }
{
    write_within_any(text, domains, within)
}

/// Writes what the host of a reference may be taken for. Does not allocate.
#[unsafe(no_mangle)]
pub extern "C" fn uriparse_host_flags(text: &[u8], host: &mut u32) -> u32
    // The sum of the flags of the reference's host is written.
    ensures checked { (p : Parts) → Spells text.now p → (result ≡ spec.accepted) × (host.new ≡ host_flags (host_of p)) }

    // A faulty text is rejected, and nothing is written.
    ensures refused { (e : URIReferenceError) → fault text.now ≡ Some e → (result ≡ spec.code_of e) × (host.new ≡ host.old) }
{
    match flags(text) {
        Ok(sum) => {
            *host = sum;
            ACCEPTED
        }
        Err(code) => code,
    }
}

/// Writes why readers may disagree on a reference. Does not allocate.
#[unsafe(no_mangle)]
pub extern "C" fn uriparse_disagreement(text: &[u8], reasons: &mut u32) -> u32
    // The sum of the flags of the reasons is written.
    ensures checked { (p : Parts) → Spells text.now p → (result ≡ spec.accepted) × (reasons.new ≡ disagreement_flags p) }

    // A faulty text is rejected, and nothing is written.
    ensures refused { (e : URIReferenceError) → fault text.now ≡ Some e → (result ≡ spec.code_of e) × (reasons.new ≡ reasons.old) }
{
    match reasons_of_text(text) {
        Ok(sum) => {
            *reasons = sum;
            ACCEPTED
        }
        Err(code) => code,
    }
}

/// Writes whether the host of a reference is public. Does not allocate.
#[unsafe(no_mangle)]
pub extern "C" fn uriparse_is_public(text: &[u8], is_public: &mut u8) -> u32
    // For a reference, 1 is written if it has a host that is public, else 0.
    ensures checked { (p : Parts) → Spells text.now p → (result ≡ spec.accepted) × Tells (IsPublicHost p) is_public.new }

    // A faulty text is rejected, and nothing is written.
    ensures refused { (e : URIReferenceError) → fault text.now ≡ Some e → (result ≡ spec.code_of e) × (is_public.new ≡ is_public.old) }
{
    write_is_public(text, is_public)
}

/// Writes whether readers disagree on what a segment of a path names. Does not allocate.
#[unsafe(no_mangle)]
pub extern "C" fn uriparse_is_ambiguous(segment: &[u8], ambiguous: &mut u8) -> u32
    // For a segment, 1 is written if it is ambiguous, else 0.
    ensures checked { IsSegment segment.now → (result ≡ spec.accepted) × (ambiguous.new ≡ spec.truth (is_ambiguous segment.now)) }

    // What is no segment is rejected with its fault, and nothing is written.
    ensures refused { (e : PathError) → segments.reading segment.now ≡ Err e → (result ≡ spec.path_code e) × (ambiguous.new ≡ ambiguous.old) }
{
    write_is_ambiguous(segment, ambiguous)
}

/// Writes the port that a reference uses. Does not allocate.
#[unsafe(no_mangle)]
pub extern "C" fn uriparse_port_or_default(text: &[u8], port: &mut i32) -> u32
    // For a reference, its port is written, or the default port of its scheme, or -1 if it has neither.
    ensures found { (p : Parts) → Spells text.now p → (result ≡ spec.accepted) × (port.new ≡ port_or_minus_one (port_or_default p)) }

    // A faulty text is rejected, and nothing is written.
    ensures refused { (e : URIReferenceError) → fault text.now ≡ Some e → (result ≡ spec.code_of e) × (port.new ≡ port.old) }
{
    write_port(text, port)
}

/// Writes the bytes of the IP address that is the host of a reference to the buffer. Does not allocate.
#[unsafe(no_mangle)]
pub extern "C" fn uriparse_host_address(text: &[u8], out: &mut [u8], needed: &mut usize) -> u32
    // The buffer holds the four or sixteen bytes of the address, or it is too small.
    ensures written { (p : Parts) (b : List ℕ) → Spells text.now p → option_and_then address_bytes (host_of p) ≡ Some b → IsPut b out.old out.new needed.new result }

    // A reference whose host is no address is rejected, and so is one without a host. The buffer is kept.
    ensures without { (p : Parts) → Spells text.now p → option_and_then address_bytes (host_of p) ≡ None → IsRefused spec.no_address out.old out.new needed.new result }

    // A faulty text is rejected, and the buffer is kept.
    ensures refused { (e : URIReferenceError) → fault text.now ≡ Some e → IsRefused (spec.code_of e) out.old out.new needed.new result }
{
    write_address(text, out, needed)
}

/// The default port of the scheme of this name, or 0. Does not allocate.
#[unsafe(no_mangle)]
pub extern "C" fn uriparse_default_port(scheme: &[u8]) -> u32
    // A scheme without a default port, and what is no scheme, have 0.
    ensures { result ≡ default_port_of (schemes.reading scheme.now) }
{
    default_port(scheme)
}

/// Hashes a reference. Equal references have equal hashes. Does not allocate.
#[unsafe(no_mangle)]
pub extern "C" fn uriparse_hash(text: &[u8], hash: &mut u64) -> u32
    // This is the hash of the key by which references are compared.
    ensures hashed { (p : Parts) → Spells text.now p → (result ≡ spec.accepted) × (hash.new ≡ hash_of (key p)) }

    // A faulty text is rejected, and nothing is written.
    ensures refused { (e : URIReferenceError) → fault text.now ≡ Some e → (result ≡ spec.code_of e) × (hash.new ≡ hash.old) }
{
    match hashed(text) {
        Ok(number) => {
            *hash = number;
            ACCEPTED
        }
        Err(code) => code,
    }
}

/// Writes the text of the normal form of a reference to the buffer. Does not allocate.
#[unsafe(no_mangle)]
pub extern "C" fn uriparse_normalize(text: &[u8], out: &mut [u8], needed: &mut usize) -> u32
    // The buffer holds the printed normal form, or it is too small.
    ensures written { (p : Parts) → Spells text.now p → IsPut (print (normal p)) out.old out.new needed.new result }

    // A faulty text is rejected, and the buffer is kept.
    ensures refused { (e : URIReferenceError) → fault text.now ≡ Some e → IsRefused (spec.code_of e) out.old out.new needed.new result }
{
    write_normal(text, out, needed)
}

/// Writes the sort key of a reference to the buffer, in the form that the flags ask for. Does not
/// allocate.
#[unsafe(no_mangle)]
pub extern "C" fn uriparse_key(flags: u32, text: &[u8], out: &mut [u8], needed: &mut usize) -> u32
    // The buffer holds the sort key, or it is too small.
    ensures written { (f : KeyForm) (p : Parts) → form_of flags ≡ Some f → Spells text.now p → IsPut (sort_key (in_form f p)) out.old out.new needed.new result }

    // A faulty text is rejected, and the buffer is kept.
    ensures refused { (f : KeyForm) (e : URIReferenceError) → form_of flags ≡ Some f → fault text.now ≡ Some e → IsRefused (spec.code_of e) out.old out.new needed.new result }

    // So are flags without a meaning, whatever the text.
    ensures unknown { form_of flags ≡ None → IsRefused spec.key_flags out.old out.new needed.new result }
{
    write_key(flags, text, out, needed)
}

/// Writes the place key of a URI to the buffer. Does not allocate.
#[unsafe(no_mangle)]
pub extern "C" fn uriparse_place_key(text: &[u8], out: &mut [u8], needed: &mut usize) -> u32
    // For a URI the buffer holds the place key, or it is too small.
    ensures written { (p : Parts) → Spells text.now p → is_some p.scheme ≡ true → IsPut (place_key p) out.old out.new needed.new result }

    // A text that spells no URI is rejected, and the buffer is kept.
    ensures relative { (p : Parts) → Spells text.now p → is_some p.scheme ≡ false → IsRefused spec.no_scheme out.old out.new needed.new result }
    ensures refused { (e : URIReferenceError) → fault text.now ≡ Some e → IsRefused (spec.fault_code e) out.old out.new needed.new result }
{
    write_place_key(text, out, needed)
}

/// Writes what the place keys of all URIs within a domain begin with to the buffer. Does not allocate.
#[unsafe(no_mangle)]
pub extern "C" fn uriparse_domain_prefix(domain: &[u8], out: &mut [u8], needed: &mut usize) -> u32
    // For a host the buffer holds the prefix, or it is too small.
    ensures written { (d : Host) → hosts.reading domain.now ≡ Ok d → IsPut (domain_prefix d) out.old out.new needed.new result }

    // A domain that is no host is rejected, and the buffer is kept.
    ensures refused { (e : HostError) → hosts.reading domain.now ≡ Err e → IsRefused (spec.host_code e) out.old out.new needed.new result }
{
    write_domain_prefix(domain, out, needed)
}

/// Writes what the place keys of all URIs below a base begin with to the buffer. Does not allocate.
#[unsafe(no_mangle)]
pub extern "C" fn uriparse_base_prefix(base: &[u8], out: &mut [u8], needed: &mut usize) -> u32
    // For a URI the buffer holds the prefix, or it is too small.
    ensures written { (b : Parts) → Spells base.now b → is_some b.scheme ≡ true → IsPut (base_prefix b) out.old out.new needed.new result }

    // A text that spells no URI is rejected, and the buffer is kept.
    ensures relative { (b : Parts) → Spells base.now b → is_some b.scheme ≡ false → IsRefused spec.no_scheme out.old out.new needed.new result }
    ensures refused { (e : URIReferenceError) → fault base.now ≡ Some e → IsRefused (spec.fault_code e) out.old out.new needed.new result }
{
    write_base_prefix(base, out, needed)
}

/// Resolves a reference against a base, and writes the text of the target to the buffer. Does not
/// allocate.
#[unsafe(no_mangle)]
pub extern "C" fn uriparse_resolve(
    base: &[u8],
    reference: &[u8],
    out: &mut [u8],
    needed: &mut usize,
) -> u32
    // The buffer holds the printed target of section 5.2.2, or it is too small.
    ensures written { (b r t : Parts) → Spells base.now b → is_some b.scheme ≡ true → Spells reference.now r → target b r ≡ Some t → IsPut (print t) out.old out.new needed.new result }

    // There is no target if the merged paths have too many segments.
    ensures too_long { (b r : Parts) → Spells base.now b → is_some b.scheme ≡ true → Spells reference.now r → target b r ≡ None → IsRefused spec.too_many_segments out.old out.new needed.new result }

    // A base without a scheme is rejected, and so is a faulty text, the base first.
    ensures relative { (b : Parts) → Spells base.now b → is_some b.scheme ≡ false → IsRefused (spec.base_code spec.no_scheme) out.old out.new needed.new result }
    ensures base { (e : URIReferenceError) → fault base.now ≡ Some e → IsRefused (spec.base_code (spec.fault_code e)) out.old out.new needed.new result }
    ensures reference { (b : Parts) (e : URIReferenceError) → Spells base.now b → is_some b.scheme ≡ true → fault reference.now ≡ Some e → IsRefused (spec.code_of e) out.old out.new needed.new result }
{
    write_target(base, reference, out, needed)
}

/// Writes the text of the reference that leads from a base to a URI to the buffer. Does not allocate.
#[unsafe(no_mangle)]
pub extern "C" fn uriparse_relativize(
    base: &[u8],
    uri: &[u8],
    out: &mut [u8],
    needed: &mut usize,
) -> u32
    // The buffer holds the text of a reference that has the target of the URI, the one that `relative`
    // gives, or it is too small.
    ensures written { (b t : Parts) → Spells base.now b → is_some b.scheme ≡ true → Spells uri.now t → is_some t.scheme ≡ true → IsRelativePut b t out.old out.new needed.new result }

    // A base or a URI without a scheme is rejected, and so is a faulty text, the base first.
    ensures relative_base { (b : Parts) → Spells base.now b → is_some b.scheme ≡ false → IsRefused (spec.base_code spec.no_scheme) out.old out.new needed.new result }
    ensures base { (e : URIReferenceError) → fault base.now ≡ Some e → IsRefused (spec.base_code (spec.fault_code e)) out.old out.new needed.new result }
    ensures relative { (b t : Parts) → Spells base.now b → is_some b.scheme ≡ true → Spells uri.now t → is_some t.scheme ≡ false → IsRefused spec.no_scheme out.old out.new needed.new result }
    ensures refused { (b : Parts) (e : URIReferenceError) → Spells base.now b → is_some b.scheme ≡ true → fault uri.now ≡ Some e → IsRefused (spec.fault_code e) out.old out.new needed.new result }
{
    write_relative(base, uri, out, needed)
}

/// Writes the text of the origin of a URI to the buffer. Does not allocate.
#[unsafe(no_mangle)]
pub extern "C" fn uriparse_origin(text: &[u8], out: &mut [u8], needed: &mut usize) -> u32
    // The buffer holds the text of the origin, or it is too small.
    ensures written { (p : Parts) (o : Origin) → Spells text.now p → origin p ≡ Some o → IsPut (origin_text o) out.old out.new needed.new result }

    // A reference without an origin is rejected, and the buffer is kept.
    ensures without { (p : Parts) → Spells text.now p → origin p ≡ None → IsRefused spec.no_origin out.old out.new needed.new result }

    // A faulty text is rejected, and the buffer is kept.
    ensures refused { (e : URIReferenceError) → fault text.now ≡ Some e → IsRefused (spec.code_of e) out.old out.new needed.new result }
{
    write_origin(text, out, needed)
}

/// Writes the string of a reference with components changed to the buffer. Does not allocate.
#[unsafe(no_mangle)]
pub extern "C" fn uriparse_change(
    text: &[u8],
    wanted: &UriChanges,
    values: &[u8],
    out: &mut [u8],
    needed: &mut usize,
) -> u32
    // The buffer holds the changed string, or it is too small.
    ensures written { (p : Parts) (v : Viewed) → Spells text.now p → are_wishes values.now wanted.now ≡ true → changing (wanted_in values.now wanted.now) text.now ≡ Ok v → IsPut v.text out.old out.new needed.new result }

    // A user name, a password or a port that is set without a host is rejected, and so is a result
    // that is no reference. The buffer is kept.
    ensures host { (p : Parts) → Spells text.now p → are_wishes values.now wanted.now ≡ true → changing (wanted_in values.now wanted.now) text.now ≡ Err changes.MissingHost → IsRefused spec.missing_host out.old out.new needed.new result }
    ensures rejected { (p : Parts) (e : URIReferenceError) → Spells text.now p → are_wishes values.now wanted.now ≡ true → changing (wanted_in values.now wanted.now) text.now ≡ Err (changes.Reference e) → IsRefused (spec.code_of e) out.old out.new needed.new result }

    // A change with another number, or outside the values, is rejected, and so is a faulty text.
    ensures malformed { (p : Parts) → Spells text.now p → are_wishes values.now wanted.now ≡ false → IsRefused spec.bad_change out.old out.new needed.new result }
    ensures refused { (e : URIReferenceError) → fault text.now ≡ Some e → IsRefused (spec.code_of e) out.old out.new needed.new result }
{
    write_changed(text, wanted, values, out, needed)
}

/// Writes the string of a reference without the port, if that is the default port of its scheme, to the
/// buffer. Does not allocate.
#[unsafe(no_mangle)]
pub extern "C" fn uriparse_without_default_port(
    text: &[u8],
    out: &mut [u8],
    needed: &mut usize,
) -> u32
    // The buffer holds the string, of which all other components keep their bytes, or it is too small.
    ensures written { (p : Parts) → Spells text.now p → IsPut (text_without_default_port text.now p) out.old out.new needed.new result }

    // A faulty text is rejected, and the buffer is kept.
    ensures refused { (e : URIReferenceError) → fault text.now ≡ Some e → IsRefused (spec.code_of e) out.old out.new needed.new result }
{
    write_without_default_port(text, out, needed)
}

/// Writes the string of a reference with stars in place of its password, if it has one, to the buffer.
/// Does not allocate.
#[unsafe(no_mangle)]
pub extern "C" fn uriparse_mask_password(text: &[u8], out: &mut [u8], needed: &mut usize) -> u32
    // The buffer holds the string, of which all other components keep their bytes, or it is too small.
    ensures written { (p : Parts) → Spells text.now p → IsPut (masked_text text.now p) out.old out.new needed.new result }

    // A faulty text is rejected, and the buffer is kept.
    ensures refused { (e : URIReferenceError) → fault text.now ≡ Some e → IsRefused (spec.code_of e) out.old out.new needed.new result }
{
    write_masked(text, out, needed)
}

/// Writes the target of an HTTP request for a reference to the buffer: its path, or `/` in place of an
/// empty one, and its query. Does not allocate.
#[unsafe(no_mangle)]
pub extern "C" fn uriparse_request_target(text: &[u8], out: &mut [u8], needed: &mut usize) -> u32
    // The buffer holds the path and the query, byte for byte, or it is too small.
    ensures written { (p : Parts) (s : Spells text.now p) → is_abempty s.path_text ≡ true → IsPut (origin_form s.path_text p.query) out.old out.new needed.new result }

    // A path that neither is empty nor begins with a slash is rejected, and the buffer is kept.
    ensures without { (p : Parts) (s : Spells text.now p) → is_abempty s.path_text ≡ false → IsRefused spec.no_target out.old out.new needed.new result }

    // So is a faulty text.
    ensures refused { (e : URIReferenceError) → fault text.now ≡ Some e → IsRefused (spec.code_of e) out.old out.new needed.new result }
{
    write_target_of_request(text, out, needed)
}

/// Finds the first segment that is left of a path from a place, and says where it is. Does not allocate.
#[unsafe(no_mangle)]
pub extern "C" fn uriparse_next_segment(path: &[u8], at: usize, segment: &mut UriSpan) -> bool
    // The first of the segments that are left from there is at that place, or after the path's leading slash.
    ensures found { (s : List ℕ) (ss : List (List ℕ)) → segments_left path.now at ≡ s ∷ ss → IsTrue result × (segment.new ≡ span (segment_begin path.now at) (Some s)) }

    // The others are those that are left from the place after the byte that follows it.
    ensures others { (s : List ℕ) (ss : List (List ℕ)) → segments_left path.now at ≡ s ∷ ss → segments_left path.now (segment.new.end + 1) ≡ ss }

    // If no segment is left, nothing is written.
    ensures none { segments_left path.now at ≡ [] → (result ≡ false) × (segment.new ≡ segment.old) }
{
    match segment_at(path, at) {
        Some(found) => {
            *segment = found;
            true
        }
        None => false,
    }
}

/// Finds the pair that begins at a place of a query, and says where it is and where the next one
/// begins. Does not allocate.
#[unsafe(no_mangle)]
pub extern "C" fn uriparse_next_pair(query: &[u8], at: usize, pair: &mut UriPair) -> bool
    // The first of the pairs that are left from there is at that place.
    ensures found { (p : Pair) (ps : List Pair) → pairs_left (left_from query.now at) ≡ p ∷ ps → IsTrue result × IsPairAt at p pair.new }

    // The others are those that are left from `next`.
    ensures others { (p : Pair) (ps : List Pair) → pairs_left (left_from query.now at) ≡ p ∷ ps → length query.now < most → pairs_left (left_from query.now pair.new.next) ≡ ps }

    // If no pair is left, nothing is written.
    ensures none { pairs_left (left_from query.now at) ≡ [] → (result ≡ false) × (pair.new ≡ pair.old) }
{
    match pair_at(query, at) {
        Some(found) => {
            *pair = found;
            true
        }
        None => false,
    }
}

/// Finds the first pair of this name in a query, and says where it is and where the next one begins.
/// Does not allocate.
#[unsafe(no_mangle)]
pub extern "C" fn uriparse_find_pair(query: &[u8], name: &[u8], pair: &mut UriPair) -> bool
    // The first pair whose name stands for these bytes is there.
    ensures found { (p : Pair) → find (is_named name.now) (pairs query.now) ≡ Some p → IsTrue result × IsFirstNamedAt name.now query.now p pair.new }

    // If there is none, nothing is written.
    ensures none { find (is_named name.now) (pairs query.now) ≡ None → (result ≡ false) × (pair.new ≡ pair.old) }
{
    match named_pair(query, name) {
        Some(found) => {
            *pair = found;
            true
        }
        None => false,
    }
}

/// Finds the first pair of this name that begins at a place of a query or later, and says where it is and
/// where the next one begins. Does not allocate.
#[unsafe(no_mangle)]
pub extern "C" fn uriparse_find_next_pair(
    query: &[u8],
    at: usize,
    name: &[u8],
    pair: &mut UriPair,
) -> bool
    // The first of the pairs that are left from there whose name stands for these bytes is there.
    ensures found { (p : Pair) → find (is_named name.now) (pairs_left (left_from query.now at)) ≡ Some p → IsTrue result × IsNextNamedAt name.now query.now at p pair.new }

    // If there is none, nothing is written.
    ensures none { find (is_named name.now) (pairs_left (left_from query.now at)) ≡ None → (result ≡ false) × (pair.new ≡ pair.old) }
{
    match next_named_pair(query, at, name) {
        Some(found) => {
            *pair = found;
            true
        }
        None => false,
    }
}

/// Writes the query with one pair of a name to the buffer. Does not allocate.
#[unsafe(no_mangle)]
pub extern "C" fn uriparse_set_pair(
    query: &[u8],
    name: &[u8],
    value: &[u8],
    has_value: bool,
    out: &mut [u8],
    needed: &mut usize,
) -> u32
    // The buffer holds the query with the pair in place of the first one of its name, without the
    // others of that name, or it is too small.
    ensures written { IsQuery query.now → IsPut (joined_pairs (with_pair name.now (encoded_pair (name.now, value_given has_value value.now)) (pairs query.now))) out.old out.new needed.new result }

    // What is no query is rejected with its fault, and the buffer is kept.
    ensures refused { (e : QueryError) → reading query.now ≡ Err e → IsRefused (spec.query_code e) out.old out.new needed.new result }
{
    write_with_pair(query, name, value, has_value, out, needed)
}

/// Writes the query with a pair after all others to the buffer. Does not allocate.
#[unsafe(no_mangle)]
pub extern "C" fn uriparse_append_pair(
    query: &[u8],
    name: &[u8],
    value: &[u8],
    has_value: bool,
    out: &mut [u8],
    needed: &mut usize,
) -> u32
    // The buffer holds the query with the pair at its end, in place of an empty piece there, or it is
    // too small.
    ensures written { IsQuery query.now → IsPut (joined_pairs (with_appended (encoded_pair (name.now, value_given has_value value.now)) (pairs query.now))) out.old out.new needed.new result }

    // What is no query is rejected with its fault, and the buffer is kept.
    ensures refused { (e : QueryError) → reading query.now ≡ Err e → IsRefused (spec.query_code e) out.old out.new needed.new result }
{
    write_appended(query, name, value, has_value, out, needed)
}

/// Writes the query without the pairs of some names, which are written like a query, to the buffer.
/// Does not allocate.
#[unsafe(no_mangle)]
pub extern "C" fn uriparse_drop_pairs(
    query: &[u8],
    names: &[u8],
    out: &mut [u8],
    needed: &mut usize,
) -> u32
    // The buffer holds the pairs of other names, or it is too small.
    ensures written { (p : Pair) (ps : List Pair) → IsQuery query.now → IsQuery names.now → without_names (pairs names.now) (pairs query.now) ≡ p ∷ ps → IsPut (joined_pairs (p ∷ ps)) out.old out.new needed.new result }

    // A query of which no pair is left is rejected, and the buffer is kept.
    ensures nothing { IsQuery query.now → IsQuery names.now → without_names (pairs names.now) (pairs query.now) ≡ [] → IsRefused spec.no_pairs out.old out.new needed.new result }

    // What is no query is rejected with its fault, and so are then such names.
    ensures refused { (e : QueryError) → reading query.now ≡ Err e → IsRefused (spec.query_code e) out.old out.new needed.new result }
    ensures names { (e : QueryError) → IsQuery query.now → reading names.now ≡ Err e → IsRefused spec.bad_names out.old out.new needed.new result }
{
    write_without(query, names, out, needed)
}

/// Writes the bytes that the text of a query represents to the buffer. Does not allocate.
#[unsafe(no_mangle)]
pub extern "C" fn uriparse_decode(text: &[u8], out: &mut [u8], needed: &mut usize) -> u32
    // The buffer holds the bytes that the text's tokens stand for, or it is too small.
    ensures written { IsQuery text.now → IsPut (decoded text.now) out.old out.new needed.new result }

    // What is no text of a query is rejected with its fault, and the buffer is kept.
    ensures refused { (e : QueryError) → reading text.now ≡ Err e → IsRefused (spec.query_code e) out.old out.new needed.new result }
{
    write_decoded(text, out, needed)
}

/// Writes the bytes that a name or a value of an HTML form represents to the buffer. Does not allocate.
#[unsafe(no_mangle)]
pub extern "C" fn uriparse_form_decode(text: &[u8], out: &mut [u8], needed: &mut usize) -> u32
    // The buffer holds the bytes that the text's tokens stand for, and a space for each `+`, or it is too
    // small.
    ensures written { IsQuery text.now → IsPut (form_decoded text.now) out.old out.new needed.new result }

    // What is no text of a query is rejected with its fault, and the buffer is kept.
    ensures refused { (e : QueryError) → reading text.now ≡ Err e → IsRefused (spec.query_code e) out.old out.new needed.new result }
{
    write_form_decoded(text, out, needed)
}

/// Writes the text of a component that represents the bytes to the buffer. Does not allocate.
#[unsafe(no_mangle)]
pub extern "C" fn uriparse_encode(
    component: u32,
    bytes: &[u8],
    out: &mut [u8],
    needed: &mut usize,
) -> u32
    // The buffer holds each byte as itself if the component may have it, else as an escape; or it
    // is too small.
    ensures written { (c : Class) → class_of component ≡ Some c → IsPut (encoded c bytes.now) out.old out.new needed.new result }

    // Of the number of pairs, `&`, `=`, `+` and `*` become escapes, too.
    ensures pair { component ≡ pair_number → IsPut (encoded_in_pair bytes.now) out.old out.new needed.new result }

    // Another number is rejected, and the buffer is kept.
    ensures unknown { class_of component ≡ None → (component ≡ pair_number → ⊥) → IsRefused spec.no_component out.old out.new needed.new result }
{
    write_encoded(component, bytes, out, needed)
}

/// Writes any text as the text of a reference to the buffer, with escapes for the bytes that can't
/// stand where they do. Does not allocate.
#[unsafe(no_mangle)]
pub extern "C" fn uriparse_escape(text: &[u8], out: &mut [u8], needed: &mut usize) -> u32
    // The buffer holds the text with its components escaped, or it is too small.
    ensures { IsPut (escaped text.now) out.old out.new needed.new result }
{
    write_escaped(text, out, needed)
}

/// Writes the reference in a text that was cut out of a page to the buffer: the text without the white
/// space around it, angle brackets and `URL:`. Does not allocate.
#[unsafe(no_mangle)]
pub extern "C" fn uriparse_trim_link(text: &[u8], out: &mut [u8], needed: &mut usize) -> u32
    // The buffer holds what is left of the text, or it is too small.
    ensures { IsPut (link text.now) out.old out.new needed.new result }
{
    write_trimmed(text, out, needed)
}
