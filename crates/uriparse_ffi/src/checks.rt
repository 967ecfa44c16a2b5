//! The order of references, whether a text is normalized, whether a URI or a host is within another one,
//! what a host or a segment may be taken for, whether a host is public, and ports. Nothing here allocates.
ghost use Rattle.std.specs.Prelude.{◌≡◌, ◌+◌, Err, IsTrue, ◌↔◌, Ok, Some, false, is_some, true};
ghost use Rattle.uriparse_text.specs.Ambiguous.{is_ambiguous};
ghost use Rattle.uriparse_text.specs.Segment as segments;
ghost use Rattle.uriparse_text.specs.declared.segment.error.PathError.{PathError};
ghost use Rattle.uriparse_authority.specs.Host as hosts;
ghost use Rattle.uriparse_authority.specs.declared.authority.error.HostError.{HostError};
ghost use Rattle.uriparse_authority.specs.declared.authority.host.Host.{Host};
ghost use Rattle.uriparse_scheme.specs.Scheme as schemes;
ghost use Rattle.uriparse_reference.specs.declared.uri_reference.error.URIReferenceError.{URIReferenceError};
ghost use Rattle.uriparse_reference.specs.Order.{reference_cmp};
ghost use Rattle.uriparse_reference.specs.Reading.{fault};
ghost use Rattle.uriparse_reference.specs.Normal.{normal};
ghost use Rattle.uriparse_reference.specs.Ports as ports;
ghost use Rattle.uriparse_reference.specs.Reference.{Parts, Spells, host_of, print};
ghost use Rattle.uriparse.specs.Within.{IsWithin};
ghost use Rattle.uriparse_ffi.specs.Checks.{IsHostWithin, IsPublicHost, Tells, default_port_of, host_flags, order_number, port_or_minus_one};
ghost use Rattle.uriparse_ffi.specs.Code as spec;

use crate::code::{ACCEPTED, IN_BASE, base_code, of_host, of_path, truth_of, uri_code};
use crate::texts::{view, view_uri};
use std::cmp::Ordering;
use uriparse::{Host, ReferenceView, Scheme, Segment, URIView};

/// The order as a number.
fn number_of(order: Ordering) -> i32
    ensures { result ≡ order_number order }
{
    match order {
        Ordering::Less => -1,
        Ordering::Equal => 0,
        Ordering::Greater => 1,
    }
}

/// Writes the order of a reference and the one that a text spells, or returns the code of the text's
/// error.
fn write_order_of(left: &ReferenceView<'_>, right: &[u8], order: &mut i32) -> u32
    ensures compared { (q : Parts) → Spells right.now q → (result ≡ spec.accepted) × (order.new ≡ order_number (reference_cmp left.now.parts q)) }
    ensures refused { (e : URIReferenceError) → fault right.now ≡ Some e → (result ≡ spec.code_of e) × (order.new ≡ order.old) }
{
    match view(right) {
        Ok(right) => {
            *order = number_of(left.cmp(&right));
            ACCEPTED
        }
        Err(code) => code,
    }
}

/// Writes the order of the references that two texts spell, or returns the code of the first text's
/// error, if it has one, or else of the second's.
pub fn write_order(left: &[u8], right: &[u8], order: &mut i32) -> u32
    ensures compared { (p q : Parts) → Spells left.now p → Spells right.now q → (result ≡ spec.accepted) × (order.new ≡ order_number (reference_cmp p q)) }
    ensures left { (e : URIReferenceError) → fault left.now ≡ Some e → (result ≡ spec.code_of e) × (order.new ≡ order.old) }
    ensures right { (p : Parts) (e : URIReferenceError) → Spells left.now p → fault right.now ≡ Some e → (result ≡ spec.code_of e) × (order.new ≡ order.old) }
{
    match view(left) {
        Ok(left) => write_order_of(&left, right, order),
        Err(code) => code,
    }
}

/// Writes whether a text is the normal form of the reference that it spells, or returns the code of its
/// error.
pub fn write_is_normalized(text: &[u8], normalized: &mut u8) -> u32
    ensures checked { (p : Parts) → Spells text.now p → (result ≡ spec.accepted) × Tells (print (normal p) ≡ text.now) normalized.new }
    ensures refused { (e : URIReferenceError) → fault text.now ≡ Some e → (result ≡ spec.code_of e) × (normalized.new ≡ normalized.old) }
{
    match view(text) {
        Ok(view) => {
            *normalized = truth_of(view.is_normalized_text());
            ACCEPTED
        }
        Err(code) => code,
    }
}

/// Writes whether readers disagree on what a segment of a path names, or returns the code of its error.
pub fn write_is_ambiguous(segment: &[u8], ambiguous: &mut u8) -> u32
    ensures checked { segments.IsSegment segment.now → (result ≡ spec.accepted) × (ambiguous.new ≡ spec.truth (is_ambiguous segment.now)) }
    ensures refused { (e : PathError) → segments.reading segment.now ≡ Err e → (result ≡ spec.path_code e) × (ambiguous.new ≡ ambiguous.old) }
{
    match Segment::try_from_bytes(segment) {
        Ok(segment) => {
            *ambiguous = truth_of(segment.is_ambiguous());
            ACCEPTED
        }
        Err(error) => of_path(error),
    }
}

/// Whether the URI of one view is within the other's. Both views have a scheme.
fn is_within(view: ReferenceView<'_>, base: ReferenceView<'_>) -> bool
    requires scheme { is_some view.parts.scheme ≡ true }
    requires base_scheme { is_some base.parts.scheme ≡ true }
    ensures { IsTrue result ↔ IsWithin view.entry.parts base.entry.parts }
{
    let (Ok(uri), Ok(base)) = (URIView::try_from(view), URIView::try_from(base)) else {
        return false;
    };
    uri.is_within(&base)
}

/// Writes whether a URI is within the one that a text spells, or returns the code of the text's error.
fn write_within_of(view: ReferenceView<'_>, base: &[u8], within: &mut u8) -> u32
    requires { is_some view.parts.scheme ≡ true }
    ensures checked { (b : Parts) → Spells base.now b → is_some b.scheme ≡ true → (result ≡ spec.accepted) × Tells (IsWithin view.entry.parts b) within.new }
    ensures relative { (b : Parts) → Spells base.now b → is_some b.scheme ≡ false → (result ≡ spec.base_code spec.no_scheme) × (within.new ≡ within.old) }
    ensures refused { (e : URIReferenceError) → fault base.now ≡ Some e → (result ≡ spec.base_code (spec.fault_code e)) × (within.new ≡ within.old) }
{
    match view_uri(base) {
        Ok(base) => {
            *within = truth_of(is_within(view, base));
            ACCEPTED
        }
        Err(error) => base_code(error),
    }
}

/// Writes whether one URI is within another one, both read from texts, or returns the code of a text's
/// error. Of two faulty texts the first is rejected.
pub fn write_within(uri: &[u8], base: &[u8], within: &mut u8) -> u32
    ensures checked { (p b : Parts) → Spells uri.now p → is_some p.scheme ≡ true → Spells base.now b → is_some b.scheme ≡ true → (result ≡ spec.accepted) × Tells (IsWithin p b) within.new }
    ensures relative { (p : Parts) → Spells uri.now p → is_some p.scheme ≡ false → (result ≡ spec.no_scheme) × (within.new ≡ within.old) }
    ensures refused { (e : URIReferenceError) → fault uri.now ≡ Some e → (result ≡ spec.fault_code e) × (within.new ≡ within.old) }
    ensures relative_base { (p b : Parts) → Spells uri.now p → is_some p.scheme ≡ true → Spells base.now b → is_some b.scheme ≡ false → (result ≡ spec.base_code spec.no_scheme) × (within.new ≡ within.old) }
    ensures base { (p : Parts) (e : URIReferenceError) → Spells uri.now p → is_some p.scheme ≡ true → fault base.now ≡ Some e → (result ≡ spec.base_code (spec.fault_code e)) × (within.new ≡ within.old) }
{
    match view_uri(uri) {
        Ok(uri) => write_within_of(uri, base, within),
        Err(error) => uri_code(error),
    }
}

/// Whether the host of a reference is the domain or within it.
pub(crate) fn is_host_within(view: &ReferenceView<'_>, domain: &Host<'_>) -> bool
    ensures { IsTrue result ↔ IsHostWithin view.now.parts domain.now }
{
    match view.host() {
        Some(host) => host.is_within(domain),
        None => false,
    }
}

/// Writes whether the host of a reference is within the domain that a text spells, or returns the code
/// of the text's error.
fn write_host_within_of(view: &ReferenceView<'_>, domain: &[u8], within: &mut u8) -> u32
    ensures checked { (d : Host) → hosts.reading domain.now ≡ Ok d → (result ≡ spec.accepted) × Tells (IsHostWithin view.now.parts d) within.new }
    ensures refused { (e : HostError) → hosts.reading domain.now ≡ Err e → (result ≡ spec.in_base + spec.host_code e) × (within.new ≡ within.old) }
{
    match Host::try_from_bytes(domain) {
        Ok(domain) => {
            *within = truth_of(is_host_within(view, &domain));
            ACCEPTED
        }
        Err(error) => IN_BASE + of_host(error),
    }
}

/// Writes whether the host of the reference that a text spells is a domain or within it, or returns
/// the code of a text's error. Of two faulty texts the reference is rejected.
pub fn write_host_within(text: &[u8], domain: &[u8], within: &mut u8) -> u32
    ensures checked { (p : Parts) (d : Host) → Spells text.now p → hosts.reading domain.now ≡ Ok d → (result ≡ spec.accepted) × Tells (IsHostWithin p d) within.new }
    ensures refused { (e : URIReferenceError) → fault text.now ≡ Some e → (result ≡ spec.code_of e) × (within.new ≡ within.old) }
    ensures domain { (p : Parts) (e : HostError) → Spells text.now p → hosts.reading domain.now ≡ Err e → (result ≡ spec.in_base + spec.host_code e) × (within.new ≡ within.old) }
{
    match view(text) {
        Ok(view) => write_host_within_of(&view, domain, within),
        Err(code) => code,
    }
}

/// Whether the host of a reference is public.
fn is_host_public(view: &ReferenceView<'_>) -> bool
    ensures { IsTrue result ↔ IsPublicHost view.now.parts }
{
    match view.host() {
        Some(host) => host.is_public(),
        None => false,
    }
}

/// Writes whether the host of the reference that a text spells is public, or returns the code of the
/// text's error.
pub fn write_is_public(text: &[u8], is_public: &mut u8) -> u32
    ensures checked { (p : Parts) → Spells text.now p → (result ≡ spec.accepted) × Tells (IsPublicHost p) is_public.new }
    ensures refused { (e : URIReferenceError) → fault text.now ≡ Some e → (result ≡ spec.code_of e) × (is_public.new ≡ is_public.old) }
{
    match view(text) {
        Ok(view) => {
            *is_public = truth_of(is_host_public(&view));
            ACCEPTED
        }
        Err(code) => code,
    }
}

/// What the host may be taken for.
fn flags_of(host: Option<Host<'_>>) -> u32
    ensures { result ≡ host_flags host.entry }
{
    let Some(host) = host else {
        return 0;
    };
    let hides = if host.hides_address() { 1 } else { 0 };
    let numeric = if host.may_be_numeric() { 2 } else { 0 };
    let escaped = if host.has_escapes() { 4 } else { 0 };
    hides + numeric + escaped
}

/// What the host of the reference that a text spells may be taken for, or the code of the text's error.
pub fn flags(text: &[u8]) -> Result<u32, u32>
    ensures checked { (p : Parts) → Spells text.now p → result ≡ Ok (host_flags (host_of p)) }
    ensures fault { (e : URIReferenceError) → fault text.now ≡ Some e → result ≡ Err (spec.code_of e) }
{
    match view(text) {
        Ok(view) => Ok(flags_of(view.host())),
        Err(code) => Err(code),
    }
}

/// The port of a reference, or the default port of its scheme; `None` without an authority, and if it has
/// neither.
fn port_or_default(view: ReferenceView<'_>) -> Option<u16>
    ensures { result ≡ ports.port_or_default view.entry.parts }
{
    if let Some(port) = view.port() {
        return Some(port);
    }
    match URIView::try_from(view) {
        Ok(uri) => uri.port_or_default(),
        Err(_) => None,
    }
}

/// Writes the port of the reference that a text spells, or the default port of its scheme, or -1 if it has
/// neither, or returns the code of the text's error.
pub fn write_port(text: &[u8], port: &mut i32) -> u32
    ensures found { (p : Parts) → Spells text.now p → (result ≡ spec.accepted) × (port.new ≡ port_or_minus_one (ports.port_or_default p)) }
    ensures refused { (e : URIReferenceError) → fault text.now ≡ Some e → (result ≡ spec.code_of e) × (port.new ≡ port.old) }
{
    match view(text) {
        Ok(view) => {
            *port = match port_or_default(view) {
                Some(number) => i32::from(number),
                None => -1,
            };
            ACCEPTED
        }
        Err(code) => code,
    }
}

/// The default port of the scheme of this name, or 0 if it has none or is no scheme.
pub fn default_port(scheme: &[u8]) -> u32
    ensures { result ≡ default_port_of (schemes.reading scheme.now) }
{
    match Scheme::try_from_bytes(scheme) {
        Ok(scheme) => u32::from(scheme.default_port().unwrap_or(0)),
        Err(_) => 0,
    }
}
