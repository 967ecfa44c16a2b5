//! `uri within BASE URI` and `uri host-within DOMAIN REF`: whether a URI is below another one, and whether
//! a host is a domain or under it.

ghost use Rattle.std.specs.Prelude.{◌≡◌, ◌↔◌, IsTrue, MatchResult, [], false, true};
ghost use Rattle.uriparse.specs.Host.{reading};
ghost use Rattle.uriparse.specs.HostError.{HostError};
ghost use Rattle.uriparse.specs.Within.{IsWithin};
ghost use Rattle.uri_commands.specs.Output as spec;
ghost use Rattle.uri_commands.specs.Output.{Negative, Printed};
ghost use Rattle.uri_commands.specs.declared.failure.Failure.TheVariants as failures;

use crate::edit::read_host;
use crate::failure::Failure;
use crate::print::print_bytes;
use crate::topic::Topic;
use std::io::Write;
use uriparse::{Host, ReferenceView, URIReferenceError, URIView};
use uriparse_text::internal::Held;

pub static ABOUT: Topic = (
    "within",
    "\
Says by its status whether a URI is below a base.

Usage: uri within BASE URI
       uri --lines within BASE

Use it to keep to a site or to a directory of it. The URI is below the base if
scheme, host, port and user information are equal, and its path begins with the
base's up to its last slash. Both are compared in normal form, without dot
segments and default ports. Pass on the normal form: not every server decodes
%2e%2e to two dots.

The URI is not below the base if, after that slash, its path has a segment that
servers read in different ways: one with %2F, %5C, %25 or %00, or such as ..;a
and ..%3Fa. Nor is it if a double dot of its path removes such a segment, or one
that is empty, or empty before such a delimiter.

With --lines it prints each line whose URI is below the base, as grep does, and
the status is 0 even if none is.

Exit status: 0 on success, 1 if BASE or URI is not a URI, 2 on a usage error,
3 without --lines if the URI is not below the base.

Example:
    uri within 'https://h/app/' 'https://h:443/app/a?b' && echo below
    uri within 'https://h/app/' 'https://h/app/../b' || echo elsewhere
prints
    below
    elsewhere
",
);

pub static ABOUT_HOST: Topic = (
    "host-within",
    "\
Says by its status whether the host of a reference is in a domain.

Usage: uri host-within DOMAIN REF
       uri --lines host-within DOMAIN

Use it to pick the links of a domain and its subdomains. The host is the domain,
or both are names, and the labels of the host end with those of the domain.
Case, escapes of letters and a final dot don't count. An address is only within
itself, and so is a name with other escapes, such as %2F. A reference without a
host is in no domain.

With --lines it prints each line whose host is in the domain, as grep does, and
the status is 0 even if none is.

Exit status: 0 on success, 1 if DOMAIN is not a host or REF not a reference,
2 on a usage error, 3 without --lines if the host is not in the domain.

Example:
    uri host-within example.com 'http://www.EXAMPLE.com/' && echo under
    uri host-within example.com 'http://evilexample.com/' || echo other
prints
    under
    other
",
);

/// Reads a domain, which is a host.
pub fn read_domain(text: &str) -> Result<Host<'_>, URIReferenceError>
    ensures { MatchResult result (λ h. reading text.now ≡ Ok h) (λ _. (x : HostError) × (reading text.now ≡ Err x)) }
{
    Ok(read_host(text)?)
}

/// Fails with `Failure::Outside` if it is not within.
fn only_within(is_within: bool) -> Result<(), Failure>
    ensures { MatchResult result (λ _. is_within ≡ true) (λ f. (f ≡ failures.Outside) × (is_within ≡ false)) }
{
    if is_within {
        Ok(())
    } else {
        Err(Failure::Outside)
    }
}

/// Checks whether the URI is below the base, which is read first, and fails with `Failure::Outside` if
/// it is not. Does not allocate.
#[tactic(auto, using(crate::proofs::OutputLemmas::below_first, crate::proofs::OutputLemmas::found_rejected_uri))]
pub fn within(base: &[u8], text: &[u8]) -> Result<(), Failure>
    ensures { spec.Finds (spec.Within base.now text.now) result }
{
    let base = URIView::try_from_bytes(base)?;
    check_below(&base, text)
}

/// Checks whether the URI is below the base.
#[tactic(auto, using(crate::proofs::OutputLemmas::found_below, crate::proofs::OutputLemmas::found_unread))]
fn check_below(base: &URIView<'_>, text: &[u8]) -> Result<(), Failure>
    ensures { spec.Finds (spec.IsBelow base.now.parts text.now (Printed []) Negative) result }
{
    only_within(is_below(base, text)?)
}

/// Reads the URI, and returns whether it is below the base.
#[tactic(auto, using(crate::proofs::OutputLemmas::uri_of, crate::proofs::OutputLemmas::uri_rejected))]
fn is_below(base: &URIView<'_>, text: &[u8]) -> Result<bool, Failure>
    ensures { spec.IsOfUri text.now (λ p is. IsTrue is ↔ IsWithin p base.now.parts) result }
{
    let uri = URIView::try_from_bytes(text)?;
    Ok(uri.is_within(base))
}

/// Checks whether the host of the reference is within the domain, which is read first, and fails with
/// `Failure::Outside` if it is not. Does not allocate.
#[tactic(auto, using(crate::proofs::OutputLemmas::in_domain, crate::proofs::OutputLemmas::no_domain))]
pub fn host_within(domain: &str, text: &[u8]) -> Result<(), Failure>
    ensures { spec.Finds (spec.HostWithin domain.now text.now) result }
{
    let domain = Held(read_domain(domain)?);
    check_under(&domain.0, text)
}

/// Checks whether the host of the reference is within the domain.
#[tactic(auto, using(crate::proofs::OutputLemmas::found_under, crate::proofs::OutputLemmas::found_no_reference))]
fn check_under(domain: &Host<'_>, text: &[u8]) -> Result<(), Failure>
    ensures { spec.Finds (spec.HasHostUnder domain.now text.now (Printed []) Negative) result }
{
    only_within(is_under(domain, text)?)
}

/// Reads the reference, and returns whether its host is within the domain.
#[tactic(auto, using(crate::proofs::OutputLemmas::host_found, crate::proofs::OutputLemmas::no_host_found, crate::proofs::OutputLemmas::reference_rejected))]
fn is_under(domain: &Host<'_>, text: &[u8]) -> Result<bool, Failure>
    ensures { spec.IsOfReference text.now (λ p is. IsTrue is ↔ spec.IsUnder domain.now p) result }
{
    let reference = ReferenceView::try_from_bytes(text)?;
    match Held(reference.host()).0.as_ref() {
        Some(host) => Ok(host.is_within(domain)),
        None => Ok(false),
    }
}

/// Prints the line if its URI is below the base.
#[tactic(auto, using(crate::proofs::OutputLemmas::printed_below, crate::proofs::OutputLemmas::unread))]
pub fn print_within<O: Write>(base: &URIView<'_>, line: &[u8], out: &mut O) -> Result<(), Failure>
    ensures { spec.Does (spec.PrintsWithin base.now.parts line.now) (O.contents out.old) (O.contents out.new) result }
{
    print_if(is_below(base, line)?, line, out)
}

/// Prints the line if its reference has a host within the domain.
#[tactic(auto, using(crate::proofs::OutputLemmas::printed_under, crate::proofs::OutputLemmas::unread_reference))]
pub fn print_host_within<O: Write>(
    domain: &Host<'_>,
    line: &[u8],
    out: &mut O,
) -> Result<(), Failure>
    ensures { spec.Does (spec.PrintsHostWithin domain.now line.now) (O.contents out.old) (O.contents out.new) result }
{
    print_if(is_under(domain, line)?, line, out)
}

/// Prints the line if it is within.
#[tactic(auto, using(crate::proofs::OutputLemmas::nothing_written))]
fn print_if<O: Write>(is_within: bool, line: &[u8], out: &mut O) -> Result<(), Failure>
    ensures { spec.Writes (spec.line_if is_within line.now) (O.contents out.old) (O.contents out.new) result }
{
    if !is_within {
        return Ok(());
    }
    print_bytes(line, out)
}
