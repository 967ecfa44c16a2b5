//! Whether a host is within one of several domains. Nothing here allocates.
ghost use Rattle.std.specs.Prelude.{◌≡◌, ◌↔◌, ◌+◌, Err, IsTrue, MatchResult, None, Ok, Some};
ghost use Rattle.uriparse_text.specs.Readings.{fault_in};
ghost use Rattle.uriparse_authority.specs.Host as hosts;
ghost use Rattle.uriparse_authority.specs.Within.{is_empty};
ghost use Rattle.uriparse_authority.specs.declared.authority.error.HostError.{HostError};
ghost use Rattle.uriparse_reference.specs.declared.uri_reference.error.URIReferenceError.{URIReferenceError};
ghost use Rattle.uriparse_reference.specs.Reading.{fault};
ghost use Rattle.uriparse_reference.specs.Reference.{Parts, Spells};
ghost use Rattle.uriparse_ffi.specs.Checks.{Tells};
ghost use Rattle.uriparse_ffi.specs.Code as code;
ghost use Rattle.uriparse_ffi.specs.Domains as spec;

use crate::checks::is_host_within;
use crate::code::{ACCEPTED, IN_BASE, of_host, truth_of};
use crate::texts::view;
use uriparse::authority::HostError;
use uriparse::{Host, ReferenceView};
use uriparse_text::internal::{split_at_delimiter, without_delimiter};

/// Whether the host of a reference is within the domain that a text spells, or the text's error.
fn is_within_domain(view: &ReferenceView<'_>, domain: &[u8]) -> Result<bool, HostError>
    ensures { MatchResult result (λ b. (fault_in (hosts.reading domain.now) ≡ None) × (IsTrue b ↔ spec.IsWithinDomain view.now.parts domain.now)) (λ e. fault_in (hosts.reading domain.now) ≡ Some e) }
{
    match Host::try_from_bytes(domain) {
        Ok(domain) => Ok(is_host_within(view, &domain)),
        Err(error) => Err(error),
    }
}

/// Whether the host of a reference is within one of the domains that spaces separate, or the error of
/// the first one that is no host.
fn is_within_one(view: &ReferenceView<'_>, domains: &[u8]) -> Result<bool, HostError>
    ensures { MatchResult result (λ b. (spec.first_error (spec.domains domains.now) ≡ None) × (IsTrue b ↔ spec.IsWithinOne view.now.parts (spec.domains domains.now))) (λ e. spec.first_error (spec.domains domains.now) ≡ Some e) }
{
    let mut is_within = false;
    let mut left = Some(domains);
    'domains: while let Some(text) = left {
        let (domain, rest) = split_at_delimiter(text, b' ');
        left = without_delimiter(rest);
        if !domain.is_empty() {
            is_within |= is_within_domain(view, domain)?;
        }
    }
    Ok(is_within)
}

/// Writes whether the host of a reference is within one of the domains, or returns the code of the
/// first one that is no host.
fn write_within_any_of(view: &ReferenceView<'_>, domains: &[u8], within: &mut u8) -> u32
    ensures checked { spec.first_error (spec.domains domains.now) ≡ None → (result ≡ code.accepted) × Tells (spec.IsWithinOne view.now.parts (spec.domains domains.now)) within.new }
    ensures refused { (e : HostError) → spec.first_error (spec.domains domains.now) ≡ Some e → (result ≡ code.in_base + code.host_code e) × (within.new ≡ within.old) }
{
    match is_within_one(view, domains) {
        Ok(answer) => {
            *within = truth_of(answer);
            ACCEPTED
        }
        Err(error) => IN_BASE + of_host(error),
    }
}

/// Writes whether the host of the reference that a text spells is within one of the domains, or returns
/// the code of the text's error, or else that of the first domain that is no host.
pub fn write_within_any(text: &[u8], domains: &[u8], within: &mut u8) -> u32
    ensures checked { (p : Parts) → Spells text.now p → spec.first_error (spec.domains domains.now) ≡ None → (result ≡ code.accepted) × Tells (spec.IsWithinOne p (spec.domains domains.now)) within.new }
    ensures refused { (e : URIReferenceError) → fault text.now ≡ Some e → (result ≡ code.code_of e) × (within.new ≡ within.old) }
    ensures domain { (p : Parts) (e : HostError) → Spells text.now p → spec.first_error (spec.domains domains.now) ≡ Some e → (result ≡ code.in_base + code.host_code e) × (within.new ≡ within.old) }
{
    match view(text) {
        Ok(view) => write_within_any_of(&view, domains, within),
        Err(code) => code,
    }
}
