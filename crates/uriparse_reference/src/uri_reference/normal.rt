//! Normal forms of references: RFC 3986, section 6.2.2.
ghost use Rattle.std.specs.Prelude.{◌≡◌, ◌↔◌, IsTrue, IsOk, IfOk, OnOk, OnErr, bytes_eq, false, is_none, is_some, true};
ghost use Rattle.std.specs.List.{list_all};
ghost use Rattle.std.specs.Option.{option_eq, option_map};
ghost use Rattle.uriparse_text.specs.Canonical.{canonical};
ghost use Rattle.uriparse_path.specs.Path.{starts_with_empty_segment};
ghost use Rattle.uriparse_path.specs.Normal.{is_canonical, pnormal};
ghost use Rattle.uriparse_authority.specs.Authority as authorities;
ghost use Rattle.uriparse_authority.specs.Normal.{canonical_authority};
ghost use Rattle.uriparse_scheme.specs.Scheme as schemes;
ghost use Rattle.uriparse_reference.specs.Reference.{Parts, Same, Valid, print};
ghost use Rattle.uriparse_reference.specs.Normal.{AreCopiesIf, canonical_texts, is_normal, normal, dot_prefixed};

use super::URIReference;
use std::alloc::{AllocError, Global};
use uriparse_authority::authority::Authority;
use uriparse_authority::internal as authority;
use uriparse_authority::internal::CanonicalCopies;
use uriparse_path::internal::{PathContext, is_normal_path, normalize_path};
use uriparse_path::path::Path;
use uriparse_scheme::internal as scheme;
use uriparse_scheme::scheme::Scheme;
use uriparse_text::fragment::Fragment;
use uriparse_text::internal::{canonical_copy, is_canonical_part, put_copy};
use uriparse_text::query::Query;

/// Whether the scheme, if present, is in canonical spelling.
pub(super) fn is_canonical_scheme(scheme: &Option<Scheme<'_>>) -> bool
    ensures { result ≡ option_eq bytes_eq (option_map schemes.canonical_text scheme.now) (option_map schemes.text scheme.now) }
{
    match scheme {
        Some(scheme) => scheme.is_normalized(),
        None => true,
    }
}

/// Whether the authority, if present, is in canonical spelling.
pub(super) fn is_canonical_authority(authority: &Option<Authority<'_>>) -> bool
    ensures { result ≡ option_eq bytes_eq (option_map authorities.canonical_text authority.now) (option_map authorities.print authority.now) }
{
    match authority {
        Some(authority) => authority.is_normalized(),
        None => true,
    }
}

/// What precedes a path, by the scheme and the authority.
fn context_of(scheme: &Option<Scheme<'_>>, authority: &Option<Authority<'_>>) -> PathContext
    ensures { result ≡ record { has_scheme = is_some scheme.now; has_authority = is_some authority.now } }
{
    PathContext {
        has_scheme: scheme.is_some(),
        has_authority: authority.is_some(),
    }
}

/// Copies of the components of the authority that are not canonical, if it is present. Allocates
/// for those alone.
fn authority_copies(
    alloc: Global,
    authority: &Option<Authority<'_>>,
) -> Result<Option<CanonicalCopies>, AllocError>
    ensures copies { IfOk result (λ copies. AreCopiesIf copies authority.now) }
    ensures takes_no_memory { option_map canonical_authority authority.now ≡ authority.now → IsOk result }
{
    match authority {
        Some(authority) => Ok(Some(authority::canonical_copies(alloc, authority)?)),
        None => Ok(None),
    }
}

/// Normalizes a path, a query and a fragment that follow this scheme and this authority. Allocates
/// as they do. If memory runs out, all three are unchanged.
fn normalize_tail(
    alloc: Global,
    scheme: &Option<Scheme<'_>>,
    authority: &Option<Authority<'_>>,
    path: &mut Path<'_>,
    query: &mut Option<Query<'_>>,
    fragment: &mut Option<Fragment<'_>>,
) -> Result<(), AllocError>
    requires { is_some authority.now ≡ false → starts_with_empty_segment path.old.segments ≡ false }
    ensures path { OnOk result (path.new ≡ dot_prefixed authority.now (pnormal path.old (is_none scheme.now))) }
    ensures query { OnOk result (query.new ≡ option_map canonical query.old) }
    ensures fragment { OnOk result (fragment.new ≡ option_map canonical fragment.old) }
    ensures err { OnErr result ((path.new ≡ path.old) × (query.new ≡ query.old) × (fragment.new ≡ fragment.old)) }
    ensures takes_no_memory { list_all is_canonical path.old.segments ≡ true → option_map canonical query.old ≡ query.old → option_map canonical fragment.old ≡ fragment.old → IsOk result }
{
    let query_copy = canonical_copy(alloc, query)?;
    let fragment_copy = canonical_copy(alloc, fragment)?;
    normalize_path(path, alloc, context_of(scheme, authority))?;
    put_copy(query, query_copy);
    put_copy(fragment, fragment_copy);
    Ok(())
}

/// Replaces the components of the authority, if it is present, by the copies.
fn put_authority_copies(authority: &mut Option<Authority<'_>>, copies: Option<CanonicalCopies>)
    requires { AreCopiesIf copies authority.old }
    ensures { authority.new ≡ option_map canonical_authority authority.old }
{
    if let Some(authority) = authority {
        if let Some(copies) = copies {
            authority::put_copies(authority, copies);
        }
    }
}

impl<'r> URIReference<'r> {
    /// Whether each component has the text of its normal form.
    fn is_normal(&self) -> bool
        ensures test { result ≡ is_normal self.now }
        ensures valid { Valid self.now }
    {
        is_canonical_scheme(&self.scheme)
            && is_canonical_authority(&self.authority)
            && is_normal_path(&self.path, context_of(&self.scheme, &self.authority))
            && is_canonical_part(&self.query)
            && is_canonical_part(&self.fragment)
    }

    /// Whether the reference's text is its normal form's. Then it equals that form, component
    /// by component. Does not allocate.
    pub fn is_normalized(&self) -> bool
        ensures text { IsTrue result ↔ (print (normal self.now) ≡ print self.now) }
        ensures form { IsTrue result → normal self.now ≡ self.now }
    {
        self.is_normal()
    }

    /// Normalizes the reference: RFC 3986, section 6.2.2. Each text gets its canonical spelling; a
    /// name stays a name, even if it then spells an IPv4 address. The path gets its normal form,
    /// as a path without a scheme if the reference has none (see [`Path::normalize`]). Without
    /// an authority, a path that would then start with `//` gets a leading `/.`. A second call
    /// changes nothing.
    ///
    /// A reference whose text is normal is unchanged. Does not allocate if each text is canonical,
    /// whatever dot segments the path has. Otherwise copies the texts that are not canonical, all
    /// of them before any is replaced: if memory runs out, the reference is unchanged.
    ///
    /// ```
    /// let mut reference = URIReference::try_from_str(alloc, "HTTP://H/a/../%7eb")?;
    /// reference.normalize(alloc)?;
    /// assert_eq!(reference.to_string(alloc)?.as_str(), "http://h/~b");
    /// ```
    pub fn normalize(&mut self, alloc: Global) -> Result<(), AllocError>
        ensures ok { OnOk result (self.new ≡ normal self.old) }
        ensures err { OnErr result (self.new ≡ self.old) }
        ensures takes_no_memory { print (normal self.old) ≡ print self.old → IsOk result }
        ensures canonical_takes_no_memory { canonical_texts self.old ≡ self.old → IsOk result }

        // Equal references have one normal form.
        ensures equal { OnOk result ((q : Parts) → Valid q → Same self.old q → self.new ≡ normal q) }
    {
        if self.is_normal() {
            return Ok(());
        }
        self.put_normal(alloc)
    }

    /// Replaces the reference by its normal form. Allocates for the texts that are not canonical.
    fn put_normal(&mut self, alloc: Global) -> Result<(), AllocError>
        ensures ok { OnOk result (self.new ≡ normal self.old) }
        ensures err { OnErr result (self.new ≡ self.old) }
        ensures takes_no_memory { canonical_texts self.old ≡ self.old → IsOk result }
    {
        let scheme = scheme::canonical_copy(alloc, &self.scheme)?;
        let authority = authority_copies(alloc, &self.authority)?;
        normalize_tail(
            alloc,
            &self.scheme,
            &self.authority,
            &mut self.path,
            &mut self.query,
            &mut self.fragment,
        )?;
        scheme::put_copy(&mut self.scheme, scheme);
        put_authority_copies(&mut self.authority, authority);
        Ok(())
    }
}
