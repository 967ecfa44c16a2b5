//! Normal forms of authorities: RFC 3986, sections 3.2 and 6.2.2.
ghost use Rattle.std.specs.Prelude.{◌≡◌, ◌↔◌, IsTrue, IsOk, IfOk, OnOk, OnErr, unwrap_or};
ghost use Rattle.uriparse_authority.specs.Authority.{print};
ghost use Rattle.uriparse_authority.specs.Normal.{AreCanonicalCopies, canonical_authority};

use super::edit::set;
use super::{Authority, Host, Password, Username};
use std::alloc::{AllocError, Global};
use uriparse_text::internal::{canonical_copy, is_canonical_part, put_copy};

/// Canonical copies of the components of an authority that are present and aren't canonical.
#[derive(Drop)]
pub struct CanonicalCopies {
    /// The copy of the user name, if it needs one.
    pub username: Option<Username<'static>>,
    /// The copy of the password, if it needs one.
    pub password: Option<Password<'static>>,
    /// The copy of the host, if it needs one.
    pub host: Option<Host<'static>>,
}

/// Copies of the components that aren't canonical, for [`put_copies`]. Allocates only for those.
pub fn canonical_copies(
    alloc: Global,
    authority: &Authority<'_>,
) -> Result<CanonicalCopies, AllocError>
    ensures copies { IfOk result (λ copies. AreCanonicalCopies copies authority.now) }
    ensures takes_no_memory { print (canonical_authority authority.now) ≡ print authority.now → IsOk result }
{
    Ok(CanonicalCopies {
        username: canonical_copy(alloc, &authority.username)?,
        password: canonical_copy(alloc, &authority.password)?,
        host: authority.host.canonical_copy(alloc)?,
    })
}

/// Puts the host's copy in its place, if there is one.
fn put_host<'h>(host: &mut Host<'h>, copy: Option<Host<'h>>)
    ensures { host.new ≡ unwrap_or copy.entry host.old }
{
    if let Some(copy) = copy {
        set(host, copy);
    }
}

/// Puts an authority's canonical copies in the places of its components. Does not allocate.
pub fn put_copies(authority: &mut Authority<'_>, copies: CanonicalCopies)
    requires { AreCanonicalCopies copies authority.old }
    ensures { authority.new ≡ canonical_authority authority.old }
{
    put_copy(&mut authority.username, copies.username);
    put_copy(&mut authority.password, copies.password);
    put_host(&mut authority.host, copies.host);
}

impl<'a> Authority<'a> {
    /// Whether the authority's text is its canonical spelling: RFC 3986, section 6.2.2. Then each
    /// component is canonical. Does not allocate.
    pub fn is_normalized(&self) -> bool
        ensures text { IsTrue result ↔ (print (canonical_authority self.now) ≡ print self.now) }
        ensures form { IsTrue result → canonical_authority self.now ≡ self.now }
    {
        is_canonical_part(&self.username)
            && is_canonical_part(&self.password)
            && self.host.is_normalized()
    }

    /// Puts the user name, the password and the host in canonical spelling: RFC 3986, section
    /// 6.2.2. The port and the kind of the host do not change. A second call changes nothing.
    ///
    /// Allocates only for the components that change. All of them are copied before any is put in
    /// place, so if memory runs out, the authority is unchanged.
    ///
    /// ```
    /// let mut authority = Authority::try_from_str("%7eu@EXAMPLE.com:80")?;
    /// authority.normalize(alloc)?;
    /// assert_eq!(authority.to_string(alloc)?.as_str(), "~u@example.com:80");
    /// ```
    pub fn normalize(&mut self, alloc: Global) -> Result<(), AllocError>
        ensures ok { OnOk result (self.new ≡ canonical_authority self.old) }
        ensures err { OnErr result (self.new ≡ self.old) }
        ensures takes_no_memory { print (canonical_authority self.old) ≡ print self.old → IsOk result }
    {
        let copies = canonical_copies(alloc, self)?;
        put_copies(self, copies);
        Ok(())
    }
}
