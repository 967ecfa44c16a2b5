//! The components of a URI or a relative reference.
ghost use Rattle.std.specs.Prelude.{◌≡◌, is_some};
ghost use Rattle.std.specs.Option.{option_copied};
ghost use Rattle.uriparse_reference.specs.Reference.{host_of, password_of, port_of, username_of};

use super::ReferenceOf;
use crate::kind::ReferenceKind;
use uriparse_authority::authority::{Authority, Host, Password, Username};
use uriparse_path::path::Path;
use uriparse_reference::uri_reference::WithoutPassword;
use uriparse_text::fragment::Fragment;
use uriparse_text::query::Query;

impl<'r, K: ReferenceKind> ReferenceOf<'r, K> {
    ghost use Rattle.uriparse_reference.specs.Reference.{Valid};

    /// The authority, if present.
    pub fn authority(&self) -> Option<&Authority<'r>>
        ensures { option_copied result ≡ self.now.authority }
    {
        self.reference.authority()
    }

    /// The user name, if present.
    pub fn username(&self) -> Option<&Username<'r>>
        ensures { option_copied result ≡ username_of self.now }
    {
        self.reference.username()
    }

    /// The password, if present.
    pub fn password(&self) -> Option<&Password<'r>>
        ensures { option_copied result ≡ password_of self.now }
    {
        self.reference.password()
    }

    /// The host, if there is an authority.
    pub fn host(&self) -> Option<&Host<'r>>
        ensures { option_copied result ≡ host_of self.now }
    {
        self.reference.host()
    }

    /// The port, if present.
    pub fn port(&self) -> Option<u16>
        ensures { result ≡ port_of self.now }
    {
        self.reference.port()
    }

    /// The path.
    pub fn path(&self) -> &Path<'r>
        ensures path { result.now ≡ self.now.path }
        ensures valid { Valid self.now }
    {
        self.reference.path()
    }

    /// The query, if present.
    pub fn query(&self) -> Option<&Query<'r>>
        ensures { option_copied result ≡ self.now.query }
    {
        self.reference.query()
    }

    /// The fragment, if present.
    pub fn fragment(&self) -> Option<&Fragment<'r>>
        ensures { option_copied result ≡ self.now.fragment }
    {
        self.reference.fragment()
    }

    /// Whether there is an authority.
    pub fn has_authority(&self) -> bool
        ensures { result ≡ is_some self.now.authority }
    {
        self.reference.has_authority()
    }

    /// Whether there is a user name.
    pub fn has_username(&self) -> bool
        ensures { result ≡ is_some (username_of self.now) }
    {
        self.reference.has_username()
    }

    /// Whether there is a password.
    pub fn has_password(&self) -> bool
        ensures { result ≡ is_some (password_of self.now) }
    {
        self.reference.has_password()
    }

    /// Whether there is a port.
    pub fn has_port(&self) -> bool
        ensures { result ≡ is_some (port_of self.now) }
    {
        self.reference.has_port()
    }

    /// Whether there is a query, even an empty one.
    pub fn has_query(&self) -> bool
        ensures { result ≡ is_some self.now.query }
    {
        self.reference.has_query()
    }

    /// Whether there is a fragment, even an empty one.
    pub fn has_fragment(&self) -> bool
        ensures { result ≡ is_some self.now.fragment }
    {
        self.reference.has_fragment()
    }

    /// What may be shown of it: prints `***` in place of the password, if there is one. The value
    /// still has the password; [`without_userinfo`](ReferenceOf::without_userinfo) removes it. Does
    /// not allocate.
    pub fn without_password(&self) -> WithoutPassword<'_, 'r>
        ensures { result ≡ self.now }
    {
        self.reference.without_password()
    }
}
