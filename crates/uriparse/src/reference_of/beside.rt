//! Setting one part of the authority of a URI or a relative reference: RFC 3986, section 3.2.
ghost use Rattle.std.specs.Prelude.{◌≡◌};
ghost use Rattle.uriparse_text.specs.Readings.{Settles};
ghost use Rattle.uriparse_reference.specs.Beside as spec;

use super::ReferenceOf;
use crate::kind::ReferenceKind;
use uriparse_authority::authority::{Host, Password, Username};
use uriparse_reference::uri_reference::ChangeError;

impl<'r, K: ReferenceKind> ReferenceOf<'r, K> {
    /// Sets the host, and keeps the user name, the password and the port. Without an authority, makes
    /// one of this host alone, and the path absolute as [`set_authority`](ReferenceOf::set_authority)
    /// does. Never fails. Does not allocate.
    pub fn set_host(&mut self, host: Host<'r>)
        ensures { self.new ≡ spec.with_host self.old host.entry }
    {
        self.reference.set_host(host);
    }

    /// Sets or removes the user name. Removing it also removes the password. Without an authority,
    /// setting it fails with [`MissingHost`](ChangeError::MissingHost), and the value is unchanged;
    /// removing it then changes nothing. Does not allocate.
    pub fn set_username(&mut self, username: Option<Username<'r>>) -> Result<(), ChangeError>
        ensures { Settles self.old self.new result (spec.with_username self.old username.entry) }
    {
        self.reference.set_username(username)
    }

    /// Sets or removes the password. A password without a user name gets an empty one. Without an
    /// authority, setting it fails with [`MissingHost`](ChangeError::MissingHost), and the value is
    /// unchanged; removing it then changes nothing. Does not allocate.
    pub fn set_password(&mut self, password: Option<Password<'r>>) -> Result<(), ChangeError>
        ensures { Settles self.old self.new result (spec.with_password self.old password.entry) }
    {
        self.reference.set_password(password)
    }

    /// Sets or removes the port. Without an authority, setting it fails with
    /// [`MissingHost`](ChangeError::MissingHost), and the value is unchanged; removing it then
    /// changes nothing. Does not allocate.
    pub fn set_port(&mut self, port: Option<u16>) -> Result<(), ChangeError>
        ensures { Settles self.old self.new result (spec.with_port self.old port) }
    {
        self.reference.set_port(port)
    }

    /// The value without its user name and its password: RFC 3986, section 3.2.1.
    /// [`without_password`](ReferenceOf::without_password) only hides the password where the value
    /// is printed. Does not allocate.
    pub fn without_userinfo(self) -> ReferenceOf<'r, K>
        ensures { result ≡ spec.without_userinfo self.entry }
    {
        let ReferenceOf {
            reference,
            kind: _kind,
        } = self;
        ReferenceOf::of_checked(reference.without_userinfo())
    }
}
