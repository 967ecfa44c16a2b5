//! How registered schemes compare, hash and are shown: by their names.
ghost use Rattle.std.specs.Prelude.{◌≡◌, bytes_eq};
ghost use Rattle.std.proofs.Common.{rules};
ghost use Rattle.std.specs.Ordering.{on};
ghost use Rattle.std.specs.Cmp.Rules.{comparing, hashing};
ghost use Rattle.uriparse_text.specs.Canonical.{canonical_lowered, fed_text};
ghost use Rattle.uriparse_scheme.specs.declared.scheme.registered.RegisteredScheme.TheVariants.{Microsoft};
ghost use Rattle.uriparse_scheme.specs.Registered as spec;

use super::microsoft::MicrosoftScheme;
use super::registered::RegisteredScheme;
use super::spelling::feed_lowered;
use std::fmt;
use std::hash::{Hash, Hasher};

impl PartialEq for RegisteredScheme {
    ghost eq = { on (λ s. canonical_lowered (spec.name_of s)) bytes_eq };

    ghost laws = { Prim.search (comparing, rules) };

    fn eq(&self, other: &RegisteredScheme) -> bool {
        self.name() == other.name()
    }
}

impl Eq for RegisteredScheme {
    ghost laws = { Prim.search (comparing, rules) };
}

impl Hash for RegisteredScheme {
    ghost hash_input = { λ s. fed_text (canonical_lowered (spec.name_of s)) };

    ghost respects_eq = { Prim.search (hashing, rules) };

    fn hash<H: Hasher>(&self, state: &mut H) {
        feed_lowered(self.name().as_bytes(), state);
    }
}

impl fmt::Debug for RegisteredScheme {
    fn fmt<W: fmt::Write>(&self, f: &mut fmt::Formatter<W>) -> fmt::Result {
        f.debug_tuple("RegisteredScheme")
            .field(&self.name())
            .finish()
    }
}

impl PartialEq for MicrosoftScheme {
    ghost eq = { on (λ s. canonical_lowered (spec.name_of (Microsoft s))) bytes_eq };

    ghost laws = { Prim.search (comparing, rules) };

    fn eq(&self, other: &MicrosoftScheme) -> bool {
        RegisteredScheme::Microsoft(*self) == RegisteredScheme::Microsoft(*other)
    }
}

impl Eq for MicrosoftScheme {
    ghost laws = { Prim.search (comparing, rules) };
}

impl Hash for MicrosoftScheme {
    ghost hash_input = { λ s. fed_text (canonical_lowered (spec.name_of (Microsoft s))) };

    ghost respects_eq = { Prim.search (hashing, rules) };

    fn hash<H: Hasher>(&self, state: &mut H) {
        RegisteredScheme::Microsoft(*self).hash(state);
    }
}

impl fmt::Debug for MicrosoftScheme {
    fn fmt<W: fmt::Write>(&self, f: &mut fmt::Formatter<W>) -> fmt::Result {
        let name = RegisteredScheme::Microsoft(*self).name();
        f.debug_tuple("MicrosoftScheme").field(&name).finish()
    }
}
