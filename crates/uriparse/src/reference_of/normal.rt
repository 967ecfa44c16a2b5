//! Normal forms of URIs and relative references: RFC 3986, section 6.2.2.
ghost use Rattle.std.specs.Prelude.{◌≡◌, ◌↔◌, IsTrue, IsOk, OnOk, OnErr};
ghost use Rattle.uriparse_reference.specs.Reference.{Parts, Same, Valid, print};
ghost use Rattle.uriparse_reference.specs.Normal.{canonical_texts, normal};

use super::ReferenceOf;
use crate::kind::ReferenceKind;
use std::alloc::{AllocError, Global};

impl<'r, K: ReferenceKind> ReferenceOf<'r, K> {
    /// Whether the text is the normal form's. Then the value is that form, component for
    /// component. Does not allocate.
    pub fn is_normalized(&self) -> bool
        ensures text { IsTrue result ↔ (print (normal self.now) ≡ print self.now) }
        ensures form { IsTrue result → normal self.now ≡ self.now }
    {
        self.reference.is_normalized()
    }

    /// Brings the value into its normal form, as
    /// [`URIReference::normalize`](uriparse_reference::uri_reference::URIReference::normalize)
    /// does.
    ///
    /// Does not allocate if each text is canonical, whatever dot segments the path has. If memory
    /// runs out, the value is unchanged.
    pub fn normalize(&mut self, alloc: Global) -> Result<(), AllocError>
        ensures ok { OnOk result (self.new ≡ normal self.old) }
        ensures err { OnErr result (self.new ≡ self.old) }
        ensures takes_no_memory { print (normal self.old) ≡ print self.old → IsOk result }
        ensures canonical_takes_no_memory { canonical_texts self.old ≡ self.old → IsOk result }

        // Equal references have one normal form.
        ensures equal { OnOk result ((q : Parts) → Valid q → Same self.old q → self.new ≡ normal q) }
    {
        self.reference.normalize(alloc)
    }
}
