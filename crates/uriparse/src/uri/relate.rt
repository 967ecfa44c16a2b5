//! The reference that leads from a base to a URI: the inverse of RFC 3986, section 5.2.
ghost use Rattle.std.specs.Prelude.{◌≡◌, IfOk, IsOk, Some, false};
ghost use Rattle.uriparse_path.specs.Dots.{has_dot_segment};
ghost use Rattle.uriparse_reference.specs.Relate.{AreInOne, IsInPlace, LeavesOut, relative};
ghost use Rattle.uriparse_reference.specs.Target.{target};

use super::URI;
use std::alloc::{AllocError, Global};
use uriparse_reference::internal::relativize;
use uriparse_reference::uri_reference::URIReference;

impl<'u> URI<'u> {
    /// The reference that leads from this URI to `uri`: resolved against this URI, it yields what
    /// `uri` itself yields, which is `uri` again if its path has no dot segments. It borrows the
    /// texts of `uri`.
    ///
    /// It omits what both have in the same spelling, from the front: the scheme, then the authority,
    /// then directories; and the query if all before it is the same. If scheme and authority are the
    /// same, the path is relative: `..` for each directory of this URI's path that the other is not
    /// in, then the segments after those that it is in; a leading `.` precedes a first segment that
    /// is empty or has a colon. If the paths are the same too, there is no path, unless a query
    /// must be dropped. No relative path leads there if the paths have dot segments, or only one is
    /// absolute, or both are relative and `..` would climb out of the first directory, or they are
    /// too long. Then the reference has the whole path; and if that cannot stand alone, or the
    /// authorities differ, the authority or the scheme too.
    ///
    /// Allocates the list of segments once, and nothing if no path is needed; running out of memory is
    /// the only error.
    ///
    /// ```
    /// let base = URI::try_from_str(alloc, "http://a/b/c/d;p?q")?;
    /// let uri = URI::try_from_str(alloc, "http://a/b/g#s")?;
    /// assert_eq!(base.relativize(alloc, &uri)?.to_string(alloc)?.as_str(), "../g#s");
    /// ```
    pub fn relativize<'a>(
        &self,
        alloc: Global,
        uri: &'a URI<'_>,
    ) -> Result<URIReference<'a>, AllocError>
        // It is exactly this one.
        ensures exact { IfOk result (λ r. r ≡ relative self.now uri.now) }

        // It has the target that the URI itself has.
        ensures law { IfOk result (λ r. target self.now r ≡ target self.now uri.now) }

        // That is the URI again, if its path has no dot segments.
        ensures back { has_dot_segment uri.now.path.segments ≡ false → IfOk result (λ r. target self.now r ≡ Some uri.now) }

        // What it leaves out.
        ensures short { IfOk result (λ r. LeavesOut self.now uri.now r) }

        // Without a path it takes no memory.
        ensures takes_no_memory { AreInOne self.now uri.now → IsInPlace self.now uri.now → IsOk result }
    {
        relativize(alloc, &self.reference, &uri.reference)
    }
}
