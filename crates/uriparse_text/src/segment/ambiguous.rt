//! Segments that servers take for different paths: RFC 3986, sections 3.3 and 7.3.
ghost use Rattle.std.specs.Prelude.{◌≡◌};
ghost use Rattle.uriparse_text.specs.Ambiguous as spec;

use super::Segment;
use crate::internal::{has_ambiguous_escape, has_dots_before_end};

impl<'s> Segment<'s> {
    /// Whether servers may take the segment for several segments, or for a dot segment: it has an
    /// escape of NUL, `%`, `/` or `\`, or it is `.` or `..`, each dot possibly escaped, with a `;`, or an
    /// escape of `;`, `?` or `#`, and whatever follows. Does not allocate.
    ///
    /// By RFC 3986, section 3.3, such a segment is one name. But a proxy and the server behind it
    /// may decode escapes once or twice, or drop what follows a `;`, before they remove dot segments:
    /// section 7.3. So `/app/..;/admin` and `/app/%2e%2e%2fadmin` lead past a check of paths, as CWE-22
    /// describes. So does `/app/..%3B/admin` behind a proxy that decodes it and passes `;` on.
    ///
    /// ```
    /// assert!(Segment::try_from_str("..%2fadmin")?.is_ambiguous());
    /// assert!(Segment::try_from_str("%2e.;x")?.is_ambiguous());
    /// assert!(Segment::try_from_str("..%3Bx")?.is_ambiguous());
    /// assert!(!Segment::try_from_str("a;x=1")?.is_ambiguous());
    /// ```
    #[tactic(auto, unfolding(crate::specs::Ambiguous::is_ambiguous))]
    pub fn is_ambiguous(&self) -> bool
        ensures { result ≡ spec.is_ambiguous self.now }
    {
        has_ambiguous_escape(self.as_bytes()) || has_dots_before_end(self.as_bytes())
    }
}
