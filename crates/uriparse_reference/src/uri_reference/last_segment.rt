//! The last segment of a reference's path: RFC 3986, section 3.3.
ghost use Rattle.std.specs.Prelude.{◌≡◌, Ok};
ghost use Rattle.uriparse_text.specs.Readings.{SettlesUnless, of_piece};
ghost use Rattle.uriparse_path.specs.Edits.{popped, pushing};
ghost use Rattle.uriparse_text.specs.declared.segment.error.PathError.TheVariants.{OutOfMemory};
ghost use Rattle.uriparse_reference.specs.declared.uri_reference.error.URIReferenceError.TheVariants as errors;
ghost use Rattle.uriparse_reference.specs.declared.uri_reference.edit.Edit.TheVariants as edits;
ghost use Rattle.uriparse_reference.specs.Edits.{edited, segment_pushed};

use super::URIReference;
use super::edit::{fit_path, path_conflict};
use super::error::URIReferenceError;
use std::alloc::Global;
use uriparse_path::path::{Path, Segment};

/// Appends a segment to a path, with the error of a reference.
fn push<'r>(
    path: &mut Path<'r>,
    alloc: Global,
    segment: Segment<'r>,
) -> Result<(), URIReferenceError>
    ensures { SettlesUnless (errors.Path OutOfMemory) path.old path.new result (of_piece errors.Path (pushing path.old (Ok segment.entry))) }
{
    match path.push(alloc, segment) {
        Ok(()) => Ok(()),
        Err(error) => Err(URIReferenceError::Path(error)),
    }
}

impl<'r> URIReference<'r> {
    /// Appends a segment to the path, as [`Path::push`] does: a nonempty one replaces an empty
    /// segment that is the only one. The path may then stand in the reference as
    /// [`set_path`](URIReference::set_path) decides.
    ///
    /// Returns [`Path`](URIReferenceError::Path) of
    /// [`ExceededMaximumLength`](uriparse_path::path::PathError::ExceededMaximumLength) if the path
    /// is full, or of [`OutOfMemory`](uriparse_path::path::PathError::OutOfMemory) if the list
    /// cannot grow; else the error of [`set_path`](URIReference::set_path). On an error the
    /// reference is unchanged. Allocates if the list has to grow.
    ///
    /// ```
    /// let mut reference = URIReference::try_from_str(alloc, "http://h/a?q")?;
    /// reference.push_segment(alloc, Segment::try_from_str("b")?)?;
    /// assert_eq!(reference.to_string(alloc)?.as_str(), "http://h/a/b?q");
    /// ```
    pub fn push_segment(
        &mut self,
        alloc: Global,
        segment: Segment<'r>,
    ) -> Result<(), URIReferenceError>
        ensures { SettlesUnless (errors.Path OutOfMemory) self.old self.new result (segment_pushed self.old segment.entry) }
    {
        push(&mut self.path, alloc, segment)?;
        let has_authority = self.authority.is_some();
        match path_conflict(self.scheme.is_some(), has_authority, &self.path) {
            Some(error) => {
                self.path.pop();
                Err(error)
            }
            None => {
                fit_path(has_authority, &mut self.path);
                Ok(())
            }
        }
    }

    /// Removes the last segment of the path, as [`Path::pop`] does: the only one is replaced by an
    /// empty one. Does not allocate.
    ///
    /// ```
    /// let mut reference = URIReference::try_from_str(alloc, "http://h/a/b?q")?;
    /// reference.pop_segment();
    /// assert_eq!(reference.to_string(alloc)?.as_str(), "http://h/a?q");
    /// ```
    pub fn pop_segment(&mut self)
        ensures value { self.new ≡ record self.old { path = popped self.old.path } }
        ensures edited { edited self.old (edits.Path (popped self.old.path)) ≡ Ok self.new }
    {
        self.path.pop();
    }
}
