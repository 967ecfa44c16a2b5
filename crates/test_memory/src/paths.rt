//! What memory a path wants.

use crate::scarce::{Outcome, complaint, refusals, starve};
use std::alloc::Global;
use std::test::Fail;
use test_rows::answer::repeated;
use uriparse_path::path::{Path, PathError, Segment};

fn faulty_path(alloc: Global) -> Outcome {
    match Path::try_from_str(alloc, "a/b c") {
        Err(PathError::InvalidCharacter) => Outcome::Right,
        _ => Outcome::Wrong,
    }
}

#[test]
fn a_faulty_path_wants_no_memory(rt: HostRuntime) -> Result<(), Fail> {
    let outcomes = starve(rt.alloc(), 4096, faulty_path)?;
    assert_eq!(rt; complaint(&outcomes, 0), "");
    Ok(())
}

/// A path of this many segments.
const PATH: &str = "a/b/c/d/e/f/g/h/i/j/k/l/m/n/o/p/q/r/s/t/u/v/w/x/y/z";

fn path(alloc: Global) -> Outcome {
    match Path::try_from_str(alloc, PATH) {
        Ok(_) => Outcome::Right,
        Err(_) => Outcome::Refused,
    }
}

/// The room for the list of its segments, and nothing else.
fn room(alloc: Global) -> Outcome {
    match Vec::<Segment<'static>>::with_capacity(alloc, 26) {
        Ok(_) => Outcome::Right,
        Err(_) => Outcome::Refused,
    }
}

#[test]
fn a_path_asks_for_its_list_alone(rt: HostRuntime) -> Result<(), Fail> {
    let of_path = starve(rt.alloc(), 4096, path)?;
    let of_room = starve(rt.alloc(), 4096, room)?;
    assert_eq!(rt; complaint(&of_path, 4), "");
    assert_eq!(rt; refusals(&of_path), refusals(&of_room));
    Ok(())
}

/// Reads a path that is as long as can be, but for one segment.
fn long_path(alloc: Global, text: &str) -> Outcome {
    match Path::try_from_str(alloc, text) {
        Ok(path) if path.segments().len() == 999_999 => Outcome::Right,
        Err(PathError::OutOfMemory) => Outcome::Refused,
        _ => Outcome::Wrong,
    }
}

#[test]
fn a_long_path_is_read_or_wants_memory(rt: HostRuntime) -> Result<(), Fail> {
    let text = repeated(rt.alloc(), 999_999, "/x")?;
    let outcomes = starve(rt.alloc(), 4096, |alloc| long_path(alloc, text.as_str()))?;
    assert_eq!(rt; complaint(&outcomes, 4), "");
    Ok(())
}
