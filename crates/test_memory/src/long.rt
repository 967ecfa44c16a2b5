//! Long references that are read, copied, normalized, resolved against, built and pushed to. Each
//! result is exact, and returned: a call that runs out of memory for long texts alone fails.

use crate::texts::{Sizes, Test, longer_text, path_text, reference_text, sizes_of, target_text};
use std::alloc::{AllocError, Global};
use std::test::Fail;
use test_rows::answer::{Answer, said};
use test_rows::{Layer, wrong_rows};
use uriparse_path::path::{Path, Segment};
use uriparse_reference::internal::resolve;
use uriparse_reference::uri_reference::{Edit, URIReference};

/// Whether a reference prints this text.
fn prints(alloc: Global, reference: &URIReference<'_>, text: &str) -> Test {
    let printed = reference.to_string(alloc)?;
    let shown = format!(in alloc; "{reference}")?;
    Ok(printed.as_str() == text && shown.as_str() == text)
}

/// Whether a copy that owns its texts prints this text.
fn copy_prints(alloc: Global, reference: &URIReference<'_>, text: &str) -> Test {
    let copy = reference.to_borrowed(alloc)?.into_owned(alloc)?;
    prints(alloc, &copy, text)
}

/// Whether the normal form prints this text.
fn normal_prints(alloc: Global, reference: &mut URIReference<'_>, text: &str) -> Test {
    match reference.normalize(alloc) {
        Ok(()) => prints(alloc, reference, text),
        Err(_) => Ok(false),
    }
}

/// Whether the normal form prints this text, made by a list of edits.
fn edited_prints(alloc: Global, reference: &mut URIReference<'_>, text: &str) -> Test {
    let edits = vec![in alloc; Edit::Normalize]?;
    match reference.apply_all(alloc, edits) {
        Ok(()) => prints(alloc, reference, text),
        Err(_) => Ok(false),
    }
}

/// Whether the target of `~` against this base, if it has a scheme, prints this text.
fn target_prints(alloc: Global, base: &URIReference<'_>, text: &str) -> Test {
    let Ok(reference) = URIReference::try_from_str(alloc, "~") else {
        return Ok(false);
    };
    if base.scheme().is_none() {
        return Ok(false);
    }
    match resolve(alloc, base, &reference) {
        Ok(target) => prints(alloc, &target, text),
        Err(_) => Ok(false),
    }
}

/// Whether the reference that this text reads as prints it.
fn reads(alloc: Global, text: &str) -> Test {
    match URIReference::try_from_str(alloc, text) {
        Ok(reference) => prints(alloc, &reference, text),
        Err(_) => Ok(false),
    }
}

/// Whether a copy of the reference that this text reads as prints it.
fn copies(alloc: Global, text: &str) -> Test {
    match URIReference::try_from_str(alloc, text) {
        Ok(reference) => copy_prints(alloc, &reference, text),
        Err(_) => Ok(false),
    }
}

/// Whether the normal form of a text prints the other one.
fn normalizes(alloc: Global, text: &str, normal: &str) -> Test {
    match URIReference::try_from_str(alloc, text) {
        Ok(mut reference) => normal_prints(alloc, &mut reference, normal),
        Err(_) => Ok(false),
    }
}

/// Whether the reference that a text reads as prints the other text once a list of edits has
/// normalized it.
fn edits(alloc: Global, text: &str, normal: &str) -> Test {
    match URIReference::try_from_str(alloc, text) {
        Ok(mut reference) => edited_prints(alloc, &mut reference, normal),
        Err(_) => Ok(false),
    }
}

/// Whether `~` against this base has this target.
fn resolves(alloc: Global, base: &str, target: &str) -> Test {
    match URIReference::try_from_str(alloc, base) {
        Ok(base) => target_prints(alloc, &base, target),
        Err(_) => Ok(false),
    }
}

/// Whether a builder that is given this path alone accepts it, and builds a reference that prints it.
fn builds(alloc: Global, path: &str) -> Test {
    let mut builder = URIReference::builder();
    let accepted = builder.try_path(alloc, path.as_bytes()).is_ok();
    match builder.build() {
        Ok(reference) => Ok(accepted && prints(alloc, &reference, path)?),
        Err(_) => Ok(false),
    }
}

/// Whether a path prints this text after an edit that was accepted.
fn edited_path(alloc: Global, accepted: bool, path: &Path<'_>, text: &str) -> Test {
    let printed = path.to_string(alloc)?;
    Ok(accepted && printed.as_str() == text)
}

/// Whether the path prints the longer text after `~` is pushed.
fn pushes(alloc: Global, path: &str, longer: &str) -> Test {
    let Ok(segment) = Segment::try_from_str("~") else {
        return Ok(false);
    };
    match Path::try_from_str(alloc, path) {
        Ok(mut path) => {
            let accepted = path.push(alloc, segment).is_ok();
            edited_path(alloc, accepted, &path, longer)
        }
        Err(_) => Ok(false),
    }
}

/// Whether the path that this text reads as, with the bytes of `~` pushed, prints the longer text.
fn pushes_bytes(alloc: Global, path: &str, longer: &str) -> Test {
    match Path::try_from_str(alloc, path) {
        Ok(mut path) => {
            let accepted = path.push_bytes(alloc, b"~").is_ok();
            edited_path(alloc, accepted, &path, longer)
        }
        Err(_) => Ok(false),
    }
}

/// What is asked about a reference of each size.
#[derive(Clone, Copy)]
enum Question {
    Reads,
    Copies,
    Normalizes,
    Edits,
    Resolves,
    Builds,
    Pushes,
    PushesBytes,
}

/// What is asked about the reference of these sizes alone.
fn of_reference(alloc: Global, question: Question, sizes: Sizes) -> Test {
    let text = reference_text(alloc, sizes, "%7e")?;
    match question {
        Question::Reads => reads(alloc, text.as_str()),
        _ => copies(alloc, text.as_str()),
    }
}

/// What is asked about it and its normal form.
fn of_normal_form(alloc: Global, question: Question, sizes: Sizes) -> Test {
    let text = reference_text(alloc, sizes, "%7e")?;
    let normal = reference_text(alloc, sizes, "~")?;
    match question {
        Question::Normalizes => normalizes(alloc, text.as_str(), normal.as_str()),
        _ => edits(alloc, text.as_str(), normal.as_str()),
    }
}

/// What is asked about it as a base.
fn of_target(alloc: Global, sizes: Sizes) -> Test {
    let base = reference_text(alloc, sizes, "%7e")?;
    let target = target_text(alloc, sizes, "%7e")?;
    resolves(alloc, base.as_str(), target.as_str())
}

/// What is asked about its path alone.
fn of_path(alloc: Global, sizes: Sizes) -> Test {
    let path = path_text(alloc, sizes.segments, "%7e")?;
    builds(alloc, path.as_str())
}

/// What is asked about its path with one more segment.
fn of_longer_path(alloc: Global, question: Question, sizes: Sizes) -> Test {
    let path = path_text(alloc, sizes.segments, "%7e")?;
    let longer = longer_text(alloc, sizes, "%7e")?;
    match question {
        Question::Pushes => pushes(alloc, path.as_str(), longer.as_str()),
        _ => pushes_bytes(alloc, path.as_str(), longer.as_str()),
    }
}

/// Whether the answer is the one that is wanted.
fn is_right(alloc: Global, question: Question, sizes: Sizes) -> Test {
    match question {
        Question::Reads | Question::Copies => of_reference(alloc, question, sizes),
        Question::Normalizes | Question::Edits => of_normal_form(alloc, question, sizes),
        Question::Resolves => of_target(alloc, sizes),
        Question::Builds => of_path(alloc, sizes),
        Question::Pushes | Question::PushesBytes => of_longer_path(alloc, question, sizes),
    }
}

/// The name of a truth value in rows.
pub fn told(alloc: Global, right: bool) -> Answer {
    said(alloc, if right { "right" } else { "wrong" })
}

impl Layer for Question {
    fn rows(&self) -> (&'static str, &'static str) {
        ("long", ROWS)
    }

    fn answer(&self, alloc: Global, asked: &str) -> Answer {
        told(alloc, is_right(alloc, *self, sizes_of(asked))?)
    }
}

static WHOLE: [Question; 5] = [
    Question::Reads,
    Question::Copies,
    Question::Normalizes,
    Question::Edits,
    Question::Resolves,
];

static PATHS: [Question; 3] = [Question::Builds, Question::Pushes, Question::PushesBytes];

#[test]
fn long_references_are_answered(rt: HostRuntime) -> Result<(), Fail> {
    let wrong = wrong_rows(rt.alloc(), &WHOLE)?;
    assert!(rt; wrong.is_empty(), "{wrong}");
    Ok(())
}

#[test]
fn long_paths_are_answered(rt: HostRuntime) -> Result<(), Fail> {
    let wrong = wrong_rows(rt.alloc(), &PATHS)?;
    assert!(rt; wrong.is_empty(), "{wrong}");
    Ok(())
}

/// How many segments and how many tokens.
pub const ROWS: &str = "\
1 1 -> right
1 2 -> right
1 4 -> right
1 8 -> right
1 16 -> right
1 32 -> right
1 64 -> right
1 128 -> right
1 256 -> right
1 512 -> right
1 1024 -> right
1 2048 -> right
1 4096 -> right
1 8192 -> right
1 16384 -> right
1 32768 -> right
2 1 -> right
4 1 -> right
8 1 -> right
16 1 -> right
32 1 -> right
64 1 -> right
128 1 -> right
256 1 -> right
512 1 -> right
1024 1 -> right
2048 1 -> right
4096 1 -> right
8192 1 -> right
16384 1 -> right
32768 1 -> right
65534 1048576 -> right
999999 1 -> right";
