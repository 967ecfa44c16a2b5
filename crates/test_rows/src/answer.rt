//! Parses the inputs of test rows and formats their results.

use std::alloc::{AllocError, Global};
use std::fmt::{Display, Write};

/// The result, or `AllocError`.
pub type Answer = Result<String, AllocError>;

/// The first word of a line, and what follows it.
pub fn word(line: &str) -> (&str, &str) {
    match line.strip_prefix('\'') {
        Some(quoted) => {
            let (word, rest) = quoted.split_once('\'').unwrap_or((quoted, ""));
            (word, rest.trim_start())
        }
        None => line.split_once(' ').unwrap_or((line, "")),
    }
}

/// The first three words of a line.
pub fn words(line: &str) -> (&str, &str, &str) {
    let (first, rest) = word(line);
    let (second, rest) = word(rest);
    (first, second, word(rest).0)
}

/// What a line asks about a long text: its command, and the three words that the text is made of,
/// with the number of times that the second is repeated.
pub fn split_long(line: &str) -> (&str, &str, usize, &str, &str) {
    let (command, rest) = word(line);
    let (front, rest) = word(rest);
    let (count, rest) = word(rest);
    let (middle, rest) = word(rest);
    let count = count.parse().unwrap_or(0);
    (command, front, count, middle, word(rest).0)
}

/// How many words are appended to a long text at once.
const BLOCK: usize = 1_000;

/// The word, repeated `count` times, one at a time.
fn repeated_singly(alloc: Global, count: usize, word: &str) -> Answer {
    let mut text = String::new(alloc);
    for _ in 0..count {
        text.push_str(word)?;
    }
    Ok(text)
}

/// The word, repeated `count` times.
pub fn repeated(alloc: Global, count: usize, word: &str) -> Answer {
    if count < BLOCK {
        return repeated_singly(alloc, count, word);
    }
    let block = repeated_singly(alloc, BLOCK, word)?;
    let mut text = repeated_singly(alloc, count / BLOCK, block.as_str())?;
    for _ in 0..count % BLOCK {
        text.push_str(word)?;
    }
    Ok(text)
}

/// An answer of this text.
pub fn said(alloc: Global, text: &str) -> Answer {
    String::from_str(alloc, text)
}

/// What a value or an error prints.
pub fn printed<T: Display + Drop>(alloc: Global, value: T) -> Answer {
    format!(in alloc; "{value}")
}

/// Whether a value prints this text, which no option of the formatter changes.
pub fn shows<T: Display>(alloc: Global, value: &T, text: &str) -> Result<bool, AllocError> {
    let plain = format!(in alloc; "{value}")?;
    let styled = format!(in alloc; "{value:>70.3}")?;
    Ok(plain.as_str() == text && styled.as_str() == text)
}

/// What a value prints, which no option of the formatter changes.
pub fn shown<T: Display>(alloc: Global, value: &T) -> Answer {
    let text = format!(in alloc; "{value}")?;
    if shows(alloc, value, text.as_str())? {
        return Ok(text);
    }
    said(alloc, "another text under options")
}

/// What an error says, or `AllocError` if it is that one.
pub fn refused<E: Display + Drop>(alloc: Global, why: E) -> Answer {
    let text = printed(alloc, why)?;
    if text.as_str() == "out of memory" {
        return Err(AllocError);
    }
    Ok(text)
}

/// What is said of a value that changed although memory ran out. It is made before, while there is
/// memory.
pub fn complaint_of_change(alloc: Global) -> Answer {
    said(alloc, "refused and changed")
}

/// `AllocError` if the value is as it was, else that complaint.
pub fn after_refusal(is_unchanged: bool, complaint: String) -> Answer {
    match is_unchanged {
        true => Err(AllocError),
        false => Ok(complaint),
    }
}

/// Adds a space, the name and the component, if it is present.
pub fn add<T: Display>(text: &mut String, name: &str, part: Option<&T>) -> Result<(), AllocError> {
    let Some(part) = part else {
        return Ok(());
    };
    write!(text, " {name}={part}")
}

/// The names of the tests that hold.
pub fn named(alloc: Global, tests: &[(bool, &str)]) -> Answer {
    let mut text = String::new(alloc);
    for (holds, name) in tests {
        if *holds {
            text.push_str(name)?;
        }
    }
    said(alloc, text.as_str().trim_start())
}

/// What is printed by what was read or made, or by the error.
pub fn told<T: Display + Drop, E: Display + Drop>(alloc: Global, made: Result<T, E>) -> Answer {
    match made {
        Ok(value) => printed(alloc, value),
        Err(why) => printed(alloc, why),
    }
}

/// Whether two values are equal, by several tests that are to agree.
pub fn verdict(alloc: Global, tests: &[bool]) -> Answer {
    if tests.iter().all(|same| *same) {
        return said(alloc, "equal");
    }
    if tests.iter().any(|same| *same) {
        return said(alloc, "equal by some tests alone");
    }
    said(alloc, "different")
}
