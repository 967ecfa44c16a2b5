//! A log in a pipe: commands of the program `uri` on many lines.

use job_library::digest::Digest;
use job_library::error::JobError;
use job_library::links::link_models;
use job_library::make::put_like;
use job_library::random::Random;
use job_library::texts::Texts;
use std::alloc::{AllocError, Global};
use uri_commands::run_with_input;

/// Runs five commands, each on `count` lines of its own.
pub fn lines(
    alloc: Global,
    count: u64,
    random: &mut Random,
    digest: &mut Digest,
) -> Result<(), JobError> {
    let base = "https://www.example.org/docs/a/b/index.html?q=1";
    let models = link_models(alloc, random)?;
    run_on(alloc, &["--lines", "parse"], count, &models, random, digest)?;
    run_on(
        alloc,
        &["--lines", "get", "host"],
        count,
        &models,
        random,
        digest,
    )?;
    run_on(
        alloc,
        &["--lines", "normalize"],
        count,
        &models,
        random,
        digest,
    )?;
    run_on(
        alloc,
        &["--lines", "resolve", base],
        count,
        &models,
        random,
        digest,
    )?;
    run_on_pairs(alloc, count, &models, random, digest)
}

/// Makes the lines, one in fifty of them with a fault, and runs the command on them.
fn run_on(
    alloc: Global,
    words: &[&str],
    count: u64,
    models: &Texts,
    random: &mut Random,
    digest: &mut Digest,
) -> Result<(), JobError> {
    let mut texts = Texts::new(alloc);
    for _ in 0..count {
        put_like(models, random, &mut texts)?;
        if random.one_in(50) {
            texts.put(
                random
                    .pick(&[" x", "%4", "%zz", "#a#b", "[", "\\"])
                    .as_bytes(),
            )?;
        }
        texts.put(b"\n")?;
    }
    run(alloc, words, &texts, digest);
    Ok(())
}

/// Makes lines of two texts, one in four of them with two that differ, and compares those.
fn run_on_pairs(
    alloc: Global,
    count: u64,
    models: &Texts,
    random: &mut Random,
    digest: &mut Digest,
) -> Result<(), JobError> {
    let mut texts = Texts::new(alloc);
    let mut one = Texts::new(alloc);
    for _ in 0..count {
        one.clear();
        put_like(models, random, &mut one)?;
        texts.put(one.whole())?;
        texts.put(b"\t")?;
        if random.one_in(4) {
            put_like(models, random, &mut texts)?;
        } else {
            put_other_case(one.whole(), &mut texts)?;
        }
        texts.put(b"\n")?;
    }
    run(alloc, &["--lines", "equal"], &texts, digest);
    Ok(())
}

/// Writes the text with its first letter in upper case.
fn put_other_case(text: &[u8], texts: &mut Texts) -> Result<(), AllocError> {
    match text.split_first() {
        Some((first, rest)) => {
            texts.put(&[first.to_ascii_uppercase()])?;
            texts.put(rest)
        }
        None => Ok(()),
    }
}

/// Runs the command on the lines, and adds what it writes and its status.
fn run(alloc: Global, words: &[&str], texts: &Texts, digest: &mut Digest) {
    let mut errors = Digest::new();
    let mut input = texts.whole();
    let status = run_with_input(alloc, words, &mut input, digest, &mut errors);
    digest.add(u64::from(status));
    digest.add(errors.sum());
}
