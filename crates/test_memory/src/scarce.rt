//! Memory that runs out, for tests. All that the heap has is taken, and a little of it handed
//! back, so that each request of the code under test is the first refused one in some run.

use std::alloc::{AllocError, Global};

/// The largest block that is requested has 2 to this power bytes.
const LARGEST: u32 = 46;

/// Each size of 16 times a number up to this, and one byte, is requested by itself.
const SMALL: usize = 66;

/// How many blocks of one size are taken at most.
const BLOCKS_OF_A_SIZE: u32 = 40_000;

/// How many blocks are taken at most, over all sizes.
const BLOCKS: usize = 400_000;

/// What a run under scarce memory came to.
#[derive(Clone, Copy, Debug, PartialEq, Eq)]
pub enum Outcome {
    /// It ran out of memory.
    Refused,
    /// It returned what it does with ample memory.
    Right,
    /// It returned something else, or left something changed after running out of memory.
    Wrong,
}

/// Takes blocks of this size until none is left.
fn take_size(alloc: Global, size: usize, blocks: &mut Vec<Vec<u8>>) -> Result<(), AllocError> {
    for _ in 0..BLOCKS_OF_A_SIZE {
        match Vec::with_capacity(alloc, size) {
            Ok(block) => blocks.push(block)?,
            Err(_) => break,
        }
    }
    Ok(())
}

/// Takes all the memory that there is: blocks of falling size, and of each small size, since the
/// heap keeps a list of free blocks for each of these.
fn take_all(alloc: Global) -> Result<Vec<Vec<u8>>, AllocError> {
    let mut blocks = Vec::with_capacity(alloc, BLOCKS)?;
    for power in 0..=LARGEST {
        take_size(alloc, 1usize << (LARGEST - power), &mut blocks)?;
    }
    for step in 0..=SMALL {
        take_size(alloc, 16 * (SMALL - step) + 1, &mut blocks)?;
    }
    Ok(blocks)
}

/// Runs the work once for each 16 bytes up to `most`, with about that much memory to be had, from
/// nothing on, and at last with all of it. Answers what each run came to.
pub fn starve<F: Fn(Global) -> Outcome>(
    alloc: Global,
    most: usize,
    work: F,
) -> Result<Vec<Outcome>, AllocError>
    requires { F.IsAlwaysCallable work }
{
    let mut outcomes = Vec::with_capacity(alloc, most / 16 + 2)?;
    let reserve: Vec<u8> = Vec::with_capacity(alloc, most)?;
    let taken = take_all(alloc)?;
    drop(reserve);
    for left in 0..=most / 16 {
        let pad: Result<Vec<u8>, AllocError> = Vec::with_capacity(alloc, most - 16 * left);
        let outcome = work(alloc);
        drop(pad);
        outcomes.push(outcome)?;
    }
    drop(taken);
    outcomes.push(work(alloc))?;
    Ok(outcomes)
}

/// What is wrong with these outcomes, of which at least `least` must be errors.
pub fn complaint(outcomes: &[Outcome], least: usize) -> &'static str {
    let refused = refusals(outcomes);
    if outcomes.iter().any(|o| *o == Outcome::Wrong) {
        return "a wrong answer";
    }
    if refused < least || refused >= outcomes.len() {
        return "too few or too many refusals";
    }
    if outcomes.last().is_some_and(|o| *o == Outcome::Right) {
        ""
    } else {
        "no right answer at the end"
    }
}

/// How many of the runs were refused memory.
pub fn refusals(outcomes: &[Outcome]) -> usize {
    outcomes.iter().filter(|o| **o == Outcome::Refused).count()
}
