//! Whether values are equal, by their tests and by what they feed a Hasher.

use crate::answer::{Answer, verdict};
use std::alloc::{AllocError, Global};
use std::hash::{DefaultHasher, Hash, Hasher};

/// What the value feeds std's Hasher.
pub fn hash_of<T: Hash>(value: &T) -> u64 {
    let mut state = DefaultHasher::new();
    value.hash(&mut state);
    state.finish()
}

/// Whether two values are equal, by both tests.
pub fn same<T: Eq + Hash>(alloc: Global, left: &T, right: &T) -> Answer {
    let hashes = hash_of(left) == hash_of(right);
    verdict(alloc, &[left == right, hashes])
}

/// Whether two values are equal, of which the second one was read, if there was memory.
pub fn same_as<T: Drop + Eq + Hash, E: Drop>(
    alloc: Global,
    left: &T,
    right: Result<T, E>,
) -> Answer {
    match right {
        Ok(right) => same(alloc, left, &right),
        Err(_) => Err(AllocError),
    }
}
