//! Answers that are put together.

use sqlite_items::{Boxed, Items};
use std::alloc::{AllocError, Global};

/// The answer where a look-up fails.
///
/// A tree without fault names nothing that isn't known, so this never comes. What is built is compared with its tree in
/// any case, and want of memory is the one refusal that says nothing of the tree.
pub fn lost<T>() -> Result<T, AllocError> {
    Err(AllocError)
}

/// What was looked up.
pub fn found<T>(sought: Option<T>) -> Result<T, AllocError> {
    match sought {
        Some(thing) => Ok(thing),
        None => lost(),
    }
}

/// Both answers, or the first error.
pub fn both<A: Drop, B: Drop>(
    first: Result<A, AllocError>,
    second: Result<B, AllocError>,
) -> Result<(A, B), AllocError> {
    match first {
        Ok(first) => match second {
            Ok(second) => Ok((first, second)),
            Err(error) => {
                drop(first);
                Err(error)
            }
        },
        Err(error) => {
            drop(second);
            Err(error)
        }
    }
}

/// What was made, if it was done without an error.
pub fn finished<T: Drop>(made: T, done: Result<(), AllocError>) -> Result<T, AllocError> {
    match done {
        Ok(()) => Ok(made),
        Err(error) => {
            drop(made);
            Err(error)
        }
    }
}

/// Adds an item at the end, if there is one. After an error the items are as before.
pub fn add<T: Drop>(items: &mut Items<T>, item: Result<T, AllocError>) -> Result<(), AllocError> {
    match item {
        Ok(item) => items.push(item),
        Err(error) => Err(error),
    }
}

/// The value as one that is there.
pub fn some<T: Drop>(value: Result<T, AllocError>) -> Result<Option<T>, AllocError> {
    match value {
        Ok(value) => Ok(Some(value)),
        Err(error) => Err(error),
    }
}

/// The value on the heap.
pub fn boxed<T: Drop>(alloc: Global, value: Result<T, AllocError>) -> Result<Boxed<T>, AllocError> {
    match value {
        Ok(value) => Boxed::new(alloc, value),
        Err(error) => Err(error),
    }
}

/// The position behind so many things of a kind, of which a file has at most 64.
pub fn position(count: usize) -> Result<u8, AllocError> {
    match u8::try_from(count) {
        Ok(at) => Ok(at),
        Err(_) => lost(),
    }
}
