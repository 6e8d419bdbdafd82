//! Boxes that are made together, so that there is one early return where memory runs out.
use std::alloc::{AllocError, Global};

/// Boxes five values.
pub fn five<A: Drop, B: Drop, C: Drop, D: Drop, E: Drop>(
    alloc: Global,
    a: A,
    b: B,
    c: C,
    d: D,
    e: E,
) -> Result<(Box<A>, Box<B>, Box<C>, Box<D>, Box<E>), AllocError> {
    let (a, b) = two(alloc, a, b)?;
    let (c, d) = two(alloc, c, d)?;
    Ok((a, b, c, d, Box::new(alloc, e)?))
}

/// Boxes two values.
fn two<A: Drop, B: Drop>(alloc: Global, a: A, b: B) -> Result<(Box<A>, Box<B>), AllocError> {
    Ok((Box::new(alloc, a)?, Box::new(alloc, b)?))
}
