//! Memory that ends: what the heap still gives is held, so that a request for more is refused.
use std::alloc::{AllocError, Global};

const MAX_BLOCKS: usize = 1_000_000;

const BLOCK: usize = 100_000;

// Takes all that the heap gives, in blocks of halving sizes, so many at most.
fn take_all(alloc: Global, most: usize) -> Result<Vec<Vec<u8>>, AllocError> {
    let mut held = Vec::with_capacity(alloc, most)?;
    for shift in 0..37u32 {
        let size = (1usize << 40) >> shift;
        for _ in 0..200_000u32 {
            if held.len() >= most {
                return Ok(held);
            }
            match Vec::with_capacity(alloc, size) {
                Ok(block) => held.push(block)?,
                Err(_) => break,
            }
        }
    }
    Ok(held)
}

fn reserve(alloc: Global, blocks: u32) -> Result<Vec<Vec<u8>>, AllocError> {
    let mut reserve = Vec::with_capacity(alloc, blocks as usize)?;
    for _ in 0..blocks {
        let block: Vec<u8> = Vec::with_capacity(alloc, BLOCK)?;
        reserve.push(block)?;
    }
    Ok(reserve)
}

/// Holds all of the heap but so many blocks of 100,000 octets: what is held, until it is dropped.
pub fn hold_all_but(alloc: Global, blocks: u32) -> Result<Vec<Vec<u8>>, AllocError> {
    let reserve = reserve(alloc, blocks)?;
    let held = take_all(alloc, MAX_BLOCKS)?;
    drop(reserve);
    Ok(held)
}

/// Holds what the heap still gives but for one block of so many octets: what is held, until it is dropped.
pub fn hold_within(alloc: Global, octets: usize) -> Result<Vec<Vec<u8>>, AllocError> {
    let budget: Vec<u8> = Vec::with_capacity(alloc, octets)?;
    let held = take_all(alloc, 8_000)?;
    drop(budget);
    Ok(held)
}
