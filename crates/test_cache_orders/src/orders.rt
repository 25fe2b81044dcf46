//! The steps of the generated orders.

use crate::names::Key;
use std::alloc::{AllocError, Global};

/// A call on the cache.
#[derive(Clone, Copy)]
pub enum Call {
    Insert,
    InsertWith,
    InsertFile,
    GetFile,
    Get,
    GetAbsPath,
    Remove,
    Add,
}

/// One step of an order: a call with a key and a size; and for entries that are added another key with a
/// size, and whether each is committed.
#[derive(Clone, Copy)]
pub struct Step {
    pub call: Call,
    pub key: Key,
    pub size: u64,
    pub other: Key,
    pub more: u64,
    pub commits: bool,
    pub other_commits: bool,
}

fn call_of(word: u64) -> Call {
    match word % 12 {
        0 | 1 => Call::Insert,
        2 => Call::InsertWith,
        3 => Call::InsertFile,
        4 => Call::GetFile,
        5 => Call::Get,
        6 => Call::GetAbsPath,
        7 => Call::Remove,
        _ => Call::Add,
    }
}

fn key_of(word: u64) -> Key {
    match word % 9 {
        0 | 1 => Key::First,
        2 | 3 => Key::Second,
        4 | 5 => Key::Third,
        6 | 7 => Key::Fourth,
        _ => Key::Bad,
    }
}

// The next word of a row of words that look like chance: a linear congruence, and its high bits mixed in.
fn next_word(word: u64) -> u64 {
    let next = word
        .wrapping_mul(6364136223846793005)
        .wrapping_add(1442695040888963407);
    next ^ (next >> 29)
}

impl Step {
    /// The step of a number in an order.
    pub fn of(order: u64, number: u64) -> Step {
        let first = next_word(next_word(order.wrapping_mul(64).wrapping_add(number)));
        let second = next_word(first);
        Step {
            call: call_of(first >> 8),
            key: key_of(first >> 24),
            size: (first >> 40) % 24,
            other: key_of(second >> 8),
            more: (second >> 24) % 14,
            commits: (second >> 40) % 4 != 0,
            other_commits: (second >> 44) % 2 == 0,
        }
    }
}

/// So many times one letter.
pub fn letters(alloc: Global, letter: u8, size: u64) -> Result<Vec<u8>, AllocError> {
    let mut bytes = Vec::new(alloc);
    for _ in 0..size {
        bytes.push(letter)?;
    }
    Ok(bytes)
}
