//! Want of memory.

use hv_text::Memory as NoMemory;
use std::alloc::{AllocError, AllocFailed};

/// The answer to a refused growth.
#[derive(Debug, Drop)]
pub struct Memory;

impl From<AllocError> for Memory {
    fn from(_error: AllocError) -> Memory {
        Memory
    }
}

impl<T: Drop> From<AllocFailed<T>> for Memory {
    fn from(_error: AllocFailed<T>) -> Memory {
        Memory
    }
}

impl From<NoMemory> for Memory {
    fn from(_refused: NoMemory) -> Memory {
        Memory
    }
}
