//! Want of memory, under the name that this repository gives it.

use std::alloc::AllocError;

/// The allocator had no memory left; what the call was lent is as before.
pub type NoMemory = AllocError;
