//! The state after a block, with its digest.
ghost use Rattle.std.specs.Prelude.{◌≡◌, IfOk};
ghost use Rattle.plain_digest.specs.Digest.{digest_of};

use plain_digest::digest;
use plain_ledger::State;
use std::alloc::{AllocError, Global};

/// A state with its digest, which is taken once.
#[derive(Drop)]
pub struct Next {
    /// The state.
    pub state: State,
    /// Its digest.
    pub digest: [u8; 32],
    ghost digested: { digest ≡ digest_of state },
}

impl Next {
    /// The state with its digest.
    pub fn new(alloc: Global, state: State) -> Result<Next, AllocError>
        ensures { IfOk result (λ next. next.state ≡ state) }
    {
        let digest = digest(alloc, &state)?;
        Ok(Next { state, digest })
    }
}
