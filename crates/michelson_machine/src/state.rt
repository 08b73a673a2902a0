//! What a run goes on with.

use crate::frame::Frame;
use crate::look::Look;
use crate::pile::Pile;
use map_versions::Versions;
use michelson_code::{Script, Why};
use michelson_rules::{Budget, Env};
use value_core::Val;

/// A run between two steps.
#[derive(Drop)]
pub struct State<'a> {
    /// The script.
    pub script: &'a Script,
    /// Who called.
    pub env: Env,
    /// What is left to do, the next on top.
    pub frames: Pile<Frame<'a>>,
    /// The stack.
    pub stack: Pile<Val>,
    /// The changes of big maps.
    pub versions: Versions,
    /// What it may still spend.
    pub left: Budget,
}

/// What came of a step.
#[derive(Debug, Drop)]
pub enum Step<'a> {
    /// The run goes on.
    On,
    /// It waits for an answer.
    Ask(Look<'a>),
    /// It failed.
    Fail(Why),
    /// Nothing is left to do.
    Return,
}
