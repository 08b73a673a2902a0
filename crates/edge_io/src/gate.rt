//! Where a test may hold a worker.

/// A point that a worker passes. It changes no result and always returns.
pub trait Gate {
    /// Called by the worker of an operation, before the access or run that the point names.
    fn at(&self, op: u32, point: u32);
}

/// A gate that holds nobody.
#[derive(Clone, Copy, Debug)]
pub struct OpenGate;

impl Gate for OpenGate {
    fn at(&self, _op: u32, _point: u32) {}
}
