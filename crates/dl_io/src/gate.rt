//! A place that the threads of a run pass before each call.

/// What a thread of a run meets before each of its calls, outside the lock. It answers nothing and
/// means nothing: a test holds threads there.
pub trait Gate: Sync {
    /// Node number `node` is about to make a call.
    fn meet(&self, node: u32);
}

/// The gate that is always open.
#[derive(Clone, Copy, Debug)]
pub struct NoGate;

impl Gate for NoGate {
    /// Returns at once.
    fn meet(&self, _node: u32) {}
}
