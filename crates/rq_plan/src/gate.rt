//! What a worker passes before it begins a task.

/// A worker calls `enter` with the number of a task after it takes the task and before it does it.
pub trait Gate {
    fn enter(&self, task: u32);
}

/// The gate that does nothing.
pub struct Open;

impl Gate for Open {
    fn enter(&self, _task: u32) {}
}
