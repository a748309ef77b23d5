//! A stop before each call of the book, at which a test holds a call.

/// Asked by a worker just before each call of the book. A test holds a call with it; a server in
/// service lets all pass.
pub trait Gate {
    /// Whether the worker, counted from 0, may make its call. On `false` it makes none, and closes
    /// its connection.
    fn before_book(&self, worker: u32) -> bool;
}
