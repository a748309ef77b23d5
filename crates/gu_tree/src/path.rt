//! The way to a node.
use arrayvec::ArrayVec;

/// The depth of the deepest nodes: a root has depth 0, its parts 1. A Split of a node at this depth
/// is refused as TooDeep (`docs/book.md`).
pub const MAX_DEPTH: usize = 64;

/// The way from the root to a node: at each step the place of the part to go to, counted from 0.
/// That of the root has no step.
pub type Path = ArrayVec<u8, MAX_DEPTH>;
