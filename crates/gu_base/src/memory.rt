//! The one error for want of memory.
use std::alloc::AllocError;

/// Memory was refused. A call that answers it says what it leaves then: mostly all is as it was, so
/// that it may be made again.
///
/// It is the kit's own error under the name that this service gives it, so that `?` makes it of
/// every refused growth.
pub type Memory = AllocError;
