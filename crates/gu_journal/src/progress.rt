//! How far a recovery is.

/// Told how far a recovery is.
pub trait Progress {
    /// So many bytes of the file were read, and so many entries taken from them.
    fn read(&mut self, bytes: usize, entries: u32);
}

/// Tells nobody.
#[derive(Clone, Copy)]
pub struct Silent;

impl Progress for Silent {
    fn read(&mut self, _bytes: usize, _entries: u32) {}
}
