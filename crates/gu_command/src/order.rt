//! What is asked for where a book is to be kept.

use crate::options::KeepOptions;

/// What a line asks for that keeps a book.
#[derive(Drop)]
pub struct Order {
    /// The path of the house file.
    pub house: String,
    /// The path of the journal.
    pub journal: String,
    pub port: u16,
    /// How many workers serve: 1 to 16.
    pub workers: u32,
    /// After how many connections the server ends; 0: never.
    pub connections: u32,
    pub options: KeepOptions,
}
