//! What is asked for where a book is rolled.

/// Which live changes of a book a new one keeps.
#[derive(Clone, Copy, PartialEq, Eq)]
pub enum Keep {
    /// All of them.
    All,
    /// Those of the trades with a part that waits for a decision, and those of no trade: the
    /// agreements and the raises.
    Open,
}

/// What is asked for where a book is rolled.
#[derive(Clone, Copy)]
pub struct Asked {
    /// Which live changes are kept.
    pub keep: Keep,
    /// Whether it is to be told which entry of the new book concerns which firm.
    pub shares: bool,
}
