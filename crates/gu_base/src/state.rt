//! How an entry or a node stands.
/// The status of an entry, or the state of a node.
#[derive(Clone, Copy, Debug, PartialEq, Eq)]
pub enum State {
    /// A trade, a split into own parts, a declined reversal; a root or an own part.
    Held,
    /// A split with given parts; a given part that nobody has decided.
    Offered,
    /// A given part that its taker has claimed.
    Claimed,
    /// A given part that its taker has refused.
    Refused,
    /// A given part that its giver has cancelled.
    Cancelled,
    /// A consent to a reversal.
    ReversalPending,
    /// A reversal.
    Reversed,
}
