//! What a change touches in the trees.
use gu_base::NodeName;

/// What a change made or decided: there stands what stands on it.
#[derive(Clone, Copy, PartialEq, Eq)]
pub enum Touched {
    /// A Trade made its root.
    Root,
    /// A Split made its parts.
    Parts,
    /// A Claim, a Refuse or a Cancel decided this node.
    Node(NodeName),
    /// An Agree or a Raise is a change of terms alone; an Initiate, a Decline or a Reverse is no
    /// change.
    Nothing,
}
