//! Why a call is refused, what it costs and what it moves: a node is found in the trees, and a
//! change by its number.
pub(crate) mod basis;
pub(crate) mod calls;
pub(crate) mod charges;
pub(crate) mod holdings;
pub(crate) mod naming;
pub(crate) mod nodes;
pub(crate) mod refusals;
pub(crate) mod terms;
