//! What every layer shares: the two accesses, pairs of values for them, the
//! numbered refusals, and the front of a slice.
#![tactic(auto)]

pub mod access;
pub mod equality;
pub mod fronts;
pub mod pair;
pub mod refusal;

pub use access::Access;
pub use equality::equality_is_exact;
pub use fronts::front;
pub use pair::Pair;
pub use refusal::Refusal;
