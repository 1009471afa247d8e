//! Orders of a history's calls: reading one, and judging whether it is a legal order of set calls.
#![tactic(auto)]

pub mod calls;
mod ends;
pub mod fault;
pub mod finding;
pub mod judging;
pub mod naming;
pub mod order;
pub mod places;
pub mod reading;
mod rules;
pub mod set;
pub mod verdict;

pub use fault::OrderFault;
pub use judging::check_order;
pub use order::Order;
pub use reading::read_order;
pub use verdict::{OrderRule, OrderVerdict};
