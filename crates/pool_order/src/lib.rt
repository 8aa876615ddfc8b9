//! First-seen order: the rows that some links of a heap reach, each once, after the rows that it leads to.
#![tactic(auto)]

mod laws;
mod listed;
mod walk;

pub use laws::{
    enters_rows_once, follows_reached, needs_no_depth, order_stays, orders_reached, worked_orders,
};
pub use listed::Order;
pub use walk::{Visit, order};
