//! Costs of e-nodes and terms, and tables of least costs, which have a filed e-node of least cost for each class.
//!
//! A cost function gives the cost of an e-node over the costs of its children; [`CostFunction`] states its laws.
//! [`AstSize`] counts e-nodes. [`weighed_sum`] helps to write cost functions that add a weight of the e-node to the
//! costs of its children.
#![tactic(auto)]

pub mod ast_size;
pub(crate) mod candidate;
pub mod cost;
pub mod entry;
pub mod making;
pub(crate) mod pricing;
pub mod table;
pub(crate) mod users;
pub mod weights;

pub use ast_size::AstSize;
pub use cost::{CostFunction, costs_are_lawful};
pub use entry::CostEntry;
pub use making::make_table;
pub use table::CostTable;
pub use weights::weighed_sum;
