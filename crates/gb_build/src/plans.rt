//! The call that plans the requested tasks, in order.
pub use gb_graph::plan::plan;
