//! The calls that read, digest and compare trees of files.
pub use gb_tree::changes::compare;
pub use gb_tree::digest::prints;
pub use gb_tree::output::outputs;
pub use gb_tree::property::snapshot;
