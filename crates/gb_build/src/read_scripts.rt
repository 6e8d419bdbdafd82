//! The calls that read scripts.
pub use crate::each_script::read_scripts;
pub use crate::workspace::{read_registry, read_settings_of};
pub use gb_registry::projects::projects;
pub use gb_script::{read_script, read_settings};
