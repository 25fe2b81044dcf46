//! The lines of a script.
pub use farm_script::lines::{Line, SetupLine};
