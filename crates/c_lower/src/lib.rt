//! The compiler: from a module to a unit of the C subset that does what the module does.
#![tactic(auto)]

mod import;
mod module;
mod name;
mod procedure;

pub use module::{lower, units_export_what_modules_export};
