//! The names and types of expressions, calls and initializers of the C subset: each form is gone through, and its rules are asked for.
#![tactic(auto)]

mod call;
mod expr;
mod init;

pub use call::{check_call, check_given, check_tested, pass_comma};
pub use expr::{check_base, check_expr, check_place, check_type};
pub use init::check_init;
