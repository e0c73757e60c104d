//! The first form of a module: imports with `uint8_t` parameters, then exported procedures that call imports with numbers.
//! From a tree of any module to what it stands for, and none exactly where it is not of the form.
#![tactic(auto)]

mod call;
mod first;
mod form;
mod import;
mod items;
mod names;
mod procedure;
mod stop;

pub use first::{FirstCall, FirstImport, FirstModule, FirstProc};
pub use form::{first_form, first_form_is_unique, first_form_is_valid};
