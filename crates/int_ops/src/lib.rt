//! Operators on whole numbers: which kinds of numbers have which operator, which numbers a kind has, and what each operator
//! answers, exact on every kind or with the reason why there is no answer.
#![tactic(auto)]

mod answer;
mod arithmetic;
mod modular;
mod operator;
mod range;

pub use answer::{apply, fits};
pub use operator::{Op, Stop, allowed};
pub use range::Range;
