//! Regions of references at a call: which region of the caller each region parameter of the callee stands for. The idea is that
//! of Ivory's references, whose types say in which region they live.
#![tactic(auto)]

mod escape;
mod fault;
pub mod laws;
mod matching;
mod subst;

pub use escape::escapes;
pub use fault::RegionFault;
pub use matching::match_regions;
pub use subst::{Subst, apply_subst};
