//! Scripts as texts, and the reports of runs.
#![tactic(auto)]

mod cut;
mod fault;
mod fit;
mod laws;
mod line;
mod read;
mod report;

pub use fault::{ScriptError, ScriptFault, ScriptWhy};
pub use fit::fit_script;
pub use laws::examples;
pub use read::read_script;
pub use report::write_report;
pub use run_records::{
    AreaCells, End, EntryCall, Event, Export, Outcome, Piece, Plain, Reason, Reply, Script,
};
