//! Scripts of what the outside does in a run, what a run shows of itself, and the outcomes of runs: what the meanings of
//! both languages speak of.
#![tactic(auto)]

mod records;

pub use records::{
    AreaCells, End, EntryCall, Event, Export, Outcome, Piece, Plain, Reason, Reply, Script,
};
