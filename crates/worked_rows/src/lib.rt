//! Tables of what the public calls of the crates below answer, each with ample memory: what no clause of theirs says, since want of
//! memory is always an answer that a clause allows. They stand apart from the crates, so that no crate is proved a second time for its tests.
#![tactic(auto)]

#[cfg(test)]
mod areas;
#[cfg(test)]
mod bit_fields;
#[cfg(test)]
mod c_types;
#[cfg(test)]
mod cores;
#[cfg(test)]
mod effects;
#[cfg(test)]
mod generated;
#[cfg(test)]
mod guards;
#[cfg(test)]
mod indexes;
#[cfg(test)]
mod memory_of_c;
#[cfg(test)]
mod numbers;
#[cfg(test)]
mod operators;
#[cfg(test)]
mod paths;
#[cfg(test)]
mod regions;
#[cfg(test)]
mod scripts;
#[cfg(test)]
mod sites;
#[cfg(test)]
mod stores;
#[cfg(test)]
mod streams;
#[cfg(test)]
mod tokens;
#[cfg(test)]
mod words;
