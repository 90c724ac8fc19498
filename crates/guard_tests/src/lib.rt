//! Tests of the runs that keep checkpoints, over the program, hosts and vaults in memory.
//!
//! `runs` has whole runs, guarded and resumed, with what each keeps, says and saves; `stops` runs that are stopped at each of their calls on the vault;
//! `refusals` why a run is refused, in which order, and with how much room; `gates` vaults that are bad, closed or damaged; `failing` hosts that fail or lie in
//! the middle; `words` bad words, and the other commands. `images` has the images that are run, as tables of objects, `states` how what is kept or saved differs
//! from them, `commands` how a command is run. What is wanted is what the reference machine leaves, where each checkpoint is a start on what it kept. The crate
//! has no function of its own.
//!
//! - Proved: Nothing: tests over public calls.
//! - Tested: Guarded and resumed runs, stopped at each call on the vault, with what the reference machine leaves; gates, words and
//!   refusals.
//! - Not said: Nothing else.
#![tactic(auto)]

#[cfg(test)]
mod commands;
#[cfg(test)]
mod failing;
#[cfg(test)]
mod gates;
#[cfg(test)]
mod images;
#[cfg(test)]
mod refusals;
#[cfg(test)]
mod runs;
#[cfg(test)]
mod states;
#[cfg(test)]
mod stops;
#[cfg(test)]
mod words;
