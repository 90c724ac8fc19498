//! Tests of the parts of a core: its entries and the table of their names, the segment where bodies lie, objects brought in and written
//! back, and the rows of a method cache.
//!
//! They are over public calls, and show what no contract says: that each call which takes memory succeeds where there is enough, and
//! each once at values that are worked out by hand. Each crate has its files: `entries` for `object_table`, `residents` for
//! `resident_table`, `segments` and `patterns` for `core_segment`, `objects` for `leaf_lambda`, `caches` for `method_cache`. The crate has
//! no function of its own.
//!
//! - Proved: Nothing: tests over public calls.
//! - Tested: Entries, the index of names, the segment, objects that come and go, rows of the method cache.
//! - Not said: Nothing else.
#![tactic(auto)]

#[cfg(test)]
mod caches;
#[cfg(test)]
mod entries;
#[cfg(test)]
mod objects;
#[cfg(test)]
mod patterns;
#[cfg(test)]
mod residents;
#[cfg(test)]
mod segments;
