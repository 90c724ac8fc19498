//! A method cache of 256 rows (chapter 28 of the Blue Book): which method was found for a class and a selector.
//!
//! A cache stands for a function from pairs to methods, `found`. `find` answers it, `put` gives the method of one pair, and `clear` takes
//! all away. Each pair has one row that it may stand in, by the numbers of both, so a pair that is put takes the place of another in its
//! row, and every call but `clear` takes constant time. No call takes memory.
//!
//! ```text
//! let mut cache = Cache::new();
//! cache.put(class, selector, method);
//! assert_eq!(cache.find(class, selector), Some(method));
//! ```
//!
//! Read `specs/Found.antt` first. `laws` says that a method that is found is the last one that was put for its pair. Classes, selectors
//! and methods are numbers here: which of them are still right is for the caller to know, who clears the cache when one isn't.
//!
//! - Proved: After a `put` its pair is found with its method, at most one other pair is lost, and nothing is found after `clear`. A method
//!   that is found was the last one put for its pair.
//! - Tested: Pairs of one row and of others (`core_tests`).
//! - Not said: Which pair goes when two share a row.
#![tactic(auto)]

mod cache;
pub mod laws;

pub use cache::Cache;
