//! The calls of a system over the files that this process reaches.
//!
//! Each method of `SystemFiles` is one call, made again where a signal interrupted it, and none decides anything. It tells nothing: that the
//! real system does what the clauses of `System` say is trusted, and so is this crate. All that stands over a `System` is proved.
//!
//! ```text
//! let mut system = SystemFiles::new(rt, rt.stdout(), rt.stderr());
//! save(&mut system, alloc, "saved.loom", &bytes)?;
//! ```
//!
//! A link at the end of a path is followed by `open`, and by `look` where that is asked for; `read_link` answers what it stands for. A new file
//! is made with a mode, and `permit` gives it one whatever the process forbids.
//!
//! - Proved: No call panics, and no answer says more bytes than the buffer has, or none where a piece was put.
//! - Tested: A saving over it, and that it answers as `memory_files` does (`file_tests`).
//! - Not said: What a file holds. That each method is the call of its name is trusted.
#![tactic(auto)]

mod system_files;

pub use system_files::SystemFiles;
