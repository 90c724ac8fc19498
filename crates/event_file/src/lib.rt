//! Event lists: which words come after how many bytecodes, and when the memory is to purge or compact itself.
//!
//! `read_events` takes the role Events to its end, line by line, and answers its lines or the number of the first bad one. Its
//! clauses `text` and `bad` say that both are exact: the bytes are the text of the list, or `IsBadAt` holds of them and the line.
//! It reads no more once a line is seen to be bad: the clause `stops` says so.
//! `laws` has that a text is read in one way. An `EventList` is seen as the list of its lines, and finds a word of the input queue
//! in constant time.
//!
//!     host.attach(Role::Events, "events")?;
//!     let events = read_events(alloc, &mut host)?;
//!     let first = events.word(0);                 // the first word that joins the input queue
//!
//! Read `specs/Text` first, which has the grammar. Lines and events are those of `blue_model`, which also says what comes of them.
//! It takes no line, and knows no machine.
//!
//! - Proved: `read_events` answers the list of lines that the bytes are, or the number of the first bad line, and reads no piece behind the
//!   one that shows it.
//! - Tested: Good and bad files are cases; a file without end (`tests/edge.sh`).
//! - Not said: That out of memory has a cause.
#![tactic(auto)]

mod fault;
pub mod laws;
mod limits;
mod line;
mod list;
mod read;

pub use blue_model::{Event, Line};
pub use fault::EventFault;
pub use limits::{LONGEST, MOST_COUNT, MOST_LINES, MOST_WORD, PIECE};
pub use list::EventList;
pub use read::read_events;
