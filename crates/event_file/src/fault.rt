// Why no event list was read.
ghost use Rattle.std.specs.Prelude.{◌≡◌};
ghost use Rattle.event_file.specs.declared.fault.EventFault.TheVariants.{Memory};

use std::alloc::AllocError;
use thiserror::Error;

/// Why no event list was read.
#[derive(Clone, Copy, Debug, PartialEq, Eq, Error)]
pub enum EventFault {
    /// This line is the first bad one, counted from 1.
    #[error("line {line} is no event")]
    Bad { line: u32 },
    /// A call of the host failed; `count` is the fault count of Events since then.
    #[error("events can't be read, fault {count}")]
    Read { count: u64 },
    /// There was no memory for the list.
    #[error("no memory for the events")]
    Memory,
}

impl From<AllocError> for EventFault {
    ghost from_gives = { λ _ e. e ≡ Memory };

    fn from(_e: AllocError) -> EventFault {
        EventFault::Memory
    }
}
