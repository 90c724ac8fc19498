// Why a call of the interpreter stopped.
ghost use Rattle.std.specs.Prelude.{◌≡◌};
ghost use Rattle.contexts.specs.declared.stop.Stop.TheVariants.{Mem};

use blue_model::Cause;
use object_memory::{MemFault, Need};

/// Why a call stopped. The transcript is as before the call. Only where a memory refused to say something, a first part of it has joined.
#[derive(Clone, Copy, Debug, PartialEq, Eq)]
pub enum Stop {
    /// The machine is stuck.
    Stuck(Cause),
    /// The memory refused an access.
    Mem(MemFault),
}

impl Stop {
    /// The same stop, put together again out of its parts.
    #[inline(always)]
    pub fn again(self) -> Stop
        ensures { result ≡ self }
    {
        match self {
            Stop::Stuck(cause) => Stop::Stuck(cause),
            Stop::Mem(fault) => Stop::from(fault),
        }
    }
}

impl From<MemFault> for Stop {
    ghost from_gives = { λ f e. e ≡ Mem f };

    // A need goes over by its parts, so that what is compiled splits every fault that is handed on, and moves nothing where nothing stopped.
    #[inline(always)]
    fn from(fault: MemFault) -> Stop {
        match fault {
            MemFault::CoreFull(need) => Stop::Mem(MemFault::CoreFull(Need {
                object: need.object,
                words: need.words,
                entries: need.entries,
            })),
            _ => Stop::Mem(fault),
        }
    }
}
