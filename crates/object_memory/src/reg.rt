// Registers.
ghost use Rattle.std.specs.Prelude.{◌≡◌, ◌<◌};
ghost use Rattle.long_names.specs.State.{machine_registers};
ghost use Rattle.long_names.specs.declared.limits.TheConstants.{REGISTERS};

use long_names::MACHINE_REGISTERS;
use std::marker::Model;

/// The number of a register, from 0 to 23.
#[derive(Clone, Copy, Debug, PartialEq, Eq)]
pub struct Reg {
    number: u8,
}

impl Model for Reg {
    ghost use Rattle.std.specs.Prelude.{ℕ, ◌<◌};
    ghost use Rattle.long_names.specs.declared.limits.TheConstants.{REGISTERS};

    ghost Value = { ℕ };

    ghost view = { λ r. r.number };

    ghost invariant = { λ r. r.number < REGISTERS };

    ghost inverse = { λ n. record { number = n } };
}

/// The registers of the interpreter (chapter 28 of the Blue Book) and of this profile. R10 to R23 are scratch registers.
impl Reg {
    pub const ACTIVE_CONTEXT: Reg = Reg { number: 0 };

    pub const HOME: Reg = Reg { number: 1 };

    pub const METHOD: Reg = Reg { number: 2 };

    pub const RECEIVER: Reg = Reg { number: 3 };

    pub const SELECTOR: Reg = Reg { number: 4 };

    pub const NEW_METHOD: Reg = Reg { number: 5 };

    pub const NEW_PROCESS: Reg = Reg { number: 6 };

    pub const INPUT_SEMAPHORE: Reg = Reg { number: 7 };

    pub const TIMER_SEMAPHORE: Reg = Reg { number: 8 };

    pub const DISPLAY: Reg = Reg { number: 9 };

    pub const R10: Reg = Reg { number: 10 };

    pub const R11: Reg = Reg { number: 11 };

    pub const R12: Reg = Reg { number: 12 };

    pub const R13: Reg = Reg { number: 13 };

    pub const R14: Reg = Reg { number: 14 };

    pub const R15: Reg = Reg { number: 15 };

    pub const R16: Reg = Reg { number: 16 };

    pub const R17: Reg = Reg { number: 17 };

    pub const R18: Reg = Reg { number: 18 };

    pub const R19: Reg = Reg { number: 19 };

    pub const R20: Reg = Reg { number: 20 };

    pub const R21: Reg = Reg { number: 21 };

    pub const R22: Reg = Reg { number: 22 };

    pub const R23: Reg = Reg { number: 23 };

    /// The registers of the machine, by their numbers: all but the scratch registers.
    pub fn machine() -> [Reg; MACHINE_REGISTERS]
        ensures { result ≡ machine_registers }
    {
        [
            Reg::ACTIVE_CONTEXT,
            Reg::HOME,
            Reg::METHOD,
            Reg::RECEIVER,
            Reg::SELECTOR,
            Reg::NEW_METHOD,
            Reg::NEW_PROCESS,
            Reg::INPUT_SEMAPHORE,
            Reg::TIMER_SEMAPHORE,
            Reg::DISPLAY,
        ]
    }
}

impl Reg {
    pub fn new(number: u8) -> Reg
        requires { number < REGISTERS }
        ensures { result ≡ number }
    {
        Reg { number }
    }

    /// Its number, as an index.
    #[inline(always)]
    pub fn index(self) -> usize
        ensures same { result ≡ self }
        ensures within { result < REGISTERS }
    {
        self.number as usize
    }
}
