// The numbers of the processor.
ghost use Rattle.std.specs.Prelude.{◌≡◌};
ghost use Rattle.blue_model.specs.Machine.{numbers_at_rest};

use crate::indexes::EMPTY_STACK;

/// What the interpreter knows beside its registers: two pointers, and numbers that count.
#[derive(Clone, Copy, Debug, PartialEq, Eq)]
pub struct Cpu {
    /// The next byte, counted from twice the method's literals and 2: field 1 of the context less 1.
    pub ip: i32,
    /// The field number of the top of the stack: field 2 of the context and 5.
    pub sp: i32,
    /// How many arguments the message has that is being sent.
    pub args: u8,
    /// A process switch waits; the new process is in its register.
    pub waiting: bool,
    /// How many lines of the event list were taken.
    pub line: u32,
    /// How many input words joined the queue, and how many were taken out.
    pub words_in: u32,
    pub words_out: u32,
    /// The tick at which the timer's semaphore is signaled.
    pub timer: Option<u32>,
    /// A form is the display, and a semaphore is signaled for input.
    pub display: bool,
    pub input: bool,
    /// How many bytecodes were run.
    pub ran: u32,
    /// The clock at the start: how many bytecodes earlier runs of this machine have run.
    pub base: u32,
    /// A checkpoint may be made.
    pub vault: bool,
}

impl Cpu {
    /// The numbers before a start: no bytecode was run, and the stack is empty.
    pub fn at_rest() -> Cpu
        ensures { result ≡ numbers_at_rest }
    {
        Cpu {
            ip: 0,
            sp: EMPTY_STACK as i32,
            args: 0,
            waiting: false,
            line: 0,
            words_in: 0,
            words_out: 0,
            timer: None,
            display: false,
            input: false,
            ran: 0,
            base: 0,
            vault: false,
        }
    }
}
