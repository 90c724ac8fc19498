// Why the machine is stuck.
ghost use Rattle.std.specs.Prelude.{◌≡◌};
ghost use Rattle.blue_model.specs.Cause.{cause_number};

/// Why a bytecode can't be run. A bytecode that is stuck isn't counted as run.
#[derive(Clone, Copy, Debug, PartialEq, Eq)]
pub enum Cause {
    /// A byte is to be fetched, or a jump is taken to a place, outside the method's code.
    Pointer,
    /// The bytecode is none that the machine has.
    Unused,
    /// A stack or temporary field is none of the context's, the stack pointer would leave its range, or arguments don't fit a new
    /// context.
    Stack,
    /// An object that a rule reads isn't of the needed kind, lacks the field or literal, or holds a value of another sort there.
    Shape,
    /// No class has a method for doesNotUnderstand:.
    NotUnderstood,
    /// A process is to be woken, and every list of the scheduler is empty.
    NoProcess,
    /// A lookup visited 1,024 classes, and the next superclass isn't nil.
    Chain,
}

impl Cause {
    /// The number by which the program names it.
    pub fn number(&self) -> u8
        ensures { result ≡ cause_number self.now }
    {
        match self {
            Cause::Pointer => 1,
            Cause::Unused => 2,
            Cause::Stack => 3,
            Cause::Shape => 4,
            Cause::NotUnderstood => 5,
            Cause::NoProcess => 6,
            Cause::Chain => 7,
        }
    }
}
