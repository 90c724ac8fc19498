// What is said of a failure, and the code of a run.
ghost use Rattle.std.specs.Prelude.{◌≡◌};
ghost use Rattle.loom_words.specs.Status.{code_of};
ghost use Rattle.st80.specs.Ends.{IsEndOf};
ghost use Rattle.st80_files.specs.Codes.{number_of};

use loom_words::Status;
use st80_files::{Code, Failure, code_for};
use st80_outside::Ran;

/// A run, and the code with which the program ends behind it.
#[derive(Debug, Drop)]
pub struct Done {
    pub ran: Ran,
    pub code: Code,
}

/// The code of a run that ended so.
pub fn end_of(status: &Status) -> Code
    ensures { number_of result ≡ code_of status.now }
{
    code_for(status)
}

/// A run with its code.
pub fn ended(ran: Ran) -> Done
    ensures ran { result.ran ≡ ran }
    ensures code { IsEndOf result }
{
    let code = end_of(ran.status());
    Done { ran, code }
}

/// Says what failed, and answers its code.
pub fn tell(rt: HostRuntime, failure: &Failure) -> Code {
    match failure {
        Failure::Memory => {
            let _ = rt.eprintln("st80: out of memory");
            Code::OutOfMemory
        }
        Failure::Told { code, text } => {
            let _ = rt.eprintln(format_args!("st80: {text}"));
            *code
        }
    }
}

/// Says what failed where the code is known already.
pub fn tell_beside(rt: HostRuntime, done: Result<(), Failure>) {
    if let Err(failure) = done {
        tell(rt, &failure);
    }
}
