// The code of all methods of a program, or the first that has none.
ghost use Rattle.std.specs.Prelude.{◌≡◌, IfErr, Some, length, slice_get};
ghost use Rattle.st80_build.specs.Built.{IsNoCodeIn, IsNoCodeOf};

use st80_compile::{Compiled, Refusal, Stop, compile};
use st80_program::{Tree, Trees};
use std::alloc::Global;

/// Why not all methods have code.
#[derive(Debug, Drop)]
pub(crate) enum NoCode {
    Memory,
    /// The method of this number has none.
    Refused(usize, Refusal),
}

/// The code of the methods in order, and of what the program begins with.
#[derive(Drop)]
pub(crate) struct Codes {
    pub methods: Vec<Compiled>,
    pub start: Compiled,
}

/// The code of one tree.
fn compiled(alloc: Global, number: usize, tree: &Tree) -> Result<Compiled, NoCode>
    ensures { IfErr result (IsNoCodeOf number tree.now) }
{
    match compile(alloc, &tree.method) {
        Ok(made) => Ok(made),
        Err(Stop::Refused(refusal)) => Err(NoCode::Refused(number, refusal)),
        Err(Stop::NoMemory) => Err(NoCode::Memory),
    }
}

/// The code of the tree that has this number among the methods.
fn method_code(alloc: Global, trees: &Trees, number: usize, tree: &Tree) -> Result<Compiled, NoCode>
    requires { slice_get trees.now.methods.items number ≡ Some tree.now }
    ensures { IfErr result (IsNoCodeIn trees.now) }
{
    compiled(alloc, number, tree)
}

/// The code of what the program begins with.
fn start_code(alloc: Global, trees: &Trees, tree: &Tree) -> Result<Compiled, NoCode>
    requires { trees.now.start ≡ Some tree.now }
    ensures { IfErr result (IsNoCodeIn trees.now) }
{
    compiled(alloc, trees.methods.len(), tree)
}

fn put(codes: &mut Vec<Compiled>, code: Compiled) -> Result<(), NoCode>
    ensures { IfErr result (λ no. no ≡ NoCode.Memory) }
{
    match codes.push(code) {
        Ok(()) => Ok(()),
        Err(_) => Err(NoCode::Memory),
    }
}

/// The code of all methods.
fn method_codes(alloc: Global, trees: &Trees) -> Result<Vec<Compiled>, NoCode>
    ensures { IfErr result (IsNoCodeIn trees.now) }
{
    let mut codes = Vec::new(alloc);
    for (number, tree) in trees.methods.iter().enumerate() {
        let code = method_code(alloc, trees, number, tree)?;
        put(&mut codes, code)?;
    }
    Ok(codes)
}

/// The code of all methods, and of what the program begins with.
pub(crate) fn codes_of(alloc: Global, trees: &Trees, start: &Tree) -> Result<Codes, NoCode>
    requires { trees.now.start ≡ Some start.now }
    ensures { IfErr result (IsNoCodeIn trees.now) }
{
    let methods = method_codes(alloc, trees)?;
    let start = start_code(alloc, trees, start)?;
    Ok(Codes { methods, start })
}
