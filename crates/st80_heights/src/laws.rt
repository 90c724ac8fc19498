// Laws of code. No code calls these functions: what each of them ensures is the law.
ghost use Rattle.std.specs.Prelude.{ℕ, List, length};
ghost use Rattle.st80_tree.specs.declared.tree.Method.{Method};
ghost use Rattle.st80_compile.specs.declared.step.Step.{Step};
ghost use Rattle.st80_compile.specs.declared.compiler.Compiled.{Compiled};
ghost use Rattle.st80_compile.specs.Compiled.{frame_of, steps_of, IsCode};
ghost use Rattle.st80_heights.specs.Heights.{IsPart, IsWithin, AllHave};

/// A method's code is sound: it begins above its temporaries, each instruction has the height that it says, and each jump lands on one.
pub fn code_is_sound()
    ensures { (frame : List ℕ) (m : Method) (e : ℕ) → IsPart e m.temporaries (steps_of frame m) }
{}

/// Code that was made stays within its context, and names only literals and temporaries that are there.
pub fn code_is_within()
    ensures { (m : Method) (frame : List ℕ) (steps : List Step) (made : Compiled) → IsCode m frame steps made → IsWithin m frame steps made }
{}

/// The literals of a tree are all that its code names: no method is refused for one that it lacks.
pub fn code_has_its_literals()
    ensures { (m : Method) → AllHave (length (frame_of m)) (steps_of (frame_of m) m) }
{}
