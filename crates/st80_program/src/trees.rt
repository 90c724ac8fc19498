// The methods of a program with their names resolved.
ghost use Rattle.std.specs.Prelude.{◌≡◌, ◌++◌, ◌∷◌, ℕ, [], map, All, IfNone, IfOk, IfSome, IsFalse, IsTrue, None, OnOk, is_some};
ghost use Rattle.std.specs.BTreeSet.{contains};
ghost use Rattle.std.specs.List.{AllPairs};
ghost use Rattle.std.specs.Ordering.{nat_cmp};
ghost use Rattle.st80_program.specs.Understood.{AreApart, AreOf, AreUnderstood, HasSelector, IsLost, IsWhole, home_of, homes_of, tree_home};

use crate::problem::{Problem, Stop, What, wrong};
use crate::program::{Class, Program, Written};
use crate::reading::{first_place, place_of, tokens_of, tree_in};
use st80_parser::{Parsed, method_in, statements_in};
use st80_pool::{Entry, Pool};
use st80_scope::{Around, Call, Complaint, Resolved, method_of, nearest};
use st80_tree::Method;
use std::alloc::{AllocError, Global};
use std::collections::BTreeSet;

/// A method of a class, or of the class itself: the number of its selector in the pool, and its tree.
#[derive(Drop)]
pub struct Tree {
    pub class: usize,
    pub is_meta: bool,
    pub selector: u32,
    pub method: Method,
}

/// A message that a method sends, and where it stands.
#[derive(Clone, Copy, Debug)]
pub struct Sending {
    pub selector: u32,
    pub source: usize,
    pub place: usize,
}

/// All methods of a program.
#[derive(Drop)]
pub struct Trees {
    pub pool: Pool,
    /// The names of the variables that methods share: those of each class in order, and then the globals, of which the classes are the first.
    pub shared: Vec<Vec<u8>>,
    /// How many of them are variables of classes.
    pub of_classes: usize,
    pub methods: Vec<Tree>,
    /// The messages that they send.
    pub sendings: Vec<Sending>,
    /// What the program begins with.
    pub start: Option<Tree>,
}

/// What the methods of a program are resolved to.
#[derive(Drop)]
pub enum Whole {
    Trees(Trees),
    Wrong(Problem),
}

/// The globals behind the classes.
const GLOBALS: [&[u8]; 4] = [b"Smalltalk", b"Processor", b"Transcript", b"Display"];

fn add_copies(alloc: Global, names: &mut Vec<Vec<u8>>, more: &[Vec<u8>]) -> Result<(), AllocError> {
    for name in more {
        names.push(Vec::from_slice(alloc, name.as_slice())?)?;
    }
    Ok(())
}

/// The variables of the classes, and then the globals.
fn shared_of(alloc: Global, program: &Program) -> Result<Vec<Vec<u8>>, AllocError> {
    let mut names = Vec::new(alloc);
    for class in &program.classes {
        add_copies(alloc, &mut names, class.variables.as_slice())?;
    }
    for class in &program.classes {
        names.push(Vec::from_slice(alloc, class.name.as_slice())?)?;
    }
    for name in &GLOBALS {
        names.push(Vec::from_slice(alloc, *name)?)?;
    }
    Ok(names)
}

/// How many variables the classes have.
fn count_of_classes(program: &Program) -> usize {
    let mut count: usize = 0;
    for class in &program.classes {
        count = count.saturating_add(class.variables.len());
    }
    count
}

/// A class and its superclasses, from the class on.
fn chain_of(alloc: Global, program: &Program, class: usize) -> Result<Vec<usize>, AllocError> {
    let mut chain = Vec::new(alloc);
    let mut at = Some(class);
    for _ in 0..program.classes.len() {
        let Some(number) = at else {
            break;
        };
        chain.push(number)?;
        at = match program.classes.get(number) {
            Some(class) => class.superclass,
            None => None,
        };
    }
    Ok(chain)
}

/// The fields of the instances of a class, in order.
fn fields_of(alloc: Global, program: &Program, class: usize) -> Result<Vec<Vec<u8>>, AllocError> {
    let mut names = Vec::new(alloc);
    let chain = chain_of(alloc, program, class)?;
    for number in chain.iter().rev() {
        if let Some(class) = program.classes.get(*number) {
            add_copies(alloc, &mut names, class.fields.as_slice())?;
        }
    }
    Ok(names)
}

/// The fields of a class itself: those of instances of Class, and those that it and its superclasses add.
fn class_fields_of(
    alloc: Global,
    program: &Program,
    class: usize,
) -> Result<Vec<Vec<u8>>, AllocError> {
    let mut names = match program.class_of(b"Class") {
        Some(base) => fields_of(alloc, program, base)?,
        None => Vec::new(alloc),
    };
    let chain = chain_of(alloc, program, class)?;
    for number in chain.iter().rev() {
        if let Some(class) = program.classes.get(*number) {
            add_copies(alloc, &mut names, class.class_fields.as_slice())?;
        }
    }
    Ok(names)
}

/// Whether the methods of a class see the variables of another one.
fn sees(chain: &[usize], class: usize) -> bool {
    for number in chain {
        if *number == class {
            return true;
        }
    }
    false
}

/// The names of shared variables as the methods of a class see them: those that they don't are empty.
fn visible_to(
    alloc: Global,
    program: &Program,
    shared: &[Vec<u8>],
    of_classes: usize,
    class: usize,
) -> Result<Vec<Vec<u8>>, AllocError> {
    let mut names = Vec::new(alloc);
    let chain = chain_of(alloc, program, class)?;
    for (number, other) in program.classes.iter().enumerate() {
        add_seen(alloc, &mut names, other, sees(chain.as_slice(), number))?;
    }
    for (i, name) in shared.iter().enumerate() {
        if of_classes <= i {
            names.push(Vec::from_slice(alloc, name.as_slice())?)?;
        }
    }
    Ok(names)
}

/// The variables of a class, or as many empty names.
fn add_seen(
    alloc: Global,
    names: &mut Vec<Vec<u8>>,
    class: &Class,
    is_seen: bool,
) -> Result<(), AllocError> {
    if is_seen {
        return add_copies(alloc, names, class.variables.as_slice());
    }
    for _ in 0..class.variables.len() {
        names.push(Vec::new(alloc))?;
    }
    Ok(())
}

/// A complaint about a chunk, as a problem of its file.
fn problem_of(written: &Written, complaint: Complaint) -> Stop {
    let Complaint { token, reason } = complaint;
    wrong(
        written.source,
        place_of(&written.chunk, token.at),
        What::Reason(reason),
    )
}

fn parsed_of(
    alloc: Global,
    written: &Written,
    is_method: bool,
) -> Result<st80_parser::Method, Stop> {
    let tokens = tokens_of(alloc, written.source, &written.chunk)?;
    let parsed: Parsed = if is_method {
        method_in(alloc, tokens.as_slice())?
    } else {
        statements_in(alloc, tokens.as_slice())?
    };
    tree_in(written.source, &written.chunk, tokens.as_slice(), parsed)
}

/// The messages of a method, with their places.
fn add_sendings(
    sendings: &mut Vec<Sending>,
    written: &Written,
    calls: &[Call],
) -> Result<(), AllocError> {
    for call in calls {
        sendings.push(Sending {
            selector: call.selector,
            source: written.source,
            place: place_of(&written.chunk, call.token.at),
        })?;
    }
    Ok(())
}

/// A method with its names resolved.
fn tree_of(
    alloc: Global,
    program: &Program,
    trees: &mut Trees,
    written: &Written,
    is_method: bool,
) -> Result<Tree, Stop>
    ensures home { IfOk result (λ tree. tree_home tree ≡ home_of written.now) }
    ensures same { trees.new.methods ≡ trees.old.methods }
    ensures start { trees.new.start ≡ trees.old.start }
{
    let parsed = parsed_of(alloc, written, is_method)?;
    let fields = if !is_method {
        Vec::new(alloc)
    } else if written.is_meta {
        class_fields_of(alloc, program, written.class)?
    } else {
        fields_of(alloc, program, written.class)?
    };
    let shared = trees.shared.as_slice();
    let shared = visible_to(alloc, program, shared, trees.of_classes, written.class)?;
    let around = Around {
        fields: fields.as_slice(),
        shared: shared.as_slice(),
    };
    let text = written.chunk.bytes.as_slice();
    match method_of(alloc, &mut trees.pool, around, text, &parsed)? {
        Resolved::Method(found) => {
            add_sendings(&mut trees.sendings, written, found.calls.as_slice())?;
            Ok(Tree {
                class: written.class,
                is_meta: written.is_meta,
                selector: found.selector,
                method: found.method,
            })
        }
        Resolved::Refused(complaint) => Err(problem_of(written, complaint)),
    }
}

/// Whether one of the methods has the class and the selector of another one.
fn is_there(methods: &[Tree], tree: &Tree) -> bool
    ensures { IsFalse result → All (λ other. AreApart other tree.now) methods.now }
{
    'each: for other in methods {
        if other.class == tree.class
            && other.is_meta == tree.is_meta
            && other.selector == tree.selector
        {
            return true;
        }
    }
    false
}

/// The selectors that methods have, by their numbers in the pool.
fn selectors_of(alloc: Global, methods: &[Tree]) -> Result<BTreeSet<u32>, AllocError>
    ensures has { IfOk result (λ has. (n : ℕ) → IsTrue (contains nat_cmp has n) → HasSelector methods.now n) }
    ensures all { IfOk result (λ has. (n : ℕ) → HasSelector methods.now n → IsTrue (contains nat_cmp has n)) }
{
    let mut has = BTreeSet::new(alloc);
    'each: for tree in methods {
        has.insert(tree.selector)?;
    }
    Ok(has)
}

/// The spellings of selectors.
fn spellings_of(
    alloc: Global,
    pool: &Pool,
    selectors: &BTreeSet<u32>,
) -> Result<Vec<Vec<u8>>, AllocError> {
    let mut known = Vec::new(alloc);
    for number in selectors {
        if let Some(Entry::Symbol(spelled)) = pool.entries.get(*number as usize) {
            known.push(Vec::from_slice(alloc, spelled.as_slice())?)?;
        }
    }
    Ok(known)
}

/// Of some selectors the spelling that is nearest to that of this number.
fn nearest_selector(
    alloc: Global,
    pool: &Pool,
    selectors: &BTreeSet<u32>,
    number: u32,
) -> Result<Option<Vec<u8>>, AllocError> {
    let Some(Entry::Symbol(name)) = pool.entries.get(number as usize) else {
        return Ok(None);
    };
    let mut known = spellings_of(alloc, pool, selectors)?;
    match nearest(alloc, name.as_slice(), known.as_slice(), usize::MAX)? {
        Some((at, _)) if at < known.len() => Ok(Some(known.swap_remove(at))),
        _ => Ok(None),
    }
}

/// The first message that is sent and whose selector no method has.
fn first_lost(trees: &Trees, has: &BTreeSet<u32>) -> Option<Sending>
    requires has { (n : ℕ) → IsTrue (contains nat_cmp has.now n) → HasSelector trees.now.methods.items n }
    requires all { (n : ℕ) → HasSelector trees.now.methods.items n → IsTrue (contains nat_cmp has.now n) }
    ensures none { IfNone result (AreUnderstood trees.now) }
    ensures some { IfSome result (IsLost trees.now) }
{
    'each: for sending in &trees.sendings {
        if !has.contains(&sending.selector) {
            return Some(*sending);
        }
    }
    None
}

/// Each message that is sent has a selector that some method has.
fn expect_understood(alloc: Global, trees: &Trees) -> Result<(), Stop>
    ensures { OnOk result (AreUnderstood trees.now) }
{
    let has = selectors_of(alloc, trees.methods.as_slice())?;
    match first_lost(trees, &has) {
        None => Ok(()),
        Some(sending) => {
            let near = nearest_selector(alloc, &trees.pool, &has, sending.selector)?;
            Err(wrong(sending.source, sending.place, What::NotUnderstood(near)))
        }
    }
}

/// One more method, which its class doesn't have yet.
fn add_tree(
    alloc: Global,
    program: &Program,
    trees: &mut Trees,
    written: &Written,
) -> Result<(), Stop>
    ensures homes { OnOk result (homes_of trees.new.methods.items ≡ homes_of trees.old.methods.items ++ home_of written.now ∷ []) }
    ensures apart { OnOk result (AllPairs AreApart trees.old.methods.items → AllPairs AreApart trees.new.methods.items) }
    ensures start { trees.new.start ≡ trees.old.start }
{
    let tree = tree_of(alloc, program, trees, written, true)?;
    if is_there(trees.methods.as_slice(), &tree) {
        let place = first_place(&written.chunk);
        return Err(wrong(written.source, place, What::MethodTwice));
    }
    trees.methods.push(tree)?;
    Ok(())
}

/// No trees yet.
fn no_trees(alloc: Global, program: &Program) -> Result<Trees, AllocError>
    ensures none { IfOk result (λ trees. trees.methods.items ≡ []) }
    ensures no_start { IfOk result (λ trees. trees.start ≡ None) }
{
    Ok(Trees {
        pool: Pool::new(alloc)?,
        shared: shared_of(alloc, program)?,
        of_classes: count_of_classes(program),
        methods: Vec::new(alloc),
        sendings: Vec::new(alloc),
        start: None,
    })
}

/// The trees of the methods.
fn method_trees(alloc: Global, program: &Program) -> Result<Trees, Stop>
    ensures homes { IfOk result (λ trees. homes_of trees.methods.items ≡ map home_of program.now.methods.items) }
    ensures apart { IfOk result (λ trees. AllPairs AreApart trees.methods.items) }
    ensures no_start { IfOk result (λ trees. trees.start ≡ None) }
{
    let mut trees = no_trees(alloc, program)?;
    'each: for written in &program.methods {
        add_tree(alloc, program, &mut trees, written)?;
    }
    Ok(trees)
}

/// Adds the tree of what the program begins with, if there is that.
fn add_start(alloc: Global, program: &Program, trees: &mut Trees) -> Result<(), Stop>
    requires { trees.old.start ≡ None }
    ensures same { trees.new.methods ≡ trees.old.methods }
    ensures start { OnOk result (is_some trees.new.start ≡ is_some program.now.start) }
{
    if let Some(written) = &program.start {
        let tree = tree_of(alloc, program, trees, written, false)?;
        trees.start = Some(tree);
    }
    Ok(())
}

fn all_trees(alloc: Global, program: &Program) -> Result<Trees, Stop>
    ensures { IfOk result (AreOf program.now) }
{
    let mut trees = method_trees(alloc, program)?;
    add_start(alloc, program, &mut trees)?;
    expect_understood(alloc, &trees)?;
    Ok(trees)
}

/// The trees of all methods of a program, or what is wrong first.
pub fn trees_of(alloc: Global, program: &Program) -> Result<Whole, AllocError>
    ensures { IfOk result (IsWhole program.now) }
{
    match all_trees(alloc, program) {
        Ok(trees) => Ok(Whole::Trees(trees)),
        Err(Stop::Wrong(problem)) => Ok(Whole::Wrong(problem)),
        Err(Stop::Memory(error)) => Err(error),
    }
}
