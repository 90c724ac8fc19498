// The file of names of an image.
use long_names::Name;
use st80_pool::Entry;
use st80_program::{Program, Tree, Trees};
use std::alloc::{AllocError, Global};

fn put_line(
    alloc: Global,
    names: &mut Vec<u8>,
    name: Name,
    parts: &[&[u8]],
) -> Result<(), AllocError> {
    let number = name.get();
    let number = format!(in alloc; "{number} ")?;
    names.extend_from_slice(number.as_bytes())?;
    for part in parts {
        names.extend_from_slice(*part)?;
    }
    names.push(b'\n')?;
    Ok(())
}

/// The line of a method: its class and its selector.
fn put_method(
    alloc: Global,
    names: &mut Vec<u8>,
    program: &Program,
    trees: &Trees,
    tree: &Tree,
    name: Name,
) -> Result<(), AllocError> {
    let class = program.classes.get(tree.class);
    let selector = trees.pool.entries.get(tree.selector as usize);
    let (Some(class), Some(Entry::Symbol(selector))) = (class, selector) else {
        return Ok(());
    };
    let between: &[u8] = if tree.is_meta { b" class>>" } else { b">>" };
    let parts = [class.name.as_slice(), between, selector.as_slice()];
    put_line(alloc, names, name, &parts)
}

/// A line for each method, and one for what the program begins with.
pub(crate) fn names_file(
    alloc: Global,
    program: &Program,
    trees: &Trees,
    methods: &[Name],
    start: Name,
) -> Result<Vec<u8>, AllocError> {
    let mut names = Vec::new(alloc);
    for (i, tree) in trees.methods.iter().enumerate() {
        if let Some(name) = methods.get(i) {
            put_method(alloc, &mut names, program, trees, tree, *name)?;
        }
    }
    put_line(alloc, &mut names, start, &[b"statements"])?;
    Ok(names)
}
