// An image as a whole.
use crate::columns::{put_counted, put_left_out, put_number};
use crate::process::put_process;
use long_names::{Body, Name};
use st80_objects::put_decimal;
use st80_view::{ClassCount, View};
use std::alloc::{AllocError, Global};

/// How many classes and objects are put of an image.
const FEW: usize = 20;

/// How many objects of each kind there are.
#[derive(Clone, Copy, Debug, PartialEq, Eq)]
struct KindCounts {
    pointers: u64,
    words: u64,
    bytes: u64,
    methods: u64,
}

/// Puts an image: what its head states, its classes, its largest objects, and its processes.
pub fn show_image(alloc: Global, out: &mut String, view: &View) -> Result<(), AllocError> {
    put_head(out, view)?;
    put_state(out, view)?;
    let counts = view.class_counts(alloc)?;
    out.push_str("\nclasses, with most objects first\n")?;
    put_classes(out, view, &counts, FEW)?;
    out.push_str("\nthe largest objects\n")?;
    put_largest(alloc, out, view)?;
    out.push_str("\nprocesses\n")?;
    put_process_lines(alloc, out, view)
}

fn put_head(out: &mut String, view: &View) -> Result<(), AllocError> {
    let opening = view.image().head.opening;
    let version = opening.version;
    let next = opening.next;
    write!(out, "an image of version {version}: ")?;
    put_counted(out, view.image().objects.len() as u64, "object", "objects")?;
    write!(out, ", next name {next}\n")
}

fn put_state(out: &mut String, view: &View) -> Result<(), AllocError> {
    let state = view.image().state();
    out.push_str("clock ")?;
    put_decimal(out, u64::from(state.clock))?;
    put_role(out, view, "display", state.display)?;
    put_role(out, view, "input semaphore", state.input)?;
    put_role(out, view, "timer semaphore", state.timer)?;
    if state.timer != 0 {
        out.push_str(" at tick ")?;
        put_decimal(out, u64::from(state.tick))?;
    }
    out.push('\n')
}

/// Puts a name of the state, or that there is none.
fn put_role(out: &mut String, view: &View, role: &str, word: u32) -> Result<(), AllocError> {
    match Name::new(word) {
        Some(name) => {
            out.push_str(", ")?;
            out.push_str(role)?;
            out.push(' ')?;
            view.put_object(out, name)
        }
        None => {
            out.push_str(", no ")?;
            out.push_str(role)
        }
    }
}

fn put_classes(
    out: &mut String,
    view: &View,
    counts: &[ClassCount],
    most: usize,
) -> Result<(), AllocError> {
    out.push_str("     objects        bytes  class\n")?;
    for (i, count) in counts.iter().enumerate() {
        if i < most {
            put_number(out, count.objects, 12)?;
            put_number(out, count.bytes, 13)?;
            out.push_str("  ")?;
            view.put_class_name(out, count.class)?;
            let number = count.class.get();
            write!(out, " ({number})\n")?;
        }
    }
    put_left_out(out, counts.len().saturating_sub(most), "classes")
}

fn put_largest(alloc: Global, out: &mut String, view: &View) -> Result<(), AllocError> {
    out.push_str("       bytes  object\n")?;
    let largest = view.largest(alloc, 10)?;
    for (name, size) in largest.iter() {
        put_number(out, *size, 12)?;
        out.push_str("  ")?;
        let number = name.get();
        write!(out, "{number}: ")?;
        view.put_object(out, *name)?;
        out.push('\n')?;
    }
    Ok(())
}

fn put_process_lines(alloc: Global, out: &mut String, view: &View) -> Result<(), AllocError> {
    let processes = view.processes(alloc)?;
    for process in processes.iter() {
        put_process(out, view, process)?;
    }
    if processes.is_empty() {
        out.push_str("  none\n")?;
    }
    Ok(())
}

fn kind_counts(view: &View) -> KindCounts {
    let mut counts = KindCounts {
        pointers: 0,
        words: 0,
        bytes: 0,
        methods: 0,
    };
    for rec in view.image().objects.all() {
        let count = match &rec.body {
            Body::Pointers(_) => &mut counts.pointers,
            Body::Words(_) => &mut counts.words,
            Body::Bytes(_) => &mut counts.bytes,
            Body::Method { .. } => &mut counts.methods,
        };
        *count = count.saturating_add(1);
    }
    counts
}

/// Puts how many objects there are: of each kind and of each class, and those that most words hold.
pub fn show_counts(alloc: Global, out: &mut String, view: &View) -> Result<(), AllocError> {
    put_head(out, view)?;
    let kinds = kind_counts(view);
    out.push_str("pointers ")?;
    put_decimal(out, kinds.pointers)?;
    out.push_str(", words ")?;
    put_decimal(out, kinds.words)?;
    out.push_str(", bytes ")?;
    put_decimal(out, kinds.bytes)?;
    out.push_str(", methods ")?;
    put_decimal(out, kinds.methods)?;
    out.push_str("\n\nclasses\n")?;
    let counts = view.class_counts(alloc)?;
    put_classes(out, view, &counts, usize::MAX)?;
    out.push_str("\nheld by most words\n")?;
    put_most_held(alloc, out, view)
}

fn put_most_held(alloc: Global, out: &mut String, view: &View) -> Result<(), AllocError> {
    let words = view.words_held(alloc)?;
    let mut held = Vec::new(alloc);
    for (rec, count) in view.image().objects.all().iter().zip(words.iter()) {
        if *count > 0 {
            held.push((rec.name, *count))?;
        }
    }
    held.sort_by_key(|pair| u64::MAX - pair.1)?;
    held.truncate(FEW);
    out.push_str("       words  object\n")?;
    for (name, count) in held.iter() {
        put_number(out, *count, 12)?;
        let number = name.get();
        write!(out, "  {number}: ")?;
        view.put_object(out, *name)?;
        out.push('\n')?;
    }
    Ok(())
}
