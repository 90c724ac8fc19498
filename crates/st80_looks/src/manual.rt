// The manual, and the table of the exit codes.
use st80_files::ALL;
use st80_words::{NAMES, help_of};
use std::alloc::{AllocError, Global};

const HEAD: &str = "\
ST80

NAME
    st80 - runs Smalltalk-80 images, and shows what is in them

SYNOPSIS
    st80 COMMAND WORDS..
    st80 COMMAND --help

DESCRIPTION
    An image is a file with all objects of a Smalltalk-80 system, its processes among them. st80 runs such an image, draws its display,
    shows its objects, traces its bytecodes, and says in words what went wrong. The runs themselves are those of the program loom: st80
    makes a row of loom's words, prints it on standard error, and does what loom does with it.

    A file that is called - is standard input where it is read, and standard output where it is written.
";

const TAIL: &str = "
FILES
    IMAGE.saved        the image that a run leaves, unless --save, --in-place or --no-save says otherwise
    IMAGE.names        names for objects that have none in the image: a line NUMBER NAME for each
    $TMPDIR/st80.*     a folder for the run alone, which is gone afterwards; a run that is killed leaves it
";

fn put_codes(text: &mut String) -> Result<(), AllocError> {
    for code in ALL {
        let number = code.number();
        let when = code.when();
        write!(text, "    {number:>2}  {when}\n")?;
    }
    Ok(())
}

/// The table of the exit codes.
pub fn codes_text(alloc: Global) -> Result<String, AllocError> {
    let mut text = String::from_str(alloc, "Exit codes:\n")?;
    put_codes(&mut text)?;
    Ok(text)
}

// The help of a command, set in.
fn put_help(alloc: Global, text: &mut String, name: &str) -> Result<(), AllocError> {
    let help = help_of(alloc, name)?;
    text.push('\n')?;
    for line in help.lines() {
        if !line.is_empty() {
            text.push_str("    ")?;
        }
        text.push_str(line)?;
        text.push('\n')?;
    }
    Ok(())
}

/// The manual.
pub fn manual_text(alloc: Global) -> Result<String, AllocError> {
    let mut text = String::from_str(alloc, HEAD)?;
    text.push_str("\nCOMMANDS\n")?;
    for name in NAMES {
        put_help(alloc, &mut text, name)?;
    }
    text.push_str("\nEXIT CODES\n")?;
    put_codes(&mut text)?;
    text.push_str(TAIL)?;
    Ok(text)
}
