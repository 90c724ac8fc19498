// The words of the program, read by clap.
use crate::commands::{NAMES, command_named};
use clap::{ArgMatches, Command, Error};
use std::alloc::{AllocError, Global};

const ABOUT: &str = "Runs Smalltalk-80 images, and shows what is in them.";

const BEHIND: &str = "First steps:
  st80 make 0 ticks.loom                           make an image
  st80 run ticks.loom --picture ticks.png          run it, and draw its display
  st80 show ticks.loom                             see what is in it
  st80 COMMAND --help                              an example of each command
  st80 help codes                                  the exit codes
  st80 manual                                      all of it on one page";

/// The version of the program.
pub const VERSION: &str = "1.0, for images of versions 1 and 2";

// The program, without its commands.
fn program<'a>(alloc: Global) -> Command<'a> {
    Command::new(alloc, "st80")
        .about(ABOUT)
        .after_help(BEHIND)
        .version(VERSION)
}

// One of its commands has to be there, and the words begin with it.
fn commanded<'a>(program: Command<'a>) -> Command<'a> {
    program
        .no_binary_name(true)
        .subcommand_required(true)
        .arg_required_else_help(true)
}

fn with_command<'a>(
    alloc: Global,
    program: Command<'a>,
    name: &str,
) -> Result<Command<'a>, AllocError> {
    let command = command_named(alloc, name)?;
    program.subcommand(command)
}

fn with_commands<'a>(
    alloc: Global,
    mut program: Command<'a>,
    names: &[&str],
) -> Result<Command<'a>, AllocError> {
    for name in names {
        program = with_command(alloc, program, name)?;
    }
    Ok(program)
}

// The whole command line.
fn whole<'a>(alloc: Global) -> Result<Command<'a>, AllocError> {
    let program = commanded(program(alloc)).bin_name("st80")?;
    with_commands(alloc, program, NAMES)
}

/// What clap makes of the words.
pub fn matches_of<'a>(alloc: Global, words: &'a [String]) -> Result<ArgMatches<'a>, Error> {
    whole(alloc)?.try_get_matches_from(words)
}

/// The help of a command.
pub fn help_of(alloc: Global, name: &str) -> Result<String, AllocError> {
    let whole_name = format!(in alloc; "st80 {name}")?;
    let mut command = command_named(alloc, name)?.bin_name(whole_name.as_str())?;
    command.render_long_help()
}
