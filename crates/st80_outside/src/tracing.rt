// The trace of a run, over the files of the process.
ghost use Rattle.loom_words.specs.Command.{HasLimits};

use crate::following::Following;
use crate::progress::{Said, Screen};
use crate::watched::Watched;
use long_names::Name;
use loom_outside::{RealHost, Role};
use loom_words::{Command, Status};
use st80_trace::{Options, trace};
use st80_view::View;
use std::io::{self, IsTerminal};
use work_windows::Windowed;

/// Which bytecodes of a trace have a line.
#[derive(Clone, Copy, Debug)]
pub struct Lines {
    /// Only sends and returns.
    pub sends: bool,
    /// From this bytecode to that one, counted from 1.
    pub from: u32,
    pub to: u32,
    /// Only those of this method.
    pub method: Option<Name>,
}

fn options_of(lines: &Lines) -> Options {
    Options {
        sends: lines.sends,
        from: lines.from,
        to: lines.to,
        method: lines.method,
    }
}

/// Traces the run that a command asks for. The lines go to standard output, and so does what the machine says. `view` is the view of its image,
/// for names. Where standard error is a terminal, it shows how far that is. The error is one of standard output.
pub fn trace_run(
    rt: HostRuntime,
    command: &Command<'_>,
    view: &View,
    lines: &Lines,
) -> io::Result<Status>
    requires limits { HasLimits command.now }
{
    let screen = &Screen::new(rt);
    let shows = rt.stdout().is_terminal();
    let said = Said::new(rt.stdout(), screen, shows);
    let notes = Said::new(rt.stderr(), screen, rt.stderr().is_terminal());
    let mut host = RealHost::new(rt, said, notes);
    host.expect(Role::Image, command.image);
    host.expect(Role::Events, command.events);
    let mut host = Windowed::new(rt.alloc(), Watched::new(host, screen));
    let mut out = Said::new(rt.stdout(), screen, shows);
    let mut following = Following::new(screen);
    let options = options_of(lines);
    let status = trace(
        rt.alloc(),
        &mut host,
        command,
        view,
        &options,
        &mut out,
        &mut following,
    );
    screen.clear();
    status
}
