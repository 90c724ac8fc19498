// The command `trace`.
ghost use Rattle.std.specs.Prelude.{IfOk};
ghost use Rattle.loom_words.specs.Command.{HasLimits};
ghost use Rattle.st80.specs.Ends.{IsLoomCode};

use crate::paths::{events_path, read_path};
use crate::telling::end_of;
use long_names::Name;
use loom_words::Command;
use st80_files::{Code, Failure, Temporary, bytes_of, failed, file_failed, stated_of};
use st80_looks::labelled;
use st80_outside::{Lines, trace_run};
use st80_view::View;
use st80_words::{Tracing, sizes_for};

// The method that is asked for, where one is.
fn method_of(
    rt: HostRuntime,
    view: &View,
    method: Option<(&str, &str)>,
) -> Result<Option<Name>, Failure> {
    let Some((class, selector)) = method else {
        return Ok(None);
    };
    let Some(name) = view.find_class(class.as_bytes()) else {
        let text = format!(in rt.alloc(); "no class is called {class}")?;
        return Err(failed(rt.alloc(), Code::NotThere, text.as_str()));
    };
    match view.find_method(name, selector.as_bytes()) {
        Some(home) => Ok(Some(home.method)),
        None => {
            let text = format!(in rt.alloc(); "{class} has no method {selector}")?;
            Err(failed(rt.alloc(), Code::NotThere, text.as_str()))
        }
    }
}

fn lines_of(method: Option<Name>, tracing: &Tracing<'_>) -> Lines {
    Lines {
        sends: tracing.sends,
        from: tracing.from,
        to: tracing.to,
        method,
    }
}

// The trace, whose lines go to standard output.
fn put_trace(
    rt: HostRuntime,
    command: &Command<'_>,
    view: &View,
    lines: &Lines,
) -> Result<Code, Failure>
    requires limits { HasLimits command.now }
    ensures { IfOk result IsLoomCode }
{
    match trace_run(rt, command, view, lines) {
        Ok(status) => {
            let _ = rt.eprint(status.line());
            Ok(end_of(&status))
        }
        Err(error) => Err(file_failed(
            rt.alloc(),
            Code::WriteFault,
            "standard output",
            "written",
            &error,
        )),
    }
}

/// The command `trace`.
pub fn follow(
    rt: HostRuntime,
    room: &Temporary,
    word: &str,
    tracing: &Tracing<'_>,
) -> Result<Code, Failure>
    ensures { IfOk result IsLoomCode }
{
    let image = read_path(rt, room, word, "image")?;
    let events = events_path(rt, room, tracing.events)?;
    let work = room.file(rt, "work")?;
    let bytes = bytes_of(rt, image.as_str())?;
    let view = labelled(rt, word, &bytes, tracing.names)?;
    let lines = lines_of(method_of(rt, &view, tracing.method)?, tracing);
    let stated = stated_of(rt, image.as_str());
    let sizes = sizes_for(&tracing.sizes, stated.objects, stated.bytes);
    let command = Command {
        image: image.as_str(),
        events: events.as_str(),
        work: work.as_str(),
        saved: "",
        display: "",
        core: sizes.core,
        entries: sizes.entries,
        room: sizes.room,
        steps: tracing.to,
    };
    put_trace(rt, &command, &view, &lines)
}
