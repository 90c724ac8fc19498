// A case, run over files.
use case_runs::{Answer, Case, DISPLAY, EVENTS, IMAGE, SAVED, WORK, words_of};
use loom_outside::RealHost;
use loom_run::loom;
use std::fs::{self, File};
use std::io::{self, ErrorKind};
use work_windows::Windowed;

// The files of the two streams.
const TRANSCRIPT: &str = "said";

const NOTES: &str = "noted";

/// What the program answers to a case, over files of the folder in which it runs. What an earlier case left there is removed first.
pub fn answer_on_files(rt: HostRuntime, case: &Case<'_>) -> io::Result<Answer> {
    for name in [WORK, SAVED, DISPLAY] {
        remove(rt, name)?;
    }
    fs::write(&rt, IMAGE, case.image.as_slice())?;
    fs::write(&rt, EVENTS, case.events.as_slice())?;
    Ok(Answer {
        status: run(rt, case)?,
        notes: fs::read(&rt, NOTES)?,
        transcript: fs::read(&rt, TRANSCRIPT)?,
        saved: read_if_there(rt, SAVED)?,
        display: read_if_there(rt, DISPLAY)?,
    })
}

// The exit status of the run of a case, over the host that the program has. The files are closed behind it.
fn run(rt: HostRuntime, case: &Case<'_>) -> io::Result<u8> {
    let said = File::create(&rt, TRANSCRIPT)?;
    let noted = File::create(&rt, NOTES)?;
    let mut host = Windowed::new(rt.alloc(), RealHost::new(rt, said, noted));
    let words = words_of(rt.alloc(), case.sizes, case.steps)?;
    Ok(loom(rt.alloc(), &mut host, &words).code())
}

// Removes a file, where there is one.
fn remove(rt: HostRuntime, name: &str) -> io::Result<()> {
    match fs::remove_file(&rt, name) {
        Err(error) if error.kind() != ErrorKind::NotFound => Err(error),
        _ => Ok(()),
    }
}

// The bytes of a file, where there is one.
fn read_if_there(rt: HostRuntime, name: &str) -> io::Result<Option<Vec<u8>>> {
    match fs::read(&rt, name) {
        Ok(bytes) => Ok(Some(bytes)),
        Err(error) if error.kind() == ErrorKind::NotFound => Ok(None),
        Err(error) => Err(error),
    }
}
