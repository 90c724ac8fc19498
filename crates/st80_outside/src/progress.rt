// How far a run is: one line on standard error, where that is a terminal. The first comes a second behind the first thing that was done, each
// further one over the one before, and the last is taken away before anything else is written there.
use std::alloc::{AllocError, Global};
use std::cell::Cell;
use std::io::{self, IsTerminal, Write};
use std::time::Instant;

// What takes the line away.
const BLANKS: &str =
    "                                                                               ";

/// The terminal that standard error is, and the line that stands there.
#[derive(Drop)]
pub(crate) struct Screen {
    rt: HostRuntime,
    is_terminal: bool,
    // How many columns the line takes; 0 where there is none.
    shown: Cell<usize>,
    // Whether the machine said something there that no newline ends yet: then no line comes.
    is_amid: Cell<bool>,
    // When the line came last, or the first thing was done.
    since: Cell<Option<Instant>>,
}

impl Screen {
    pub(crate) fn new(rt: HostRuntime) -> Screen {
        Screen {
            rt,
            is_terminal: rt.stderr().is_terminal(),
            shown: Cell::new(0),
            is_amid: Cell::new(false),
            since: Cell::new(None),
        }
    }

    /// What its lines are made by.
    pub(crate) fn alloc(&self) -> Global {
        self.rt.alloc()
    }

    /// Takes the line away.
    pub(crate) fn clear(&self) {
        let shown = self.shown.replace(0);
        if shown > 0 {
            let blanks = BLANKS.get(..shown).unwrap_or(BLANKS);
            let _ = self.rt.eprint(format_args!("\r{blanks}\r"));
        }
    }

    /// What time it is, where a line may come.
    pub(crate) fn now(&self) -> Option<Instant> {
        if !self.is_terminal || self.is_amid.get() {
            return None;
        }
        Instant::now(&self.rt).ok()
    }

    /// Whether the line has stood for a second, so that another one comes.
    pub(crate) fn is_due(&self, now: Instant) -> bool {
        if let Some(since) = self.since.get() {
            if now.duration_since(since).as_secs() == 0 {
                return false;
            }
            self.since.set(Some(now));
            return true;
        }
        self.since.set(Some(now));
        false
    }

    /// Puts a line in place of the one that stands there.
    pub(crate) fn put(&self, line: &String) {
        self.clear();
        let _ = self.rt.eprint(line);
        self.shown.set(line.len());
    }

    /// Shows how many bytes of a file were read or written.
    pub(crate) fn show_bytes(&self, what: &str, bytes: u64) -> Result<(), AllocError> {
        if let Some(now) = self.now() {
            if self.is_due(now) {
                self.put(&format!(in self.rt.alloc(); "{what} {bytes} bytes")?);
            }
        }
        Ok(())
    }
}

/// A writer that takes the line away before it writes to the terminal.
#[derive(Drop)]
pub(crate) struct Said<'s, W> {
    out: W,
    screen: &'s Screen,
    is_terminal: bool,
}

impl<'s, W: Write> Said<'s, W> {
    pub(crate) fn new(out: W, screen: &'s Screen, is_terminal: bool) -> Said<'s, W> {
        Said {
            out,
            screen,
            is_terminal,
        }
    }
}

impl<W: Write> Write for Said<'_, W> {
    fn write(&mut self, buf: &[u8]) -> io::Result<usize> {
        if self.is_terminal {
            self.screen.clear();
            if let Some(last) = buf.last() {
                self.screen.is_amid.set(*last != b'\n');
            }
        }
        self.out.write(buf)
    }

    fn flush(&mut self) -> io::Result<()> {
        self.out.flush()
    }
}
