//! Which bytecodes have a line.
use long_names::Name;

/// Which bytecodes have a line.
#[derive(Clone, Copy, Debug, Drop, PartialEq, Eq)]
pub struct Options {
    /// Sends and returns alone.
    pub sends: bool,
    /// The first bytecode that has a line, counted from 1.
    pub from: u32,
    /// The last one.
    pub to: u32,
    /// The method that has lines; all of them where it is None.
    pub method: Option<Name>,
}

impl Options {
    /// All bytecodes.
    pub fn all() -> Options {
        Options {
            sends: false,
            from: 0,
            to: u32::MAX,
            method: None,
        }
    }

    /// Whether the bytecode of this number has a line.
    pub(crate) fn has(&self, number: u32, method: Name, byte: u8) -> bool {
        if number < self.from || self.to < number {
            return false;
        }
        if let Some(wanted) = self.method {
            if wanted != method {
                return false;
            }
        }
        !self.sends || is_send(byte) || is_return(byte)
    }
}

fn is_send(byte: u8) -> bool {
    matches!(byte, 131..=134 | 176..=255)
}

fn is_return(byte: u8) -> bool {
    matches!(byte, 120..=125)
}
