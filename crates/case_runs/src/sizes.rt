// How large a machine is, as words of a command.
use anyhow::{Context, Result};

/// The least core that there is, and the fewest entries.
pub const LEAST_CORE: &str = "4096";

pub const LEAST_ENTRIES: &str = "512";

/// A core between the least and the greatest.
const MIDDLE_CORE: &str = "65536";

/// The greatest core that there is, and the most entries.
const MOST_CORE: &str = "16777216";

const MOST_ENTRIES: &str = "32767";

/// The fewest objects for which a work file may have room.
pub const LEAST_ROOM: &str = "1024";

/// The sizes of a machine, in decimal digits.
#[derive(Clone, Copy, Debug)]
pub struct Sizes<'a> {
    /// The words of the core.
    pub core: &'a str,
    /// The entries of the object table.
    pub entries: &'a str,
    /// The objects for which the work file has room.
    pub room: &'a str,
}

impl<'a> Sizes<'a> {
    /// The same with a core between the least and the greatest, where it isn't smaller than this one.
    pub fn in_the_middle(self) -> Result<Option<Sizes<'a>>> {
        let core: u32 = self.core.parse().context("core")?;
        let middle: u32 = MIDDLE_CORE.parse().context("core")?;
        if core > middle {
            return Ok(None);
        }
        Ok(Some(Sizes {
            core: MIDDLE_CORE,
            entries: MOST_ENTRIES,
            ..self
        }))
    }

    /// The same with the greatest core.
    pub fn at_most(self) -> Sizes<'a> {
        Sizes {
            core: MOST_CORE,
            entries: MOST_ENTRIES,
            ..self
        }
    }
}
