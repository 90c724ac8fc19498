// The sizes of a run where the words don't say them.
ghost use Rattle.std.specs.Prelude.{◌≡◌, unwrap_or};
ghost use Rattle.loom_words.specs.declared.words.TheConstants.{MOST_ENTRIES};
ghost use Rattle.st80_words.specs.Sizes.{HasSizes, core_for, room_for};

use crate::request::AskedSizes;
use loom_words::{MOST_CORE, MOST_ENTRIES, MOST_ROOM};

/// The words of a core that is made for an image of unknown size.
pub const SMALLEST_CORE: u32 = 65_536;

/// For how many objects there is room beyond twice those of the image.
pub const MORE_ROOM: u32 = 8_192;

/// The sizes of a run: the words and the entries of the core, and for how many objects there is room in the work file.
#[derive(Clone, Copy)]
pub struct Sizes {
    pub core: u32,
    pub entries: u16,
    pub room: u32,
}

/// The words of the core for an image of so many bytes: twice its words of 16 bits, within limits.
pub fn default_core(bytes: u64) -> u32
    ensures { result ≡ core_for bytes }
{
    if bytes < SMALLEST_CORE as u64 {
        SMALLEST_CORE
    } else if bytes < MOST_CORE as u64 {
        bytes as u32
    } else {
        MOST_CORE
    }
}

/// The room for an image of so many objects: twice as many and 8,192 more, within limits.
pub fn default_room(objects: u32) -> u32
    ensures { result ≡ room_for objects }
{
    objects
        .saturating_mul(2)
        .saturating_add(MORE_ROOM)
        .min(MOST_ROOM)
}

/// The sizes of a run of an image of so many objects and bytes: those that were asked for, and these defaults. More objects and bytes than any
/// image has are taken as any other number.
pub fn sizes_for(asked: &AskedSizes, objects: u32, bytes: u64) -> Sizes
    ensures limits { HasSizes result }
    ensures core { result.core ≡ unwrap_or asked.now.core (core_for bytes) }
    ensures entries { result.entries ≡ unwrap_or asked.now.entries MOST_ENTRIES }
    ensures room { result.room ≡ unwrap_or asked.now.room (room_for objects) }
{
    Sizes {
        core: asked.core.unwrap_or(default_core(bytes)),
        entries: asked.entries.unwrap_or(MOST_ENTRIES) as u16,
        room: asked.room.unwrap_or(default_room(objects)),
    }
}
