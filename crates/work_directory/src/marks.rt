// Which blocks of a directory's slots were ever written, a bit for each.
ghost use Rattle.work_directory.specs.declared.limits.TheConstants.{MARK_WORDS};

use crate::limits::MARK_WORDS;

/// A bit for each block of slots.
#[derive(Drop)]
pub(crate) struct Marks {
    words: [u64; MARK_WORDS],
}

impl Marks {
    ghost use Rattle.std.specs.Prelude.{◌≡◌, ◌==◌, ◌||◌, ◌<◌, ◌*◌, ℕ, false};
    ghost use Rattle.work_directory.specs.Marks.{has_mark};

    // No block has one.
    pub(crate) fn new() -> Marks
        ensures { (block : ℕ) → has_mark result block ≡ false }
    {
        Marks {
            words: [0; MARK_WORDS],
        }
    }

    // Whether a block has one.
    #[inline(always)]
    pub(crate) fn has(&self, block: u32) -> bool
        requires few { block < 64 * MARK_WORDS }
        ensures { result ≡ has_mark self.now block }
    {
        (self.words[(block / 64) as usize] >> (block % 64)) & 1 == 1
    }

    // A block gets one, and the others stay.
    #[inline(always)]
    pub(crate) fn set(&mut self, block: u32)
        requires few { block < 64 * MARK_WORDS }
        ensures { (other : ℕ) → has_mark self.new other ≡ (other == block || has_mark self.old other) }
    {
        self.words[(block / 64) as usize] |= 1u64 << (block % 64);
    }
}
