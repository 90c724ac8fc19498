// What is kept or saved of the images that are run. The number behind a name is that of the bytecodes that were run then, counted from the image's own start.
// All of it is what the reference machine leaves, where each checkpoint is a start on what it kept.
use crate::commands::{find, vault_of};
use crate::images::Holds::{Bytes, Context, Fields};
use crate::images::{Changed, Sample, image_with};
use checkpoint::MemoryVault;
use loom_outside::MemoryHost;
use std::alloc::Global;
use std::test::Fail;

/// Classes: of arrays, blocks and large numbers.
const ARRAY: u32 = 16;

const BLOCK: u32 = 24;

const LARGE: u32 = 28;

/// One of them.
#[derive(Clone, Copy)]
pub(crate) enum After {
    Snaps0,
    Snaps2,
    Snaps3,
    Snaps5,
    Snaps6,
    /// What a run leaves that keeps nothing.
    Unkept3,
    /// The same bytecodes where only one checkpoint could be made: at the second the primitive failed, and its method was run.
    Late6,
    /// The same where none could, so that its method runs yet.
    Last6,
    /// The image with a clock that comes to its end, where it stands still.
    Old0,
    Old2,
    Old5,
    Old6,
    Says6,
    Says13,
    Says20,
    Shows3,
    Shows6,
    Shows7,
    Shows8,
    Drops6,
    Drops12,
    Drops16,
    Drops17,
    /// The image with one name left for a new object.
    Named0,
    Named6,
    Hears2,
    Hears9,
    Hears15,
    /// The same behind a run that went on from the second checkpoint, whose queue is empty and whose events are counted from there.
    Heard15,
    Switches2,
    Switches5,
    Switches6,
    Switches13,
    Switches14,
    /// What a run keeps that went on from the second checkpoint, with an event of its own, and what it saves.
    Switched12,
    Switched14,
    Ticks7,
    Ticks12,
    Ticks14,
    NoStart4,
    Crowded2,
    Crowded8,
    NoPark0,
}

const SNAPS_0: &Changed = &Changed {
    next: 78,
    state: [0; 5],
    objects: &[],
    gone: &[],
};

const SNAPS_2: &Changed = &Changed {
    next: 78,
    state: [2, 0, 0, 0, 0],
    objects: &[(66, Context("2 9i 1i 64 2 2 76"))],
    gone: &[],
};

const SNAPS_3: &Changed = &Changed {
    next: 78,
    state: [3, 0, 0, 0, 0],
    objects: &[(66, Context("2 10i 0i 64 2 2 76"))],
    gone: &[],
};

const SNAPS_5: &Changed = &Changed {
    next: 78,
    state: [5, 0, 0, 0, 0],
    objects: &[(66, Context("2 12i 1i 64 2 2 76"))],
    gone: &[],
};

const UNKEPT_3: &Changed = &Changed {
    next: 80,
    state: [3, 0, 0, 0, 0],
    objects: &[(66, Context("2 9i 1i 64 2 2 76"))],
    gone: &[],
};

const SNAPS_6: &Changed = &Changed {
    next: 78,
    state: [6, 0, 0, 0, 0],
    objects: &[(66, Context("2 13i 0i 64 2 2 76"))],
    gone: &[],
};

const LATE_6: &Changed = &Changed {
    next: 80,
    state: [6, 0, 0, 0, 0],
    objects: &[(66, Context("2 12i 1i 64 2 2 76"))],
    gone: &[],
};

const LAST_6: &Changed = &Changed {
    next: 82,
    state: [6, 0, 0, 0, 0],
    objects: &[
        (62, Fields(ARRAY, "2 80 1i 2")),
        (66, Context("2 12i 0i 64 2 2 76")),
        (80, Context("66 7i 0i 74 2 76")),
    ],
    gone: &[],
};

const OLD_0: &Changed = &Changed {
    next: 78,
    state: [4_294_967_292, 0, 0, 0, 0],
    objects: &[],
    gone: &[],
};

const OLD_2: &Changed = &Changed {
    next: 78,
    state: [4_294_967_294, 0, 0, 0, 0],
    objects: &[(66, Context("2 9i 1i 64 2 2 76"))],
    gone: &[],
};

const OLD_5: &Changed = &Changed {
    next: 78,
    state: [4_294_967_295, 0, 0, 0, 0],
    objects: &[(66, Context("2 12i 1i 64 2 2 76"))],
    gone: &[],
};

const OLD_6: &Changed = &Changed {
    next: 78,
    state: [4_294_967_295, 0, 0, 0, 0],
    objects: &[(66, Context("2 13i 0i 64 2 2 76"))],
    gone: &[],
};

const SAYS_6: &Changed = &Changed {
    next: 108,
    state: [6, 0, 0, 0, 0],
    objects: &[(66, Context("2 21i 1i 64 2 2 2 102"))],
    gone: &[],
};

const SAYS_13: &Changed = &Changed {
    next: 108,
    state: [13, 0, 0, 0, 0],
    objects: &[(66, Context("2 28i 1i 64 2 2 2 104"))],
    gone: &[],
};

const SAYS_20: &Changed = &Changed {
    next: 108,
    state: [20, 0, 0, 0, 0],
    objects: &[(66, Context("2 35i 1i 64 2 2 2 106"))],
    gone: &[],
};

const SHOWS_3: &Changed = &Changed {
    next: 106,
    state: [3, 102, 0, 0, 0],
    objects: &[(66, Context("2 10i 2i 64 2 2 102"))],
    gone: &[],
};

const SHOWS_6: &Changed = &Changed {
    next: 106,
    state: [6, 0, 0, 0, 0],
    objects: &[(66, Context("2 13i 1i 64 2 2"))],
    gone: &[102, 104],
};

const SHOWS_7: &Changed = &Changed {
    next: 106,
    state: [7, 0, 0, 0, 0],
    objects: &[(66, Context("2 14i 1i 64 2 2"))],
    gone: &[102, 104],
};

const SHOWS_8: &Changed = &Changed {
    next: 106,
    state: [8, 0, 0, 0, 0],
    objects: &[(66, Context("2 15i 0i 64 2 2"))],
    gone: &[102, 104],
};

const DROPS_6: &Changed = &Changed {
    next: 104,
    state: [6, 0, 0, 0, 0],
    objects: &[(66, Context("2 11i 1i 64 2 2 2 0i"))],
    gone: &[],
};

const DROPS_12: &Changed = &Changed {
    next: 106,
    state: [12, 0, 0, 0, 0],
    objects: &[
        (66, Context("2 17i 2i 64 2 2 104")),
        (
            104,
            Fields(BLOCK, "2 17i 0i 0i 17i 66 2 2 2 2 2 2 2 2 2 2 2 2"),
        ),
    ],
    gone: &[],
};

const DROPS_16: &Changed = &Changed {
    next: 106,
    state: [16, 0, 0, 0, 0],
    objects: &[(66, Context("2 21i 1i 64 2 2"))],
    gone: &[],
};

const DROPS_17: &Changed = &Changed {
    next: 106,
    state: [17, 0, 0, 0, 0],
    objects: &[(66, Context("2 22i 0i 64 2 2"))],
    gone: &[],
};

const NAMED_0: &Changed = &Changed {
    next: 4_294_967_292,
    state: [0; 5],
    objects: &[],
    gone: &[],
};

const NAMED_6: &Changed = &Changed {
    next: 4_294_967_294,
    state: [6, 0, 0, 0, 0],
    objects: &[(66, Context("2 11i 1i 64 2 2 2 0i"))],
    gone: &[],
};

const HEARS_2: &Changed = &Changed {
    next: 102,
    state: [2, 0, 0, 0, 0],
    objects: &[(66, Context("2 9i 1i 64 2 2"))],
    gone: &[],
};

const HEARS_9: &Changed = &Changed {
    next: 104,
    state: [9, 0, 0, 0, 0],
    objects: &[
        (66, Context("2 16i 3i 64 2 2 102 7i")),
        (102, Bytes(LARGE, &[0, 64])),
    ],
    gone: &[],
};

const HEARS_15: &Changed = &Changed {
    next: 106,
    state: [15, 0, 0, 0, 0],
    objects: &[
        (66, Context("2 21i 4i 64 2 2 102 7i 9i")),
        (102, Bytes(LARGE, &[0, 64])),
    ],
    gone: &[],
};

const HEARD_15: &Changed = &Changed {
    next: 104,
    state: [15, 0, 0, 0, 0],
    objects: &[
        (66, Context("2 22i 3i 64 2 2 102 7i 5i 6i")),
        (102, Bytes(LARGE, &[0, 64])),
    ],
    gone: &[],
};

const SWITCHES_2: &Changed = &Changed {
    next: 116,
    state: [2, 0, 102, 0, 0],
    objects: &[(66, Context("2 7i 1i 64 2 2"))],
    gone: &[],
};

const SWITCHES_5: &Changed = &Changed {
    next: 116,
    state: [5, 0, 102, 0, 0],
    objects: &[
        (60, Fields(ARRAY, "104 110")),
        (62, Fields(ARRAY, "2 66 1i 106")),
        (66, Context("2 7i 1i 64 2 2")),
        (102, Fields(ARRAY, "2 2 0i")),
        (106, Fields(ARRAY, "62 62")),
        (112, Context("2 14i 1i 114 2 2")),
    ],
    gone: &[],
};

const SWITCHES_6: &Changed = &Changed {
    next: 116,
    state: [6, 0, 102, 0, 0],
    objects: &[
        (60, Fields(ARRAY, "104 110")),
        (62, Fields(ARRAY, "2 66 1i 106")),
        (66, Context("2 7i 1i 64 2 2")),
        (102, Fields(ARRAY, "2 2 0i")),
        (106, Fields(ARRAY, "62 62")),
        (112, Context("2 15i 0i 114 2 2")),
    ],
    gone: &[],
};

const SWITCHES_13: &Changed = &Changed {
    next: 116,
    state: [13, 0, 102, 0, 0],
    objects: &[
        (62, Fields(ARRAY, "2 66 1i 106")),
        (66, Context("2 7i 1i 64 2 2")),
    ],
    gone: &[],
};

const SWITCHES_14: &Changed = &Changed {
    next: 116,
    state: [14, 0, 102, 0, 0],
    objects: &[
        (62, Fields(ARRAY, "2 66 1i 106")),
        (66, Context("2 8i 0i 64 2 2")),
    ],
    gone: &[],
};

const SWITCHED_12: &Changed = &Changed {
    next: 116,
    state: [12, 0, 102, 0, 0],
    objects: &[
        (60, Fields(ARRAY, "104 110")),
        (62, Fields(ARRAY, "2 66 1i 106")),
        (66, Context("2 7i 1i 64 2 2")),
        (102, Fields(ARRAY, "2 2 0i")),
        (106, Fields(ARRAY, "62 62")),
        (112, Context("2 14i 1i 114 2 2")),
    ],
    gone: &[],
};

const SWITCHED_14: &Changed = &Changed {
    next: 116,
    state: [14, 0, 102, 0, 0],
    objects: &[
        (60, Fields(ARRAY, "104 110")),
        (62, Fields(ARRAY, "2 66 1i 106")),
        (66, Context("2 7i 1i 64 2 2")),
        (102, Fields(ARRAY, "2 2 0i")),
        (106, Fields(ARRAY, "62 62")),
        (112, Context("2 9i 0i 114 2 2")),
    ],
    gone: &[],
};

const TICKS_7: &Changed = &Changed {
    next: 116,
    state: [7, 0, 0, 102, 9],
    objects: &[(66, Context("2 7i 1i 64 2 2"))],
    gone: &[],
};

const TICKS_12: &Changed = &Changed {
    next: 116,
    state: [12, 0, 0, 0, 0],
    objects: &[
        (60, Fields(ARRAY, "104 110")),
        (62, Fields(ARRAY, "2 66 1i 106")),
        (102, Fields(ARRAY, "2 2 0i")),
        (106, Fields(ARRAY, "62 62")),
        (112, Context("2 14i 1i 114 2 2")),
    ],
    gone: &[],
};

const TICKS_14: &Changed = &Changed {
    next: 116,
    state: [14, 0, 0, 0, 0],
    objects: &[
        (60, Fields(ARRAY, "104 110")),
        (62, Fields(ARRAY, "2 66 1i 106")),
        (102, Fields(ARRAY, "2 2 0i")),
        (106, Fields(ARRAY, "62 62")),
        (112, Context("2 9i 0i 114 2 2")),
    ],
    gone: &[],
};

const NO_START_4: &Changed = &Changed {
    next: 106,
    state: [4, 0, 0, 0, 0],
    objects: &[
        (8, Fields(ARRAY, "2 102")),
        (66, Context("2 14i 1i 64 2 2")),
    ],
    gone: &[60, 62],
};

const CROWDED_2: &Changed = &Changed {
    next: 2_064,
    state: [2, 0, 0, 0, 0],
    objects: &[(66, Context("2 7i 1i 64 2 2"))],
    gone: &[],
};

const CROWDED_8: &Changed = &Changed {
    next: 2_066,
    state: [8, 0, 0, 0, 0],
    objects: &[
        (66, Context("2 13i 2i 64 2 2 2064")),
        (
            2_064,
            Fields(BLOCK, "2 13i 0i 0i 13i 66 2 2 2 2 2 2 2 2 2 2 2 2"),
        ),
    ],
    gone: &[],
};

const NO_PARK_0: &Changed = &Changed {
    next: 102,
    state: [0; 5],
    objects: &[],
    gone: &[],
};

fn state_of(after: After) -> &'static Changed {
    match after {
        After::Snaps0 => SNAPS_0,
        After::Snaps2 => SNAPS_2,
        After::Snaps3 => SNAPS_3,
        After::Snaps5 => SNAPS_5,
        After::Snaps6 => SNAPS_6,
        After::Unkept3 => UNKEPT_3,
        After::Late6 => LATE_6,
        After::Last6 => LAST_6,
        After::Old0 => OLD_0,
        After::Old2 => OLD_2,
        After::Old5 => OLD_5,
        After::Old6 => OLD_6,
        After::Says6 => SAYS_6,
        After::Says13 => SAYS_13,
        After::Says20 => SAYS_20,
        After::Shows3 => SHOWS_3,
        After::Shows6 => SHOWS_6,
        After::Shows7 => SHOWS_7,
        After::Shows8 => SHOWS_8,
        After::Drops6 => DROPS_6,
        After::Drops12 => DROPS_12,
        After::Drops16 => DROPS_16,
        After::Drops17 => DROPS_17,
        After::Named0 => NAMED_0,
        After::Named6 => NAMED_6,
        After::Hears2 => HEARS_2,
        After::Hears9 => HEARS_9,
        After::Hears15 => HEARS_15,
        After::Heard15 => HEARD_15,
        After::Switches2 => SWITCHES_2,
        After::Switches5 => SWITCHES_5,
        After::Switches6 => SWITCHES_6,
        After::Switches13 => SWITCHES_13,
        After::Switches14 => SWITCHES_14,
        After::Switched12 => SWITCHED_12,
        After::Switched14 => SWITCHED_14,
        After::Ticks7 => TICKS_7,
        After::Ticks12 => TICKS_12,
        After::Ticks14 => TICKS_14,
        After::NoStart4 => NO_START_4,
        After::Crowded2 => CROWDED_2,
        After::Crowded8 => CROWDED_8,
        After::NoPark0 => NO_PARK_0,
    }
}

/// The bytes of an image then.
pub(crate) fn image_after(alloc: Global, sample: Sample, after: After) -> Result<Vec<u8>, Fail> {
    image_with(alloc, sample, state_of(after))
}

/// A vault that has it as its only checkpoint, of this serial.
pub(crate) fn vault_after(
    alloc: Global,
    serial: u64,
    sample: Sample,
    after: After,
) -> Result<MemoryVault, Fail> {
    let image = image_after(alloc, sample, after)?;
    vault_of(alloc, serial, &image)
}

/// Whether the last checkpoint of a vault has this serial, and the image is its.
pub(crate) fn is_last(
    alloc: Global,
    vault: &mut MemoryVault,
    serial: u64,
    sample: Sample,
    after: After,
) -> Result<bool, Fail> {
    let want = image_after(alloc, sample, after)?;
    match find(alloc, vault)? {
        Some((found, image)) => Ok(found == serial && image.bytes() == want.as_slice()),
        None => Ok(false),
    }
}

/// Whether it is saved.
pub(crate) fn is_saved(
    alloc: Global,
    host: &MemoryHost,
    sample: Sample,
    after: After,
) -> Result<bool, Fail> {
    let want = image_after(alloc, sample, after)?;
    Ok(host.file("s") == Some(want.as_slice()))
}
