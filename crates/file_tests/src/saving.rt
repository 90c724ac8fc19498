// A saving that fails from each call on, over an old file or none, with what a run that was cut off left or without, and a loss of power behind it:
// 504 cases. Its name leads to the old bytes or to the new ones, and behind an Ok to the new ones.
use file_saving::{begin, give_up_for, save, write};
use file_system::{Making, System, Way};
use memory_files::{Loss, MemoryFiles};
use std::alloc::Global;
use std::test::Fail;

const NAME: &str = "saved.loom";

const PART: &str = "saved.loom.part";

const OLD: &[u8] = b"old bytes";

const NEW: &[u8] = b"the new image";

// A saving makes 15 calls, among them one for each three bytes.
const MOST_CALLS: u64 = 21;

const LOSSES: [Loss; 6] = [
    Loss {
        names: false,
        fill: None,
    },
    Loss {
        names: false,
        fill: Some(0),
    },
    Loss {
        names: false,
        fill: Some(7),
    },
    Loss {
        names: true,
        fill: None,
    },
    Loss {
        names: true,
        fill: Some(0),
    },
    Loss {
        names: true,
        fill: Some(7),
    },
];

// One case.
#[derive(Clone, Copy, Debug, PartialEq, Eq)]
struct Case {
    // whether there is an old file, and what a run that was cut off left
    had: bool,
    left: bool,
    // how many calls pass before each fails
    calls: u64,
    loss: usize,
}

// What the name leads to is the old file or the new one, and the new one behind an Ok.
fn is_right(case: Case, saved: bool, found: Option<Vec<u8>>) -> bool {
    match found {
        Some(bytes) => bytes.as_slice() == NEW || (case.had && !saved && bytes.as_slice() == OLD),
        None => !case.had && !saved,
    }
}

fn holds(alloc: Global, case: Case) -> bool {
    let mut system = MemoryFiles::new(alloc);
    if case.had && system.add(NAME, OLD).is_err() {
        return false;
    }
    if case.left && system.add(PART, b"a part").is_err() {
        return false;
    }
    system.fail_after(Some(case.calls));
    let saved = save(&mut system, alloc, NAME, NEW).is_ok();
    system.fail_after(None);
    if !is_right(case, saved, system.content(NAME)) {
        return false;
    }
    let Some(loss) = LOSSES.get(case.loss) else {
        return false;
    };
    system.lose(*loss).is_ok()
        && is_right(case, saved, system.content(NAME))
        && (saved || case.calls < 20)
}

// The first of the cases that comes out otherwise.
fn first_wrong(alloc: Global) -> Option<Case> {
    for had in [false, true] {
        for left in [false, true] {
            for calls in 0..MOST_CALLS {
                for loss in 0..LOSSES.len() {
                    let case = Case {
                        had,
                        left,
                        calls,
                        loss,
                    };
                    if !holds(alloc, case) {
                        return Some(case);
                    }
                }
            }
        }
    }
    None
}

#[test]
fn a_saving_is_whole_or_not_there(rt: HostRuntime) -> Result<(), Fail> {
    assert_eq!(rt; first_wrong(rt.alloc()), None);
    Ok(())
}

// What was written and not synced doesn't last, and a name that wasn't is lost with it.
#[test]
fn what_is_not_synced_is_lost(rt: HostRuntime) -> Result<(), Fail> {
    let mut system = MemoryFiles::new(rt.alloc());
    assert_eq!(rt;
        system.open("a", Way::Append, Making::New, 0o644).is_ok(),
        true
    );
    assert_eq!(rt; system.append(3, b"abc"), Ok(3));
    assert_eq!(rt; system.content("a").is_some(), true);
    assert_eq!(rt; system.lose(LOSSES[5]), Ok(()));
    assert_eq!(rt; system.content("a").is_none(), true);
    Ok(())
}

// Whether an unfinished file stays where the next name is its own, and goes where it isn't.
fn keeps_its_part(alloc: Global) -> bool {
    let mut system = MemoryFiles::new(alloc);
    let Ok(first) = begin(&mut system, alloc, NAME, None) else {
        return false;
    };
    let written = write(&mut system, &first, b"ab") == Ok(2);
    let refused = give_up_for(&mut system, &first, PART).is_err();
    let stays = system.content(PART).is_some();
    let given_up = give_up_for(&mut system, &first, "other.loom").is_ok();
    written && refused && stays && given_up && system.content(PART).is_none()
}

#[test]
fn a_name_of_its_own_part_is_refused(rt: HostRuntime) -> Result<(), Fail> {
    assert_eq!(rt; keeps_its_part(rt.alloc()), true);
    Ok(())
}
