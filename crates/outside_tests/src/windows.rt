// Reads and writes of Work by windows, beside the same steps over the host without them. Pages 0 and 1,088 have one window in each row.
use loom_outside::{Failed, Host, MemoryHost, Role};
use std::alloc::{AllocError, Global};
use std::test::Fail;
use work_windows::Windowed;

// A step on Work.
#[derive(Clone, Copy)]
enum Step {
    Attach,
    Write(u64, &'static [u8]),
    // so many bytes from a place on, twice, so that their page is shown
    Read(u64, usize),
    // the same once
    Glance(u64, usize),
}

// The most bytes that a step reads.
const MOST: usize = 600;

// Whether a read went through.
fn reads<H: Host>(host: &mut H, place: u64, count: usize, buf: &mut [u8; MOST]) -> bool {
    host.read_at(place, &mut buf[..count.min(MOST)]).is_ok()
}

// What a step reads goes to the front of the buffer. Whether it went through.
fn went<H: Host>(host: &mut H, step: Step, buf: &mut [u8; MOST]) -> bool {
    match step {
        Step::Attach => host.attach(Role::Work, "w").is_ok(),
        Step::Write(place, text) => host.write_at(place, text).is_ok(),
        Step::Read(place, count) => {
            reads(host, place, count, buf) && reads(host, place, count, buf)
        }
        Step::Glance(place, count) => reads(host, place, count, buf),
    }
}

// The first step that goes otherwise over one host than over another, or reads other bytes.
fn first_apart<A: Host, B: Host>(one: &mut A, other: &mut B, steps: &[Step]) -> Option<usize> {
    for (i, step) in steps.iter().enumerate() {
        let mut left = [9; MOST];
        let mut right = [9; MOST];
        let same = went(one, *step, &mut left) == went(other, *step, &mut right);
        if !same || left != right {
            return Some(i);
        }
    }
    None
}

// Bytes of two pages and more.
const LONG: [u8; 9_000] = [7; 9_000];

const STEPS: &[Step] = &[
    Step::Read(0, 70),
    Step::Attach,
    Step::Read(7, 64),
    // read and written again
    Step::Write(4, b"xyz"),
    Step::Read(0, 100),
    Step::Write(0, b"q"),
    Step::Read(0, 100),
    Step::Read(4, 0),
    // up to an edge, from it on, and over it
    Step::Write(4_090, b"abcdefghijkl"),
    Step::Read(4_032, 64),
    Step::Read(4_096, 64),
    Step::Read(4_092, 64),
    Step::Write(4_094, b"ABCD"),
    Step::Read(4_032, 64),
    Step::Read(4_096, 64),
    Step::Write(4_095, b""),
    Step::Read(4_032, 64),
    Step::Write(8_191, b"12"),
    Step::Read(8_168, 24),
    Step::Read(8_192, 24),
    // over more pages than one, some of which were read
    Step::Write(4_000, &LONG),
    Step::Read(3_988, 24),
    Step::Read(4_072, 24),
    Step::Read(4_096, 64),
    Step::Read(8_192, 64),
    Step::Read(12_288, 512),
    Step::Read(12_988, 24),
    // pages that take turns in one window, and writes to the one that isn't in it
    Step::Write(4_456_452, b"far"),
    Step::Read(4_456_452, 64),
    Step::Write(5, b"near"),
    Step::Read(4_456_452, 64),
    Step::Read(4, 64),
    Step::Write(4_456_454, b"off"),
    Step::Read(4, 64),
    Step::Read(4_456_452, 64),
    Step::Write(4_456_446, b"both"),
    Step::Read(4_456_448, 24),
    Step::Read(4_456_424, 24),
    Step::Read(0, 24),
    // short and longer pieces
    Step::Read(0, 23),
    Step::Read(0, 24),
    Step::Read(0, 512),
    Step::Read(0, 513),
    Step::Read(4_072, 24),
    Step::Read(4_073, 24),
    Step::Read(3_584, 512),
    Step::Read(3_900, 600),
    // past the end
    Step::Read(4_460_644, 64),
    Step::Write(4_460_645, b"e"),
    Step::Read(4_460_644, 64),
    Step::Read(u64::MAX, 64),
    Step::Read(u64::MAX - 63, 64),
    Step::Write(u64::MAX, b"over"),
    // anew
    Step::Attach,
    Step::Read(0, 100),
];

// Writes and reads of one page, and of one that is only read.
const FAILING: &[Step] = &[
    Step::Attach,
    Step::Write(0, b"abc"),
    Step::Read(0, 64),
    Step::Write(1, b"xy"),
    Step::Read(0, 64),
    Step::Write(3, b"z"),
    Step::Read(0, 64),
    Step::Read(8_000, 64),
];

// These with a write over an edge, both sides of which were read.
const FAILING_OVER: &[Step] = &[
    Step::Attach,
    Step::Write(4_090, b"abcdefghijkl"),
    Step::Read(4_072, 24),
    Step::Write(4_094, b"ABCD"),
    Step::Read(4_072, 24),
    Step::Read(4_096, 24),
    Step::Read(4_090, 24),
];

// Pages 0 and 1,088 are written in turn, and both are read between.
const TURNS: &[Step] = &[
    Step::Attach,
    Step::Write(8, b"one"),
    Step::Write(16, b"two"),
    Step::Write(24, b"three"),
    Step::Read(0, 64),
    // beside what is kept back
    Step::Read(4_456_448, 64),
    Step::Write(4_456_454, b"four"),
    Step::Read(0, 64),
    Step::Write(4_456_464, b"five"),
    Step::Write(4_456_474, b"six"),
    Step::Read(4_456_448, 64),
    Step::Read(0, 600),
    Step::Write(30, b"seven"),
    Step::Read(0, 64),
];

fn memory(alloc: Global, nth: u64) -> Result<MemoryHost, AllocError> {
    let mut host = MemoryHost::new(alloc, 100)?;
    host.fail(Role::Work, nth)?;
    Ok(host)
}

// Windows over a host where Work was attached before, so that nothing is known of its pages.
fn opened(alloc: Global, nth: u64) -> Result<Windowed<MemoryHost>, Fail> {
    let mut host = memory(alloc, nth)?;
    host.attach(Role::Work, "w")?;
    Ok(Windowed::new(alloc, host))
}

// A host that doesn't fail, of which Work is attached.
fn plain(alloc: Global) -> Result<MemoryHost, Fail> {
    let mut host = MemoryHost::new(alloc, 100)?;
    host.attach(Role::Work, "w")?;
    Ok(host)
}

// Windows over a host that doesn't fail.
fn fresh(alloc: Global) -> Result<Windowed<MemoryHost>, AllocError> {
    Ok(Windowed::new(alloc, MemoryHost::new(alloc, 100)?))
}

// The first step that goes otherwise over windows than over a host, and how many calls on Work failed inside.
fn first_beside<H: Host>(
    alloc: Global,
    host: &mut H,
    steps: &[Step],
) -> Result<(Option<usize>, u64), Fail> {
    let mut plain = plain(alloc)?;
    let apart = first_apart(&mut plain, host, steps);
    Ok((apart, host.fault_count(Role::Work)))
}

// The same over windows of a host that fails at the nth call on Work, which was attached before.
fn first_behind_attach(
    alloc: Global,
    nth: u64,
    steps: &[Step],
) -> Result<(Option<usize>, u64), Fail> {
    let mut windowed = opened(alloc, nth)?;
    first_beside(alloc, &mut windowed, steps)
}

// How many calls of `write_at` came to the host inside and went through.
fn written(host: &mut Windowed<MemoryHost>) -> Result<u64, Fail> {
    host.write(Role::Transcript, b".")?;
    Ok(host.inner().work_writes().1)
}

#[test]
fn windows_show_what_is_there(rt: HostRuntime) -> Result<(), Fail> {
    let mut plain = MemoryHost::new(rt.alloc(), 100)?;
    let mut windowed = fresh(rt.alloc())?;
    assert_eq!(rt; first_apart(&mut plain, &mut windowed, STEPS), None);
    Ok(())
}

// How a step went over two hosts.
#[derive(Clone, Copy, PartialEq, Eq)]
enum Course {
    // the same, and it read the same
    Alike,
    // it failed over the second alone, whose count of faults rose
    Failed,
    Apart,
}

fn compared<A: Host, B: Host>(one: &mut A, other: &mut B, step: Step) -> Course {
    let mut left = [9; MOST];
    let mut right = [9; MOST];
    let faults = other.fault_count(Role::Work);
    let fine = went(one, step, &mut left);
    let also = went(other, step, &mut right);
    let rose = faults < other.fault_count(Role::Work);
    if fine == also && left == right && !rose {
        Course::Alike
    } else if fine && !also && rose {
        Course::Failed
    } else {
        Course::Apart
    }
}

// Whether all steps go alike, up to the first that fails over the second host.
fn alike_until_failed<A: Host, B: Host>(one: &mut A, other: &mut B, steps: &[Step]) -> bool {
    for step in steps {
        match compared(one, other, *step) {
            Course::Alike => {}
            Course::Failed => return true,
            Course::Apart => return false,
        }
    }
    true
}

// The same over a host that fails at the nth call on Work.
fn alike_for(alloc: Global, nth: u64, steps: &[Step]) -> Result<bool, AllocError> {
    let mut plain = MemoryHost::new(alloc, 100)?;
    let mut windowed = Windowed::new(alloc, memory(alloc, nth)?);
    Ok(alike_until_failed(&mut plain, &mut windowed, steps))
}

// At the first, at the second, and so on.
fn alike_for_each(alloc: Global, steps: &[Step]) -> Result<bool, AllocError> {
    for nth in 1..=10 {
        if !alike_for(alloc, nth, steps)? {
            return Ok(false);
        }
    }
    Ok(true)
}

// The same where Work was attached before.
fn alike_behind(alloc: Global, nth: u64, steps: &[Step]) -> Result<bool, Fail> {
    let mut windowed = opened(alloc, nth)?;
    let mut plain = plain(alloc)?;
    Ok(alike_until_failed(&mut plain, &mut windowed, steps))
}

// With the steps behind the attach.
fn alike_behind_attach(alloc: Global, steps: &[Step]) -> Result<bool, Fail> {
    let behind = steps.get(1..).unwrap_or(steps);
    for nth in 2..=10 {
        if !alike_behind(alloc, nth, behind)? {
            return Ok(false);
        }
    }
    Ok(true)
}

#[test]
fn windows_up_to_a_failure_of_unknown_pages(rt: HostRuntime) -> Result<(), Fail> {
    assert!(rt; alike_behind_attach(rt.alloc(), FAILING)?);
    assert!(rt; alike_behind_attach(rt.alloc(), FAILING_OVER)?);
    assert!(rt; alike_behind_attach(rt.alloc(), TURNS)?);
    assert!(rt; alike_behind_attach(rt.alloc(), BESIDE)?);
    Ok(())
}

#[test]
fn windows_up_to_a_failure(rt: HostRuntime) -> Result<(), Fail> {
    assert!(rt; alike_for_each(rt.alloc(), FAILING)?);
    assert!(rt; alike_for_each(rt.alloc(), FAILING_OVER)?);
    assert!(rt; alike_for_each(rt.alloc(), TURNS)?);
    assert!(rt; alike_for_each(rt.alloc(), BESIDE)?);
    Ok(())
}

#[test]
fn windows_take_turns(rt: HostRuntime) -> Result<(), Fail> {
    let mut plain = MemoryHost::new(rt.alloc(), 100)?;
    let mut windowed = fresh(rt.alloc())?;
    let apart = first_apart(&mut plain, &mut windowed, TURNS);
    // page 0 as it makes place, and page 1,088 as page 0 is written again
    assert_eq!(rt; (apart, written(&mut windowed)?), (None, 2));
    Ok(())
}

// A thousand writes of a slot and of a link each, and of 20 bytes over the edges of their pages.
fn write_thousand<H: Host>(host: &mut H) -> Result<(), Failed> {
    host.attach(Role::Work, "w")?;
    for i in 0..1_000 {
        host.write_at(32 * i, b"a slot of 24 bytes here.")?;
        host.write_at(32 * i + 24, b"a link..")?;
        host.write_at(4_096 * (i % 8) + 4_086, b"piece over an edge..")?;
    }
    Ok(())
}

// What stands in the last slot, and in its link.
fn last_written<H: Host>(host: &mut H) -> Result<[u8; 32], Failed> {
    let mut buf = [0; 32];
    host.read_at(32 * 999, &mut buf)?;
    Ok(buf)
}

// None goes through.
#[test]
fn windows_keep_writes_back(rt: HostRuntime) -> Result<(), Fail> {
    let mut windowed = fresh(rt.alloc())?;
    write_thousand(&mut windowed)?;
    let calls = written(&mut windowed)?;
    let last = last_written(&mut windowed)?;
    assert_eq!(rt; (calls, last), (0, *b"a slot of 24 bytes here.a link.."));
    Ok(())
}

// The first bytes, once Work was written, and then another role was attached and written.
fn beside_saved<H: Host>(host: &mut H) -> Result<[u8; 12], Failed> {
    let mut buf = [0; 12];
    host.attach(Role::Work, "w")?;
    host.write_at(0, b"first")?;
    host.write_at(5, b"second")?;
    host.attach(Role::Saved, "s")?;
    host.write(Role::Saved, b"bytes")?;
    host.read_at(0, &mut buf)?;
    Ok(buf)
}

// The first bytes, once Work is attached again.
fn anew<H: Host>(host: &mut H) -> Result<[u8; 24], Failed> {
    let mut buf = [9; 24];
    host.attach(Role::Work, "w")?;
    host.read_at(0, &mut buf)?;
    Ok(buf)
}

// Both, and how many calls on Work failed.
fn beside_other_roles<H: Host>(host: &mut H) -> Result<([u8; 12], [u8; 24], u64), Failed> {
    let kept = beside_saved(host)?;
    let blank = anew(host)?;
    Ok((kept, blank, host.fault_count(Role::Work)))
}

// An attach of another role, and writes there, leave what is kept back; an attach of Work forgets it.
#[test]
fn windows_beside_other_roles(rt: HostRuntime) -> Result<(), Fail> {
    let mut windowed = fresh(rt.alloc())?;
    let seen = beside_other_roles(&mut windowed)?;
    let wanted = (*b"firstsecond\0", [0; 24], 0);
    assert_eq!(rt; (seen, written(&mut windowed)?), (wanted, 0));
    Ok(())
}

const AGAIN: &[Step] = &[
    Step::Read(0, 64),
    Step::Read(4_096, 24),
    Step::Write(4_090, b"abcdefghijkl"),
    Step::Glance(4_456_448, 24),
    Step::Read(4_072, 24),
    Step::Read(4_096, 99),
    Step::Read(4_000, 96),
    Step::Read(0, 64),
    Step::Read(4_080, 32),
    Step::Write(4_095, b"AB"),
    Step::Read(4_095, 8),
];

// The fifth call on Work would fail, and there is none: what lies in a window isn't asked for again, nor what was written to one, and a page
// that was read is written where it lies.
#[test]
fn a_window_is_read_once(rt: HostRuntime) -> Result<(), Fail> {
    assert_eq!(rt; first_behind_attach(rt.alloc(), 5, AGAIN)?, (None, 0));
    Ok(())
}

// The second call on Work would fail, and there is none: a page that was never written isn't read.
#[test]
fn a_blank_page_is_not_read(rt: HostRuntime) -> Result<(), Fail> {
    let mut windowed = Windowed::new(rt.alloc(), memory(rt.alloc(), 2)?);
    windowed.attach(Role::Work, "w")?;
    assert_eq!(rt; first_beside(rt.alloc(), &mut windowed, AGAIN)?, (None, 0));
    Ok(())
}

const BESIDE: &[Step] = &[
    Step::Attach,
    Step::Write(8, b"one"),
    Step::Read(4_456_448, 24),
    Step::Read(4_456_472, 8),
    Step::Read(4_458_448, 256),
    Step::Read(0, 64),
    Step::Write(20, b"two"),
    Step::Read(4_456_448, 24),
    Step::Read(0, 64),
];

// The fourth would fail, and there is none: a page is read beside one that is kept back, which has its place.
#[test]
fn a_read_has_its_own_window(rt: HostRuntime) -> Result<(), Fail> {
    let behind = &BESIDE[1..];
    assert_eq!(rt; first_behind_attach(rt.alloc(), 4, behind)?, (None, 0));
    Ok(())
}

// What stands in front once a write there was kept back, and a read of another page failed.
fn behind_read<H: Host>(host: &mut H) -> Result<(bool, [u8; 8]), Failed> {
    let mut buf = [0; 8];
    host.write_at(0, b"kept")?;
    let failed = host.read_at(4_456_448, &mut buf).is_err();
    host.read_at(0, &mut buf)?;
    Ok((failed, buf))
}

// The same where a write of another page failed.
fn behind_write<H: Host>(host: &mut H) -> Result<(bool, [u8; 8]), Failed> {
    let mut buf = [9; 8];
    host.write_at(0, b"lost")?;
    let failed = host.write_at(4_456_448, b"x").is_err();
    host.read_at(0, &mut buf)?;
    Ok((failed, buf))
}

#[test]
fn windows_after_a_read_that_fails(rt: HostRuntime) -> Result<(), Fail> {
    let mut windowed = opened(rt.alloc(), 3)?;
    assert_eq!(rt; behind_read(&mut windowed)?, (true, *b"kept\0\0\0\0"));
    Ok(())
}

// It makes all windows forget, so that what is inside is read.
#[test]
fn windows_after_a_write_that_fails(rt: HostRuntime) -> Result<(), Fail> {
    let mut windowed = opened(rt.alloc(), 3)?;
    assert_eq!(rt; behind_write(&mut windowed)?, (true, [0; 8]));
    Ok(())
}
