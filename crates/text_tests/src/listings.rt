// Images that are loaded, and listed.
use disk_objects::DiskObjects;
use image_format::State;
use image_reader::{LoadFault, load};
use image_text::list;
use image_writer::SaveFault;
use loom_outside::{Host, LyingHost, MemoryHost, Role};
use sample_images::{BLIT_NEXT, NEXT, base, blit};
use std::alloc::Global;
use std::test::Fail;

/// For how many objects there is room.
const ROOM: u32 = 1_024;

/// The text of the base image.
pub(crate) const BASE: &str = "\
loom 68 0 0 0 0 0\n\
2 16 pointers\n\
4 16 pointers\n\
6 16 pointers\n\
8 16 pointers 2 60\n\
12 16 pointers\n\
14 16 pointers\n\
16 16 pointers\n\
22 16 pointers\n\
24 16 pointers\n\
26 16 pointers\n\
28 16 pointers\n\
30 16 pointers\n\
32 16 pointers\n\
34 16 pointers\n\
38 16 pointers\n\
40 16 pointers\n\
42 16 pointers\n\
44 16 pointers\n\
48 16 pointers\n\
50 16 pointers\n\
52 16 pointers\n\
58 16 pointers\n\
60 16 pointers 2 62\n\
62 16 pointers 2 66 1i 2\n\
64 34 method 0i code 70 87 a3 fc\n\
66 22 pointers 2 3i 0i 64 2 2 2 2 2 2 2 2 2 2 2 2 2 2\n";

/// A state of a machine, and the first line of a text with it.
const STATE: State = State {
    clock: 4_294_967_295,
    display: 60,
    input: 0,
    timer: 62,
    tick: 16_000,
};

const STATED: &str = "loom 68 4294967295 60 0 62 16000\n";

/// The last lines of the text of the image with a picture, and how long that text is.
const BLIT_END: &str = "\
86 16 pointers 84 64i 32i 2\n\
88 16 pointers 86 2 2 10i 12i 8i 40i 16i 0i 0i 0i 0i 64i 32i\n\
90 16 pointers 86 86 2 3i 1i 0i 63i 32i 0i 0i 0i 0i 64i 32i\n";

const BLIT_LEN: usize = 1_611;

/// A line of it, and a piece of a line.
const BLIT_METHOD: &str = "\n78 34 method -4094i 96i 2 code 78\n";

const BLIT_WORDS: &str = "\n84 30 words f0f0 f0f0 ";

/// How a listing ends.
#[derive(Clone, Copy, Debug, PartialEq, Eq)]
enum End {
    Unloaded(LoadFault),
    Unlisted(SaveFault),
    Listed,
}

// A host with this image, over which the call of this number on a role fails, counted from 1.
fn host_with(alloc: Global, image: &[u8], failing: Option<(Role, u64)>) -> Result<LyingHost, Fail> {
    let mut host = MemoryHost::new(alloc, 1_000)?;
    host.add_file("image", image)?;
    host.attach(Role::Work, "work")?;
    host.attach(Role::Image, "image")?;
    host.attach(Role::Saved, "text")?;
    if let Some((role, nth)) = failing {
        host.fail(role, nth)?;
    }
    Ok(LyingHost::new(host, 0, 0))
}

// Loads the image and lists it with a state, or with its own.
fn end_of(alloc: Global, host: &mut LyingHost, state: Option<&State>) -> End {
    let mut disk = DiskObjects::begin(host, ROOM);
    let end = match load(alloc, &mut disk, ROOM) {
        Ok(loaded) => {
            let state = state.unwrap_or(&loaded.state);
            match list(alloc, &mut disk, loaded.next, state) {
                Ok(()) => End::Listed,
                Err(fault) => End::Unlisted(fault),
            }
        }
        Err(fault) => End::Unloaded(fault),
    };
    let _host = disk.into_host();
    end
}

// Whether this much of a text was put, and the listing ended so.
fn lists(host: &mut LyingHost, end: End, wanted: End, text: &[u8]) -> bool {
    end == wanted && host.inner().file("text").unwrap_or(&[]) == text
}

#[test]
fn the_base_image_as_text(rt: HostRuntime) -> Result<(), Fail> {
    let image = base(rt.alloc())?.finish(rt.alloc(), NEXT)?;
    let mut host = host_with(rt.alloc(), image.bytes(), None)?;
    let end = end_of(rt.alloc(), &mut host, None);
    assert!(rt; lists(&mut host, end, End::Listed, BASE.as_bytes()));
    Ok(())
}

#[test]
fn a_state_stands_in_the_first_line(rt: HostRuntime) -> Result<(), Fail> {
    let image = base(rt.alloc())?.finish(rt.alloc(), NEXT)?;
    let mut host = host_with(rt.alloc(), image.bytes(), None)?;
    let end = end_of(rt.alloc(), &mut host, Some(&STATE));
    let text = host.inner().file("text").unwrap_or(&[]);
    let stated = text.starts_with(STATED.as_bytes());
    assert_eq!(rt; (end, stated), (End::Listed, true));
    Ok(())
}

// Whether a piece stands somewhere in a text.
fn has(text: &[u8], piece: &[u8]) -> bool {
    text.windows(piece.len().max(1)).any(|w| w == piece)
}

fn is_picture(text: &[u8]) -> bool {
    text.ends_with(BLIT_END.as_bytes())
        && has(text, BLIT_METHOD.as_bytes())
        && has(text, BLIT_WORDS.as_bytes())
}

// Words of a picture are four digits each, and a SmallInteger below 0 has its sign.
#[test]
fn a_picture_as_text(rt: HostRuntime) -> Result<(), Fail> {
    let image = blit(rt.alloc())?.finish(rt.alloc(), BLIT_NEXT)?;
    let mut host = host_with(rt.alloc(), image.bytes(), None)?;
    let end = end_of(rt.alloc(), &mut host, None);
    let text = host.inner().file("text").unwrap_or(&[]);
    assert_eq!(rt; (end, text.len()), (End::Listed, BLIT_LEN));
    assert!(rt; is_picture(text));
    Ok(())
}

#[test]
fn a_text_that_cannot_be_written(rt: HostRuntime) -> Result<(), Fail> {
    let image = base(rt.alloc())?.finish(rt.alloc(), NEXT)?;
    let mut host = host_with(rt.alloc(), image.bytes(), Some((Role::Saved, 1)))?;
    let end = end_of(rt.alloc(), &mut host, None);
    assert!(rt;
        lists(
            &mut host,
            end,
            End::Unlisted(SaveFault::Write { count: 1 }),
            &[]
        )
    );
    Ok(())
}
