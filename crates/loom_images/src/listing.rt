// The text of an image.
use disk_objects::DiskObjects;
use image_reader::load;
use image_text::list;
use loom_outside::{Host, LyingHost, MemoryHost, Role};
use std::alloc::Global;

/// For how many objects there is room.
const ROOM: u32 = 1_024;

/// How many bytes a call of the host moves at most.
const CHUNK: usize = 65_536;

/// The file that an image is listed to.
pub const TEXT: &str = "text";

// A host with an image to be read, an empty file for its objects, and one for its text. It tells nothing of the first, and so asks nothing of
// who reads and writes there.
fn host_with(alloc: Global, image: &[u8]) -> Option<LyingHost> {
    let mut host = MemoryHost::new(alloc, CHUNK).ok()?;
    host.add_file("image", image).ok()?;
    host.attach(Role::Work, "work").ok()?;
    host.attach(Role::Image, "image").ok()?;
    host.attach(Role::Saved, TEXT).ok()?;
    Some(LyingHost::new(host, 0, 0))
}

// Loads the image of a host and lists it, and says whether both went through.
fn lists(alloc: Global, host: &mut LyingHost) -> bool {
    let mut disk = DiskObjects::begin(host, ROOM);
    let done = match load(alloc, &mut disk, ROOM) {
        Ok(loaded) => list(alloc, &mut disk, loaded.next, &loaded.state).is_ok(),
        Err(_) => false,
    };
    let _host = disk.into_host();
    done
}

/// The host whose file `TEXT` is the text of an image; none where the image has none, or for want of memory.
pub fn listed(alloc: Global, image: &[u8]) -> Option<LyingHost> {
    let mut host = host_with(alloc, image)?;
    if lists(alloc, &mut host) {
        Some(host)
    } else {
        None
    }
}
