// Checkpoints that are kept one after the other, and what a stop behind each call of `keep` on the vault leaves.
ghost use Rattle.std.specs.Prelude.{◌≡◌, ◌+◌, ◌^◌, ◌<◌, IfOk, IsTrue, length};
ghost use Rattle.checkpoint.specs.Keeping.{serial_of};
ghost use Rattle.checkpoint.specs.Layout.{IsPoint};

use checkpoint::{MemoryVault, Point, Vault, VaultFault, keep, read_image, recover};
use disk_objects::DiskObjects;
use image_format::State;
use image_reader::load;
use long_names::{Name, Octets};
use loom_outside::{Failed, Host, LyingHost, MemoryHost, Role};
use md5::{Digest, Md5};
use sample_images::{NEXT, add_words, base};
use std::alloc::{AllocError, Global};
use std::test::Fail;

/// How many objects there is room for.
const ROOM: u32 = 64;

#[derive(Clone, Copy)]
enum Sample {
    Base,
    /// With 33,000 words that are 7 in the place of true, so that it takes two blocks.
    Wide,
}

/// An image that is kept, the clock of its state, and its bytes in version 2: how many there are, and their digest.
#[derive(Clone, Copy)]
struct Kept {
    sample: Sample,
    clock: u32,
    len: u64,
    md5: u128,
}

/// The checkpoints of a vault, from the first on. Their bytes were made apart from this repository.
const KEPT: &[Kept] = &[
    Kept {
        sample: Sample::Base,
        clock: 2,
        len: 672,
        md5: 0x4cb6_8f02_1a0f_0818_a5f7_f9aa_6180_9405,
    },
    Kept {
        sample: Sample::Base,
        clock: 5,
        len: 672,
        md5: 0x8158_af41_a1f1_b3cd_f1fd_b7a7_580f_d733,
    },
    Kept {
        sample: Sample::Wide,
        clock: 9,
        len: 66_672,
        md5: 0x898c_fa10_a6bf_c5ea_ebec_edc0_1aae_fbcc,
    },
];

// ---- keeping

fn words(alloc: Global, count: usize) -> Result<Vec<u16>, AllocError>
    ensures { IfOk result (λ words. length words.items ≡ count) }
{
    vec![in alloc; 7; count]
}

fn octets(alloc: Global, sample: Sample) -> Result<Octets, Fail> {
    let mut builder = base(alloc)?;
    if matches!(sample, Sample::Wide) {
        let words = words(alloc, 33_000)?;
        add_words(alloc, &mut builder, Name::TRUE, Name::ARRAY, &words)?;
    }
    Ok(builder.finish(alloc, NEXT)?)
}

// A host with this image, and an empty Work.
fn host_with(alloc: Global, sample: Sample) -> Result<LyingHost, Fail> {
    let octets = octets(alloc, sample)?;
    let mut host = MemoryHost::new(alloc, 1_000)?;
    host.add_file("image", octets.bytes())?;
    host.attach(Role::Work, "work")?;
    host.attach(Role::Image, "image")?;
    Ok(LyingHost::new(host, 0, 0))
}

// Whether some serial comes behind this point's.
fn has_next(last: Option<Point>) -> bool
    ensures { IsTrue result → serial_of last + 1 < 2 ^ 62 }
{
    match last {
        Some(point) => point.serial < (1 << 62) - 1,
        None => true,
    }
}

// Loads an image and keeps it behind the checkpoint that the vault has. Of the calls of `keep` on the vault so many pass.
fn keeps(
    alloc: Global,
    vault: &mut MemoryVault,
    kept: &Kept,
    calls: u64,
) -> Result<Result<Point, VaultFault>, Fail> {
    let last = recover(vault)?;
    if !has_next(last) {
        return Err("some serial is left".into());
    }
    let mut host = host_with(alloc, kept.sample)?;
    let mut disk = DiskObjects::begin(&mut host, ROOM);
    match load(alloc, &mut disk, ROOM) {
        Ok(loaded) => match disk.count(Name::NIL) {
            Ok(Some(_)) => {
                let state = State {
                    clock: kept.clock,
                    ..State::NONE
                };
                vault.fuse(calls);
                Ok(keep(alloc, &mut disk, vault, last, loaded.next, &state))
            }
            _ => Err("nil is on the disk".into()),
        },
        Err(_) => Err("the image breaks no rule".into()),
    }
}

// Whether a point's image is this one.
fn is_image(alloc: Global, vault: &mut MemoryVault, point: Point, kept: &Kept) -> Result<bool, Fail>
    requires { IsPoint point }
{
    let image = read_image(alloc, vault, point)?;
    let md5 = u128::from_be_bytes(Md5::digest(image.bytes()));
    Ok(point.len == kept.len && md5 == kept.md5)
}

// The serial of the checkpoint behind the first ones.
fn serial_behind(made: usize) -> u64 {
    (made as u64).saturating_add(1)
}

// The serial of the checkpoint that is found, 0 where none is. Its image has to be whole.
fn found(alloc: Global, vault: &mut MemoryVault) -> Result<u64, Fail> {
    let Some(point) = recover(vault)? else {
        return Ok(0);
    };
    let Some(kept) = KEPT.get(point.serial as usize - 1) else {
        return Err("no more were kept".into());
    };
    if is_image(alloc, vault, point, kept)? {
        return Ok(point.serial);
    }
    Err("the image of a checkpoint is whole".into())
}

#[test]
fn checkpoints_in_turn(rt: HostRuntime) -> Result<(), Fail> {
    let mut vault = MemoryVault::new(rt.alloc())?;
    for (i, kept) in KEPT.iter().enumerate() {
        let point = Point {
            serial: serial_behind(i),
            len: kept.len,
        };
        assert_eq!(rt; keeps(rt.alloc(), &mut vault, kept, 100)?, Ok(point));
        vault.stop(0, 255);
        assert_eq!(rt; found(rt.alloc(), &mut vault)?, point.serial);
    }
    Ok(())
}

// Opens, writes and syncs, and reads what was written and the byte before.
fn written(vault: &mut MemoryVault) -> Result<[u8; 25], Failed> {
    let mut bytes = [0; 25];
    vault.open_named("CHECKPOINT", true)?;
    vault.write_at(512, &[7; 24])?;
    vault.sync()?;
    vault.read_at(511, &mut bytes)?;
    Ok(bytes)
}

// Room for an opening, a write and a sync, which go through then, and what is written is read again.
#[test]
fn room_is_taken(rt: HostRuntime) -> Result<(), Fail> {
    let mut vault = MemoryVault::new(rt.alloc())?;
    vault.reserve(10, 3, 24, 536)?;
    let bytes = written(&mut vault)?;
    assert_eq!(rt;
        (bytes[0], bytes[1], bytes[24], vault.fault_count()),
        (0, 7, 7, 0)
    );
    Ok(())
}

// ---- stops

/// What stands in a vault before the next keep: so many of the checkpoints, and in the gate that comes next these: a byte that isn't 1, a
/// serial and a length, as an earlier stop may leave them.
struct Before {
    made: usize,
    torn: Option<(u8, u64, u64)>,
}

const BEFORE: &[Before] = &[
    Before {
        made: 0,
        torn: None,
    },
    Before {
        made: 2,
        torn: None,
    },
    Before {
        made: 0,
        torn: Some((255, 7, 36)),
    },
    Before {
        made: 0,
        torn: Some((255, u64::MAX, 3)),
    },
    Before {
        made: 0,
        torn: Some((0, 3, 672)),
    },
    Before {
        made: 1,
        torn: Some((0, 6, 36)),
    },
    Before {
        made: 2,
        torn: Some((2, 1 << 62, 0)),
    },
];

/// How many of the ranges that weren't synced are kept, and the byte of the others.
const STOPS: &[(u64, u8)] = &[
    (0, 0),
    (0, 1),
    (0, 255),
    (1, 0),
    (1, 1),
    (1, 255),
    (2, 0),
    (2, 1),
    (2, 255),
    (3, 0),
    (3, 1),
    (3, 255),
];

// The gate of the even serials stands at 0, that of the odd ones at 512.
fn put_gate(
    vault: &mut MemoryVault,
    serial: u64,
    (byte, said, len): (u8, u64, u64),
) -> Result<(), Failed> {
    let place = if serial % 2 == 0 { 0u64 } else { 512 };
    vault.write_at(place, &[byte])?;
    vault.write_at(place + 8, &said.to_be_bytes())?;
    vault.write_at(place + 16, &len.to_be_bytes())
}

fn vault_for(alloc: Global, before: &Before) -> Result<MemoryVault, Fail> {
    let mut vault = MemoryVault::new(alloc)?;
    for kept in KEPT.iter().take(before.made) {
        if keeps(alloc, &mut vault, kept, 100)?.is_err() {
            return Err("a checkpoint is kept".into());
        }
    }
    vault.stop(0, 0);
    if let Some(torn) = before.torn {
        put_gate(&mut vault, serial_behind(before.made), torn)?;
        vault.sync()?;
    }
    Ok(vault)
}

// Keeps the next checkpoint, and stops behind so many calls. None where something else is found than the last one or the next, and otherwise
// whether the call went through.
fn stopped(
    alloc: Global,
    before: &Before,
    calls: u64,
    (kept, fill): (u64, u8),
) -> Result<Option<bool>, Fail> {
    let Some(next) = KEPT.get(before.made) else {
        return Ok(None);
    };
    let mut vault = vault_for(alloc, before)?;
    let answer = keeps(alloc, &mut vault, next, calls)?;
    vault.stop(kept, fill);
    let serial = found(alloc, &mut vault)?;
    let is_next = serial == serial_behind(before.made);
    match answer {
        Ok(_) if is_next => Ok(Some(true)),
        Err(VaultFault::Failed { count: 1 }) if is_next || serial == before.made as u64 => {
            Ok(Some(false))
        }
        _ => Ok(None),
    }
}

// The first stop behind so many calls that is wrong, or behind which a keep that is to be stopped went through, or one that isn't failed.
fn first_wrong(
    alloc: Global,
    before: &Before,
    calls: u64,
    through: bool,
) -> Result<Option<(u64, u8)>, Fail> {
    for stop in STOPS {
        if stopped(alloc, before, calls, *stop)? != Some(through) {
            return Ok(Some(*stop));
        }
    }
    Ok(None)
}

// How many calls a keep makes.
fn call_count(alloc: Global, before: &Before) -> Result<u64, Fail> {
    for calls in 0..100 {
        if stopped(alloc, before, calls, (0, 0))? == Some(true) {
            return Ok(calls);
        }
    }
    Err("a keep makes fewer calls".into())
}

#[test]
fn a_stop_leaves_the_last_checkpoint_or_the_next(rt: HostRuntime) -> Result<(), Fail> {
    for (i, before) in BEFORE.iter().enumerate() {
        let count = call_count(rt.alloc(), before)?;
        for calls in 0..=count {
            let wrong = first_wrong(rt.alloc(), before, calls, calls == count)?;
            assert_eq!(rt; (i, calls, wrong), (i, calls, None));
        }
    }
    Ok(())
}

// ---- the greatest serials

/// The last two serials behind which one is kept, and their next ones.
const LATE: [(u64, u64); 2] = [
    ((1 << 62) - 3, (1 << 62) - 2),
    ((1 << 62) - 2, (1 << 62) - 1),
];

fn is_kept_behind(alloc: Global, last: u64, next: u64) -> Result<bool, Fail> {
    let mut vault = MemoryVault::new(alloc)?;
    put_gate(&mut vault, last, (1, last, 36))?;
    let answer = keeps(alloc, &mut vault, &KEPT[0], 100)?;
    vault.stop(0, 1);
    let Some(point) = recover(&mut vault)? else {
        return Ok(false);
    };
    let whole = is_image(alloc, &mut vault, point, &KEPT[0])?;
    Ok(whole && point.serial == next && answer == Ok(point))
}

#[test]
fn the_greatest_serials(rt: HostRuntime) -> Result<(), Fail> {
    for (last, next) in LATE {
        assert!(rt; is_kept_behind(rt.alloc(), last, next)?);
    }
    Ok(())
}
