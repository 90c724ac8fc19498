// The same calls on the system in memory and on the files that the process reaches: each answers as the other does.
use file_saving::save;
use file_system::{ERRORS, Kind, Making, OUTPUT, Refusal, System, Way};
use memory_files::MemoryFiles;
use std::alloc::Global;
use std::fs;
use std::test::Fail;
use system_files::SystemFiles;

const OLD: &[u8] = b"old bytes";

const NEW: &[u8] = b"the new image";

#[test]
fn saves_over_what_was_saved(rt: HostRuntime) -> Result<(), Fail> {
    let mut system = SystemFiles::new(rt, rt.stdout(), rt.stderr());
    for bytes in [OLD, NEW] {
        assert_eq!(rt;
            save(&mut system, rt.alloc(), "system-saved.loom", bytes),
            Ok(())
        );
        assert_eq!(rt; fs::read(&rt, "system-saved.loom")?.as_slice(), bytes);
    }
    assert_eq!(rt; fs::exists(&rt, "system-saved.loom.part")?, false);
    fs::remove_file(&rt, "system-saved.loom")?;
    assert_eq!(rt;
        save(&mut system, rt.alloc(), "no-folder/saved.loom", NEW),
        Err(Refusal::Missing)
    );
    Ok(())
}

// What a call answered that gives no number.
fn done(answer: Result<(), Refusal>) -> Result<usize, Refusal> {
    match answer {
        Ok(()) => Ok(0),
        Err(refusal) => Err(refusal),
    }
}

// Bytes at a place and in order, through one opening: what each call answered, and what was read. The name is left.
fn bytes_of<S: System>(
    system: &mut S,
    path: &str,
) -> ([Result<usize, Refusal>; 10], [u8; 3], [u8; 2]) {
    let (mut at, mut after, mut none) = ([255; 3], [255; 2], [255; 1]);
    let d = match system.open(path, Way::Place, Making::New, 0o600) {
        Ok(opened) => opened.descriptor,
        Err(refusal) => return ([Err(refusal); 10], at, after),
    };
    let written = system.write_at(d, 2, b"abc");
    let there = system.read_at(d, 1, &mut at);
    let next = system.read(d, &mut after);
    let again = match system.open(path, Way::Append, Making::New, 0o600) {
        Ok(_) => Ok(0),
        Err(refusal) => Err(refusal),
    };
    let cut = done(system.cut(d));
    let synced = done(system.sync(d));
    let behind = system.read_at(d, 0, &mut none);
    let permitted = done(system.permit(d, 0o644));
    system.close(d);
    let shut = system.read_at(d, 0, &mut none);
    let put = system.write_at(d, 0, b"abc");
    (
        [
            written, there, next, again, cut, synced, behind, permitted, shut, put,
        ],
        at,
        after,
    )
}

// What stands under a name: its kind, whether it is the only name, and what the file may be used for.
fn look_at<S: System>(system: &mut S, path: &str) -> Result<(Kind, bool, u32), Refusal> {
    let found = system.look(path, true)?;
    Ok((found.kind, found.alone, found.mode))
}

// The folder of a name is on the disk.
fn settle<S: System>(system: &mut S, path: &str) -> Result<usize, Refusal> {
    let folder = system.open_folder(path)?;
    let synced = done(system.sync(folder));
    system.close(folder);
    synced
}

// A file is found by its name, gets another one, and goes: what each call answered.
fn names_of<S: System>(
    system: &mut S,
    alloc: Global,
    path: &str,
    other: &str,
) -> [Result<usize, Refusal>; 8] {
    let settled = settle(system, path);
    let link = match system.read_link(alloc, path) {
        Ok(_) => Ok(0),
        Err(refusal) => Err(refusal),
    };
    let renamed = done(system.rename(path, other));
    let gone = match system.look(path, false) {
        Ok(_) => Ok(0),
        Err(refusal) => Err(refusal),
    };
    let removed = done(system.remove(other));
    let again = done(system.remove(other));
    let opened = match system.open(other, Way::Read, Making::Old, 0) {
        Ok(_) => Ok(0),
        Err(refusal) => Err(refusal),
    };
    let streams = system.append(OUTPUT, b"\n");
    [
        settled, renamed, gone, removed, again, opened, link, streams,
    ]
}

const REFUSED: Result<usize, Refusal> = Err(Refusal::Failed);

const MISSING: Result<usize, Refusal> = Err(Refusal::Missing);

// What each call answers.
const BYTES: ([Result<usize, Refusal>; 10], [u8; 3], [u8; 2]) = (
    [
        Ok(3),
        Ok(3),
        Ok(2),
        REFUSED,
        Ok(0),
        Ok(0),
        Ok(0),
        Ok(0),
        REFUSED,
        REFUSED,
    ],
    *b"\0ab",
    *b"\0\0",
);

const NAMES: [Result<usize, Refusal>; 8] = [
    Ok(0),
    Ok(0),
    MISSING,
    Ok(0),
    MISSING,
    MISSING,
    REFUSED,
    Ok(1),
];

#[test]
fn both_answer_alike(rt: HostRuntime) -> Result<(), Fail> {
    let mut memory = MemoryFiles::new(rt.alloc());
    let mut system = SystemFiles::new(rt, rt.stdout(), rt.stderr());
    assert_eq!(rt; bytes_of(&mut memory, "system-work"), BYTES);
    assert_eq!(rt; bytes_of(&mut system, "system-work"), BYTES);
    let looked = look_at(&mut memory, "system-work");
    assert_eq!(rt; looked, Ok((Kind::Regular, true, 0o644)));
    assert_eq!(rt; look_at(&mut system, "system-work"), looked);
    assert_eq!(rt;
        names_of(&mut memory, rt.alloc(), "system-work", "system-other"),
        NAMES
    );
    assert_eq!(rt;
        names_of(&mut system, rt.alloc(), "system-work", "system-other"),
        NAMES
    );
    assert_eq!(rt; memory.append(ERRORS, b"\n"), system.append(ERRORS, b"\n"));
    Ok(())
}
