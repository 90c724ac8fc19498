// The words of the commands: each that is bad, missing or extra, each size at its ends and one past them, and which files may be equal.
use loom_outside::MemoryHost;
use loom_outside::Role::Image;
use loom_run::{Status, loom};
use std::alloc::{AllocError, Global};
use std::test::Fail;

/// Runs these words.
pub(crate) fn ask(alloc: Global, host: &mut MemoryHost, line: &str) -> Result<Status, AllocError> {
    let mut words = Vec::new(alloc);
    for word in line.split_whitespace() {
        words.push(String::from_str(alloc, word)?)?;
    }
    Ok(loom(alloc, host, &words))
}

/// An answer, its line, and commands that come to it over a host without files: of bad words the first is named, and right ones make an image
/// or come to one that isn't there.
struct Words {
    status: Status,
    notes: &'static str,
    commands: &'static [&'static str],
}

const WORDS: &[Words] = &[
    Words {
        status: Status::Usage { word: 1 },
        notes: "usage: word 1\n",
        commands: &[
            "",
            "walk",
            "--help",
            "--version",
            "Make 0 f",
            "makes 0 f",
            "Run a b c d e 4096 512 1024 0",
            "List a b c",
            "lists a b c",
            "assemble a b c",
            "Trace a b c d 4096 512 1024 0",
            "traces a b c d 4096 512 1024 0",
        ],
    },
    Words {
        status: Status::Usage { word: 2 },
        notes: "usage: word 2\n",
        commands: &[
            "run",
            "make",
            "make 20 f",
            "make 00 f",
            "make 01 f",
            "make +1 f",
            "make -1 f",
            "make 256 f",
            "make x f",
            "make 20 f g",
            "list",
            "asm",
            "trace",
        ],
    },
    Words {
        status: Status::Usage { word: 3 },
        notes: "usage: word 3\n",
        commands: &[
            "run a",
            "make 0",
            "make 19",
            "list a",
            "list a a b",
            "list a a",
            "asm a",
            "asm a a b",
            "trace a",
        ],
    },
    Words {
        status: Status::Usage { word: 4 },
        notes: "usage: word 4\n",
        commands: &[
            "make 0 f g",
            "list a b",
            "list a b b",
            "asm a b",
            "asm a b b",
            "asm a b b d",
            "run a b",
            "run a b a d e 4096 512 1024 1",
            "run a b b d e 4096 512 1024 1",
            "run a b a a a 0 0 0 x y",
            "trace a b",
            "trace a b a d 4096 512 1024 1",
            "trace a b b d 4096 512 1024 1",
            "trace a a a d 4096 512 1024 1",
            "trace a b a a 0 0 0 x y",
        ],
    },
    Words {
        status: Status::Usage { word: 5 },
        notes: "usage: word 5\n",
        commands: &[
            "run a b c",
            "run a b c c e 4096 512 1024 1",
            "list a b c d",
            "list a b a d e",
            "asm a b c d",
            "trace a b c",
            "trace a b c a 4096 512 1024 1",
            "trace a b c b 4096 512 1024 1",
            "trace a b c c 4096 512 1024 1",
            "trace a b c a 0 0 0 x y",
        ],
    },
    Words {
        status: Status::Usage { word: 6 },
        notes: "usage: word 6\n",
        commands: &[
            "run a b c d",
            "run a b c d a 4096 512 1024 1",
            "run a b c d b 4096 512 1024 1",
            "run a b c d c 4096 512 1024 1",
            "run a b c d d 4096 512 1024 1",
            "run a b c a a 4095 512 1024 1",
            "trace a b c d",
            "trace a b c d 4095 512 1024 1",
            "trace a b c d 16777217 512 1024 1",
            "trace a b c d 04096 512 1024 1",
            "trace a b c d +4096 512 1024 1",
            "trace a b c d e 4096 512 1024 1",
            "trace a b c d 0 0 0 x y",
        ],
    },
    Words {
        status: Status::Usage { word: 7 },
        notes: "usage: word 7\n",
        commands: &[
            "run a b c d e",
            "run a b c d e 4095 512 1024 1",
            "run a b c d e 16777217 512 1024 1",
            "run a b c d e 04096 512 1024 1",
            "run a b c d e +4096 512 1024 1",
            "run a b c d e -4096 512 1024 1",
            "run a b c d e 4096i 512 1024 1",
            "run a b c d e 4294971392 512 1024 1",
            "run a b c d e 99999999999 512 1024 1",
            "run a b c d e 0 0 0 x y",
            "trace a b c d 4096",
            "trace a b c d 4096 511 1024 1",
            "trace a b c d 4096 32768 1024 1",
            "trace a b c d 4096 0512 1024 1",
            "trace a b c d 4096 66048 1024 1",
        ],
    },
    Words {
        status: Status::Usage { word: 8 },
        notes: "usage: word 8\n",
        commands: &[
            "run a b c d e 4096",
            "run a b c d e 4096 511 1024 1",
            "run a b c d e 4096 32768 1024 1",
            "run a b c d e 4096 0512 1024 1",
            "run a b c d e 4096 +512 1024 1",
            "run a b c d e 4096 -512 1024 1",
            "run a b c d e 4096 66048 1024 1",
            "trace a b c d 4096 512",
            "trace a b c d 4096 512 1023 1",
            "trace a b c d 4096 512 1048577 1",
            "trace a b c d 4096 512 01024 1",
        ],
    },
    Words {
        status: Status::Usage { word: 9 },
        notes: "usage: word 9\n",
        commands: &[
            "run a b c d e 4096 512",
            "run a b c d e 4096 512 1023 1",
            "run a b c d e 4096 512 1048577 1",
            "run a b c d e 4096 512 01024 1",
            "run a b c d e 4096 512 +1024 1",
            "run a b c d e 4096 512 -1024 1",
            "trace a b c d 4096 512 1024",
            "trace a b c d 4096 512 1024 02",
            "trace a b c d 4096 512 1024 -1",
            "trace a b c d 4096 512 1024 2i",
            "trace a b c d 4096 512 1024 2147483648",
            "trace a b c d 4096 512 1024 02 x",
        ],
    },
    Words {
        status: Status::Usage { word: 10 },
        notes: "usage: word 10\n",
        commands: &[
            "run a b c d e 4096 512 1024",
            "run a b c d e 4096 512 1024 02",
            "run a b c d e 4096 512 1024 00",
            "run a b c d e 4096 512 1024 +2",
            "run a b c d e 4096 512 1024 -1",
            "run a b c d e 4096 512 1024 2i",
            "run a b c d e 4096 512 1024 2147483648",
            "run a b c d e 4096 512 1024 99999999999",
            "run a b c d e 4096 512 1024 02 x",
            "trace a b c d 4096 512 1024 1 x",
            "trace a b c d 16777216 32767 1048576 2147483647 x y",
        ],
    },
    Words {
        status: Status::Usage { word: 11 },
        notes: "usage: word 11\n",
        commands: &[
            "run a b c d e 4096 512 1024 1 x",
            "run a b c d e 16777216 32767 1048576 2147483647 x y",
        ],
    },
    Words {
        status: Status::Made { objects: 1_327 },
        notes: "made 1327 objects\n",
        commands: &["make 0 f"],
    },
    Words {
        status: Status::ReadFault {
            role: Image,
            count: 1,
        },
        notes: "read fault: Image\n",
        commands: &[
            "run a b c d e 4096 512 1024 0",
            "run a b c d e 16777216 32767 1048576 2147483647",
            "run a b c a e 4096 512 1024 1",
            "run a b c b e 4096 512 1024 1",
            "run a a c a e 4096 512 1024 1",
            "trace a b c d 4096 512 1024 0",
            "trace a b c d 16777216 32767 1048576 2147483647",
            "trace a a c d 4096 512 1024 1",
            "list a b c",
            "list a b a",
            "asm a b c",
            "asm a b a",
        ],
    },
];

// Whether a command is answered so.
fn is_answered(alloc: Global, command: &str, row: &Words) -> Result<bool, AllocError> {
    let mut host = MemoryHost::new(alloc, 100)?;
    let status = ask(alloc, &mut host, command)?;
    Ok(status == row.status && host.notes() == row.notes.as_bytes())
}

// The first command of a row that isn't.
fn first_wrong(alloc: Global, row: &Words) -> Result<Option<&'static str>, AllocError> {
    for command in row.commands {
        if !is_answered(alloc, command, row)? {
            return Ok(Some(command));
        }
    }
    Ok(None)
}

#[test]
fn words_are_checked(rt: HostRuntime) -> Result<(), Fail> {
    for row in WORDS {
        assert_eq!(rt; first_wrong(rt.alloc(), row)?, None);
    }
    assert_eq!(rt; Status::Usage { word: 1 }.code(), 2);
    Ok(())
}
