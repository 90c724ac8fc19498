// The words of the commands with a vault: each that is bad, missing or extra, which files may be equal, and what right ones state. The answers that
// come of a vault. And what a host and a vault are told of the files of each command.
ghost use Rattle.std.specs.Prelude.{[], false};

use loom_outside::Role;
use loom_words::{Guarded, KeepsApart, Kept, Listener, Status, keep_apart, kept_of};
use std::alloc::{AllocError, Global};
use std::test::Fail;

fn words_of(alloc: Global, line: &str) -> Result<Vec<String>, AllocError> {
    let mut words = Vec::new(alloc);
    for word in line.split_whitespace() {
        words.push(String::from_str(alloc, word)?)?;
    }
    Ok(words)
}

/// Commands of which this word is the first bad, missing or extra one.
struct Refused {
    word: u32,
    commands: &'static [&'static str],
}

const GUARDS: &[Refused] = &[
    Refused {
        word: 2,
        commands: &["guard"],
    },
    Refused {
        word: 3,
        commands: &["guard a"],
    },
    Refused {
        word: 4,
        commands: &[
            "guard a b",
            "guard a b a d e 4096 512 1024 1 v",
            "guard a b b d e 4096 512 1024 1 v",
        ],
    },
    Refused {
        word: 5,
        commands: &["guard a b c", "guard a b c c e 4096 512 1024 1 v"],
    },
    Refused {
        word: 6,
        commands: &[
            "guard a b c d a 4096 512 1024 1 v",
            "guard a b c d b 4096 512 1024 1 v",
            "guard a b c d c 4096 512 1024 1 v",
            "guard a b c d d 0 0 0 x d",
        ],
    },
    Refused {
        word: 7,
        commands: &["guard a b c d e 4095 512 1024 1 v"],
    },
    Refused {
        word: 8,
        commands: &["guard a b c d e 4096 32768 1024 1 v"],
    },
    Refused {
        word: 9,
        commands: &["guard a b c d e 4096 512 01024 1 v"],
    },
    Refused {
        word: 10,
        commands: &[
            "guard a b c d e 4096 512 1024",
            "guard a b c d e 4096 512 1024 2147483648 v",
            "guard a b c d e 4096 512 1024 v",
        ],
    },
    Refused {
        word: 11,
        commands: &[
            "guard a b c d e 4096 512 1024 1",
            "guard a b c d e 4096 512 1024 1 a",
            "guard a b c d e 4096 512 1024 1 b",
            "guard a b c d e 4096 512 1024 1 c",
            "guard a b c d e 4096 512 1024 1 d",
            "guard a b c d e 4096 512 1024 1 e x",
        ],
    },
    Refused {
        word: 12,
        commands: &[
            "guard a b c d e 4096 512 1024 1 v x",
            "guard a b c d e 4096 512 1024 1 v x y",
        ],
    },
];

const RESUMES: &[Refused] = &[
    Refused {
        word: 2,
        commands: &["resume"],
    },
    Refused {
        word: 3,
        commands: &["resume v", "resume v v c d e 4096 512 1024 1"],
    },
    Refused {
        word: 4,
        commands: &[
            "resume v b",
            "resume v b v d e 4096 512 1024 1",
            "resume v b b d e 4096 512 1024 1",
        ],
    },
    Refused {
        word: 5,
        commands: &[
            "resume v b c",
            "resume v b c v e 4096 512 1024 1",
            "resume v b c c e 4096 512 1024 1",
        ],
    },
    Refused {
        word: 6,
        commands: &[
            "resume v b c d",
            "resume v b c d v 4096 512 1024 1",
            "resume v b c d b 4096 512 1024 1",
            "resume v b c d c 4096 512 1024 1",
            "resume v b c d d 0 0 0 x",
        ],
    },
    Refused {
        word: 7,
        commands: &["resume v b c d e 16777217 512 1024 1"],
    },
    Refused {
        word: 8,
        commands: &["resume v b c d e 4096 511 1024 1"],
    },
    Refused {
        word: 9,
        commands: &["resume v b c d e 4096 512 1048577 1"],
    },
    Refused {
        word: 10,
        commands: &[
            "resume v b c d e 4096 512 1024",
            "resume v b c d e 4096 512 1024 02",
        ],
    },
    Refused {
        word: 11,
        commands: &[
            "resume v b c d e 4096 512 1024 1 x",
            "resume v b c d e 4096 512 1024 1 x y",
        ],
    },
];

// The words of other commands.
const OTHERS: &[&str] = &[
    "",
    "run a b c d e 4096 512 1024 1",
    "make 0 f",
    "vault",
    "Guard a b c d e 4096 512 1024 1 v",
    "guards a b c d e 4096 512 1024 1 v",
    "Resume v b c d e 4096 512 1024 1",
    "resumed v b c d e 4096 512 1024 1",
];

/// A command, whether it is `guard`, and what it states. Of a `resume` the image is empty.
struct Stated {
    command: &'static str,
    guards: bool,
    image: &'static str,
    events: &'static str,
    saved: &'static str,
    core: u32,
    entries: u16,
    room: u32,
    steps: u32,
}

const STATED: &[Stated] = &[
    Stated {
        command: "guard a b c d e 4096 512 1024 0 v",
        guards: true,
        image: "a",
        events: "b",
        saved: "d",
        core: 4_096,
        entries: 512,
        room: 1_024,
        steps: 0,
    },
    Stated {
        command: "guard a b c a e 16777216 32767 1048576 2147483647 v",
        guards: true,
        image: "a",
        events: "b",
        saved: "a",
        core: 16_777_216,
        entries: 32_767,
        room: 1_048_576,
        steps: 2_147_483_647,
    },
    Stated {
        command: "guard a a c b e 4096 512 1024 1 v",
        guards: true,
        image: "a",
        events: "a",
        saved: "b",
        core: 4_096,
        entries: 512,
        room: 1_024,
        steps: 1,
    },
    Stated {
        command: "resume v b c d e 4096 512 1024 0",
        guards: false,
        image: "",
        events: "b",
        saved: "d",
        core: 4_096,
        entries: 512,
        room: 1_024,
        steps: 0,
    },
    Stated {
        command: "resume v b c d e 16777216 32767 1048576 2147483647",
        guards: false,
        image: "",
        events: "b",
        saved: "d",
        core: 16_777_216,
        entries: 32_767,
        room: 1_048_576,
        steps: 2_147_483_647,
    },
    Stated {
        command: "resume v b c b e 4096 512 1024 1",
        guards: false,
        image: "",
        events: "b",
        saved: "b",
        core: 4_096,
        entries: 512,
        room: 1_024,
        steps: 1,
    },
];

// Whether a run is the one that a row states; the other files are `c`, `e` and `v` in each.
fn is_stated(row: &Stated, guarded: &Guarded<'_>) -> bool {
    let run = &guarded.command;
    let files = run.image == row.image && run.events == row.events && run.saved == row.saved;
    let others = run.work == "c" && run.display == "e" && guarded.vault == "v";
    let core = run.core == row.core && run.entries == row.entries;
    files && others && core && run.room == row.room && run.steps == row.steps
}

// Whether a command is read so.
fn is_read(alloc: Global, row: &Stated) -> Result<bool, AllocError> {
    let words = words_of(alloc, row.command)?;
    Ok(match kept_of(&words) {
        Ok(Some(Kept::Guard(guarded))) => row.guards && is_stated(row, &guarded),
        Ok(Some(Kept::Resume(guarded))) => !row.guards && is_stated(row, &guarded),
        _ => false,
    })
}

// The first command that is not refused at its word.
fn first_wrong(alloc: Global, rows: &[Refused]) -> Result<Option<&'static str>, AllocError> {
    for row in rows {
        for command in row.commands {
            let words = words_of(alloc, command)?;
            if !matches!(kept_of(&words), Err(word) if word == row.word) {
                return Ok(Some(command));
            }
        }
    }
    Ok(None)
}

#[test]
fn bad_words_of_a_vault(rt: HostRuntime) -> Result<(), Fail> {
    assert_eq!(rt; first_wrong(rt.alloc(), GUARDS)?, None);
    assert_eq!(rt; first_wrong(rt.alloc(), RESUMES)?, None);
    Ok(())
}

#[test]
fn right_words_of_a_vault(rt: HostRuntime) -> Result<(), Fail> {
    for row in STATED {
        assert!(rt; is_read(rt.alloc(), row)?);
    }
    Ok(())
}

#[test]
fn words_of_no_vault(rt: HostRuntime) -> Result<(), Fail> {
    for line in OTHERS {
        let words = words_of(rt.alloc(), line)?;
        assert!(rt; matches!(kept_of(&words), Ok(None)));
    }
    Ok(())
}

/// An answer, its exit status, and its line.
struct Answer {
    status: Status,
    code: u8,
    line: &'static str,
}

const ANSWERS: &[Answer] = &[
    Answer {
        status: Status::VaultFault { count: 3 },
        code: 15,
        line: "vault fault\n",
    },
    Answer {
        status: Status::NoCheckpoint,
        code: 16,
        line: "no checkpoint\n",
    },
    Answer {
        status: Status::VaultBad { place: 512 },
        code: 17,
        line: "vault bad at 512\n",
    },
    Answer {
        status: Status::VaultBad { place: u64::MAX },
        code: 17,
        line: "vault bad at 18446744073709551615\n",
    },
];

// Whether an answer has its exit status and its line.
fn is_said(row: &Answer) -> bool {
    row.status.code() == row.code && row.status.line().as_str() == row.line
}

#[test]
fn answers_of_a_vault(rt: HostRuntime) {
    assert_eq!(rt; ANSWERS.iter().position(|row| !is_said(row)), None);
}

/// What is told of a file.
#[derive(Clone, Copy, Debug, PartialEq, Eq)]
enum Telling<'a> {
    Host(Role, &'a str),
    Vault(Role, &'a str),
    KeepsInputs,
    Protects(&'a str),
}

/// A command, and what is told of its files, in order.
struct Told {
    command: &'static str,
    told: &'static [Telling<'static>],
}

const TOLD: &[Told] = &[
    Told {
        command: "run i e w s d 4096 512 1024 1",
        told: &[
            Telling::Host(Role::Image, "i"),
            Telling::Host(Role::Events, "e"),
            Telling::Host(Role::Saved, "s"),
            Telling::Host(Role::Display, "d"),
        ],
    },
    Told {
        command: "guard i e w s d 4096 512 1024 1 v",
        told: &[
            Telling::Host(Role::Image, "i"),
            Telling::Host(Role::Events, "e"),
            Telling::Host(Role::Saved, "s"),
            Telling::Host(Role::Display, "d"),
            Telling::Vault(Role::Work, "w"),
            Telling::Vault(Role::Image, "i"),
            Telling::Vault(Role::Events, "e"),
            Telling::Vault(Role::Saved, "s"),
            Telling::Vault(Role::Display, "d"),
            Telling::Protects("v"),
        ],
    },
    Told {
        command: "resume v e w s d 4096 512 1024 1",
        told: &[
            Telling::Host(Role::Events, "e"),
            Telling::Host(Role::Saved, "s"),
            Telling::Host(Role::Display, "d"),
            Telling::Vault(Role::Work, "w"),
            Telling::Vault(Role::Events, "e"),
            Telling::Vault(Role::Saved, "s"),
            Telling::Vault(Role::Display, "d"),
            Telling::Protects("v"),
        ],
    },
    Told {
        command: "trace i e w t 4096 512 1024 1",
        told: &[
            Telling::Host(Role::Image, "i"),
            Telling::Host(Role::Events, "e"),
            Telling::Host(Role::Saved, "t"),
            Telling::KeepsInputs,
        ],
    },
    Told {
        command: "list i w t",
        told: &[
            Telling::Host(Role::Image, "i"),
            Telling::Host(Role::Saved, "t"),
        ],
    },
    Told {
        command: "asm t w i",
        told: &[
            Telling::Host(Role::Image, "t"),
            Telling::Host(Role::Saved, "i"),
        ],
    },
    // a making has no work file
    Told {
        command: "make 19 f",
        told: &[],
    },
    // words that are wrong, of which nothing is opened
    Told {
        command: "list i w t x",
        told: &[
            Telling::Host(Role::Image, "i"),
            Telling::Host(Role::Saved, "t"),
        ],
    },
    Told {
        command: "run i",
        told: &[Telling::Host(Role::Image, "i")],
    },
    Told {
        command: "guard i e w s d 4096 512 1024 1",
        told: &[
            Telling::Host(Role::Image, "i"),
            Telling::Host(Role::Events, "e"),
            Telling::Host(Role::Saved, "s"),
            Telling::Host(Role::Display, "d"),
        ],
    },
    Told {
        command: "resume v",
        told: &[Telling::Protects("v")],
    },
    Told {
        command: "resume v e w",
        told: &[
            Telling::Host(Role::Events, "e"),
            Telling::Vault(Role::Work, "w"),
            Telling::Vault(Role::Events, "e"),
            Telling::Protects("v"),
        ],
    },
    Told {
        command: "trace",
        told: &[Telling::KeepsInputs],
    },
    Told {
        command: "Run i e w s d 4096 512 1024 1",
        told: &[],
    },
    Told {
        command: "guards i e w s d 4096 512 1024 1 v",
        told: &[],
    },
    Told {
        command: "make",
        told: &[],
    },
    Told {
        command: "",
        told: &[],
    },
];

/// Those who wait for what they are to be told.
#[derive(Drop)]
struct Awaiting {
    told: &'static [Telling<'static>],
    heard: usize,
    surprised: bool,
}

impl Awaiting {
    fn hear(&mut self, heard: Telling<'_>) {
        match self.told.get(self.heard) {
            Some(next) if *next == heard => self.heard = self.heard.saturating_add(1),
            _ => self.surprised = true,
        }
    }
}

impl KeepsApart for Awaiting {
    ghost tells = { false };

    ghost told = { λ _. [] };

    fn expect(&mut self, listener: Listener, role: Role, name: &str) {
        match listener {
            Listener::Host => self.hear(Telling::Host(role, name)),
            Listener::Vault => self.hear(Telling::Vault(role, name)),
        }
    }

    fn keep_inputs(&mut self) {
        self.hear(Telling::KeepsInputs);
    }

    fn protect(&mut self, name: &str) -> Result<(), AllocError> {
        self.hear(Telling::Protects(name));
        Ok(())
    }
}

// Whether this is told of a command, and no more.
fn is_told(alloc: Global, row: &Told) -> Result<bool, AllocError> {
    let words = words_of(alloc, row.command)?;
    let mut awaiting = Awaiting {
        told: row.told,
        heard: 0,
        surprised: false,
    };
    keep_apart(&mut awaiting, &words)?;
    Ok(awaiting.heard == row.told.len() && !awaiting.surprised)
}

#[test]
fn files_of_each_command(rt: HostRuntime) -> Result<(), Fail> {
    for row in TOLD {
        assert!(rt; is_told(rt.alloc(), row)?);
    }
    Ok(())
}
