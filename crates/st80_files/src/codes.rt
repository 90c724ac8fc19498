// How the program ends: its exit codes.
ghost use Rattle.std.specs.Prelude.{◌≡◌, IsTrue, map};
ghost use Rattle.st80_objects.specs.Sentences.{are_apart};
ghost use Rattle.loom_words.specs.Status.{code_of};
ghost use Rattle.st80_files.specs.Codes.{all_codes, number_of, when_of};

use loom_words::Status;

/// How the program ends. Those up to `TextBad` are the statuses of `loom`, with its exit codes, and the others are those of st80 alone.
#[derive(Clone, Copy, Debug, PartialEq, Eq)]
pub enum Code {
    Well,
    NoStreams,
    Words,
    ImageBad,
    EventsBad,
    Stuck,
    CoreFull,
    NamesSpent,
    WorkFull,
    ReadFault,
    WorkFault,
    WriteFault,
    OutOfMemory,
    Damaged,
    VaultFault,
    NoCheckpoint,
    VaultBad,
    TextBad,
    CantWrite,
    CantRead,
    NoTemporary,
    NotThere,
    Differs,
    SourceBad,
}

impl Code {
    /// The exit code of the process.
    pub fn number(self) -> u8
        ensures { result ≡ number_of self }
    {
        match self {
            Code::Well => 0,
            Code::NoStreams => 1,
            Code::Words => 2,
            Code::ImageBad => 3,
            Code::EventsBad => 4,
            Code::Stuck => 5,
            Code::CoreFull => 6,
            Code::NamesSpent => 7,
            Code::WorkFull => 8,
            Code::ReadFault => 9,
            Code::WorkFault => 10,
            Code::WriteFault => 11,
            Code::OutOfMemory => 12,
            Code::Damaged => 13,
            Code::VaultFault => 15,
            Code::NoCheckpoint => 16,
            Code::VaultBad => 17,
            Code::TextBad => 18,
            Code::CantWrite => 20,
            Code::CantRead => 21,
            Code::NoTemporary => 22,
            Code::NotThere => 23,
            Code::Differs => 24,
            Code::SourceBad => 25,
        }
    }

    /// When it comes, in a line.
    pub fn when(self) -> &'static str
        ensures { result.now ≡ when_of self }
    {
        match self {
            Code::Well => "it went well",
            Code::NoStreams => "the null device can't be opened",
            Code::Words => "the words are wrong, or help was asked for by none; nothing was done",
            Code::ImageBad => "the image breaks a rule: st80 check IMAGE says where",
            Code::EventsBad => "a line of the event file is wrong",
            Code::Stuck =>
                "the machine was stopped by an error: st80 run IMAGE --on-stop FILE keeps it as it was before",
            Code::CoreFull => "the core is too small: give --core and --entries",
            Code::NamesSpent => "the image has no name left for a new object",
            Code::WorkFull => "there is room for fewer objects than live: give --room",
            Code::ReadFault => "the image or the events can't be read",
            Code::WorkFault => "the work file can't be read or written",
            Code::WriteFault => "what is saved, drawn or said can't be written",
            Code::OutOfMemory => "memory was refused",
            Code::Damaged => "the work file has other bytes than were put there",
            Code::VaultFault => "the vault can't be read or written",
            Code::NoCheckpoint => "the vault has no checkpoint yet",
            Code::VaultBad => "the vault is none, or is damaged",
            Code::TextBad => "a line of the text is wrong: st80 check TEXT says where",
            Code::CantWrite => "a file can't be written where it was to go; nothing was run",
            Code::CantRead => "a file can't be read, or is of another kind",
            Code::NoTemporary => "the temporary folder can't be used",
            Code::NotThere => "what was to be shown isn't in the image",
            Code::Differs => "the images differ",
            Code::SourceBad =>
                "a source file is wrong: what is said names the file, the line and the column",
        }
    }
}

/// All codes, in their order.
pub const ALL: &[Code] = &[
    Code::Well,
    Code::NoStreams,
    Code::Words,
    Code::ImageBad,
    Code::EventsBad,
    Code::Stuck,
    Code::CoreFull,
    Code::NamesSpent,
    Code::WorkFull,
    Code::ReadFault,
    Code::WorkFault,
    Code::WriteFault,
    Code::OutOfMemory,
    Code::Damaged,
    Code::VaultFault,
    Code::NoCheckpoint,
    Code::VaultBad,
    Code::TextBad,
    Code::CantWrite,
    Code::CantRead,
    Code::NoTemporary,
    Code::NotThere,
    Code::Differs,
    Code::SourceBad,
];

/// These are all of them.
pub fn all_are_there()
    ensures { ALL.now ≡ all_codes }
{}

/// No two codes come in the same words, and none in no words.
pub fn codes_are_apart()
    ensures { IsTrue (are_apart (map when_of all_codes)) }
{}

/// The code of a status of `loom`.
pub fn code_for(status: &Status) -> Code
    ensures { number_of result ≡ code_of status.now }
{
    match status {
        Status::Done { .. }
        | Status::Quit { .. }
        | Status::Made { .. }
        | Status::Listed { .. }
        | Status::Assembled { .. } => Code::Well,
        Status::Usage { .. } => Code::Words,
        Status::ImageBad { .. } => Code::ImageBad,
        Status::EventsBad { .. } => Code::EventsBad,
        Status::Stuck { .. } => Code::Stuck,
        Status::CoreFull { .. } => Code::CoreFull,
        Status::NamesSpent { .. } => Code::NamesSpent,
        Status::WorkFull { .. } => Code::WorkFull,
        Status::ReadFault { .. } => Code::ReadFault,
        Status::WorkFault { .. } => Code::WorkFault,
        Status::WriteFault { .. } => Code::WriteFault,
        Status::OutOfMemory => Code::OutOfMemory,
        Status::Damaged { .. } => Code::Damaged,
        Status::VaultFault { .. } => Code::VaultFault,
        Status::NoCheckpoint => Code::NoCheckpoint,
        Status::VaultBad { .. } => Code::VaultBad,
        Status::TextBad { .. } => Code::TextBad,
    }
}
