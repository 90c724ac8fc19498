// How a command ends, and the line that says so.
ghost use Rattle.std.specs.Prelude.{◌≡◌, ◌+◌, ◌≤◌, ◌++◌, length, codes, decimal};
ghost use Rattle.arrayvec.specs.ArrayString.{array_string_len};
ghost use Rattle.loom_words.specs.Status.{role_text, text_of_status, line_of, code_of};

use arrayvec::ArrayString;
use itoa::Buffer;
use loom_host::Role;
use object_memory::Need;

/// The last line on Notes, with its newline. It takes no memory.
pub type Line = ArrayString<160>;

/// How a command ended.
#[derive(Clone, Copy, Debug, PartialEq, Eq)]
pub enum Status {
    /// So many bytecodes were run, and all that the command writes is written.
    Done { ran: u32 },
    /// The machine ended itself in the last of so many bytecodes, and all that the command writes is written.
    Quit { ran: u32 },
    /// An image of so many objects is written.
    Made { objects: u32 },
    /// The text of an image of so many objects is written.
    Listed { objects: u32 },
    /// A text was read, and its image of so many objects is written.
    Assembled { objects: u32 },
    /// The words are no command. `word` is the position, from 1, of the first bad, missing or extra one.
    Usage { word: u32 },
    /// The first rule that the image breaks, and its place: an offset, or from rule 10 on a name.
    ImageBad { rule: u8, place: u64 },
    /// This line of the event file, counted from 1, is the first bad one.
    EventsBad { line: u32 },
    /// The first line of a text that breaks the grammar, which is rule 0, or a rule of images. What is missing in the whole, rules 12 and 14,
    /// has the line 0.
    TextBad { line: u32, rule: u8 },
    /// After so many bytecodes the machine came to a broken rule. `cause` is the number of its `Cause`.
    Stuck { cause: u8, ran: u32 },
    /// After so many bytecodes the core was too small for what the next one needs of it.
    CoreFull { ran: u32, need: Need },
    /// After so many bytecodes the machine was to make an object, and no name is left for one.
    NamesSpent { ran: u32 },
    /// So many objects are stated, or would live, and there is less room.
    WorkFull { live: u32, room: u32 },
    /// A call on a role that is read failed; `count` is its fault count since then.
    ReadFault { role: Role, count: u64 },
    /// A call on the work file failed; `count` is its fault count since then.
    WorkFault { count: u64 },
    /// A call on a role that is written failed; `count` is its fault count since then.
    WriteFault { role: Role, count: u64 },
    /// There was no memory.
    OutOfMemory,
    /// What stands at a place of the work file isn't what was put there; it was met on the way to this object.
    Damaged { place: u64, name: u32 },
    /// A call on the vault failed; `count` is its fault count since then.
    VaultFault { count: u64 },
    /// No gate of the vault is open.
    NoCheckpoint,
    /// The gate at this place of the vault is open, and what stands in it is no checkpoint's.
    VaultBad { place: u64 },
}

impl Status {
    /// The exit status of the program.
    pub fn code(&self) -> u8
        ensures { result ≡ code_of self.now }
    {
        match self {
            Status::Done { .. }
            | Status::Quit { .. }
            | Status::Made { .. }
            | Status::Listed { .. }
            | Status::Assembled { .. } => 0,
            Status::Usage { .. } => 2,
            Status::ImageBad { .. } => 3,
            Status::EventsBad { .. } => 4,
            Status::Stuck { .. } => 5,
            Status::CoreFull { .. } => 6,
            Status::NamesSpent { .. } => 7,
            Status::WorkFull { .. } => 8,
            Status::ReadFault { .. } => 9,
            Status::WorkFault { .. } => 10,
            Status::WriteFault { .. } => 11,
            Status::OutOfMemory => 12,
            Status::Damaged { .. } => 13,
            Status::VaultFault { .. } => 15,
            Status::NoCheckpoint => 16,
            Status::VaultBad { .. } => 17,
            Status::TextBad { .. } => 18,
        }
    }

    /// The last line on Notes. It takes no memory.
    pub fn line(&self) -> Line
        ensures { result.bytes ≡ line_of self.now }
    {
        let mut line = self.text();
        line.push_str("\n");
        line
    }

    fn text(&self) -> Line
        ensures text { result.bytes ≡ text_of_status self.now }
        ensures short { array_string_len result ≤ 140 }
    {
        match *self {
            Status::Done { ran } => numbered("ran ", ran as u64),
            Status::Quit { ran } => numbered("quit after ", ran as u64),
            Status::Made { objects } => counted("made ", objects),
            Status::Listed { objects } => counted("listed ", objects),
            Status::Assembled { objects } => counted("assembled ", objects),
            Status::Usage { word } => numbered("usage: word ", word as u64),
            Status::ImageBad { rule, place } => {
                twice_numbered("image: rule ", rule as u64, " at ", place)
            }
            Status::EventsBad { line } => numbered("events: line ", line as u64),
            Status::TextBad { line, rule } => {
                twice_numbered("text: line ", line as u64, ", rule ", rule as u64)
            }
            Status::Stuck { cause, ran } => {
                twice_numbered("stuck: cause ", cause as u64, " after ", ran as u64)
            }
            Status::CoreFull { ran, need } => core_full(ran, need),
            Status::NamesSpent { ran } => numbered("names spent after ", ran as u64),
            Status::WorkFull { live, room } => {
                twice_numbered("work full: ", live as u64, " objects, room ", room as u64)
            }
            Status::WorkFault { .. } => begun("work fault"),
            Status::ReadFault { role, .. } => named("read fault: ", role),
            Status::WriteFault { role, .. } => named("write fault: ", role),
            Status::OutOfMemory => begun("out of memory"),
            Status::Damaged { place, name } => {
                twice_numbered("work damaged at ", place, ": object ", name as u64)
            }
            Status::VaultFault { .. } => begun("vault fault"),
            Status::NoCheckpoint => begun("no checkpoint"),
            Status::VaultBad { place } => numbered("vault bad at ", place),
        }
    }
}

// A line that begins with this text.
fn begun(text: &str) -> Line
    requires { length text.now ≤ 20 }
    ensures { result.bytes ≡ text.now }
{
    let mut line = Line::new();
    line.push_str(text);
    line
}

pub(crate) fn put_number(line: &mut Line, number: u64)
    requires { array_string_len line.old ≤ 120 }
    ensures text { line.new.bytes ≡ line.old.bytes ++ decimal number }
    ensures short { array_string_len line.new ≤ array_string_len line.old + 20 }
{
    let mut buffer = Buffer::new();
    line.push_str(buffer.format(number));
}

// A text and a number.
fn numbered(text: &str, number: u64) -> Line
    requires { length text.now ≤ 20 }
    ensures text { result.bytes ≡ text.now ++ decimal number }
    ensures short { array_string_len result ≤ length text.now + 20 }
{
    let mut line = begun(text);
    put_number(&mut line, number);
    line
}

// A text and two numbers, with a text between them.
fn twice_numbered(text: &str, number: u64, between: &str, other: u64) -> Line
    requires first { length text.now ≤ 20 }
    requires second { length between.now ≤ 20 }
    ensures text { result.bytes ≡ text.now ++ decimal number ++ between.now ++ decimal other }
    ensures short { array_string_len result ≤ 80 }
{
    let mut line = numbered(text, number);
    line.push_str(between);
    put_number(&mut line, other);
    line
}

// A text, and how many objects an image has.
fn counted(text: &str, objects: u32) -> Line
    requires { length text.now ≤ 20 }
    ensures text { result.bytes ≡ text.now ++ decimal objects ++ codes " objects" }
    ensures short { array_string_len result ≤ 60 }
{
    let mut line = numbered(text, objects as u64);
    line.push_str(" objects");
    line
}

// What a core was too small for.
fn core_full(ran: u32, need: Need) -> Line
    ensures text { result.bytes ≡ codes "core full after " ++ decimal ran ++ codes ": object " ++ decimal need.object ++ codes ", " ++ decimal need.words ++ codes " words, " ++ decimal need.entries ++ codes " entries" }
    ensures short { array_string_len result ≤ 140 }
{
    let mut line = twice_numbered(
        "core full after ",
        ran as u64,
        ": object ",
        need.object as u64,
    );
    line.push_str(", ");
    put_number(&mut line, need.words as u64);
    line.push_str(" words, ");
    put_number(&mut line, need.entries as u64);
    line.push_str(" entries");
    line
}

// A text and a role.
fn named(text: &str, role: Role) -> Line
    requires { length text.now ≤ 20 }
    ensures text { result.bytes ≡ text.now ++ role_text role }
    ensures short { array_string_len result ≤ 40 }
{
    let mut line = begun(text);
    line.push_str(role_name(role));
    line
}

fn role_name(role: Role) -> &'static str
    ensures text { result.now ≡ role_text role }
    ensures short { length result.now ≤ 10 }
{
    match role {
        Role::Image => "Image",
        Role::Events => "Events",
        Role::Work => "Work",
        Role::Saved => "Saved",
        Role::Display => "Display",
        Role::Transcript => "Transcript",
        Role::Notes => "Notes",
    }
}
