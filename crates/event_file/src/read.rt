// Reading an event file: in one pass, line by line, in pieces of one size.
ghost use Rattle.std.specs.Prelude.{◌≡◌, ◌≢◌, ◌↔◌, ◌+◌, ◌≤◌, ◌++◌, ℕ, List, [], ◌∷◌, IsTrue, IfOk, OnOk, Err, length, true, false};
ghost use Rattle.long_names.specs.Counting.{Rose};
ghost use Rattle.loom_host.specs.Outside.{TookSome};
ghost use Rattle.event_file.specs.Text.{AreRight, IsBadAt, IsLine, events_text};
ghost use Rattle.event_file.specs.Reading.{IsBegun, IsEventsOnly, StopsInPiece, begun_text};
ghost use Rattle.event_file.specs.Inside.{IsLonger};
ghost use Rattle.event_file.specs.declared.fault.EventFault.TheVariants.{Bad, Read};

use crate::limits::{LONGEST, MOST_LINES, PIECE};
use crate::line::decode_line;
use crate::{EventFault, EventList, Line};
use arrayvec::ArrayVec;
use loom_host::{Host, Role, read_full};
use std::alloc::Global;
use std::marker::Model;

/// The lines that were read, and the bytes of the next one, which has not ended.
#[derive(Drop)]
struct Reading {
    lines: EventList,
    line: ArrayVec<u8, LONGEST>,
}

impl Model for Reading {
    ghost use Rattle.event_file.specs.Reading.{Begun, IsBegun};

    ghost Value = { Begun };

    ghost view = { λ r. record { lines = r.lines; line = r.line.items } };

    ghost invariant = { λ r. IsBegun (record { lines = r.lines; line = r.line.items }) };
}

/// Whether a line may come next behind these.
fn comes_next(lines: &EventList, line: Line) -> bool
    requires right { AreRight lines.now }
    requires line { IsLine line }
    ensures { IsTrue result ↔ AreRight (lines.now ++ line ∷ []) }
{
    match lines.len() {
        0 => true,
        MOST_LINES => false,
        len => lines.item(len - 1).count <= line.count,
    }
}

impl Reading {
    /// Nothing was read yet. It takes no memory.
    fn new(alloc: Global) -> Reading
        ensures text { begun_text result ≡ [] }
        ensures begun { IsBegun result }
    {
        Reading {
            lines: EventList::new(alloc),
            line: ArrayVec::new(),
        }
    }

    /// The line that has not ended is bad.
    fn bad(&self) -> EventFault
        ensures { result ≡ Bad (length self.now.lines + 1) }
    {
        EventFault::Bad {
            line: self.lines.len() as u32 + 1,
        }
    }

    /// Takes the end of a line.
    fn end_line(&mut self) -> Result<(), EventFault>
        ensures text { OnOk result (begun_text self.new ≡ begun_text self.old ++ 10 ∷ []) }
        ensures bad { (line : ℕ) (rest : List ℕ) → result ≡ Err (Bad line) → IsBadAt line (begun_text self.old ++ 10 ∷ rest) }
        ensures fault { (count : ℕ) → result ≢ Err (Read count) }
    {
        let Some(line) = decode_line(self.line.as_slice()) else {
            return Err(self.bad());
        };
        if !comes_next(&self.lines, line) {
            return Err(self.bad());
        }
        self.lines.push(line)?;
        self.line.clear();
        Ok(())
    }

    /// Takes a byte of a line.
    fn push(&mut self, byte: u8) -> Result<(), EventFault>
        requires { byte ≢ 10 }
        ensures text { OnOk result (begun_text self.new ≡ begun_text self.old ++ byte ∷ []) }
        ensures bad { (line : ℕ) (rest : List ℕ) → result ≡ Err (Bad line) → IsBadAt line (begun_text self.old ++ byte ∷ rest) }
        ensures fault { (count : ℕ) → result ≢ Err (Read count) }
    {
        if self.lines.len() == MOST_LINES || self.line.is_full() {
            return Err(self.bad());
        }
        self.line.push(byte);
        Ok(())
    }

    /// Takes the next byte.
    fn take(&mut self, byte: u8) -> Result<(), EventFault>
        ensures text { OnOk result (begun_text self.new ≡ begun_text self.old ++ byte ∷ []) }
        ensures bad { (line : ℕ) (rest : List ℕ) → result ≡ Err (Bad line) → IsBadAt line (begun_text self.old ++ byte ∷ rest) }
        ensures fault { (count : ℕ) → result ≢ Err (Read count) }
    {
        if byte == b'\n' {
            self.end_line()
        } else {
            self.push(byte)
        }
    }

    /// Takes the next bytes.
    fn take_all(&mut self, bytes: &[u8]) -> Result<(), EventFault>
        ensures text { OnOk result (begun_text self.new ≡ begun_text self.old ++ bytes.now) }
        ensures bad { (line : ℕ) (rest : List ℕ) → result ≡ Err (Bad line) → IsBadAt line (begun_text self.old ++ bytes.now ++ rest) }
        ensures fault { (count : ℕ) → result ≢ Err (Read count) }
    {
        for byte in bytes {
            self.take(*byte)?;
        }
        Ok(())
    }

    /// Reads one more piece, and says whether there may be more behind it.
    fn read_piece<H: Host>(&mut self, host: &mut H) -> Result<bool, EventFault>
        ensures text { IsTrue (H.tells Role.Events) → OnOk result (begun_text self.new ++ (H.roles host.new Role.Events).left ≡ begun_text self.old ++ (H.roles host.old Role.Events).left) }
        ensures more { IfOk result (λ more. IsTrue more → IsLonger PIECE self.old self.new) }
        ensures end { IsTrue (H.tells Role.Events) → IfOk result (λ more. more ≡ false → (H.roles host.new Role.Events).left ≡ []) }
        ensures bad { IsTrue (H.tells Role.Events) → (line : ℕ) → result ≡ Err (Bad line) → IsBadAt line (begun_text self.old ++ (H.roles host.old Role.Events).left) }
        ensures read { (count : ℕ) → result ≡ Err (Read count) → (count ≡ H.faults host.new Role.Events) × Rose (H.faults host.old Role.Events) (H.faults host.new Role.Events) }
        ensures taken { IsTrue (H.tells Role.Events) → TookSome PIECE (H.roles host.old Role.Events) (H.roles host.new Role.Events) }
        ensures begun { OnOk result (IsBegun self.new) }
        ensures others { IsEventsOnly H.Host host.old host.new }
    {
        let mut piece = [0; PIECE];
        let Ok(count) = read_full(host, Role::Events, &mut piece) else {
            let count = host.fault_count(Role::Events);
            return Err(EventFault::Read { count });
        };
        let judged = self.take_all(&piece[..count]);
        // shows the prover that the lines are right
        let _lines = &self.lines;
        judged?;
        Ok(count == PIECE)
    }

    /// Judges what was read once no byte comes any more.
    fn finish(self) -> Result<EventList, EventFault>
        ensures ok { IfOk result (λ list. AreRight list × (begun_text self ≡ events_text list)) }
        ensures bad { (line : ℕ) → result ≡ Err (Bad line) → IsBadAt line (begun_text self) }
        ensures fault { (count : ℕ) → result ≢ Err (Read count) }
    {
        if !self.line.is_empty() {
            return Err(self.bad());
        }
        let Reading { lines, line: _ } = self;
        Ok(lines)
    }
}

/// Reads Events to its end, in one pass, or no further than the piece that shows the first bad line. It takes no more memory than the
/// lines do.
pub fn read_events<H: Host>(alloc: Global, host: &mut H) -> Result<EventList, EventFault>
    ensures right { IfOk result (λ list. AreRight list) }
    ensures text { IsTrue (H.tells Role.Events) → IfOk result (λ list. (H.roles host.old Role.Events).left ≡ events_text list) }
    ensures end { IsTrue (H.tells Role.Events) → OnOk result ((H.roles host.new Role.Events).left ≡ []) }
    ensures bad { IsTrue (H.tells Role.Events) → (line : ℕ) → result ≡ Err (Bad line) → IsBadAt line (H.roles host.old Role.Events).left }
    ensures stops { IsTrue (H.tells Role.Events) → (line : ℕ) → result ≡ Err (Bad line) → StopsInPiece (H.roles host.old Role.Events) (H.roles host.new Role.Events) }
    ensures read { (count : ℕ) → result ≡ Err (Read count) → (count ≡ H.faults host.new Role.Events) × Rose (H.faults host.old Role.Events) (H.faults host.new Role.Events) }
    ensures taken { IsTrue (H.tells Role.Events) → TookSome (length (H.roles host.old Role.Events).left) (H.roles host.old Role.Events) (H.roles host.new Role.Events) }
    ensures others { IsEventsOnly H.Host host.old host.new }
{
    let mut reading = Reading::new(alloc);
    'pieces: while reading.read_piece(host)? {}
    reading.finish()
}
