// Reading a text, line by line.
ghost use Rattle.std.specs.Prelude.{◌≡◌, ◌<◌, ◌≤◌, ◌+◌, ◌^◌, ◌++◌, [], true, Some, None, Ok, IsTrue, OnOk, IfOk, IfErr, if◌then◌else◌, length, drop};
ghost use Rattle.std.specs.FinMap as map;
ghost use Rattle.long_names.specs.Objects.{IsBody, IsRecord};
ghost use Rattle.long_names.specs.declared.limits.TheConstants.{LONGEST_RECORD};
ghost use Rattle.long_names.specs.declared.object.Rec.{Rec as Spelled};
ghost use Rattle.loom_host.specs.Work.{work_of};
ghost use Rattle.object_record.specs.Buffer.{HasRecord, raw_of};
ghost use Rattle.object_record.specs.Raw.{raw_record};
ghost use Rattle.disk_objects.specs.Calls.{HoldsObjects};
ghost use Rattle.disk_objects.specs.Disk.{IsDisk, disk_held, disk_room};
ghost use Rattle.image_format.specs.Heads as heads;
ghost use Rattle.image_format.specs.declared.head.TheConstants.{MOST_OBJECTS};
ghost use Rattle.image_reader.specs.Frames.{IsLoading, ReadsImage};
ghost use Rattle.image_reader.specs.Loaded.{IsStored};
ghost use Rattle.image_reader.specs.Window.{EndsTruly, unused};
ghost use Rattle.text_lines.specs.Breaks as breaks;
ghost use Rattle.text_lines.specs.Breaks.{head_at, object_at, objects_at};
ghost use Rattle.text_lines.specs.Inside.{stated_as};
ghost use Rattle.text_lines.specs.declared.limits.TheConstants.{LONGEST_LINE};
ghost use Rattle.image_text.specs.Assembled.{IsPartTextFault};
ghost use Rattle.image_text.specs.Inside.{IsUnread, ReadsText};
ghost use Rattle.image_text.specs.Reads.{IsBad, IsHeadRefused, IsObject, IsRefused, IsTaken, ReadsHead, ReadsObjects, TakesHead, TakesNext};
ghost use Rattle.image_text.specs.Lines.{IsBreak, IsWithin, head_read, lines_of, object_kept};

use crate::fault::TextFault;
use crate::lines::{Line, next_line};
use disk_objects::DiskObjects;
use image_format::{FEWEST_OBJECTS, MOST_OBJECTS, encode_rec, is_next, is_state_word, is_tick};
use image_reader::Window;
use long_names::{Body, MOST_CODE, Name, NameList, Octets, Rec, literal_count};
use loom_host::{Host, Role};
use object_record::RecordBuf;
use std::alloc::{AllocError, Global};
use text_lines::{Head, Stated, head_in, object_in};

fn keeps_state(head: &Head) -> bool
    ensures { result ≡ breaks.keeps_state (head_read head.now) }
{
    is_state_word(head.next, head.state.display)
        && is_state_word(head.next, head.state.input)
        && is_state_word(head.next, head.state.timer)
        && is_tick(head.state.timer, head.state.tick)
}

/// What the first line states, or the first rule that it breaks.
fn judge_head(line: &[u8]) -> Result<Head, TextFault>
    ensures read { IfOk result (λ head. head_at line.now ≡ Ok (head_read head)) }
    ensures bad { IfErr result (IsBreak (head_at line.now)) }
{
    let Some(head) = head_in(line) else {
        return Err(TextFault::Bad { line: 1, rule: 0 });
    };
    if !is_next(head.next) {
        return Err(TextFault::Bad { line: 1, rule: 3 });
    }
    if !keeps_state(&head) {
        return Err(TextFault::Bad { line: 1, rule: 13 });
    }
    Ok(head)
}

/// The number as a name, if it is even, above the last name and below the next.
fn name_between(number: u64, last: u32, next: u32) -> Option<Name>
    ensures { result ≡ (if breaks.keeps_order last next number then Some number else None) }
{
    if number <= last as u64 || number >= next as u64 {
        return None;
    }
    Name::new(number as u32)
}

fn keeps_size(body: &Body) -> bool
    ensures { result ≡ breaks.keeps_size body.now }
{
    match body {
        Body::Method {
            header,
            literals,
            code,
        } => code.len() <= MOST_CODE as usize && literals.len() == literal_count(*header),
        _ => true,
    }
}

/// The record of what a line states, or the first rule that it breaks.
fn judge_stated(stated: Stated, number: u32, last: u32, next: u32) -> Result<Rec, TextFault>
    ensures read { (r : Spelled) → stated ≡ stated_as r → r.count ≡ 0 → IfOk result (λ rec. (rec ≡ r) × (object_kept number last next r ≡ Ok rec)) }
    ensures bad { (r : Spelled) → stated ≡ stated_as r → IfErr result (IsBreak (object_kept number last next r)) }
    ensures kept { IfOk result (λ rec. (number ≤ MOST_OBJECTS + 1) × (last < rec.name) × (rec.name < next) × (rec.count ≡ 0) × (breaks.keeps_size rec.body ≡ true)) }
{
    if number > MOST_OBJECTS + 1 {
        return Err(TextFault::Bad {
            line: number,
            rule: 3,
        });
    }
    let Some(name) = name_between(stated.name, last, next) else {
        return Err(TextFault::Bad {
            line: number,
            rule: 4,
        });
    };
    if !keeps_size(&stated.body) {
        return Err(TextFault::Bad {
            line: number,
            rule: 7,
        });
    }
    Ok(Rec {
        name,
        class: stated.class,
        count: 0,
        body: stated.body,
    })
}

/// What an object's line states, or the first rule that it breaks.
fn judge_object(
    alloc: Global,
    line: &[u8],
    number: u32,
    last: u32,
    next: u32,
) -> Result<Rec, TextFault>
    ensures read { IfOk result (λ rec. object_at number last next line.now ≡ Ok rec) }
    ensures kept { IfOk result (λ rec. (number ≤ MOST_OBJECTS + 1) × (last < rec.name) × (rec.name < next) × (rec.count ≡ 0) × IsBody rec.body) }
    ensures bad { IfErr result (IsBreak (object_at number last next line.now)) }
{
    match object_in(alloc, line)? {
        Some(stated) => judge_stated(stated, number, last, next),
        None => Err(TextFault::Bad {
            line: number,
            rule: 0,
        }),
    }
}

/// Puts a record into the buffer.
fn fill_record(alloc: Global, buf: &mut RecordBuf, rec: &Rec) -> Result<(), AllocError>
    requires { IsBody rec.now.body }
    ensures record { OnOk result (IsRecord rec.now) }
    ensures buffer { OnOk result (HasRecord buf.new × (raw_of buf.new ≡ raw_record rec.now)) }
{
    let mut out = Octets::new(alloc);
    encode_rec(rec, &mut out)?;
    buf.fill(out.bytes());
    Ok(())
}

/// Puts the object of the line that the window begins with into the buffer.
fn take_object(
    alloc: Global,
    line: &[u8],
    buf: &mut RecordBuf,
    number: u32,
    last: u32,
    next: u32,
) -> Result<Name, TextFault>
    ensures object { IfOk result (IsObject line.now buf.new number last next) }
    ensures bad { IfErr result (IsBreak (object_at number last next line.now)) }
{
    let rec = judge_object(alloc, line, number, last, next)?;
    fill_record(alloc, buf, &rec)?;
    Ok(rec.name)
}

/// Takes what comes next of the window, and puts its object into the buffer. None at the end.
fn take_line(
    alloc: Global,
    window: &mut Window,
    buf: &mut RecordBuf,
    line: Line,
    number: u32,
    last: u32,
    next: u32,
) -> Result<Option<Name>, TextFault>
    requires within { IsWithin window.old.bytes line }
    requires far { window.old.place + 2 ^ 32 ≤ 2 ^ 64 }
    ensures taken { IfOk result (IsTaken window.old window.new buf.new number last next line) }
    ensures bad { IfErr result (IsRefused window.old.bytes number last next line) }
    ensures ended { window.new.ended ≡ window.old.ended }
{
    match line {
        Line::Whole(len) => {
            let name = take_object(alloc, &window.bytes()[..len], buf, number, last, next)?;
            window.skip(len + 1);
            Ok(Some(name))
        }
        Line::End => Ok(None),
        Line::Broken => Err(TextFault::Bad {
            line: number,
            rule: 0,
        }),
    }
}

/// Reads the next line, and puts its object to the disk, with no count. Its name is the answer, None at the end of the text.
fn take_next<H: Host>(
    alloc: Global,
    disk: &mut DiskObjects<'_, H>,
    window: &mut Window,
    buf: &mut RecordBuf,
    number: u32,
    last: u32,
    next: u32,
) -> Result<Option<Name>, TextFault>
    requires ends { IsTrue (H.tells Role.Image) → EndsTruly window.old (H.roles disk.old.host.now Role.Image) }
    requires far { window.old.place + 2 ^ 32 ≤ 2 ^ 64 }
    requires stands { HoldsObjects H.Host disk.old.host.now disk.old.rest }
    requires room { number ≤ MOST_OBJECTS + 1 → disk_held disk.old.rest < disk_room disk.old.rest }
    ensures takes { IfOk result (TakesNext H.Host disk.old.host.now disk.new.host.now disk.old.rest disk.new.rest window.old window.new number last next) }
    ensures ends { IsTrue (H.tells Role.Image) → OnOk result (EndsTruly window.new (H.roles disk.new.host.now Role.Image)) }
    ensures bad { IsTrue (H.tells Role.Image) → IfErr result (IsBad (objects_at number last next (lines_of (unused window.old (H.roles disk.old.host.now Role.Image))))) }
    ensures loading { IsLoading H.Host disk.old.host.now disk.new.host.now }
    ensures fault { IfErr result (IsPartTextFault H.Host disk.old.host.now disk.new.host.now) }
    ensures room { disk_room disk.new.rest ≡ disk_room disk.old.rest }
    ensures same_host { disk.new.host.ghost_name ≡ disk.old.host.ghost_name }
{
    let line = next_line(window, disk)?;
    match take_line(alloc, window, buf, line, number, last, next)? {
        Some(name) => {
            disk.put(buf, 0)?;
            Ok(Some(name))
        }
        None => Ok(None),
    }
}

/// Reads the lines behind the first, to the end of the text, and puts their objects to the disk. Their names are the answer.
fn read_objects<H: Host>(
    alloc: Global,
    disk: &mut DiskObjects<'_, H>,
    window: &mut Window,
    next: u32,
) -> Result<NameList, TextFault>
    requires ends { IsTrue (H.tells Role.Image) → EndsTruly window.old (H.roles disk.old.host.now Role.Image) }
    requires start { window.old.place ≤ LONGEST_LINE + 1 }
    requires most { disk_room disk.old.rest ≡ MOST_OBJECTS }
    requires empty { IsTrue (H.tells Role.Work) → IsStored H.Host disk.old.host.now disk.old.rest [] }
    requires none { disk_held disk.old.rest ≡ 0 }
    ensures reads { IfOk result (ReadsObjects H.Host disk.old.host.now disk.new.host.now disk.new.rest window.old next) }
    ensures bad { IsTrue (H.tells Role.Image) → IfErr result (IsBad (objects_at 2 0 next (lines_of (unused window.old (H.roles disk.old.host.now Role.Image))))) }
    ensures loading { IsLoading H.Host disk.old.host.now disk.new.host.now }
    ensures fault { IfErr result (IsPartTextFault H.Host disk.old.host.now disk.new.host.now) }
    ensures room { disk_room disk.new.rest ≡ disk_room disk.old.rest }
    ensures same_host { disk.new.host.ghost_name ≡ disk.old.host.ghost_name }
{
    let mut buf = RecordBuf::new(alloc)?;
    let mut names = NameList::new(alloc);
    let mut number = 2;
    let mut last = 0;
    'lines: while let Some(name) = take_next(alloc, disk, window, &mut buf, number, last, next)? {
        number += 1;
        last = name.get();
        names.push(name)?;
    }
    Ok(names)
}

/// Takes the first line of the window.
fn take_head(window: &mut Window, line: Line) -> Result<Head, TextFault>
    requires within { IsWithin window.old.bytes line }
    requires far { window.old.place + 2 ^ 32 ≤ 2 ^ 64 }
    ensures taken { IfOk result (TakesHead window.old window.new line) }
    ensures bad { IfErr result (IsHeadRefused window.old.bytes line) }
    ensures ended { window.new.ended ≡ window.old.ended }
{
    if let Line::Whole(len) = line {
        let head = judge_head(&window.bytes()[..len])?;
        window.skip(len + 1);
        Ok(head)
    } else {
        Err(TextFault::Bad { line: 1, rule: 0 })
    }
}

/// Reads the first line.
fn read_head<H: Host>(disk: &mut DiskObjects<'_, H>, window: &mut Window) -> Result<Head, TextFault>
    requires ends { IsTrue (H.tells Role.Image) → EndsTruly window.old (H.roles disk.old.host.now Role.Image) }
    requires far { window.old.place + 2 ^ 32 ≤ 2 ^ 64 }
    ensures reads { IfOk result (ReadsHead H.Host disk.old.host.now disk.new.host.now window.old window.new) }
    ensures ends { IsTrue (H.tells Role.Image) → OnOk result (EndsTruly window.new (H.roles disk.new.host.now Role.Image)) }
    ensures bad { IsTrue (H.tells Role.Image) → IfErr result (IsBad (breaks.lines_at (lines_of (unused window.old (H.roles disk.old.host.now Role.Image))))) }
    ensures reads_image { ReadsImage H.Host disk.old.host.now disk.new.host.now }
    ensures same_rest { disk.new.rest ≡ disk.old.rest }
    ensures same_host { disk.new.host.ghost_name ≡ disk.old.host.ghost_name }
    ensures fault { IfErr result (IsPartTextFault H.Host disk.old.host.now disk.new.host.now) }
{
    let line = next_line(window, disk)?;
    take_head(window, line)
}

/// Reads the text of Image, line by line, and puts its objects to the disk, with no count. What the first line states is the answer, and the
/// names of the objects.
pub(crate) fn read_text<H: Host>(
    alloc: Global,
    disk: &mut DiskObjects<'_, H>,
) -> Result<(Head, NameList), TextFault>
    requires most { disk_room disk.old.rest ≡ MOST_OBJECTS }
    requires empty { IsTrue (H.tells Role.Work) → IsDisk disk.old.rest (work_of H.Host disk.old.host.now) map.empty [] }
    requires none { disk_held disk.old.rest ≡ 0 }
    ensures reads { IfOk result (λ x. ReadsText H.Host disk.old.host.now disk.new.host.now disk.new.rest (head_read x.0) x.1) }
    ensures bad { IfErr result (IsUnread H.Host disk.old.host.now) }
    ensures loading { IsLoading H.Host disk.old.host.now disk.new.host.now }
    ensures kept { disk_room disk.new.rest ≡ disk_room disk.old.rest }
    ensures same_host { disk.new.host.ghost_name ≡ disk.old.host.ghost_name }
    ensures fault { IfErr result (IsPartTextFault H.Host disk.old.host.now disk.new.host.now) }
{
    let mut window = Window::new(alloc);
    let head = read_head(disk, &mut window)?;
    let names = read_objects(alloc, disk, &mut window, head.next)?;
    if names.len() < FEWEST_OBJECTS as usize {
        return Err(TextFault::Bad { line: 1, rule: 3 });
    }
    Ok((head, names))
}
