// A text line by line, as it comes from Image.
ghost use Rattle.std.specs.Prelude.{◌≡◌, ◌<◌, ◌≤◌, false, IsTrue, IfOk, IfErr, OnOk, length};
ghost use Rattle.std.specs.List.{position_or_len};
ghost use Rattle.image_reader.specs.Frames.{ReadsImage};
ghost use Rattle.image_reader.specs.Window.{EndsTruly, unused};
ghost use Rattle.image_text.specs.Reads.{IsPieceFault};
ghost use Rattle.image_text.specs.Lines as lines;
ghost use Rattle.image_text.specs.Lines.{Comes, IsWithin, is_newline};

use crate::fault::TextFault;
use disk_objects::DiskObjects;
use image_reader::{LoadFault, Window};
use loom_host::{Host, Role};
use text_lines::LONGEST_LINE;

/// What comes next of a text.
#[derive(Clone, Copy, Debug)]
pub(crate) enum Line {
    /// So many bytes, and a newline behind them.
    Whole(usize),
    /// Nothing: the text is at its end.
    End,
    /// No line: it is too long, or no newline is behind it.
    Broken,
}

/// How many bytes stand before the first newline, or before the end, where none is among so many first ones.
fn line_len(bytes: &[u8], from: usize) -> usize
    ensures within { result ≤ length bytes.now }
    ensures first { from ≤ position_or_len is_newline bytes.now → result ≡ position_or_len is_newline bytes.now }
{
    for i in from..bytes.len() {
        if bytes[i] == b'\n' {
            return i;
        }
    }
    bytes.len()
}

/// Whether more bytes may still decide what comes next: of so many bytes so many stand before the first newline.
fn is_open(count: usize, len: usize, ended: bool) -> bool
    ensures { result ≡ lines.is_open count len ended }
{
    len == count && len <= LONGEST_LINE && !ended
}

/// What comes next, where no more bytes are needed.
fn line_in(count: usize, len: usize) -> Line
    ensures { result ≡ lines.line_in count len }
{
    if len > LONGEST_LINE {
        Line::Broken
    } else if len < count {
        Line::Whole(len)
    } else if len == 0 {
        Line::End
    } else {
        Line::Broken
    }
}

/// Reads one more piece.
fn read_more<H: Host>(window: &mut Window, disk: &mut DiskObjects<'_, H>) -> Result<(), TextFault>
    requires { IsTrue (H.tells Role.Image) → EndsTruly window.old (H.roles disk.old.host.now Role.Image) }
    ensures rest { IsTrue (H.tells Role.Image) → OnOk result (unused window.new (H.roles disk.new.host.now Role.Image) ≡ unused window.old (H.roles disk.old.host.now Role.Image)) }
    ensures ends { IsTrue (H.tells Role.Image) → OnOk result (EndsTruly window.new (H.roles disk.new.host.now Role.Image)) }
    ensures more { OnOk result (window.new.ended ≡ false → length window.old.bytes < length window.new.bytes) }
    ensures place { OnOk result (window.new.place ≡ window.old.place) }
    ensures reads { ReadsImage H.Host disk.old.host.now disk.new.host.now }
    ensures same_rest { disk.new.rest ≡ disk.old.rest }
    ensures same_host { disk.new.host.ghost_name ≡ disk.old.host.ghost_name }
    ensures fault { IfErr result (IsPieceFault H.Host disk.old.host.now disk.new.host.now) }
{
    match window.read_piece(disk) {
        Ok(()) => Ok(()),
        Err(LoadFault::Read { count }) => Err(TextFault::Read { count }),
        Err(_) => Err(TextFault::Memory),
    }
}

/// Reads until what stands in the window decides what comes next. Each byte is looked at once.
pub(crate) fn next_line<H: Host>(
    window: &mut Window,
    disk: &mut DiskObjects<'_, H>,
) -> Result<Line, TextFault>
    requires { IsTrue (H.tells Role.Image) → EndsTruly window.old (H.roles disk.old.host.now Role.Image) }
    ensures comes { IsTrue (H.tells Role.Image) → IfOk result (Comes window.new.bytes (H.roles disk.new.host.now Role.Image).left) }
    ensures within { IfOk result (IsWithin window.new.bytes) }
    ensures rest { IsTrue (H.tells Role.Image) → OnOk result (unused window.new (H.roles disk.new.host.now Role.Image) ≡ unused window.old (H.roles disk.old.host.now Role.Image)) }
    ensures ends { IsTrue (H.tells Role.Image) → OnOk result (EndsTruly window.new (H.roles disk.new.host.now Role.Image)) }
    ensures place { OnOk result (window.new.place ≡ window.old.place) }
    ensures reads { ReadsImage H.Host disk.old.host.now disk.new.host.now }
    ensures same_rest { disk.new.rest ≡ disk.old.rest }
    ensures same_host { disk.new.host.ghost_name ≡ disk.old.host.ghost_name }
    ensures fault { IfErr result (IsPieceFault H.Host disk.old.host.now disk.new.host.now) }
{
    let mut len = line_len(window.bytes(), 0);
    'pieces: while is_open(window.bytes().len(), len, window.has_ended()) {
        read_more(window, disk)?;
        len = line_len(window.bytes(), len);
    }
    Ok(line_in(window.bytes().len(), len))
}
