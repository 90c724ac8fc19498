// The picture of the display: its rows as bytes, and the whole as a portable bitmap. The bits of the form are in R13.
ghost use Rattle.std.specs.Prelude.{◌≡◌, ◌<◌, ◌≤◌, ◌++◌, ◌∷◌, [], IsTrue, OnOk, IfOk, IfSome, length, take};
ghost use Rattle.long_names.specs.declared.limits.TheConstants.{SMALL_INTEGERS};
ghost use Rattle.object_memory.specs.Told.{IsReady};
ghost use Rattle.object_memory.specs.Shape.{Looks};
ghost use Rattle.blue_model.specs.declared.cause.Cause.TheVariants.{Shape};
ghost use Rattle.blue_model.specs.declared.cpu.Cpu.{Cpu as Numbers};
ghost use Rattle.blue_model.specs.Machine.{part};
ghost use Rattle.blue_model.specs.BitBlt.{words_in};
ghost use Rattle.blue_model.specs.Forms as forms;
ghost use Rattle.blue_model.specs.Devices as model;
ghost use Rattle.contexts.specs.Serves.{Serves, StaysSound, with_value};
ghost use Rattle.devices.specs.declared.pixels.TheConstants.{MOST_ROW_BYTES};
ghost use Rattle.devices.specs.Inside.{IsSmall, HasRows, form_found, words_told, row_at, HasWords, bits_found, ReadsRow};
ghost use Rattle.devices.specs.Pictures.{display_extent, IsShown, front_found, DrawnBy, DrawsFit};
ghost use Rattle.object_memory.specs.Calls.{IsFit};
ghost use Rattle.contexts.specs.Calls.{StaysFit};

use crate::PictureFault;
use crate::display::form_of;
use crate::pixels::{MOST_ROW_BYTES, row_bytes};
use contexts::{Cause, Cpu, Stop};
use itoa::Buffer;
use long_names::Octets;
use object_memory::{ObjectMemory, Reg};
use std::alloc::{AllocError, Global};

/// How many words a row has at most.
const MOST_ROW_WORDS: usize = 1_024;

/// How many columns and rows the form has that is the display, where it still has a form's shape. Its bits are loaded into R13.
fn display_form<M: ObjectMemory>(m: &mut M, cpu: &Cpu) -> Result<Option<(u32, u32)>, Stop>
    requires fit { IsFit M.ObjectMemory m.old }
    ensures serves { Serves (M.told m.old) cpu.now (M.told m.new) cpu.now model.display_form (form_found result ((M.told m.new).regs 13)) }
    ensures rows { IfOk result (λ found. IfSome found (HasRows (M.told m.new) 13)) }
    ensures small { IfOk result (λ found. IfSome found IsSmall) }
    ensures fit { StaysFit M.ObjectMemory m.old m.new result }
{
    if !cpu.display {
        return Ok(None);
    }
    m.copy(Reg::R11, Reg::DISPLAY);
    form_of(m)
}

/// How many columns and rows the display has. None exactly where no form is the display, or what is no form's shape any more: then its
/// picture is empty.
pub fn picture_size<M: ObjectMemory>(m: &mut M, cpu: &Cpu) -> Result<Option<(u32, u32)>, Stop>
    requires fit { IsFit M.ObjectMemory m.old }
    ensures serves { Serves (M.told m.old) cpu.now (M.told m.new) cpu.now display_extent result }
    ensures fit { StaysFit M.ObjectMemory m.old m.new result }
{
    let extent = display_form(m, cpu)?;
    Ok(extent)
}

/// Reads the words of a row.
fn read_row<M: ObjectMemory>(m: &mut M, width: u32, y: u32, words: &mut [u16]) -> Result<(), Stop>
    requires fit { IsFit M.ObjectMemory m.old }
    requires row { HasWords (M.told m.old) width y }
    requires words { length words.old ≡ forms.row_words width }
    requires width { width < SMALL_INTEGERS }
    requires height { y < SMALL_INTEGERS }
    ensures serves { (cpu : Numbers) → Serves (M.told m.old) cpu (M.told m.new) cpu (part Shape words_in ((M.told m.old).regs 13)) (with_value result (words_told (M.told m.old) 13)) }
    ensures words { IsTrue (M.told m.old).tells → OnOk result (words.new ≡ row_at width (words_told (M.told m.old) 13) y) }
    ensures length { length words.new ≡ length words.old }
    ensures looks { OnOk result (Looks [] (M.told m.old) (M.told m.new)) }
    ensures fit { StaysFit M.ObjectMemory m.old m.new result }
{
    m.read_words(Reg::R13, width.div_ceil(16) * y, words)?;
    Ok(())
}

/// Puts the bytes of a row to the front of the buffer, and says how many there are.
fn draw_row<M: ObjectMemory>(m: &mut M, width: u32, y: u32, out: &mut [u8]) -> Result<u32, Stop>
    requires fit { IsFit M.ObjectMemory m.old }
    requires row { HasWords (M.told m.old) width y }
    requires width { width < SMALL_INTEGERS }
    requires height { y < SMALL_INTEGERS }
    requires room { MOST_ROW_BYTES ≤ length out.old }
    ensures serves { (cpu : Numbers) → Serves (M.told m.old) cpu (M.told m.new) cpu (part Shape words_in ((M.told m.old).regs 13)) (bits_found result (words_told (M.told m.old) 13)) }
    ensures bytes { IsTrue (M.told m.old).tells → IfOk result (λ n. take n out.new ≡ forms.row_bytes width (words_told (M.told m.old) 13) y) }
    ensures few { IfOk result (λ n. n ≤ MOST_ROW_BYTES) }
    ensures length { length out.new ≡ length out.old }
    ensures looks { OnOk result (Looks [] (M.told m.old) (M.told m.new)) }
    ensures fit { StaysFit M.ObjectMemory m.old m.new result }
{
    let mut words = [0; MOST_ROW_WORDS];
    let row = &mut words[..width.div_ceil(16) as usize];
    read_row(m, width, y, row)?;
    Ok(row_bytes(row, width, out))
}

/// Puts the bytes of row y of the display to the front of the buffer, and says how many there are: eight pixels a byte, the leftmost
/// highest. The display has a form's shape, and the row is one of it.
pub fn picture_row<M: ObjectMemory>(
    m: &mut M,
    cpu: &Cpu,
    y: u32,
    out: &mut [u8],
) -> Result<u32, Stop>
    requires fit { IsFit M.ObjectMemory m.old }
    requires shown { IsTrue (M.told m.old).tells → IsShown (M.told m.old) cpu.now y }
    requires room { MOST_ROW_BYTES ≤ length out.old }
    ensures serves { Serves (M.told m.old) cpu.now (M.told m.new) cpu.now (model.display_row y) (front_found result out.new) }
    ensures fit { StaysFit M.ObjectMemory m.old m.new result }
{
    let Some((width, height)) = display_form(m, cpu)? else {
        return Err(Stop::Stuck(Cause::Shape));
    };
    if height <= y {
        return Err(Stop::Stuck(Cause::Shape));
    }
    draw_row(m, width, y, out)
}

/// The head of a picture.
fn head(alloc: Global, width: u32, height: u32) -> Result<Octets, AllocError>
    ensures { IfOk result (λ text. text ≡ forms.picture_head width height) }
{
    let mut buffer = Buffer::new();
    let mut text = Octets::from_slice(alloc, b"P4\n")?;
    text.extend(buffer.format(width).as_bytes())?;
    text.extend(b" ")?;
    text.extend(buffer.format(height).as_bytes())?;
    text.extend(b"\n")?;
    Ok(text)
}

/// Appends the bytes of a row.
fn append_row<M: ObjectMemory>(
    m: &mut M,
    text: &mut Octets,
    width: u32,
    y: u32,
) -> Result<(), PictureFault>
    requires fit { IsFit M.ObjectMemory m.old }
    requires row { HasWords (M.told m.old) width y }
    requires width { width < SMALL_INTEGERS }
    requires height { y < SMALL_INTEGERS }
    ensures reads { ReadsRow (M.told m.old) (M.told m.new) result }
    ensures text { IsTrue (M.told m.old).tells → OnOk result (text.new ≡ text.old ++ forms.row_bytes width (words_told (M.told m.old) 13) y) }
    ensures fit { DrawsFit M.ObjectMemory m.old m.new result }
{
    let mut row = [0; MOST_ROW_BYTES];
    let count = draw_row(m, width, y, &mut row)?;
    text.extend(&row[..count as usize])?;
    Ok(())
}

/// The picture of the display, a portable bitmap: nothing where no form is the display. It takes memory for the picture, and none besides.
pub fn picture<M: ObjectMemory>(alloc: Global, m: &mut M, cpu: &Cpu) -> Result<Octets, PictureFault>
    requires fit { IsFit M.ObjectMemory m.old }
    ensures drawn { DrawnBy (M.told m.old) cpu.now (M.told m.new) result }
    ensures fit { DrawsFit M.ObjectMemory m.old m.new result }
{
    let Some((width, height)) = display_form(m, cpu)? else {
        return Ok(Octets::new(alloc));
    };
    let mut text = head(alloc, width, height)?;
    'rows: for y in 0..height {
        append_row(m, &mut text, width, y)?;
    }
    Ok(text)
}
