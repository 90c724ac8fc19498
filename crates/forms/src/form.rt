// The shape of a form: a form is in R11, numbers are read into R12.
ghost use Rattle.std.specs.Prelude.{◌≡◌, ◌≤◌, ◌<◌, [], ◌∷◌, length, OnOk, IfOk, IfSome};
ghost use Rattle.long_names.specs.Objects.{words_of};
ghost use Rattle.object_memory.specs.Told.{IsReady};
ghost use Rattle.object_memory.specs.Shape.{Looks, HasPartAt};
ghost use Rattle.blue_model.specs.declared.cpu.Cpu.{Cpu as Numbers};
ghost use Rattle.blue_model.specs.Trials.{peek};
ghost use Rattle.blue_model.specs.Forms as model;
ghost use Rattle.contexts.specs.Serves.{Serves, StaysSound};
ghost use Rattle.forms.specs.Shapes.{IsExtent, FitsAnObject, extents_found, enough, forms_found};
ghost use Rattle.forms.specs.Shapes as shapes;
ghost use Rattle.object_memory.specs.Calls.{IsFit};
ghost use Rattle.contexts.specs.Calls.{StaysFit};

use blue_model::indexes::{BITS_INDEX, FORM_SIZE, HEIGHT_INDEX, WIDTH_INDEX};
use contexts::Stop;
use contexts::peeks::{peek_field, peek_number};
use object_memory::{ObjectMemory, Reg, shape};

/// A halftone has so many words at least, one for each row.
pub const HALFTONE_WORDS: u32 = 16;

/// How many columns and rows a form has.
#[derive(Clone, Copy)]
pub struct Extent {
    pub width: u16,
    pub height: u16,
}

/// A number of columns or rows, which is 1 or more.
#[inline(always)]
fn positive(z: i16) -> Option<u16>
    ensures { result ≡ model.positive z }
{
    if z > 0 { Some(z as u16) } else { None }
}

/// The width and the height of the form. None where one of them is no number of 1 or more.
fn read_extent<M: ObjectMemory>(m: &mut M) -> Result<Option<Extent>, Stop>
    requires fit { IsFit M.ObjectMemory m.old }
    ensures serves { (cpu : Numbers) → Serves (M.told m.old) cpu (M.told m.new) cpu (peek model.extent_of ((M.told m.old).regs 11)) (extents_found result) }
    ensures looks { OnOk result (Looks (12 ∷ []) (M.told m.old) (M.told m.new)) }
    ensures extent { IfOk result (λ found. IfSome found IsExtent) }
    ensures fit { StaysFit M.ObjectMemory m.old m.new result }
{
    let Some(x) = peek_number(m, Reg::R12, Reg::R11, FORM_SIZE, WIDTH_INDEX)? else {
        return Ok(None);
    };
    let Some(y) = peek_number(m, Reg::R12, Reg::R11, FORM_SIZE, HEIGHT_INDEX)? else {
        return Ok(None);
    };
    let Some(width) = positive(x) else {
        return Ok(None);
    };
    let Some(height) = positive(y) else {
        return Ok(None);
    };
    Ok(Some(Extent { width, height }))
}

/// So many words are a row of a form of this width.
#[inline(always)]
pub fn row_words(width: u16) -> u32
    ensures { result ≡ model.row_words width }
{
    (width as u32 + 15) / 16
}

/// So many words are enough: HALFTONE_WORDS for a halftone, and all rows for another form.
fn least_words(halftone: bool, extent: Extent) -> u32
    requires { IsExtent extent }
    ensures { result ≡ shapes.least_words halftone extent }
{
    if halftone {
        HALFTONE_WORDS
    } else {
        row_words(extent.width) * extent.height as u32
    }
}

/// Loads the bits of the form into a register. None where it has no form's shape, or where a halftone has too few words.
pub fn read_form<M: ObjectMemory>(
    m: &mut M,
    bits: Reg,
    halftone: bool,
) -> Result<Option<Extent>, Stop>
    requires fit { IsFit M.ObjectMemory m.old }
    requires bits { 13 ≤ bits }
    ensures serves { (cpu : Numbers) → Serves (M.told m.old) cpu (M.told m.new) cpu (model.form_where (enough halftone) ((M.told m.old).regs 11)) (forms_found result ((M.told m.new).regs bits)) }
    ensures looks { OnOk result (Looks (bits ∷ 12 ∷ []) (M.told m.old) (M.told m.new)) }
    ensures room { IfOk result (λ found. IfSome found (λ e. HasPartAt (M.told m.new) bits words_of (λ words. shapes.least_words halftone e ≤ length words))) }
    ensures extent { IfOk result (λ found. IfSome found (λ e. FitsAnObject halftone e)) }
    ensures fit { StaysFit M.ObjectMemory m.old m.new result }
{
    if !peek_field(m, bits, Reg::R11, FORM_SIZE, BITS_INDEX)? {
        return Ok(None);
    }
    let Some(count) = shape::words(m, bits)? else {
        return Ok(None);
    };
    let Some(extent) = read_extent(m)? else {
        return Ok(None);
    };
    if count < least_words(halftone, extent) {
        return Ok(None);
    }
    Ok(Some(extent))
}
