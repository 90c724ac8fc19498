// A copy as it is asked for. The bits of destination, source and halftone are in R13 to R15.
ghost use Rattle.std.specs.Prelude.{◌≡◌, ◌≤◌, ◌<◌, true, false, [], length, IsTrue, OnOk, IfSome, is_some, Some, ℕ, slice_index};
ghost use Rattle.long_names.specs.Objects.{words_of};
ghost use Rattle.object_memory.specs.Told.{IsReady};
ghost use Rattle.object_memory.specs.Shape.{Looks, HasPartAt};
ghost use Rattle.blue_model.specs.declared.limits.TheConstants.{COMBINATION_RULES};
ghost use Rattle.blue_model.specs.declared.cpu.Cpu.{Cpu as Numbers};
ghost use Rattle.blue_model.specs.Forms as forms;
ghost use Rattle.bitblt.specs.Blits.{look_at_source};
ghost use Rattle.blue_model.specs.BitBlt as model;
ghost use Rattle.contexts.specs.Serves.{Serves, StaysSound};
ghost use Rattle.forms.specs.declared.form.TheConstants.{HALFTONE_WORDS};
ghost use Rattle.forms.specs.declared.form.Extent.{Extent};
ghost use Rattle.bitblt.specs.declared.copy.TheConstants.{BLACK};
ghost use Rattle.bitblt.specs.Clip.{IsClipped, IsSpan};
ghost use Rattle.bitblt.specs.Asking.{asked_by};
ghost use Rattle.forms.specs.Shapes.{FitsAnObject, form_by, least_words};
ghost use Rattle.bitblt.specs.Shapes.{optional_by, OptionalRoom};
ghost use Rattle.bitblt.specs.Transfers.{Fits};
ghost use Rattle.bitblt.specs.Plans.{widths, heights, is_column, is_row, tone_words, IsPlanOf};
ghost use Rattle.object_memory.specs.Calls.{IsFit};
ghost use Rattle.contexts.specs.Calls.{StaysFit};

use crate::asked::Asked;
use crate::clip::{Span, clip_axis};
use crate::rows::change_rows;
use crate::transfer::Transfer;
use contexts::Stop;
use forms::{Extent, HALFTONE_WORDS, row_words};
use object_memory::{ObjectMemory, Reg};

/// The word of sixteen black pixels.
const BLACK: u16 = 0xFFFF;

/// The source's width, if there is a source.
fn width_of(source: Option<Extent>) -> Option<u16>
    ensures { result ≡ widths source }
{
    match source {
        Some(extent) => Some(extent.width),
        None => None,
    }
}

/// The source's height, if there is a source.
fn height_of(source: Option<Extent>) -> Option<u16>
    ensures { result ≡ heights source }
{
    match source {
        Some(extent) => Some(extent.height),
        None => None,
    }
}

/// The columns changed.
fn columns(q: &Asked, dest: Extent, source: Option<Extent>) -> Option<Span>
    ensures { IsClipped q.now.dest.x q.now.source.x dest.width (widths source) (is_column q.now dest source) result }
{
    let width = width_of(source);
    clip_axis(
        q.dest.x,
        q.extent.x,
        q.clip.x,
        q.clip_extent.x,
        dest.width,
        q.source.x,
        width,
    )
}

/// The rows changed.
fn rows(q: &Asked, dest: Extent, source: Option<Extent>) -> Option<Span>
    ensures { IsClipped q.now.dest.y q.now.source.y dest.height (heights source) (is_row q.now dest source) result }
{
    let height = height_of(source);
    clip_axis(
        q.dest.y,
        q.extent.y,
        q.clip.y,
        q.clip_extent.y,
        dest.height,
        q.source.y,
        height,
    )
}

/// So many words are a row of the source, if there is a source.
fn source_stride(source: Option<Extent>) -> usize
    ensures { (e : Extent) → source ≡ Some e → result ≡ forms.row_words e.width }
{
    match source {
        Some(extent) => row_words(extent.width) as usize,
        None => 0,
    }
}

/// The transfer that changes these columns and rows.
fn plan(q: &Asked, dest: Extent, source: Option<Extent>, x: Span, y: Span) -> Transfer
    requires rule { q.now.rule < COMBINATION_RULES }
    requires dest { FitsAnObject false dest }
    requires source { IfSome source (FitsAnObject false) }
    requires columns { IsSpan q.now.dest.x q.now.source.x dest.width (widths source) (is_column q.now dest source) x }
    requires rows { IsSpan q.now.dest.y q.now.source.y dest.height (heights source) (is_row q.now dest source) y }
    ensures plan { IsPlanOf q.now dest source result }
    ensures fits { Fits result }
{
    Transfer {
        rule: q.rule,
        stride: row_words(dest.width) as usize,
        left: x.low,
        right: x.high,
        top: y.low,
        bottom: y.high,
        has_source: source.is_some(),
        source_stride: source_stride(source),
        source_left: x.source,
        source_top: y.source,
    }
}

/// Reads the first words of the halftone, if there is a halftone. Without one they stay.
fn read_halftone<M: ObjectMemory>(
    m: &mut M,
    halftone: Option<Extent>,
    out: &mut [u16],
) -> Result<(), Stop>
    requires fit { IsFit M.ObjectMemory m.old }
    requires room { OptionalRoom (M.told m.old) 15 true halftone }
    requires out { length out.old ≡ HALFTONE_WORDS }
    requires black { (k : ℕ) → k < HALFTONE_WORDS → slice_index out.old k ≡ BLACK }
    ensures serves { (cpu : Numbers) → Serves (M.told m.old) cpu (M.told m.new) cpu (look_at_source (is_some halftone) ((M.told m.old).regs 15)) result }
    ensures looks { OnOk result (Looks [] (M.told m.old) (M.told m.new)) }
    ensures words { OnOk result (IsTrue (M.told m.old).tells → (k : ℕ) → k < HALFTONE_WORDS → slice_index out.new k ≡ slice_index (tone_words halftone (M.told m.old)) k) }
    ensures fit { StaysFit M.ObjectMemory m.old m.new result }
{
    if halftone.is_some() {
        m.read_words(Reg::R15, 0, out)?;
    }
    Ok(())
}

/// Does what is asked, where the forms have their shapes.
pub(crate) fn copy_pixels<M: ObjectMemory>(
    m: &mut M,
    q: &Asked,
    dest: Extent,
    source: Option<Extent>,
    halftone: Option<Extent>,
) -> Result<(), Stop>
    requires fit { IsFit M.ObjectMemory m.old }
    requires rule { q.now.rule < COMBINATION_RULES }
    requires dest { FitsAnObject false dest }
    requires source { IfSome source (FitsAnObject false) }
    requires dest_room { HasPartAt (M.told m.old) 13 words_of (λ words. least_words false dest ≤ length words) }
    requires source_room { OptionalRoom (M.told m.old) 14 false source }
    requires halftone_room { OptionalRoom (M.told m.old) 15 true halftone }
    ensures serves { (cpu : Numbers) → Serves (M.told m.old) cpu (M.told m.new) cpu (model.copy (asked_by q.now) (form_by ((M.told m.old).regs 13) dest) (optional_by ((M.told m.old).regs 14) source) (optional_by ((M.told m.old).regs 15) halftone)) result }
    ensures fit { StaysFit M.ObjectMemory m.old m.new result }
{
    let Some(x) = columns(q, dest, source) else {
        return Ok(());
    };
    let Some(y) = rows(q, dest, source) else {
        return Ok(());
    };
    let mut words = [BLACK; HALFTONE_WORDS as usize];
    read_halftone(m, halftone, &mut words)?;
    let t = plan(q, dest, source, x, y);
    change_rows(m, &t, &words)
}
