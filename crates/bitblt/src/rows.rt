// The rows of a transfer, each read whole before it is written. The destination's bits are in R13, the source's in R14. Where there is no
// source, rows are filled: nothing is read but the destination, and any order is right.
ghost use Rattle.std.specs.Prelude.{◌≡◌, ◌+◌, ◌-◌, ◌*◌, ◌/◌, ◌<◌, ◌≤◌, ℕ, true, false, [], List, length, slice_index, IsTrue, OnOk};
ghost use Rattle.object_memory.specs.Told.{IsReady};
ghost use Rattle.object_memory.specs.Shape.{Looks};
ghost use Rattle.blue_model.specs.declared.cpu.Cpu.{Cpu as Numbers};
ghost use Rattle.blue_model.specs.Forms.{bit};
ghost use Rattle.blue_model.specs.BitBlt.{put_words};
ghost use Rattle.bit_rows.specs.Masks.{AreOf};
ghost use Rattle.contexts.specs.Serves.{Serves, StaysSound};
ghost use Rattle.forms.specs.declared.form.TheConstants.{HALFTONE_WORDS};
ghost use Rattle.bitblt.specs.Transfers.{Fits, source_pixel, skip_of, run_length, row_words, words_after};
ghost use Rattle.bitblt.specs.Transfers as transfers;
ghost use Rattle.bitblt.specs.Blits.{dest_words, source_words, HasRooms, look_at_source, blit_words, IsWritten};
ghost use Rattle.object_memory.specs.Calls.{IsFit};
ghost use Rattle.contexts.specs.Calls.{StaysFit};

use crate::transfer::Transfer;
use bit_rows::{Masks, blend_row, fill_row};
use contexts::Stop;
use forms::HALFTONE_WORDS;
use object_memory::{ObjectMemory, Reg};

/// The most words of a row of the source, with a free word before them and one behind.
const BUFFER_WORDS: usize = 1027;

/// The most words of a row of the destination.
const RUN_WORDS: usize = 1024;

/// The words of a short row of the destination, and of the buffer for its source.
const SHORT_RUN_WORDS: usize = 16;

const SHORT_BUFFER_WORDS: usize = 19;

/// Reads the source's words for a row, from the second place on.
#[inline(always)]
fn read_source<M: ObjectMemory>(
    m: &mut M,
    t: &Transfer,
    y: usize,
    out: &mut [u16],
) -> Result<(), Stop>
    requires fit { IsFit M.ObjectMemory m.old }
    requires fits { Fits t.now }
    requires rooms { HasRooms t.now (M.told m.old) }
    requires some { t.now.has_source ≡ true }
    requires row { t.now.top ≤ y }
    requires below { y < t.now.bottom }
    requires room { run_length t.now + 3 ≤ length out.old }
    ensures serves { (cpu : Numbers) → Serves (M.told m.old) cpu (M.told m.new) cpu (look_at_source t.now.has_source ((M.told m.old).regs 14)) result }
    ensures looks { OnOk result (Looks [] (M.told m.old) (M.told m.new)) }
    ensures pixels { OnOk result (IsTrue (M.told m.old).tells → (x : ℕ) → t.now.left ≤ x → x < t.now.right → bit out.new (skip_of t.now + (x - 16 * (t.now.left / 16))) ≡ source_pixel t.now (source_words t.now.has_source (M.told m.old)) x y) }
    ensures fit { StaysFit M.ObjectMemory m.old m.new result }
{
    let first = t.source_left / 16;
    let count = (t.source_left + (t.right - 1 - t.left)) / 16 - first + 1;
    let at = t.source_stride * (y - t.top + t.source_top) + first;
    m.read_words(Reg::R14, at as u32, &mut out[1..1 + count])?;
    Ok(())
}

/// Changes the run of a row, whose source words are in a buffer.
#[inline(always)]
fn blend_run<M: ObjectMemory>(
    m: &mut M,
    t: &Transfer,
    masks: Masks,
    halftone: &[u16],
    source: &[u16],
    y: usize,
    run: &mut [u16],
) -> Result<(), Stop>
    requires fit { IsFit M.ObjectMemory m.old }
    requires fits { Fits t.now }
    requires masks { AreOf t.now.rule masks }
    requires rooms { HasRooms t.now (M.told m.old) }
    requires row { t.now.top ≤ y }
    requires below { y < t.now.bottom }
    requires halftone { length halftone.now ≡ HALFTONE_WORDS }
    requires room { run_length t.now + 3 ≤ length source.now }
    requires run { length run.old ≡ run_length t.now }
    requires pixels { IsTrue (M.told m.old).tells → (x : ℕ) → t.now.left ≤ x → x < t.now.right → bit source.now (skip_of t.now + (x - 16 * (t.now.left / 16))) ≡ source_pixel t.now (source_words t.now.has_source (M.told m.old)) x y }
    ensures serves { (cpu : Numbers) → Serves (M.told m.old) cpu (M.told m.new) cpu (put_words ((M.told m.old).regs 13) (row_words t.now (source_words t.now.has_source (M.told m.old)) halftone.now (dest_words (M.told m.old)) y)) result }
    ensures written { OnOk result (IsWritten t.now (M.told m.old) (M.told m.new) (row_words t.now (source_words t.now.has_source (M.told m.old)) halftone.now (dest_words (M.told m.old)) y)) }
    ensures fit { StaysFit M.ObjectMemory m.old m.new result }
{
    let first = t.left / 16;
    let at = (t.stride * y + first) as u32;
    let skip = 16 + t.source_left % 16 - t.left % 16;
    m.read_words(Reg::R13, at, run)?;
    blend_row(
        run,
        source,
        skip,
        t.left - 16 * first,
        t.right - 16 * first,
        halftone[y % HALFTONE_WORDS as usize],
        masks,
    );
    m.write_words(Reg::R13, at, run)?;
    Ok(())
}

/// Changes the run of a row, where there is no source.
#[inline(always)]
fn fill_run<M: ObjectMemory>(
    m: &mut M,
    t: &Transfer,
    masks: Masks,
    halftone: &[u16],
    y: usize,
    run: &mut [u16],
) -> Result<(), Stop>
    requires fit { IsFit M.ObjectMemory m.old }
    requires fits { Fits t.now }
    requires masks { AreOf t.now.rule masks }
    requires rooms { HasRooms t.now (M.told m.old) }
    requires none { t.now.has_source ≡ false }
    requires row { t.now.top ≤ y }
    requires below { y < t.now.bottom }
    requires halftone { length halftone.now ≡ HALFTONE_WORDS }
    requires run { length run.old ≡ run_length t.now }
    ensures serves { (cpu : Numbers) → Serves (M.told m.old) cpu (M.told m.new) cpu (put_words ((M.told m.old).regs 13) (row_words t.now (source_words t.now.has_source (M.told m.old)) halftone.now (dest_words (M.told m.old)) y)) result }
    ensures written { OnOk result (IsWritten t.now (M.told m.old) (M.told m.new) (row_words t.now (source_words t.now.has_source (M.told m.old)) halftone.now (dest_words (M.told m.old)) y)) }
    ensures fit { StaysFit M.ObjectMemory m.old m.new result }
{
    let first = t.left / 16;
    let at = (t.stride * y + first) as u32;
    let tone = halftone[y % HALFTONE_WORDS as usize];
    m.read_words(Reg::R13, at, run)?;
    fill_row(run, t.left - 16 * first, t.right - 16 * first, tone, masks);
    m.write_words(Reg::R13, at, run)?;
    Ok(())
}

/// Changes a row. The buffers are for the words of the row that it reads and of the one that it writes.
#[inline(always)]
fn blend_one<M: ObjectMemory>(
    m: &mut M,
    t: &Transfer,
    masks: Masks,
    halftone: &[u16],
    y: usize,
    source: &mut [u16],
    run: &mut [u16],
) -> Result<(), Stop>
    requires fit { IsFit M.ObjectMemory m.old }
    requires fits { Fits t.now }
    requires masks { AreOf t.now.rule masks }
    requires rooms { HasRooms t.now (M.told m.old) }
    requires some { t.now.has_source ≡ true }
    requires row { t.now.top ≤ y }
    requires below { y < t.now.bottom }
    requires halftone { length halftone.now ≡ HALFTONE_WORDS }
    requires room { run_length t.now + 3 ≤ length source.old }
    requires run { run_length t.now ≤ length run.old }
    ensures serves { (cpu : Numbers) → Serves (M.told m.old) cpu (M.told m.new) cpu (blit_words t.now.has_source ((M.told m.old).regs 14) ((M.told m.old).regs 13) (row_words t.now (source_words t.now.has_source (M.told m.old)) halftone.now (dest_words (M.told m.old)) y)) result }
    ensures written { OnOk result (IsWritten t.now (M.told m.old) (M.told m.new) (row_words t.now (source_words t.now.has_source (M.told m.old)) halftone.now (dest_words (M.told m.old)) y)) }
    ensures fit { StaysFit M.ObjectMemory m.old m.new result }
{
    read_source(m, t, y, source)?;
    let count = (t.right - 1) / 16 - t.left / 16 + 1;
    blend_run(m, t, masks, halftone, source, y, &mut run[..count])
}

/// Whether the words that the row reads begin before those that it writes.
#[inline(always)]
fn reads_before(t: &Transfer, y: usize) -> bool
    requires fits { Fits t.now }
    requires some { t.now.has_source ≡ true }
    requires row { t.now.top ≤ y }
    requires below { y < t.now.bottom }
    ensures { result ≡ transfers.reads_before t.now y }
{
    t.source_stride * (y - t.top + t.source_top) + t.source_left / 16 < t.stride * y + t.left / 16
}

/// Changes all rows, where there is a source. Source, destination and halftone are those before the call, also where the source is the destination's object
/// in any place and of any width: the rows that read words before those they write go first, from the last one up, and then the
/// others, from the first one down. So no row reads a word that was written. The buffers are for the words of a row that it reads and
/// of the one that it writes.
fn blend_within<M: ObjectMemory>(
    m: &mut M,
    t: &Transfer,
    halftone: &[u16],
    source: &mut [u16],
    run: &mut [u16],
) -> Result<(), Stop>
    requires fit { IsFit M.ObjectMemory m.old }
    requires fits { Fits t.now }
    requires rooms { HasRooms t.now (M.told m.old) }
    requires some { t.now.has_source ≡ true }
    requires halftone { length halftone.now ≡ HALFTONE_WORDS }
    requires room { run_length t.now + 3 ≤ length source.old }
    requires run { run_length t.now ≤ length run.old }
    ensures serves { (cpu : Numbers) → Serves (M.told m.old) cpu (M.told m.new) cpu (blit_words t.now.has_source ((M.told m.old).regs 14) ((M.told m.old).regs 13) (words_after t.now (source_words t.now.has_source (M.told m.old)) halftone.now (dest_words (M.told m.old)))) result }
    ensures regs { OnOk result ((M.told m.new).regs ≡ (M.told m.old).regs) }
    ensures fit { StaysFit M.ObjectMemory m.old m.new result }
{
    let masks = Masks::of(t.rule);
    for i in 0..t.bottom - t.top {
        let y = t.bottom - 1 - i;
        if reads_before(t, y) {
            blend_one(m, t, masks, halftone, y, source, run)?;
        }
    }
    for y in t.top..t.bottom {
        if !reads_before(t, y) {
            blend_one(m, t, masks, halftone, y, source, run)?;
        }
    }
    Ok(())
}

/// Changes all rows, where there is no source. The buffer is for the words of a row.
fn fill_within<M: ObjectMemory>(
    m: &mut M,
    t: &Transfer,
    halftone: &[u16],
    run: &mut [u16],
) -> Result<(), Stop>
    requires fit { IsFit M.ObjectMemory m.old }
    requires fits { Fits t.now }
    requires rooms { HasRooms t.now (M.told m.old) }
    requires none { t.now.has_source ≡ false }
    requires halftone { length halftone.now ≡ HALFTONE_WORDS }
    requires run { run_length t.now ≤ length run.old }
    ensures serves { (cpu : Numbers) → Serves (M.told m.old) cpu (M.told m.new) cpu (blit_words t.now.has_source ((M.told m.old).regs 14) ((M.told m.old).regs 13) (words_after t.now (source_words t.now.has_source (M.told m.old)) halftone.now (dest_words (M.told m.old)))) result }
    ensures regs { OnOk result ((M.told m.new).regs ≡ (M.told m.old).regs) }
    ensures fit { StaysFit M.ObjectMemory m.old m.new result }
{
    let masks = Masks::of(t.rule);
    let count = (t.right - 1) / 16 - t.left / 16 + 1;
    for row in t.top..t.bottom {
        fill_run(m, t, masks, halftone, row, &mut run[..count])?;
    }
    Ok(())
}

/// Changes all rows, as `blend_within` does, in buffers that are short where the rows are.
fn blend_rows<M: ObjectMemory>(m: &mut M, t: &Transfer, halftone: &[u16]) -> Result<(), Stop>
    requires fit { IsFit M.ObjectMemory m.old }
    requires fits { Fits t.now }
    requires rooms { HasRooms t.now (M.told m.old) }
    requires some { t.now.has_source ≡ true }
    requires halftone { length halftone.now ≡ HALFTONE_WORDS }
    ensures serves { (cpu : Numbers) → Serves (M.told m.old) cpu (M.told m.new) cpu (blit_words t.now.has_source ((M.told m.old).regs 14) ((M.told m.old).regs 13) (words_after t.now (source_words t.now.has_source (M.told m.old)) halftone.now (dest_words (M.told m.old)))) result }
    ensures regs { OnOk result ((M.told m.new).regs ≡ (M.told m.old).regs) }
    ensures fit { StaysFit M.ObjectMemory m.old m.new result }
{
    let count = (t.right - 1) / 16 - t.left / 16 + 1;
    if count <= SHORT_RUN_WORDS {
        let mut source = [0; SHORT_BUFFER_WORDS];
        let mut run = [0; SHORT_RUN_WORDS];
        blend_within(m, t, halftone, &mut source, &mut run)
    } else {
        let mut source = [0; BUFFER_WORDS];
        let mut run = [0; RUN_WORDS];
        blend_within(m, t, halftone, &mut source, &mut run)
    }
}

/// Changes all rows, as `fill_within` does, in a buffer that is short where the rows are.
fn fill_rows<M: ObjectMemory>(m: &mut M, t: &Transfer, halftone: &[u16]) -> Result<(), Stop>
    requires fit { IsFit M.ObjectMemory m.old }
    requires fits { Fits t.now }
    requires rooms { HasRooms t.now (M.told m.old) }
    requires none { t.now.has_source ≡ false }
    requires halftone { length halftone.now ≡ HALFTONE_WORDS }
    ensures serves { (cpu : Numbers) → Serves (M.told m.old) cpu (M.told m.new) cpu (blit_words t.now.has_source ((M.told m.old).regs 14) ((M.told m.old).regs 13) (words_after t.now (source_words t.now.has_source (M.told m.old)) halftone.now (dest_words (M.told m.old)))) result }
    ensures regs { OnOk result ((M.told m.new).regs ≡ (M.told m.old).regs) }
    ensures fit { StaysFit M.ObjectMemory m.old m.new result }
{
    let count = (t.right - 1) / 16 - t.left / 16 + 1;
    if count <= SHORT_RUN_WORDS {
        let mut run = [0; SHORT_RUN_WORDS];
        fill_within(m, t, halftone, &mut run)
    } else {
        let mut run = [0; RUN_WORDS];
        fill_within(m, t, halftone, &mut run)
    }
}

/// Changes all rows, with a source or without.
pub(crate) fn change_rows<M: ObjectMemory>(
    m: &mut M,
    t: &Transfer,
    halftone: &[u16],
) -> Result<(), Stop>
    requires fit { IsFit M.ObjectMemory m.old }
    requires fits { Fits t.now }
    requires rooms { HasRooms t.now (M.told m.old) }
    requires halftone { length halftone.now ≡ HALFTONE_WORDS }
    ensures serves { (cpu : Numbers) → Serves (M.told m.old) cpu (M.told m.new) cpu (blit_words t.now.has_source ((M.told m.old).regs 14) ((M.told m.old).regs 13) (words_after t.now (source_words t.now.has_source (M.told m.old)) halftone.now (dest_words (M.told m.old)))) result }
    ensures regs { OnOk result ((M.told m.new).regs ≡ (M.told m.old).regs) }
    ensures fit { StaysFit M.ObjectMemory m.old m.new result }
{
    if t.has_source {
        blend_rows(m, t, halftone)
    } else {
        fill_rows(m, t, halftone)
    }
}
