// What a BitBlt asks for: the numbers in its fields 3 to 13. The BitBlt is in R10, numbers are read into R12.
ghost use Rattle.std.specs.Prelude.{◌≡◌, ◌+◌, [], ◌∷◌, OnOk, IfOk, IfSome, ◌<◌};
ghost use Rattle.object_memory.specs.Told.{IsReady};
ghost use Rattle.object_memory.specs.Shape.{Looks};
ghost use Rattle.blue_model.specs.declared.indexes.TheConstants.{BITBLT_SIZE};
ghost use Rattle.blue_model.specs.declared.limits.TheConstants.{COMBINATION_RULES};
ghost use Rattle.blue_model.specs.declared.cpu.Cpu.{Cpu as Numbers};
ghost use Rattle.blue_model.specs.Trials.{peek};
ghost use Rattle.blue_model.specs.BitBlt as model;
ghost use Rattle.contexts.specs.Serves.{Serves, StaysSound};
ghost use Rattle.bitblt.specs.Asking.{place_at, places_found, asked_found};
ghost use Rattle.object_memory.specs.Calls.{IsFit};
ghost use Rattle.contexts.specs.Calls.{StaysFit};

use blue_model::indexes::{
    BITBLT_SIZE, BLIT_WIDTH_INDEX, CLIP_WIDTH_INDEX, CLIP_X_INDEX, COMBINATION_RULE_INDEX,
    DEST_X_INDEX, SOURCE_X_INDEX,
};
use blue_model::limits::COMBINATION_RULES;
use contexts::Stop;
use contexts::peeks::peek_number;
use object_memory::{ObjectMemory, Reg};

/// Two numbers: a place in a form, or a width and a height.
#[derive(Clone, Copy)]
pub struct Place {
    pub x: i16,
    pub y: i16,
}

/// What a BitBlt asks for: its rule, a rectangle in the destination, a place in the source, and the clipping rectangle.
#[derive(Clone, Copy)]
pub struct Asked {
    pub rule: u8,
    pub dest: Place,
    pub extent: Place,
    pub source: Place,
    pub clip: Place,
    pub clip_extent: Place,
}

/// The numbers in a field and in the next one.
fn read_place<M: ObjectMemory>(m: &mut M, i: u32) -> Result<Option<Place>, Stop>
    requires fit { IsFit M.ObjectMemory m.old }
    requires field { i + 1 < BITBLT_SIZE }
    ensures serves { (cpu : Numbers) → Serves (M.told m.old) cpu (M.told m.new) cpu (peek (place_at i) ((M.told m.old).regs 10)) (places_found result) }
    ensures looks { OnOk result (Looks (12 ∷ []) (M.told m.old) (M.told m.new)) }
    ensures fit { StaysFit M.ObjectMemory m.old m.new result }
{
    let Some(x) = peek_number(m, Reg::R12, Reg::R10, BITBLT_SIZE, i)? else {
        return Ok(None);
    };
    let Some(y) = peek_number(m, Reg::R12, Reg::R10, BITBLT_SIZE, i + 1)? else {
        return Ok(None);
    };
    Ok(Some(Place { x, y }))
}

/// The number of a rule.
fn rule_number(z: i16) -> Option<u8>
    ensures number { result ≡ model.rule_number z }
    ensures range { IfSome result (λ rule. rule < COMBINATION_RULES) }
{
    if 0 <= z && z < COMBINATION_RULES as i16 {
        Some(z as u8)
    } else {
        None
    }
}

/// What the BitBlt asks for. None where a field holds no number, or the rule is none.
pub(crate) fn read_asked<M: ObjectMemory>(m: &mut M) -> Result<Option<Asked>, Stop>
    requires fit { IsFit M.ObjectMemory m.old }
    ensures serves { (cpu : Numbers) → Serves (M.told m.old) cpu (M.told m.new) cpu (peek model.asked_of ((M.told m.old).regs 10)) (asked_found result) }
    ensures looks { OnOk result (Looks (12 ∷ []) (M.told m.old) (M.told m.new)) }
    ensures rule { IfOk result (λ asked. IfSome asked (λ q. q.rule < COMBINATION_RULES)) }
    ensures fit { StaysFit M.ObjectMemory m.old m.new result }
{
    let Some(z) = peek_number(m, Reg::R12, Reg::R10, BITBLT_SIZE, COMBINATION_RULE_INDEX)? else {
        return Ok(None);
    };
    let Some(rule) = rule_number(z) else {
        return Ok(None);
    };
    let Some(dest) = read_place(m, DEST_X_INDEX)? else {
        return Ok(None);
    };
    let Some(extent) = read_place(m, BLIT_WIDTH_INDEX)? else {
        return Ok(None);
    };
    let Some(source) = read_place(m, SOURCE_X_INDEX)? else {
        return Ok(None);
    };
    let Some(clip) = read_place(m, CLIP_X_INDEX)? else {
        return Ok(None);
    };
    let Some(clip_extent) = read_place(m, CLIP_WIDTH_INDEX)? else {
        return Ok(None);
    };
    Ok(Some(Asked {
        rule,
        dest,
        extent,
        source,
        clip,
        clip_extent,
    }))
}
