// Clipping, one axis at a time.
ghost use Rattle.std.specs.Prelude.{◌≡◌, ℕ, ◌&&◌, ◌^◌, pos, ◌+ℤ◌, ◌-ℤ◌, ◌≤ℤ◌, Some};
ghost use Rattle.blue_model.specs.BitBlt.{spans, is_changed_place};
ghost use Rattle.bitblt.specs.Clip.{covers, IsClipped, IsSpanOf};

/// The places from one up to another, which isn't among them. It has none where the second isn't above the first.
#[derive(Clone, Copy)]
pub struct Range {
    pub low: i32,
    pub high: i32,
}

/// The places in both ranges.
#[inline(always)]
fn meet(a: Range, b: Range) -> Range
    ensures covers { (x : ℕ) → covers result x ≡ (covers a x && covers b x) }
    ensures low_a { a.low ≤ℤ result.low }
    ensures low_b { b.low ≤ℤ result.low }
    ensures high_a { result.high ≤ℤ a.high }
    ensures high_b { result.high ≤ℤ b.high }
{
    let low = if a.low < b.low { b.low } else { a.low };
    let high = if a.high < b.high { a.high } else { b.high };
    Range { low, high }
}

/// So many places from one on.
#[inline(always)]
fn places_from(at: i16, extent: i16) -> Range
    ensures { (x : ℕ) → covers result x ≡ spans at extent (pos x) }
{
    Range {
        low: at as i32,
        high: at as i32 + extent as i32,
    }
}

/// The places changed on an axis, and the source place of the first of them.
#[derive(Clone, Copy)]
pub struct Span {
    pub low: usize,
    pub high: usize,
    pub source: usize,
}

/// The places of a form.
#[inline(always)]
fn form_places(form: u16) -> Range
    ensures covers { (x : ℕ) → covers result x ≡ spans (pos 0) (pos form) (pos x) }
    ensures low { result.low ≡ pos 0 }
    ensures high { result.high ≡ pos form }
{
    Range {
        low: 0,
        high: form as i32,
    }
}

/// The places whose source place is in the source.
fn source_places(at: i16, source_at: i16, n: u16) -> Range
    ensures covers { (x : ℕ) → covers result x ≡ spans (pos 0) (pos n) (pos x -ℤ at +ℤ source_at) }
    ensures low { result.low ≡ at -ℤ source_at }
    ensures high { result.high ≡ at -ℤ source_at +ℤ pos n }
{
    let low = at as i32 - source_at as i32;
    Range {
        low,
        high: low + n as i32,
    }
}

/// The places in the rectangle, the clip rectangle and the form.
#[inline(always)]
fn in_form(at: i16, extent: i16, clip_at: i16, clip_extent: i16, form: u16) -> Range
    ensures covers { (x : ℕ) → covers result x ≡ (spans at extent (pos x) && (spans clip_at clip_extent (pos x) && spans (pos 0) (pos form) (pos x))) }
    ensures low { pos 0 ≤ℤ result.low }
    ensures high { result.high ≤ℤ pos form }
{
    let asked = places_from(at, extent);
    let clip = places_from(clip_at, clip_extent);
    let both = meet(asked, clip);
    meet(both, form_places(form))
}

/// The range as a span, where it has a place: its places are from 0 on, and from the one with the source's first place on.
#[inline(always)]
fn span_of(r: Range, start: i32) -> Option<Span>
    requires low { pos 0 ≤ℤ r.low }
    requires start { start ≤ℤ r.low }
    requires small { r.low ≤ℤ (start +ℤ pos (2 ^ 16)) }
    ensures { IsSpanOf r start result }
{
    if r.low < r.high {
        Some(Span {
            low: r.low as usize,
            high: r.high as usize,
            source: (r.low - start) as usize,
        })
    } else {
        None
    }
}

/// Cuts a rectangle's places by the clip rectangle, the destination and the source.
pub(crate) fn clip_axis(
    at: i16,
    extent: i16,
    clip_at: i16,
    clip_extent: i16,
    form: u16,
    source_at: i16,
    source: Option<u16>,
) -> Option<Span>
    ensures { IsClipped at source_at form source (is_changed_place at extent clip_at clip_extent form source_at source) result }
{
    let places = in_form(at, extent, clip_at, clip_extent, form);
    match source {
        None => span_of(places, places.low),
        Some(n) => {
            let readable = source_places(at, source_at, n);
            let both = meet(places, readable);
            if both.low < both.high {
                span_of(both, readable.low)
            } else {
                None
            }
        }
    }
}
