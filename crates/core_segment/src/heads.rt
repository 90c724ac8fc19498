// The first words of a chunk.
//
// A used chunk begins with 0, its owner and its size, in two words. A free one of fewer than four words says its size in its first word. A
// longer free one begins with its size, or with 0 where it has more than 64 words, and with the owner 0; then comes a link, in two words, to
// the next chunk of its list, and where the size isn't in the first word it comes last, in two words.
ghost use Rattle.core_segment.specs.Words.{filled_of, words_of};
ghost use Rattle.std.specs.Prelude.{◌≡◌, ◌+◌, ◌<◌, ◌≤◌, length};
ghost use Rattle.core_segment.specs.Heads.{HasHead, IsClosed, IsOpened, IsPaired, link_in, owner_in, pair_in, size_in};

use crate::words::Words;

// How many values a word has.
pub(crate) const RADIX: u32 = 65_536;

// The fewest words of a free chunk that stands in a list, and the most that have a list for each size.
pub(crate) const FEWEST: u32 = 4;

pub(crate) const SHORT: u32 = 64;

// A number in two words.
#[inline(always)]
fn pair_at(region: &Words, i: u32) -> u32
    requires { i + 1 < length (words_of region.now) }
    ensures { result ≡ pair_in (words_of region.now) i }
{
    u32::from(region.get(i)) + RADIX * u32::from(region.get(i + 1))
}

#[inline(always)]
fn put_pair(region: &mut Words, i: u32, n: u32)
    requires { i + 1 < length (words_of region.old) }
    ensures pair { IsPaired (words_of region.old) (words_of region.new) i n }
    ensures grown { filled_of region.old ≤ filled_of region.new }
{
    region.put(i, (n % RADIX) as u16);
    region.put(i + 1, (n / RADIX) as u16);
}

// The owner of the chunk that begins at a place, and 0 of a free one.
#[inline(always)]
pub(crate) fn owner_at(region: &Words, place: u32) -> u16
    requires { HasHead (words_of region.now) place }
    ensures { result ≡ owner_in (words_of region.now) place }
{
    if region.get(place) != 0 {
        return 0;
    }
    region.get(place + 1)
}

// The size of the chunk that begins at a place.
#[inline(always)]
pub(crate) fn size_at(region: &Words, place: u32) -> u32
    requires { HasHead (words_of region.now) place }
    ensures { result ≡ size_in (words_of region.now) place }
{
    let short = region.get(place);
    if short != 0 {
        return u32::from(short);
    }
    if region.get(place + 1) != 0 {
        pair_at(region, place + 2)
    } else {
        pair_at(region, place + 4)
    }
}

// Where the chunk behind a free one in its list begins, and one more; 0 behind the last.
#[inline(always)]
pub(crate) fn link_at(region: &Words, place: u32) -> u32
    requires { place + 3 < length (words_of region.now) }
    ensures { result ≡ link_in (words_of region.now) place }
{
    pair_at(region, place + 2)
}

#[inline(always)]
pub(crate) fn put_link(region: &mut Words, place: u32, link: u32)
    requires { place + 3 < length (words_of region.old) }
    ensures link { IsPaired (words_of region.old) (words_of region.new) (place + 2) link }
    ensures grown { filled_of region.old ≤ filled_of region.new }
{
    put_pair(region, place + 2, link);
}

// Writes the first words of a used chunk.
#[inline(always)]
pub(crate) fn open(region: &mut Words, place: u32, owner: u16, size: u32)
    requires within { place + 3 < length (words_of region.old) }
    requires owner { 0 < owner }
    ensures opened { IsOpened (words_of region.old) (words_of region.new) place owner size }
    ensures grown { filled_of region.old ≤ filled_of region.new }
{
    region.put(place, 0);
    region.put(place + 1, owner);
    put_pair(region, place + 2, size);
}

// Writes the first words of a free chunk.
#[inline(always)]
pub(crate) fn close(region: &mut Words, place: u32, size: u32, link: u32)
    requires within { place + size ≤ length (words_of region.old) }
    requires some { 0 < size }
    ensures closed { IsClosed (words_of region.old) (words_of region.new) place size link }
    ensures grown { filled_of region.old ≤ filled_of region.new }
{
    if size < FEWEST {
        region.put(place, size as u16);
        return;
    }
    region.put(place + 1, 0);
    put_link(region, place, link);
    if size <= SHORT {
        region.put(place, size as u16);
    } else {
        region.put(place, 0);
        put_pair(region, place + 4, size);
    }
}
