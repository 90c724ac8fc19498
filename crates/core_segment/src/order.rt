// The lists made anew, each by rising place.
ghost use Rattle.core_segment.specs.Words.{filled_of, words_of};
ghost use Rattle.std.specs.Prelude.{◌≡◌, ◌≤◌, [], length};
ghost use Rattle.core_segment.specs.Lists.{Leads};
ghost use Rattle.core_segment.specs.Layout.{tiles_of};
ghost use Rattle.core_segment.specs.Order.{AreInOrder, IsRelinked, IsTiled, falling, first_free};

use crate::heads::{FEWEST, close, link_at, owner_at, size_at};
use crate::lists::Lists;
use crate::words::Words;

// Links the free chunks that stand in lists, each to the one before it. Answers the link to the last one.
pub(crate) fn thread(region: &mut Words) -> u32
    requires { IsTiled (words_of region.old) (tiles_of (words_of region.old)) }
    ensures relinked { IsRelinked (words_of region.old) (words_of region.new) (tiles_of (words_of region.old)) }
    ensures threaded { Leads (words_of region.new) result (falling (tiles_of (words_of region.old)) []) }
    ensures grown { filled_of region.old ≤ filled_of region.new }
{
    let end = region.size;
    let mut link = 0;
    let mut place = 0;
    while place < end {
        let size = size_at(region, place);
        let owner = owner_at(region, place);
        if owner == 0 && FEWEST <= size {
            close(region, place, size, link);
            link = place + 1;
        }
        place += size;
    }
    link
}

// The lists of the chunks that a link leads to, each linked to the one before it.
pub(crate) fn rise(region: &mut Words, last: u32) -> Lists
    requires tiled { IsTiled (words_of region.old) (tiles_of (words_of region.old)) }
    requires threaded { Leads (words_of region.old) last (falling (tiles_of (words_of region.old)) []) }
    ensures relinked { IsRelinked (words_of region.old) (words_of region.new) (tiles_of (words_of region.old)) }
    ensures ordered { AreInOrder (words_of region.new) result.firsts (tiles_of (words_of region.old)) }
    ensures grown { filled_of region.old ≤ filled_of region.new }
{
    let mut lists = Lists::none();
    let mut link = last;
    while link != 0 {
        let place = link - 1;
        let size = size_at(region, place);
        link = link_at(region, place);
        lists.push(region, place, size);
    }
    lists
}

// The first free chunk, or the end.
pub(crate) fn first_free(region: &Words) -> u32
    requires { IsTiled (words_of region.now) (tiles_of (words_of region.now)) }
    ensures { result ≡ first_free (tiles_of (words_of region.now)) (length (words_of region.now)) }
{
    let end = region.size;
    let mut place = 0;
    while place < end {
        if owner_at(region, place) == 0 {
            return place;
        }
        place += size_at(region, place);
    }
    place
}
