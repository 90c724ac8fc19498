// Linear probing over a list of slots.
ghost use Rattle.std.specs.Prelude.{◌≡◌, ◌≢◌, ◌<◌, ◌^◌, length};
ghost use Rattle.probing.specs.Homes.{home_of};
ghost use Rattle.probing.specs.Search.{IsClosedUp};
ghost use Rattle.probing.specs.Table.{used, IsTable};
ghost use Rattle.resident_table.specs.Inside.{name_at, short_at};

use probing::{distance, home, turn};

// A name and its short name. A slot of the name 0 is empty.
#[derive(Clone, Copy)]
pub(crate) struct Slot {
    pub(crate) name: u32,
    pub(crate) short: u16,
}

impl Slot {
    pub(crate) const EMPTY: Slot = Slot { name: 0, short: 0 };
}

// Takes out the slot at a place: later ones move up over it, until the hole needs no filling.
pub(crate) fn close_up(slots: &mut Vec<Slot>, at: usize)
    requires few { length slots.old.items < 2 ^ 31 }
    requires within { at < length slots.old.items }
    requires named { name_at slots.old.items at ≢ 0 }
    requires table { IsTable home_of (name_at slots.old.items) (length slots.old.items) (used (name_at slots.old.items) (length slots.old.items)) }
    requires room { used (name_at slots.old.items) (length slots.old.items) < length slots.old.items }
    ensures closed { IsClosedUp home_of (name_at slots.old.items) (name_at slots.new.items) (short_at slots.old.items) (short_at slots.new.items)
        (length slots.old.items) (used (name_at slots.old.items) (length slots.old.items)) at }
    ensures size { length slots.new.items ≡ length slots.old.items }
{
    let size = slots.len() as u32;
    let mut hole = at as u32;
    let mut gap = 1;
    for _step in 1..size {
        let place = turn(hole, gap, size);
        let slot = slots[place as usize];
        if slot.name == 0 {
            slots[hole as usize] = Slot::EMPTY;
            return;
        }
        let home = home(slot.name, size);
        if distance(home, place, size) < gap {
            gap += 1;
        } else {
            slots[hole as usize] = slot;
            hole = place;
            gap = 1;
        }
    }
    unreachable!()
}
