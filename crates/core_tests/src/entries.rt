// Entries are taken, used and given back.
use bitflags::Flags;
use long_names::Name;
use object_table::{EntryFlags, Short, Table};
use std::test::Fail;

// Whether three entries are taken in their order, and no fourth one.
fn is_filled(table: &mut Table) -> bool {
    for want in [Some(Short(2)), Some(Short(4)), Some(Short(6)), None] {
        if table.take(Name::ARRAY) != want {
            return false;
        }
    }
    table.free() == 0
}

#[test]
fn a_table_is_filled(rt: HostRuntime) -> Result<(), Fail> {
    let mut table = Table::new(rt.alloc(), 3)?;
    let empty = (table.entries(), table.free());
    assert_eq!(rt; (empty, is_filled(&mut table)), ((3, 3), true));
    Ok(())
}

// Whether an entry that is taken has a reference once one is added, and is free once it is given back.
fn comes_and_goes(table: &mut Table) -> bool {
    let Some(s) = table.take(Name::STRING) else {
        return false;
    };
    table.add_ref(s);
    let entry = table.entry(s);
    let used = entry.refs == 1 && entry.name == Name::STRING && entry.is_used();
    let leaf = entry.place().is_none();
    table.drop_ref(s);
    table.give(s);
    used && leaf && table.entry(s).is_free()
}

#[test]
fn an_entry_is_used_and_given_back(rt: HostRuntime) -> Result<(), Fail> {
    let mut table = Table::new(rt.alloc(), 2)?;
    let gone = comes_and_goes(&mut table);
    let free = table.free();
    assert_eq!(rt;
        (gone, free, table.take(Name::NIL)),
        (true, 2, Some(Short(2)))
    );
    Ok(())
}

/// A flag by its name, and its bit.
struct Flag {
    name: &'static str,
    flag: EntryFlags,
    bit: u8,
}

const FLAGS: [Flag; 4] = [
    Flag {
        name: "CHANGED",
        flag: EntryFlags::CHANGED,
        bit: 1,
    },
    Flag {
        name: "TOUCHED",
        flag: EntryFlags::TOUCHED,
        bit: 2,
    },
    Flag {
        name: "MARKED",
        flag: EntryFlags::MARKED,
        bit: 4,
    },
    Flag {
        name: "FRESH",
        flag: EntryFlags::FRESH,
        bit: 8,
    },
];

// The first flag that isn't its bit, or that its name doesn't give.
fn first_wrong() -> Option<&'static str> {
    for row in &FLAGS {
        let named = EntryFlags::from_name(row.name) == Some(row.flag);
        if row.flag.bits() != row.bit || !named {
            return Some(row.name);
        }
    }
    None
}

// Whether these four are all, and one of them is taken out alone.
fn are_all() -> bool {
    let mut all = EntryFlags::none();
    for row in &FLAGS {
        all.insert(row.flag);
    }
    let set = all == EntryFlags::all() && all.contains(EntryFlags::MARKED) && all.fresh;
    all.remove(EntryFlags::FRESH);
    set && !all.fresh && all.marked
}

#[test]
fn flags_are_bits(rt: HostRuntime) {
    assert_eq!(rt; (first_wrong(), are_all()), (None, true));
    assert_eq!(rt; EntryFlags::from_bits_retain(0xf3).bits(), 0xf3);
}
