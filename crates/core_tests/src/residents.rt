// A table of names that were made one after another is filled to its last place, and emptied.
ghost use Rattle.std.specs.Prelude.{◌≡◌, ◌+◌, ◌<◌, ◌≤◌};
ghost use Rattle.resident_table.specs.Resident.{held_of, room_of};

use long_names::Name;
use object_table::Short;
use resident_table::Resident;
use std::test::Fail;

const ROOM: u16 = 100;

fn name(k: u16) -> Result<Name, Fail> {
    Ok(Name::new(2 * u32::from(k) + 2).ok_or("a name is even and above 0")?)
}

fn add(resident: &mut Resident, k: u16) -> Result<(), Fail>
    requires few { k < 1000 }
    requires room { held_of resident.old < room_of resident.old }
    ensures held { held_of resident.new ≤ held_of resident.old + 1 }
    ensures room { room_of resident.new ≡ room_of resident.old }
{
    let name = name(k)?;
    if resident.find(name).is_none() {
        resident.insert(name, Short(2 * k + 2));
    }
    Ok(())
}

fn take(resident: &mut Resident, k: u16) -> Result<(), Fail> {
    let name = name(k)?;
    if resident.find(name).is_some() {
        resident.remove(name);
    }
    Ok(())
}

// Whether a name is found with its short one, and no more once it is taken.
fn is_taken(resident: &mut Resident, k: u16) -> Result<bool, Fail>
    requires few { k < 1000 }
{
    let name = name(k)?;
    let there = resident.find(name) == Some(Short(2 * k + 2));
    take(resident, k)?;
    Ok(there && resident.find(name).is_none())
}

#[test]
fn a_table_is_filled_and_emptied(rt: HostRuntime) -> Result<(), Fail> {
    let mut resident = Resident::new(rt.alloc(), ROOM)?;
    for k in 0..ROOM {
        add(&mut resident, k)?;
    }
    for k in 0..ROOM {
        assert!(rt; is_taken(&mut resident, k)?, "of name {k}");
    }
    Ok(())
}
