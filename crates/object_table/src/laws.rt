//! What holds of every table.
ghost use Rattle.std.specs.Prelude.{◌≡◌, ◌+◌};
ghost use Rattle.object_table.specs.Entries.{sum_below, used_by};
ghost use Rattle.object_table.specs.Table.{bound_of, entries_of, entry_at, free_of};

use crate::Table;

/// Each entry is free or in use.
pub fn entries_are_counted(table: &Table)
    ensures { entries_of table.now ≡ free_of table.now + sum_below (bound_of table.now) (λ s. used_by (entry_at table.now s)) }
{
    let _ = table;
}
