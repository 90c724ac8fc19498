// What holds of the tables, whatever the number is.
ghost use Rattle.std.specs.Prelude.{◌≡◌, ℕ, map};
ghost use Rattle.loom_gen.specs.Table.{table, table_names};

/// The table has each known name, and from the scheduler's on each even name up to the first character, once and in this order.
pub fn names_are_in_order()
    ensures { (number : ℕ) → map (λ e. e.0) (table number) ≡ table_names }
{}
