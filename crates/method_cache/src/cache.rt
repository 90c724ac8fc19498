// Rows of a class, a selector and a method, each in the place that class and selector say.
ghost use Rattle.std.specs.Prelude.{◌≡◌};
ghost use Rattle.method_cache.specs.Found.{place_of};

/// How many rows a cache has.
const ROWS: usize = 256;

#[derive(Clone, Copy)]
struct Row {
    class: u16,
    selector: u16,
    method: u16,
}

/// What lookups found: the methods of pairs of a class and a selector.
#[derive(Drop)]
pub struct Cache {
    rows: [Option<Row>; ROWS],
}

/// The row of a pair.
#[inline(always)]
fn row_number(class: u16, selector: u16) -> usize
    ensures { result ≡ place_of class selector }
{
    (class as usize / 2 + selector as usize / 2) % ROWS
}

impl Cache {
    ghost use Rattle.std.specs.Prelude.{◌≡◌, ℕ, None};
    ghost use Rattle.method_cache.specs.Found.{found, IsPut};

    /// A cache in which nothing is found.
    pub fn new() -> Cache
        ensures { (c s : ℕ) → found result c s ≡ None }
    {
        Cache { rows: [None; ROWS] }
    }

    /// The method of a pair. None where none was put, or its row was taken by another pair.
    #[inline(always)]
    pub fn find(&self, class: u16, selector: u16) -> Option<u16>
        ensures { result ≡ found self.now class selector }
    {
        let Some(row) = self.rows[row_number(class, selector)] else {
            return None;
        };
        if row.class == class && row.selector == selector {
            Some(row.method)
        } else {
            None
        }
    }

    /// Puts the method of a pair. At most one other pair isn't found any more.
    pub fn put(&mut self, class: u16, selector: u16, method: u16)
        ensures { IsPut (found self.old) (found self.new) class selector method }
    {
        self.rows[row_number(class, selector)] = Some(Row {
            class,
            selector,
            method,
        });
    }

    /// Takes all methods away.
    pub fn clear(&mut self)
        ensures { (c s : ℕ) → found self.new c s ≡ None }
    {
        self.rows = [None; ROWS];
    }
}
