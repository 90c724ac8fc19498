// Pairs are found until another pair takes their row, or the cache is cleared.
use method_cache::Cache;

/// What is done to a cache.
enum Step {
    /// A class, a selector and their method are put in.
    Put(u16, u16, u16),
    /// This is found for a class and a selector.
    Find(u16, u16, Option<u16>),
    Clear,
}

const STEPS: &[Step] = &[
    Step::Put(2, 4, 10),
    Step::Put(4, 4, 12),
    Step::Find(2, 4, Some(10)),
    Step::Find(4, 4, Some(12)),
    Step::Find(4, 2, None),
    Step::Find(0, 0, None),
    Step::Find(u16::MAX, u16::MAX, None),
    // which has the row of another pair
    Step::Put(4, 2, 14),
    Step::Find(4, 2, Some(14)),
    Step::Find(2, 4, None),
    Step::Put(4, 4, 16),
    Step::Find(4, 4, Some(16)),
    Step::Clear,
    Step::Find(4, 4, None),
];

// The first step that finds something else.
fn first_wrong(cache: &mut Cache) -> Option<usize> {
    for (i, step) in STEPS.iter().enumerate() {
        match step {
            Step::Put(class, selector, method) => cache.put(*class, *selector, *method),
            Step::Find(class, selector, want) => {
                if cache.find(*class, *selector) != *want {
                    return Some(i);
                }
            }
            Step::Clear => cache.clear(),
        }
    }
    None
}

#[test]
fn pairs_are_found(rt: HostRuntime) {
    let mut cache = Cache::new();
    assert_eq!(rt; first_wrong(&mut cache), None);
}
