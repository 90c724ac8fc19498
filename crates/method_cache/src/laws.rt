//! What holds of every cache that was made and used.
ghost use Rattle.std.specs.Prelude.{◌≡◌, ℕ, List, Some};
ghost use Rattle.method_cache.specs.declared.cache.Cache.{Cache};
ghost use Rattle.method_cache.specs.Found.{found};
ghost use Rattle.method_cache.specs.Calls.{Call, Comes, last_put};

/// After any calls, a method that is found was put for its pair after the last clear, and no later put of the pair had another one.
pub fn a_method_found_was_put()
    ensures { (calls : List Call) (cache : Cache) → Comes calls cache → (c s m : ℕ) → found cache c s ≡ Some m → last_put calls c s ≡ Some m }
{}
