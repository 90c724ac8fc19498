// Laws of thinning and of kept objects. No code calls these functions: what each of them ensures is the law.
ghost use Rattle.std.specs.Prelude.{◌≡◌, ℕ, Bool, true, List, Option, Some};
ghost use Rattle.long_names.specs.declared.value.Value.{Value};
ghost use Rattle.long_names.specs.declared.object.Object.{Object};
ghost use Rattle.long_names.specs.Names.{is_known};
ghost use Rattle.long_names.specs.Heap.{Heap, Has, IsBounded, swap_objects};
ghost use Rattle.long_names.specs.Kept.{kept, no_roots};
ghost use Rattle.long_names.specs.Access.{Access, CanDo};
ghost use Rattle.long_names.specs.State.{State};
ghost use Rattle.long_names.specs.Thin.{IsClosed, IsLostRing, IsThinner, IsThinning, IsThinned, Agrees};

/// The objects that a thinner heap lacks form no cycle: no list of their names goes round. And a part of a heap, with its next name, whose lost objects form no cycle is a thinner heap.
pub fn lost_objects_form_no_cycle()
    ensures no_cycle { (h s : Heap) (n : ℕ) (rest : List ℕ) → IsThinner h s → IsLostRing h s n rest → ⊥ }
    ensures thinner { (h s : Heap) → IsBounded h → s.next ≡ h.next → ((n : ℕ) (o : Object) → s.at n ≡ Some o → h.at n ≡ Some o) → ((n : ℕ) (rest : List ℕ) → IsLostRing h s n rest → ⊥) → IsThinner h s }
{}

/// A thinning of a thinning is a thinning of the heap.
pub fn thinning_of_a_thinning()
    ensures { (h s t : Heap) (regs : ℕ → Value) (slots : ℕ → Option ℕ) → IsThinning h s regs slots → IsThinning s t regs slots → IsThinning h t regs slots }
{}

/// An access that a thinning can do does the same there as in the heap, and leaves a thinning of what it leaves of the heap.
pub fn access_in_a_thinning()
    ensures { (full thin : State) (a : Access) → IsThinned full thin → CanDo thin.heap thin.regs a → Agrees full thin a }
{}

/// A thinning has the kept objects of the heap.
pub fn kept_of_a_thinning()
    ensures roots { (h s : Heap) (regs : ℕ → Value) (slots : ℕ → Option ℕ) (root : ℕ → Bool) → IsThinning h s regs slots → IsBounded h → ((n : ℕ) → root n ≡ true → Has s n) → kept s root ≡ kept h root }
    ensures no_roots { (h s : Heap) (regs : ℕ → Value) (slots : ℕ → Option ℕ) → IsThinning h s regs slots → IsBounded h → kept s no_roots ≡ kept h no_roots }
{}

/// What is kept is kept again.
pub fn kept_is_kept()
    ensures { (h : Heap) (root : ℕ → Bool) → IsBounded h → kept (kept h root) root ≡ kept h root }
{}

/// Known objects and roots are kept, nothing new is, and what a kept object holds is kept.
pub fn known_stay()
    ensures known { (h : Heap) (root : ℕ → Bool) (n : ℕ) → is_known n ≡ true → Has h n → Has (kept h root) n }
    ensures roots { (h : Heap) (root : ℕ → Bool) (n : ℕ) → root n ≡ true → Has h n → Has (kept h root) n }
    ensures of_the_heap { (h : Heap) (root : ℕ → Bool) (n : ℕ) (o : Object) → (kept h root).at n ≡ Some o → h.at n ≡ Some o }
    ensures closed { (h : Heap) (root : ℕ → Bool) → IsBounded h → IsClosed h → IsClosed (kept h root) }
{}

/// Two objects change places under their names, with class and body; every other name keeps its own, and one name twice changes nothing.
pub fn a_swap_exchanges()
    ensures first { (h : Heap) (n k : ℕ) (o p : Object) → h.at n ≡ Some o → h.at k ≡ Some p → (swap_objects h n k).at n ≡ Some p }
    ensures second { (h : Heap) (n k : ℕ) (o p : Object) → h.at n ≡ Some o → h.at k ≡ Some p → (swap_objects h n k).at k ≡ Some o }
    ensures others { (h : Heap) (n k q : ℕ) → (q ≡ n → ⊥) → (q ≡ k → ⊥) → (swap_objects h n k).at q ≡ h.at q }
    ensures same { (h : Heap) (n : ℕ) → swap_objects h n n ≡ h }
{}
