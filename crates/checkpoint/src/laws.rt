//! Laws of what stands in a vault, of what a stop may leave of it, and of what one in memory needs. No code calls these functions: what each of
//! them ensures is the law.
ghost use Rattle.std.specs.Prelude.{◌≡◌, ◌≢◌, ◌+◌, ◌*◌, ◌≤◌, ◌<◌, ℕ, Bool, List, Option, None, Some, [], true, false, IsTrue, Result, OnOk, IsOk, IfOk, length, slice_index};
ghost use Rattle.loom_host.specs.declared.outside.Failed.{Failed};
ghost use Rattle.checkpoint.specs.History.{AnyImage, IsItsImage, Keeps, serial_in};
ghost use Rattle.checkpoint.specs.Keeping.{HasEither, IsLast, serial_of};
ghost use Rattle.checkpoint.specs.Layout.{area_in, bad_place, found, image_place, is_bad, is_open, point_of};
ghost use Rattle.checkpoint.specs.Memory.{HasRoom, fuse_of};
ghost use Rattle.checkpoint.specs.Vault.{Extends, IsEmpty, IsOpened, MayLeave, Throughout, VaultState, contents_of, moment, unsynced_of};
ghost use Rattle.checkpoint.specs.declared.point.Point.{Point};
ghost use Rattle.checkpoint.specs.declared.layout.Gate.{Gate};
ghost use Rattle.checkpoint.specs.declared.layout.TheConstants.{AREAS_AT, GATE_BYTES, GATE_GAP};

use crate::memory::MemoryVault;
use crate::vault::Vault;
use loom_host::Failed;
use std::alloc::AllocError;

/// A gate whose byte isn't 1 is closed, whatever serial and length stand behind it, and so is one whose serial is 0. A closed gate says no
/// point, and isn't bad.
pub fn closed_gates()
    ensures byte { (gate : Gate) → gate.byte ≢ 1 → is_open gate ≡ false }
    ensures serial { (gate : Gate) → gate.serial ≡ 0 → is_open gate ≡ false }
    ensures point { (gate : Gate) → is_open gate ≡ false → point_of gate ≡ None }
    ensures whole { (s : ℕ) (gate : Gate) → is_open gate ≡ false → is_bad s gate ≡ false }
{}

/// Which checkpoint is found, and which gate is bad, is what the bytes of the two gates say, and no other byte has a part in it.
pub fn gates_alone_tell()
    ensures found { (v w : List ℕ) → ((s k : ℕ) → s < 2 → k < GATE_BYTES → slice_index v (GATE_GAP * s + k) ≡ slice_index w (GATE_GAP * s + k)) → found v ≡ found w }
    ensures bad { (v w : List ℕ) → ((s k : ℕ) → s < 2 → k < GATE_BYTES → slice_index v (GATE_GAP * s + k) ≡ slice_index w (GATE_GAP * s + k)) → bad_place v ≡ bad_place w }
{}

/// An image is what stands at its own places. They lie behind the gates, and no place is one of two areas, or of two bytes.
pub fn images_lie_apart()
    ensures image { (v w : List ℕ) (s n : ℕ) → ((j : ℕ) → j < n → slice_index v (image_place s j) ≡ slice_index w (image_place s j)) → area_in v s n ≡ area_in w s n }
    ensures behind { (s j : ℕ) → AREAS_AT ≤ image_place s j }
    ensures apart { (s t j k : ℕ) → s < 2 → t < 2 → image_place s j ≡ image_place t k → (s ≡ t) × (j ≡ k) }
{}

/// Where all is synced, a stop leaves what a read gives. A fresh opening that answered Ok leaves nothing, and nothing that a stop could bring
/// back.
pub fn synced_bytes_outlive()
    ensures synced { (s : VaultState) (bytes : List ℕ) → unsynced_of s ≡ [] → MayLeave s bytes → (i : ℕ) → slice_index bytes i ≡ slice_index (contents_of s) i }
    ensures fresh { (text : List ℕ) (result : Result (Unit {0}) Failed) (old new : VaultState) → IsOpened true text result old new → OnOk result (IsEmpty new) }
{}

/// A vault goes on with what it kept as each call of `keep` says: where its checkpoint is the last one, that counts as answered; a call that
/// answered its point keeps that one on, and one that was refused keeps the last one. The images are those of the calls, where they are told.
pub fn each_keep_goes_on_with_what_was_kept()
    ensures begins { (told : Bool) (image : ℕ → List ℕ) (s : VaultState) (last : Option Point) → IsLast s last
        → Keeps s s (serial_of last) (IsItsImage told image) }
    ensures answered { (told : Bool) (image : ℕ → List ℕ) (old mid new : VaultState) (last : Option Point) (point : Point)
        → Keeps old mid (serial_of last) (IsItsImage told image) → IsLast mid last → Extends mid new
        → Throughout mid new (HasEither (contents_of mid) (serial_of last + 1) (IsItsImage told image (serial_of last + 1)))
        → IsLast new (Some point) → point.serial ≡ serial_of last + 1 → Keeps old new point.serial (IsItsImage told image) }
    ensures refused { (told : Bool) (image : ℕ → List ℕ) (old mid new : VaultState) (last : Option Point)
        → Keeps old mid (serial_of last) (IsItsImage told image) → IsLast mid last → Extends mid new
        → Throughout mid new (HasEither (contents_of mid) (serial_of last + 1) (IsItsImage told image (serial_of last + 1)))
        → Keeps old new (serial_of last) (IsItsImage told image) }
{}

/// No stop leaves an earlier checkpoint than the one that was answered last by then. A stop may leave the checkpoint before that which an earlier
/// stop leaves, since the latter may not have been answered yet, and no older one; where one was answered between the two stops, not even that.
pub fn no_stop_loses_an_answered_checkpoint()
    ensures answered { (old new : VaultState) (last : ℕ) (kept : Keeps old new last AnyImage) (j k : ℕ) → length old.calls ≤ k → j ≤ k
        → (w : List ℕ) → MayLeave (moment k new) w → kept.answered j ≤ serial_in w }
    ensures later { (old new : VaultState) (last : ℕ) → Keeps old new last AnyImage → (j k : ℕ) → length old.calls ≤ j → j ≤ k
        → (v w : List ℕ) → MayLeave (moment j new) v → MayLeave (moment k new) w → serial_in v ≤ serial_in w + 1 }
    ensures between { (old new : VaultState) (last : ℕ) (kept : Keeps old new last AnyImage) (j k : ℕ) → length old.calls ≤ j → j ≤ k
        → kept.answered j < kept.answered k → (v w : List ℕ) → MayLeave (moment j new) v → MayLeave (moment k new) w → serial_in v ≤ serial_in w }
{}

/// Where there is room for an opening, a write and a sync, and no fuse is set, they go through.
pub fn calls_within_room_go_through(
    vault: &mut MemoryVault,
    name: &str,
    place: u64,
    piece: &[u8],
) -> Result<(), Failed>
    requires room { HasRoom (length name.now) 3 (length piece.now) (place + length piece.now) vault.old }
    requires fuse { fuse_of vault.old ≡ None }
    ensures { IsOk result }
{
    vault.open_named(name, true)?;
    vault.write_at(place, piece)?;
    vault.sync()
}

/// Once `reserve` answered Ok there is room for what it took. It answers whether the calls went through.
pub fn reserved_calls_go_through(
    vault: &mut MemoryVault,
    name: &str,
    place: u64,
    piece: &[u8],
) -> Result<bool, AllocError>
    requires { fuse_of vault.old ≡ None }
    ensures { IfOk result (λ passed. passed ≡ true) }
{
    let Some(end) = place.checked_add(piece.len() as u64) else {
        return Err(AllocError);
    };
    vault.reserve(name.len(), 3, piece.len(), end)?;
    Ok(calls_within_room_go_through(vault, name, place, piece).is_ok())
}
