//! Where the volatile objects are.

ghost use Rattle.kern_ids.specs.StateWord.{decoded};
ghost use Rattle.kern_ids.specs.declared.calls.Queue.{Queue};
ghost use Rattle.kern_ids.specs.declared.calls.State.{State};
ghost use Rattle.kern_ids.specs.declared.calls.Wish.{Wish};
ghost use Rattle.kern_ids.specs.declared.entries.Entry.{Entry};
ghost use Rattle.kernel_model.specs.Groups.{first, is_volatile_state, says_standing, standing, standing_asked, stands_in, volatile};
ghost use Rattle.kernel_model.specs.Laws.Kinds.{set_entry};
ghost use Rattle.kernel_model.specs.Mapping.{mapped};
ghost use Rattle.kernel_model.specs.State.{next_state, state};
ghost use Rattle.kernel_model.specs.System.{System};
ghost use Rattle.std.specs.Option.{unwrap_or};
ghost use Rattle.std.specs.Prelude.{List, None, Some, if◌then◌else◌, length, nat_eq, ℕ, ◌&&◌, ◌∷◌, ◌≡◌};

/// The queue, the group and the stamp of an object after one entry more.
pub fn standing_more()
    ensures one_more { (e : Entry) (before : List Entry) (o : ℕ) → standing (e ∷ before) o ≡ unwrap_or (says_standing o before (standing before o) e) (standing before o) }
    ensures kept { (e : Entry) (before : List Entry) (o : ℕ) → says_standing o before (standing before o) e ≡ None → standing (e ∷ before) o ≡ standing before o }
    ensures set { (who x word : ℕ) (old : State) (wish : Wish) (before : List Entry) (o : ℕ) → decoded word ≡ Some wish → standing (set_entry who x word old ∷ before) o ≡ (if nat_eq x o then unwrap_or (standing_asked (length before) wish) (standing before o) else standing before o) }
{}

/// Whether an object is volatile after one entry more: mapped, and VOLATILE.
pub fn volatile_more()
    ensures is { (boot : System) (past : List Entry) (o : ℕ) → volatile boot past o ≡ (mapped boot past o && is_volatile_state (state past o)) }
    ensures one_more { (boot : System) (e : Entry) (before : List Entry) (o : ℕ) → volatile boot (e ∷ before) o ≡ (mapped boot (e ∷ before) o && is_volatile_state (next_state o (state before o) e)) }
{}

/// Which objects are volatile, and which is first in a group, where nothing of it changed.
pub fn groups_kept()
    ensures volatile { (boot : System) (e : Entry) (before : List Entry) (o : ℕ) → mapped boot (e ∷ before) o ≡ mapped boot before o → state (e ∷ before) o ≡ state before o → volatile boot (e ∷ before) o ≡ volatile boot before o }
    ensures stands_in { (boot : System) (e : Entry) (before : List Entry) (q : Queue) (g o : ℕ) → volatile boot (e ∷ before) o ≡ volatile boot before o → standing (e ∷ before) o ≡ standing before o → stands_in boot (e ∷ before) q g o ≡ stands_in boot before q g o }
    ensures first { (boot : System) (e : Entry) (before : List Entry) (q : Queue) (g : ℕ) → ((o : ℕ) → stands_in boot (e ∷ before) q g o ≡ stands_in boot before q g o) → ((o : ℕ) → standing (e ∷ before) o ≡ standing before o) → first boot (e ∷ before) q g ≡ first boot before q g }
{}
