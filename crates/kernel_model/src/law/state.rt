//! The state of an object.

ghost use Rattle.kern_ids.specs.StateWord.{decoded};
ghost use Rattle.kern_ids.specs.declared.calls.State.{State};
ghost use Rattle.kern_ids.specs.declared.calls.State.TheVariants.{Empty, Nonvolatile};
ghost use Rattle.kern_ids.specs.declared.calls.Wish.{Wish};
ghost use Rattle.kern_ids.specs.declared.entries.Entry.{Entry};
ghost use Rattle.kernel_model.specs.Events.{asked, is_map, is_purge, purged_by};
ghost use Rattle.kernel_model.specs.Laws.Kinds.{map_entry, set_entry};
ghost use Rattle.kernel_model.specs.State.{next_state, state, state_asked};
ghost use Rattle.std.specs.Prelude.{List, None, Some, [], false, if◌then◌else◌, nat_eq, ℕ, ◌∷◌, ◌≡◌};

/// The state after one entry more.
pub fn state_more()
    ensures none { (o : ℕ) → state [] o ≡ Rattle.kern_ids.specs.declared.calls.State.TheVariants.Nonvolatile }
    ensures one_more { (e : Entry) (before : List Entry) (o : ℕ) → state (e ∷ before) o ≡ next_state o (state before o) e }
    ensures kept { (e : Entry) (before : List Entry) (o : ℕ) → is_map o e ≡ false → is_purge o e ≡ false → asked o e ≡ None → state (e ∷ before) o ≡ state before o }
{}

/// The state after a Map, an accepted SetState and a purge.
pub fn state_by_kind()
    ensures map { (who x : ℕ) (before : List Entry) (o : ℕ) → state (map_entry who x ∷ before) o ≡ (if nat_eq x o then Nonvolatile else state before o) }
    ensures set { (who x word : ℕ) (old : State) (wish : Wish) (before : List Entry) (o : ℕ) → decoded word ≡ Some wish → state (set_entry who x word old ∷ before) o ≡ (if nat_eq x o then state_asked (state before o) wish else state before o) }
    ensures purge { (e : Entry) (x : ℕ) (before : List Entry) (o : ℕ) → is_map o e ≡ false → purged_by e.reply ≡ Some x → asked o e ≡ None → state (e ∷ before) o ≡ (if nat_eq o x then Empty else state before o) }
{}
