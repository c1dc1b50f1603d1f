//! Life, and which tasks map an object.

ghost use Rattle.kern_ids.specs.declared.entries.Entry.{Entry};
ghost use Rattle.kern_ids.specs.declared.replies.Cause.{Cause};
ghost use Rattle.kernel_model.specs.Events.{is_end, is_unmap};
ghost use Rattle.kernel_model.specs.Laws.Kinds.{attach_entry, exit_entry, killed_entry, map_entry, runs_for, unmap_entry};
ghost use Rattle.kernel_model.specs.Mapping.{live, mapped, maps, next_live, next_said, owner, said_maps, says_maps, tasks_of, unmaps};
ghost use Rattle.kernel_model.specs.System.{System};
ghost use Rattle.std.specs.List.{list_any};
ghost use Rattle.std.specs.Prelude.{List, None, [], false, find, nat_eq, not, true, ℕ, ◌&&◌, ◌||◌, ◌∷◌, ◌≡◌};

/// A task is live after an entry if it was before and the entry is no end of it. All begin live; an Exit ends
/// the tasks of its thread, a kill the task that it names.
pub fn life_more()
    ensures none { (boot : System) (t : ℕ) → live boot [] t ≡ true }
    ensures one_more { (boot : System) (e : Entry) (before : List Entry) (t : ℕ) → live boot (e ∷ before) t ≡ next_live boot t (live boot before t) e }
    ensures exit { (boot : System) (who : ℕ) (before : List Entry) (t : ℕ) → live boot (exit_entry who ∷ before) t ≡ (not (runs_for boot t who) && live boot before t) }
    ensures killed { (boot : System) (who u : ℕ) (cause : Cause) (before : List Entry) (t : ℕ) → live boot (killed_entry who u cause ∷ before) t ≡ (not (nat_eq t u) && live boot before t) }
    ensures kept { (boot : System) (e : Entry) (before : List Entry) (t : ℕ) → is_end boot t e ≡ false → live boot (e ∷ before) t ≡ live boot before t }
{}

/// Which tasks map an object after an entry, who owns it, and whether it is mapped.
pub fn maps_more()
    ensures none { (boot : System) (o t : ℕ) → said_maps boot [] o t ≡ false }
    ensures said { (boot : System) (e : Entry) (before : List Entry) (o t : ℕ) → said_maps boot (e ∷ before) o t ≡ next_said boot o t (said_maps boot before o t) e }
    ensures one_more { (boot : System) (e : Entry) (before : List Entry) (o t : ℕ) → maps boot (e ∷ before) o t ≡ (live boot (e ∷ before) t && next_said boot o t (maps boot before o t) e) }
    ensures owner { (boot : System) (past : List Entry) (o : ℕ) → owner boot past o ≡ find (maps boot past o) (tasks_of boot) }
    ensures mapped { (boot : System) (past : List Entry) (o : ℕ) → mapped boot past o ≡ list_any (maps boot past o) (tasks_of boot) }
    ensures kept { (boot : System) (e : Entry) (before : List Entry) (o t : ℕ) → is_end boot t e ≡ false → says_maps boot o t [] true e ≡ None → maps boot (e ∷ before) o t ≡ maps boot before o t }
    ensures owner_kept { (boot : System) (e : Entry) (before : List Entry) (o : ℕ) → ((t : ℕ) → maps boot (e ∷ before) o t ≡ maps boot before o t) → owner boot (e ∷ before) o ≡ owner boot before o }
    ensures mapped_kept { (boot : System) (e : Entry) (before : List Entry) (o : ℕ) → ((t : ℕ) → maps boot (e ∷ before) o t ≡ maps boot before o t) → mapped boot (e ∷ before) o ≡ mapped boot before o }
{}

/// Which tasks map an object after a Map, an Attach, an Unmap, an Exit and a kill.
pub fn maps_by_kind()
    ensures map { (boot : System) (who x : ℕ) (before : List Entry) (o t : ℕ) → (runs_for boot t who ≡ true → live boot before t ≡ true) → maps boot (map_entry who x ∷ before) o t ≡ ((nat_eq x o && runs_for boot t who) || maps boot before o t) }
    ensures attach { (boot : System) (who x : ℕ) (before : List Entry) (o t : ℕ) → (runs_for boot t who ≡ true → live boot before t ≡ true) → maps boot (attach_entry who x ∷ before) o t ≡ ((nat_eq x o && runs_for boot t who) || maps boot before o t) }
    ensures unmap { (boot : System) (who x : ℕ) (before : List Entry) (o t : ℕ) → maps boot (unmap_entry who x ∷ before) o t ≡ (not (nat_eq x o && runs_for boot t who) && maps boot before o t) }
    ensures exit { (boot : System) (who : ℕ) (before : List Entry) (o t : ℕ) → maps boot (exit_entry who ∷ before) o t ≡ (not (runs_for boot t who) && maps boot before o t) }
    ensures killed { (boot : System) (who u : ℕ) (cause : Cause) (before : List Entry) (o t : ℕ) → maps boot (killed_entry who u cause ∷ before) o t ≡ (not (nat_eq t u) && maps boot before o t) }
{}

/// An entry unmaps what is mapped before it and not after it; one that ends no task and is no Unmap of it doesn't.
pub fn unmaps_more()
    ensures is { (boot : System) (e : Entry) (before : List Entry) (o : ℕ) → unmaps boot before e o ≡ (mapped boot before o && not (mapped boot (e ∷ before) o)) }
    ensures none { (boot : System) (e : Entry) (before : List Entry) (o : ℕ) → ((t : ℕ) → is_end boot t e ≡ false) → is_unmap o e ≡ false → unmaps boot before e o ≡ false }
    ensures kept { (boot : System) (e : Entry) (before : List Entry) (o : ℕ) → mapped boot (e ∷ before) o ≡ mapped boot before o → unmaps boot before e o ≡ false }
{}
