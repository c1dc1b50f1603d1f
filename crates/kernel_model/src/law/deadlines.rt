//! The deadlines of the three queues.

ghost use Rattle.kern_ids.specs.StateWord.{decoded};
ghost use Rattle.kern_ids.specs.declared.calls.Queue.{Queue};
ghost use Rattle.kern_ids.specs.declared.calls.State.{State};
ghost use Rattle.kern_ids.specs.declared.calls.Wish.{Wish};
ghost use Rattle.kern_ids.specs.declared.entries.Entry.{Entry};
ghost use Rattle.kernel_model.specs.Deadlines.{after_ripe, after_set, after_unmappings, changed, deadlines, ripe_of, ripe_queue, set_by, without_first};
ghost use Rattle.kernel_model.specs.Events.{accepted, purged_by};
ghost use Rattle.kernel_model.specs.Groups.{standing};
ghost use Rattle.kernel_model.specs.Laws.Kinds.{forced_entry, purge_entry, scan_purge_entry, set_entry};
ghost use Rattle.kernel_model.specs.Mapping.{unmaps};
ghost use Rattle.kernel_model.specs.Pages.{left};
ghost use Rattle.kernel_model.specs.State.{state};
ghost use Rattle.kernel_model.specs.System.{System};
ghost use Rattle.std.specs.Prelude.{List, None, Some, false, if◌then◌else◌, ℕ, ◌∷◌, ◌≡◌};

/// The lists of deadlines after one entry more.
pub fn deadlines_more()
    ensures one_more { (boot : System) (e : Entry) (before : List Entry) → deadlines boot (e ∷ before) ≡ changed boot before e (deadlines boot before) }
    ensures kept { (boot : System) (e : Entry) (before : List Entry) → (if accepted e then Rattle.kernel_model.specs.Deadlines.set_by e.call else None) ≡ None → Rattle.kernel_model.specs.Events.purged_by e.reply ≡ None → ((o : ℕ) → unmaps boot before e o ≡ false) → deadlines boot (e ∷ before) ≡ deadlines boot before }
{}

/// Which queue is ripe after one entry more.
pub fn ripe_more()
    ensures one_more { (boot : System) (e : Entry) (before : List Entry) → ripe_queue boot (e ∷ before) ≡ ripe_of (left boot (e ∷ before)) (changed boot before e (deadlines boot before)) }
{}

/// The lists of deadlines after an accepted SetState, a purge of each kind, and an unmapping.
pub fn deadlines_by_kind()
    ensures set { (boot : System) (who x word : ℕ) (old : State) (wish : Wish) (before : List Entry) → decoded word ≡ Some wish → deadlines boot (set_entry who x word old ∷ before) ≡ after_set boot before x (state before x) wish (deadlines boot before) }
    ensures forced { (boot : System) (who x : ℕ) (before : List Entry) → deadlines boot (forced_entry who x ∷ before) ≡ without_first (standing before x).queue (deadlines boot before) }
    ensures purge { (boot : System) (who x : ℕ) (r : Queue) (before : List Entry) → ripe_queue boot before ≡ Some r → deadlines boot (purge_entry who x ∷ before) ≡ after_ripe (left boot before) r (standing before x).queue (deadlines boot before) }
    ensures scan_purge { (boot : System) (who x : ℕ) (r : Queue) (before : List Entry) → ripe_queue boot before ≡ Some r → deadlines boot (scan_purge_entry who x ∷ before) ≡ after_ripe (left boot before) r (standing before x).queue (deadlines boot before) }
    ensures unmapped { (boot : System) (e : Entry) (before : List Entry) → (if accepted e then set_by e.call else None) ≡ None → purged_by e.reply ≡ None → deadlines boot (e ∷ before) ≡ after_unmappings boot before e (deadlines boot before) }
{}
