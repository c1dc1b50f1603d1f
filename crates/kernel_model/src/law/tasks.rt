//! The bands, the limits and the ageing of the tasks.

ghost use Rattle.kern_ids.specs.declared.calls.Limit.{Limit};
ghost use Rattle.kern_ids.specs.declared.entries.Entry.{Entry};
ghost use Rattle.kernel_model.specs.Bands.{active, active_call, band, bstamp, counts_for_ageing, differs, due, is_tick_call, limits, limits_call, of_task, placing, restarts, says_placing, sets_active, sets_band, ticks, wish};
ghost use Rattle.kernel_model.specs.Events.{accepted};
ghost use Rattle.kernel_model.specs.Laws.Kinds.{active_entry, band_entry, limits_entry, runs_for, tick_entry};
ghost use Rattle.kernel_model.specs.Mapping.{live, next_live};
ghost use Rattle.kernel_model.specs.System.{System};
ghost use Rattle.std.specs.Option.{option_map_or, unwrap_or};
ghost use Rattle.std.specs.Prelude.{Bool, List, None, cond, false, if◌then◌else◌, length, nat_eq, nat_le, not, position, suc, true, ℕ, ◌&&◌, ◌+◌, ◌∷◌, ◌≡◌};

/// The band that a task wishes, after one entry more.
pub fn wish_more()
    ensures one_more { (boot : System) (e : Entry) (before : List Entry) (t : ℕ) → wish boot (e ∷ before) t ≡ unwrap_or (sets_band t e) (wish boot before t) }
    ensures kept { (boot : System) (e : Entry) (before : List Entry) (t : ℕ) → sets_band t e ≡ None → wish boot (e ∷ before) t ≡ wish boot before t }
    ensures set { (boot : System) (who x band : ℕ) (before : List Entry) (t : ℕ) → wish boot (band_entry who x band ∷ before) t ≡ (if nat_eq t x then band else wish boot before t) }
{}

/// Whether a task is active, after one entry more.
pub fn active_more()
    ensures one_more { (boot : System) (e : Entry) (before : List Entry) (t : ℕ) → active boot (e ∷ before) t ≡ unwrap_or (sets_active boot t e) (active boot before t) }
    ensures kept { (boot : System) (e : Entry) (before : List Entry) (t : ℕ) → sets_active boot t e ≡ None → active boot (e ∷ before) t ≡ active boot before t }
    ensures set { (boot : System) (who : ℕ) (on was : Bool) (before : List Entry) (t : ℕ) → active boot (active_entry who on was ∷ before) t ≡ (if runs_for boot t who then on else active boot before t) }
    ensures others { (boot : System) (e : Entry) (t : ℕ) → active_call e.call ≡ None → sets_active boot t e ≡ None }
{}

/// The limits of a task after one entry more.
pub fn limits_more()
    ensures one_more { (boot : System) (e : Entry) (before : List Entry) (t : ℕ) → limits boot (e ∷ before) t ≡ unwrap_or (if accepted e then limits_call t e.call else None) (limits boot before t) }
    ensures kept { (boot : System) (e : Entry) (before : List Entry) (t : ℕ) → (if accepted e then limits_call t e.call else None) ≡ None → limits boot (e ∷ before) t ≡ limits boot before t }
    ensures set { (boot : System) (who x : ℕ) (a i : Limit) (before : List Entry) (t : ℕ) → limits boot (limits_entry who x a i ∷ before) t ≡ (if nat_eq t x then record { when_active = a; when_inactive = i } else limits boot before t) }
{}

/// How a task was placed in its band, after one entry more.
pub fn placing_more()
    ensures one_more { (boot : System) (e : Entry) (before : List Entry) (t : ℕ) → placing boot (e ∷ before) t ≡ unwrap_or (says_placing boot t before (placing boot before t) e) (placing boot before t) }
    ensures kept { (boot : System) (e : Entry) (before : List Entry) (t : ℕ) → says_placing boot t before (placing boot before t) e ≡ None → placing boot (e ∷ before) t ≡ placing boot before t }
    ensures band { (boot : System) (who x band : ℕ) (before : List Entry) (t : ℕ) → placing boot (band_entry who x band ∷ before) t ≡ (if nat_eq t x then record { aged = false; bstamp = (suc (length before), 0) } else placing boot before t) }
    ensures active { (boot : System) (who : ℕ) (on was : Bool) (before : List Entry) (t : ℕ) → placing boot (active_entry who on was ∷ before) t ≡ (if (runs_for boot t who && differs (active boot before t) on) && nat_eq (wish boot before t) 0 then record { aged = false; bstamp = (suc (length before), 0) } else placing boot before t) }
    ensures tick { (boot : System) (who : ℕ) (aged : List ℕ) (before : List Entry) (t : ℕ) → placing boot (tick_entry who aged ∷ before) t ≡ option_map_or (λ i. record { aged = true; bstamp = (suc (length before), i) }) (position (nat_eq t) aged) (placing boot before t) }
    ensures band_kept { (boot : System) (e : Entry) (before : List Entry) (t : ℕ) → placing boot (e ∷ before) t ≡ placing boot before t → wish boot (e ∷ before) t ≡ wish boot before t → band boot (e ∷ before) t ≡ band boot before t }
{}

/// The band of a task and its stamp there, after one entry more.
pub fn band_more()
    ensures is { (boot : System) (past : List Entry) (t : ℕ) → band boot past t ≡ (if (placing boot past t).aged then 0 else if nat_eq (wish boot past t) 0 then of_task (λ task. task.ageing) boot t 0 else wish boot past t) }
    ensures one_more { (boot : System) (e : Entry) (before : List Entry) (t : ℕ) → band boot (e ∷ before) t ≡ (if (unwrap_or (says_placing boot t before (placing boot before t) e) (placing boot before t)).aged then 0 else if nat_eq (unwrap_or (sets_band t e) (wish boot before t)) 0 then of_task (λ task. task.ageing) boot t 0 else unwrap_or (sets_band t e) (wish boot before t)) }
    ensures stamp { (boot : System) (e : Entry) (before : List Entry) (t : ℕ) → bstamp boot (e ∷ before) t ≡ (unwrap_or (says_placing boot t before (placing boot before t) e) (placing boot before t)).bstamp }
{}

/// Which tasks count for ageing, and which are due, after one entry more.
pub fn ageing_more()
    ensures is { (boot : System) (past : List Entry) (t : ℕ) → counts_for_ageing boot past t ≡ (live boot past t && not (active boot past t) && nat_eq (wish boot past t) 0 && nat_eq (band boot past t) (of_task (λ task. task.ageing) boot t 0)) }
    ensures one_more { (boot : System) (e : Entry) (before : List Entry) (t : ℕ) → counts_for_ageing boot (e ∷ before) t ≡ (next_live boot t (live boot before t) e && not (unwrap_or (sets_active boot t e) (active boot before t)) && nat_eq (unwrap_or (sets_band t e) (wish boot before t)) 0 && nat_eq (band boot (e ∷ before) t) (of_task (λ task. task.ageing) boot t 0)) }
    ensures due { (boot : System) (past : List Entry) (t : ℕ) → due boot past t ≡ (counts_for_ageing boot past t && nat_le (of_task (λ task. task.delay) boot t 0) (ticks boot past t + 1)) }
{}

/// The Ticks that count for the ageing of a task, after one entry more.
pub fn ticks_more()
    ensures one_more { (boot : System) (e : Entry) (before : List Entry) (t : ℕ) → ticks boot (e ∷ before) t ≡ (if restarts boot t before e then 0 else cond (is_tick_call e.call) 1 0 + ticks boot before t) }
    ensures kept { (boot : System) (e : Entry) (before : List Entry) (t : ℕ) → restarts boot t before e ≡ false → is_tick_call e.call ≡ false → ticks boot (e ∷ before) t ≡ ticks boot before t }
    ensures tick { (boot : System) (who : ℕ) (aged : List ℕ) (before : List Entry) (t : ℕ) → ticks boot (tick_entry who aged ∷ before) t ≡ ticks boot before t + 1 }
    ensures band { (boot : System) (who x band : ℕ) (before : List Entry) (t : ℕ) → ticks boot (band_entry who x band ∷ before) t ≡ (if nat_eq t x && nat_eq 0 band then 0 else ticks boot before t) }
    ensures active { (boot : System) (who : ℕ) (on was : Bool) (before : List Entry) (t : ℕ) → ticks boot (active_entry who on was ∷ before) t ≡ (if runs_for boot t who && not on && active boot before t then 0 else ticks boot before t) }
    ensures counting_kept { (boot : System) (e : Entry) (before : List Entry) (t : ℕ) → live boot (e ∷ before) t ≡ live boot before t → active boot (e ∷ before) t ≡ active boot before t → wish boot (e ∷ before) t ≡ wish boot before t → band boot (e ∷ before) t ≡ band boot before t → counts_for_ageing boot (e ∷ before) t ≡ counts_for_ageing boot before t }
{}
