//! The numbers of pages.

ghost use Rattle.kern_ids.specs.declared.calls.State.{State};
ghost use Rattle.kern_ids.specs.declared.entries.Entry.{Entry};
ghost use Rattle.kern_ids.specs.declared.ids.PageId.{PageId};
ghost use Rattle.kern_ids.specs.declared.replies.Move.TheVariants.{Deactivated};
ghost use Rattle.kernel_model.specs.Counted.{count_of, counts, is_nonvolatile_state};
ghost use Rattle.kernel_model.specs.Groups.{is_volatile_state};
ghost use Rattle.kernel_model.specs.Laws.Frames.{bit, has_share, is_in, is_page, pages_at, share_of};
ghost use Rattle.kernel_model.specs.Laws.Kinds.{moved_entry};
ghost use Rattle.kernel_model.specs.Laws.Order.{Has};
ghost use Rattle.kernel_model.specs.Mapping.{owner};
ghost use Rattle.kernel_model.specs.Pages.{active_pages, entered, free, inactive_pages, is_deactivation, is_stored, left, next_entered, pages_in, pages_of, place, placed, same_page};
ghost use Rattle.kernel_model.specs.State.{state};
ghost use Rattle.kernel_model.specs.System.{System};
ghost use Rattle.kernel_model.specs.declared.place.Place.{Place};
ghost use Rattle.kernel_model.specs.declared.place.Place.TheVariants.{Absent};
ghost use Rattle.std.specs.List.{range_with_len};
ghost use Rattle.std.specs.Prelude.{Bool, List, [], count_by, false, length, nat_eq, sum_by, true, ℕ, ◌&&◌, ◌+◌, ◌-◌, ◌<◌, ◌∷◌, ◌≡◌, ◌≤◌};

/// How many pages were deactivated, after one entry more.
pub fn entered_more()
    ensures none { entered [] ≡ 0 }
    ensures one_more { (e : Entry) (before : List Entry) → entered (e ∷ before) ≡ next_entered (entered before) e }
    ensures kept { (e : Entry) (before : List Entry) → is_deactivation e.reply ≡ false → entered (e ∷ before) ≡ entered before }
    ensures deactivated { (who : ℕ) (p : PageId) (before : List Entry) → entered (moved_entry who Deactivated p ∷ before) ≡ entered before + 1 }
    ensures at_most { (past : List Entry) → entered past ≤ length past }
{}

/// The free frames, and the pages that left.
pub fn frames_are()
    ensures free { (boot : System) (past : List Entry) → free boot past ≡ boot.params.frames - (active_pages boot past + inactive_pages boot past) }
    ensures left { (boot : System) (past : List Entry) → left boot past ≡ entered past - inactive_pages boot past }
    ensures free_kept { (boot : System) (e : Entry) (before : List Entry) (places : (p : PageId) → placed boot (e ∷ before) p ≡ placed boot before p) → free boot (e ∷ before) ≡ free boot before }
    ensures left_kept { (boot : System) (e : Entry) (before : List Entry) (places : (p : PageId) → placed boot (e ∷ before) p ≡ placed boot before p) → entered (e ∷ before) ≡ entered before → left boot (e ∷ before) ≡ left boot before }
{}

/// How many pages are in a place after an entry that changes the place of one page, or of one object's pages.
pub fn pages_more()
    ensures once { (boot : System) (p : PageId) → is_page boot p ≡ true → count_by (same_page p) (pages_of boot) ≡ 1 }
    ensures by_objects { (boot : System) (f : PageId → Bool) → count_by f (pages_of boot) ≡ sum_by (λ o. count_by (λ k. f (record { obj = o; page = k })) (range_with_len 0 (pages_in boot o))) (range_with_len 0 (length boot.objects)) }
    ensures page { (boot : System) (e : Entry) (before : List Entry) (p : PageId) (k : Place → Bool) → is_page boot p ≡ true → ((q : PageId) → same_page p q ≡ false → placed boot (e ∷ before) q ≡ placed boot before q) → count_by (λ q. k (place boot (e ∷ before) q)) (pages_of boot) + bit (k (place boot before p)) ≡ count_by (λ q. k (place boot before q)) (pages_of boot) + bit (k (place boot (e ∷ before) p)) }
    ensures object { (boot : System) (e : Entry) (before : List Entry) (o : ℕ) (k : Place → Bool) → o < length boot.objects → ((q : PageId) → nat_eq o q.obj ≡ false → placed boot (e ∷ before) q ≡ placed boot before q) → count_by (λ q. k (place boot (e ∷ before) q)) (pages_of boot) + pages_at boot before k o ≡ count_by (λ q. k (place boot before q)) (pages_of boot) + pages_at boot (e ∷ before) k o }
    ensures absent { (boot : System) (past : List Entry) (k : Place → Bool) (o : ℕ) → k Absent ≡ false → ((n : ℕ) → place boot past (record { obj = o; page = n }) ≡ Absent) → pages_at boot past k o ≡ 0 }
{}

/// The pages are those of the declared objects, below their sizes.
pub fn pages_are()
    ensures declared { (boot : System) (p : PageId) → is_page boot p ≡ true → Has (pages_of boot) p }
    ensures only { (boot : System) (p : PageId) → Has (pages_of boot) p → is_page boot p ≡ true }
{}

/// The pages of a task after an entry that changes one object, or the place of one page.
pub fn counts_more()
    ensures by_objects { (boot : System) (past : List Entry) (t : ℕ) (k : Place → Bool) (what : State → Bool) → count_of boot past t (λ p. k (place boot past p)) what ≡ sum_by (share_of boot past t k what) (range_with_len 0 (length boot.objects)) }
    ensures object { (boot : System) (e : Entry) (before : List Entry) (t : ℕ) (k : Place → Bool) (what : State → Bool) (o : ℕ) → o < length boot.objects → ((x : ℕ) → nat_eq o x ≡ false → share_of boot (e ∷ before) t k what x ≡ share_of boot before t k what x) → count_of boot (e ∷ before) t (λ p. k (place boot (e ∷ before) p)) what + share_of boot before t k what o ≡ count_of boot before t (λ p. k (place boot before p)) what + share_of boot (e ∷ before) t k what o }
    ensures page { (boot : System) (e : Entry) (before : List Entry) (t : ℕ) (k : Place → Bool) (what : State → Bool) (p : PageId) → is_page boot p ≡ true → ((o : ℕ) → owner boot (e ∷ before) o ≡ owner boot before o) → ((o : ℕ) → state (e ∷ before) o ≡ state before o) → ((q : PageId) → same_page p q ≡ false → placed boot (e ∷ before) q ≡ placed boot before q) → count_of boot (e ∷ before) t (λ q. k (place boot (e ∷ before) q)) what + bit (has_share boot before t what p.obj && k (place boot before p)) ≡ count_of boot before t (λ q. k (place boot before q)) what + bit (has_share boot before t what p.obj && k (place boot (e ∷ before) p)) }
    ensures share_kept { (boot : System) (e : Entry) (before : List Entry) (t : ℕ) (k : Place → Bool) (what : State → Bool) (o : ℕ) → owner boot (e ∷ before) o ≡ owner boot before o → state (e ∷ before) o ≡ state before o → ((n : ℕ) → place boot (e ∷ before) (record { obj = o; page = n }) ≡ place boot before (record { obj = o; page = n })) → share_of boot (e ∷ before) t k what o ≡ share_of boot before t k what o }
    ensures kept { (boot : System) (e : Entry) (before : List Entry) (places : (p : PageId) → placed boot (e ∷ before) p ≡ placed boot before p) → (t : ℕ) → ((o : ℕ) → owner boot (e ∷ before) o ≡ owner boot before o) → ((o : ℕ) → state (e ∷ before) o ≡ state before o) → counts boot (e ∷ before) t ≡ counts boot before t }
{}

/// The parts of the counts of a task.
pub fn counts_are()
    ensures res_non { (boot : System) (past : List Entry) (t : ℕ) → (counts boot past t).res_non ≡ count_of boot past t (λ p. is_in (place boot past p)) is_nonvolatile_state }
    ensures res_vol { (boot : System) (past : List Entry) (t : ℕ) → (counts boot past t).res_vol ≡ count_of boot past t (λ p. is_in (place boot past p)) is_volatile_state }
    ensures com_non { (boot : System) (past : List Entry) (t : ℕ) → (counts boot past t).com_non ≡ count_of boot past t (λ p. is_stored (place boot past p)) is_nonvolatile_state }
    ensures com_vol { (boot : System) (past : List Entry) (t : ℕ) → (counts boot past t).com_vol ≡ count_of boot past t (λ p. is_stored (place boot past p)) is_volatile_state }
    ensures footprint { (boot : System) (past : List Entry) (t : ℕ) → (counts boot past t).footprint ≡ (counts boot past t).res_non + (counts boot past t).com_non }
{}
