//! Where the pages are and since when, and which of them were touched or written.

ghost use Rattle.kern_ids.specs.declared.entries.Entry.{Entry};
ghost use Rattle.kern_ids.specs.declared.ids.PageId.{PageId};
ghost use Rattle.kern_ids.specs.declared.replies.Move.{Move};
ghost use Rattle.kernel_model.specs.Contents.{empties};
ghost use Rattle.kernel_model.specs.Events.{reaches_page};
ghost use Rattle.kernel_model.specs.Laws.Kinds.{moved_entry, write_entry};
ghost use Rattle.kernel_model.specs.Mapping.{unmaps};
ghost use Rattle.kernel_model.specs.Pages.{is_out, move_of, moved_to, next_placed, place, place_given, placed, same_page, says_touched, says_written, touched_since, touches, written};
ghost use Rattle.kernel_model.specs.State.{state};
ghost use Rattle.kernel_model.specs.System.{System};
ghost use Rattle.kernel_model.specs.declared.place.Place.TheVariants.{Absent, Active};
ghost use Rattle.std.specs.Option.{unwrap_or};
ghost use Rattle.std.specs.Prelude.{List, None, [], false, if◌then◌else◌, length, nat_eq, not, true, ℕ, ◌&&◌, ◌||◌, ◌∷◌, ◌≡◌};

/// The place of a page, and the entry that placed it, after one entry more.
pub fn placed_more()
    ensures none { (boot : System) (p : PageId) → placed boot [] p ≡ record { place = Absent; number = 0 } }
    ensures one_more { (boot : System) (e : Entry) (before : List Entry) (p : PageId) → placed boot (e ∷ before) p ≡ next_placed (state before p.obj) (unmaps boot before e p.obj) (length before) p (placed boot before p) e }
    ensures kept { (boot : System) (e : Entry) (before : List Entry) (p : PageId) → place_given (state before p.obj) (unmaps boot before e p.obj) p (place boot before p) e ≡ None → placed boot (e ∷ before) p ≡ placed boot before p }
{}

/// The place of a page after an emptying, an unmapping, a touch and a move.
pub fn placed_by_kind()
    ensures emptied { (boot : System) (e : Entry) (before : List Entry) (p : PageId) → empties p.obj before e ≡ true → placed boot (e ∷ before) p ≡ record { place = Absent; number = length before } }
    ensures unmapped { (boot : System) (e : Entry) (before : List Entry) (p : PageId) → unmaps boot before e p.obj ≡ true → placed boot (e ∷ before) p ≡ record { place = Absent; number = length before } }
    ensures faulted { (boot : System) (e : Entry) (before : List Entry) (p : PageId) → empties p.obj before e ≡ false → unmaps boot before e p.obj ≡ false → touches before e p ≡ true → is_out (place boot before p) ≡ true → placed boot (e ∷ before) p ≡ record { place = Active; number = length before } }
    ensures stays { (boot : System) (e : Entry) (before : List Entry) (p : PageId) → empties p.obj before e ≡ false → unmaps boot before e p.obj ≡ false → is_out (place boot before p) ≡ false → move_of p e.reply ≡ None → placed boot (e ∷ before) p ≡ placed boot before p }
    ensures moved { (boot : System) (who : ℕ) (move : Move) (q : PageId) (before : List Entry) (p : PageId) → placed boot (moved_entry who move q ∷ before) p ≡ (if same_page p q then record { place = moved_to move; number = length before } else placed boot before p) }
{}

/// Whether a page was touched since its stamp, after one entry more.
pub fn touched_more()
    ensures one_more { (boot : System) (e : Entry) (before : List Entry) (p : PageId) → touched_since boot (e ∷ before) p ≡ unwrap_or (says_touched boot p before (touched_since boot before p) e) (touched_since boot before p) }
    ensures kept { (boot : System) (e : Entry) (before : List Entry) (p : PageId) → says_touched boot p before (touched_since boot before p) e ≡ None → touched_since boot (e ∷ before) p ≡ touched_since boot before p }
    ensures emptied { (boot : System) (e : Entry) (before : List Entry) (p : PageId) → empties p.obj before e ≡ true → touched_since boot (e ∷ before) p ≡ false }
    ensures unmapped { (boot : System) (e : Entry) (before : List Entry) (p : PageId) → unmaps boot before e p.obj ≡ true → touched_since boot (e ∷ before) p ≡ false }
    ensures touched { (boot : System) (e : Entry) (before : List Entry) (p : PageId) → empties p.obj before e ≡ false → unmaps boot before e p.obj ≡ false → touches before e p ≡ true → touched_since boot (e ∷ before) p ≡ not (is_out (place boot before p)) }
    ensures moved { (boot : System) (who : ℕ) (move : Move) (q : PageId) (before : List Entry) (p : PageId) → touched_since boot (moved_entry who move q ∷ before) p ≡ (not (same_page p q) && touched_since boot before p) }
{}

/// Whether a page has a Write newer than the newest emptying, after one entry more.
pub fn written_more()
    ensures one_more { (e : Entry) (before : List Entry) (p : PageId) → written (e ∷ before) p ≡ unwrap_or (says_written p before (written before p) e) (written before p) }
    ensures kept { (e : Entry) (before : List Entry) (p : PageId) → says_written p before (written before p) e ≡ None → written (e ∷ before) p ≡ written before p }
    ensures emptied { (e : Entry) (before : List Entry) (p : PageId) → empties p.obj before e ≡ true → written (e ∷ before) p ≡ false }
    ensures write { (who x off : ℕ) (bytes : List ℕ) (before : List Entry) (p : PageId) → written (write_entry who x off bytes ∷ before) p ≡ ((nat_eq x p.obj && reaches_page off (length bytes) p.page) || written before p) }
{}
