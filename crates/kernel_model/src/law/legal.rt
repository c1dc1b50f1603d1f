//! What holds of every legal history.

ghost use Rattle.kern_ids.specs.declared.calls.State.TheVariants.{Empty};
ghost use Rattle.kern_ids.specs.declared.calls.Wish.{Wish};
ghost use Rattle.kern_ids.specs.declared.calls.Wish.TheVariants.{Nonvolatile as ask_nonvolatile};
ghost use Rattle.kern_ids.specs.declared.entries.Entry.{Entry};
ghost use Rattle.kern_ids.specs.declared.ids.PageId.{PageId};
ghost use Rattle.kern_ids.specs.declared.replies.Cause.TheVariants.{Pressure};
ghost use Rattle.kern_ids.specs.declared.replies.Reply.TheVariants.{Killed, Old, Purged};
ghost use Rattle.kernel_model.specs.Bands.{bstamp};
ghost use Rattle.kernel_model.specs.Contents.{byte, empties};
ghost use Rattle.kernel_model.specs.Events.{asked, written_byte};
ghost use Rattle.kernel_model.specs.Groups.{volatile};
ghost use Rattle.kernel_model.specs.Histories.{IsLegal};
ghost use Rattle.kernel_model.specs.Laws.Legal.{HasTokens, IsPressed, TakesRipe, decides, emptied_since, is_ripe_call, lost};
ghost use Rattle.kernel_model.specs.Laws.Literal.{gift_after, newest_gift, newest_number};
ghost use Rattle.kernel_model.specs.Pages.{active_pages, free, inactive_pages, left, placed, stored_pages};
ghost use Rattle.kernel_model.specs.State.{state};
ghost use Rattle.kernel_model.specs.System.{System};
ghost use Rattle.kernel_model.specs.Valid.{IsValidBoot};
ghost use Rattle.std.specs.Prelude.{List, Some, false, is_some, nat_eq, true, ℕ, ◌+◌, ◌↔◌, ◌∷◌, ◌≡◌, ◌≤◌};

/// An object that is purged was volatile, and no page of another object changes its place, and no byte of another object changes.
pub fn purge()
    ensures volatile { (boot : System) (e : Entry) (before : List Entry) (o : ℕ) → IsLegal boot (e ∷ before) → e.reply ≡ Purged o → volatile boot before o ≡ true }
    ensures places { (boot : System) (e : Entry) (before : List Entry) (o : ℕ) (p : PageId) → IsLegal boot (e ∷ before) → e.reply ≡ Purged o → nat_eq p.obj o ≡ false → placed boot (e ∷ before) p ≡ placed boot before p }
    ensures bytes { (boot : System) (e : Entry) (before : List Entry) (o x b : ℕ) → IsLegal boot (e ∷ before) → e.reply ≡ Purged o → nat_eq x o ≡ false → byte (e ∷ before) x b ≡ byte before x b }
{}

/// An accepted SetState answers the state before it. That is EMPTY exactly where the newest Map, purge, or
/// SetState NONVOLATILE or EMPTY was a purge or a SetState EMPTY. There is such an entry where what the kernel
/// begins with is valid, and no emptying came after it. After a SetState NONVOLATILE each byte is that of the
/// newest Write covering it since the newest emptying, or 0.
pub fn set_state()
    ensures old { (boot : System) (e : Entry) (before : List Entry) (o : ℕ) (w : Wish) → IsLegal boot (e ∷ before) → asked o e ≡ Some w → e.reply ≡ Old (state before o) }
    ensures lost { (boot : System) (e : Entry) (before : List Entry) (o : ℕ) (w : Wish) → IsLegal boot (e ∷ before) → asked o e ≡ Some w → (e.reply ≡ Old Empty) ↔ (lost before o ≡ true) }
    ensures none_since { (past : List Entry) (o : ℕ) → emptied_since past o ≡ false }
    ensures decided { (boot : System) (e : Entry) (before : List Entry) (o : ℕ) (w : Wish) → IsValidBoot boot → IsLegal boot (e ∷ before) → asked o e ≡ Some w → is_some (newest_number (λ before e. is_some (decides o e)) before) ≡ true }
    ensures bytes { (boot : System) (e : Entry) (before : List Entry) (o b : ℕ) → IsLegal boot (e ∷ before) → asked o e ≡ Some ask_nonvolatile → byte (e ∷ before) o b ≡ gift_after (newest_number (empties o) before) (newest_gift (written_byte o b) before) }
{}

/// Each list of deadlines is rising and as long as its queue has volatile objects, where what the kernel begins with is valid.
/// A PurgeOne or Scan that purges takes exactly one deadline out of the three lists together, and that one was ripe.
pub fn tokens()
    ensures hold { (boot : System) (past : List Entry) → IsValidBoot boot → IsLegal boot past → HasTokens boot past }
    ensures taken { (boot : System) (e : Entry) (before : List Entry) (o : ℕ) → IsLegal boot (e ∷ before) → e.reply ≡ Purged o → is_ripe_call e.call ≡ true → TakesRipe boot e before }
{}

/// A task that is killed for pressure is eligible and before every other eligible one, frames were scarce, and no task was over
/// a limit that comes first. Two tasks never have one stamp.
pub fn pressure()
    ensures pressed { (boot : System) (e : Entry) (before : List Entry) (t : ℕ) → IsLegal boot (e ∷ before) → e.reply ≡ Killed t Pressure → IsPressed boot before t }
    ensures stamps_differ { (boot : System) (past : List Entry) (t u : ℕ) → IsLegal boot past → (t ≡ u → ⊥) → bstamp boot past t ≡ bstamp boot past u → ⊥ }
{}

/// The Active and Inactive pages together are at most the frames and the Stored ones at most the store's, and what left never
/// falls, so that a ripe deadline stays ripe.
pub fn frames()
    ensures hold { (boot : System) (past : List Entry) → IsLegal boot past → active_pages boot past + inactive_pages boot past ≤ boot.params.frames }
    ensures free { (boot : System) (past : List Entry) → IsLegal boot past → free boot past + (active_pages boot past + inactive_pages boot past) ≡ boot.params.frames }
    ensures store { (boot : System) (past : List Entry) → IsLegal boot past → stored_pages boot past ≤ boot.params.store }
    ensures left { (boot : System) (e : Entry) (before : List Entry) → left boot before ≤ left boot (e ∷ before) }
    ensures ripe { (boot : System) (e : Entry) (before : List Entry) (d : ℕ) → d ≤ left boot before → d ≤ left boot (e ∷ before) }
{}
