//! Readings by the numbers of entries of what is defined by one look back.

ghost use Rattle.kern_ids.specs.declared.entries.Entry.{Entry};
ghost use Rattle.kern_ids.specs.declared.ids.PageId.{PageId};
ghost use Rattle.kernel_model.specs.Contents.{byte, empties};
ghost use Rattle.kernel_model.specs.Events.{written_byte};
ghost use Rattle.kernel_model.specs.Histories.{IsLegal};
ghost use Rattle.kernel_model.specs.Laws.Literal.{gift_after, is_after, newest_gift, newest_number};
ghost use Rattle.kernel_model.specs.Pages.{placed, touched_since, touches};
ghost use Rattle.kernel_model.specs.System.{System};
ghost use Rattle.std.specs.Prelude.{List, ℕ, ◌≡◌};

/// A byte is that of the newest accepted Write covering it, if this is newer than the newest emptying, else 0. A page of a
/// legal history is touched since its stamp exactly where the newest entry that touches it is newer than the one that placed it.
pub fn readings()
    ensures byte { (past : List Entry) (o b : ℕ) → byte past o b ≡ gift_after (newest_number (empties o) past) (newest_gift (written_byte o b) past) }
    ensures touched { (boot : System) (past : List Entry) (p : PageId) → IsLegal boot past → touched_since boot past p ≡ is_after (placed boot past p).number (newest_number (λ before e. touches before e p) past) }
{}
