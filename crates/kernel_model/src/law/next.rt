//! What each definition is after one entry more, by the entry and by what the definitions were
//! before it.

ghost use Rattle.kern_ids.specs.declared.calls.Queue.{Queue};
ghost use Rattle.kern_ids.specs.declared.calls.State.{State};
ghost use Rattle.kern_ids.specs.declared.entries.Entry.{Entry};
ghost use Rattle.kern_ids.specs.declared.ids.PageId.{PageId};
ghost use Rattle.kernel_model.specs.Choice.{forced, pick};
ghost use Rattle.kernel_model.specs.Counted.{counts};
ghost use Rattle.kernel_model.specs.Deadlines.{deadlines, ripe_queue};
ghost use Rattle.kernel_model.specs.Events.{is_end};
ghost use Rattle.kernel_model.specs.Groups.{first, standing, stands_in, volatile};
ghost use Rattle.kernel_model.specs.Histories.{IsLegal};
ghost use Rattle.kernel_model.specs.Laws.Ends.{AreAbsent, ChangesPages, CountsByShares, FreesUnmapped, HasInherited, IsEnding, KeepsPlaces, LosesPages, heir, no_counts, still_maps};
ghost use Rattle.kernel_model.specs.Laws.Group.{AddsMember, Enters, KeepsMembers, Leaves, head_before, still_mapped};
ghost use Rattle.kernel_model.specs.Laws.Next.{Step, after, counts_after, deadlines_after, entered_after, first_after, first_page_after, forced_after, free_after, left_after, mapped_after, maps_after, owner_after, pages_after, pick_after, placed_after, ripe_after, scan_after, standing_after, stands_after, state_after, touched_after, unmapped_in, volatile_after, written_after};
ghost use Rattle.kernel_model.specs.Laws.Present.{AreMapped, ArePlaced};
ghost use Rattle.kernel_model.specs.Mapping.{live, mapped, maps, owner, unmaps};
ghost use Rattle.kernel_model.specs.Pages.{active_pages, entered, free, inactive_pages, is_active, is_inactive, is_stored, left, placed, stored_pages, touched_since, written};
ghost use Rattle.kernel_model.specs.Scan.{first_active, first_inactive, scan};
ghost use Rattle.kernel_model.specs.State.{state};
ghost use Rattle.kernel_model.specs.System.{System};
ghost use Rattle.kernel_model.specs.Valid.{IsValidBoot};
ghost use Rattle.kernel_model.specs.declared.place.Place.{Place};
ghost use Rattle.std.specs.Prelude.{Bool, List, false, ℕ, ◌<◌, ◌≡◌, ◌≤◌};

/// Which tasks map an object, which of them owns it, and whether it is mapped.
pub fn mapping_next()
    ghost s: { Step }
    ensures maps { (o t : ℕ) → maps s.boot (after s) o t ≡ maps_after s o t }
    ensures owner { (o : ℕ) → owner s.boot (after s) o ≡ owner_after s o }
    ensures mapped { (o : ℕ) → mapped s.boot (after s) o ≡ mapped_after s o }
    ensures unmaps { (o : ℕ) → unmaps s.boot s.before s.entry o ≡ unmapped_in s o }
{}

/// Which objects are in a group, and the first of them.
pub fn groups_next()
    ghost s: { Step }
    ensures state { (o : ℕ) → state (after s) o ≡ state_after s o }
    ensures standing { (o : ℕ) → standing (after s) o ≡ standing_after s o }
    ensures volatile { (o : ℕ) → volatile s.boot (after s) o ≡ volatile_after s o }
    ensures has { (q : Queue) (g o : ℕ) → stands_in s.boot (after s) q g o ≡ stands_after s q g o }
    ensures first { (q : Queue) (g : ℕ) → first s.boot (after s) q g ≡ first_after s q g }
{}

/// A group as the list of its objects, the first at its head. An object that enters stands after
/// the others, and in LIFO before them; those that leave keep the order of the rest; an Exit or kill
/// takes out all objects that it unmaps.
pub fn members_next()
    ghost s: { Step }
    ensures first { (q : Queue) (g : ℕ) → first s.boot s.before q g ≡ head_before s q g }
    ensures enter { (q : Queue) (g o : ℕ) → Enters s q g o → AddsMember s q g o }
    ensures leave { (q : Queue) (g : ℕ) (p : ℕ → Bool) → Leaves s q g p → KeepsMembers s q g p }
    ensures ending { IsEnding s → (q : Queue) (g : ℕ) → KeepsMembers s q g (still_mapped s) }
{}

/// The places of the pages, and the numbers of frames.
pub fn frames_next()
    ghost s: { Step }
    ensures placed { (p : PageId) → placed s.boot (after s) p ≡ placed_after s p }
    ensures active { active_pages s.boot (after s) ≡ pages_after s is_active }
    ensures inactive { inactive_pages s.boot (after s) ≡ pages_after s is_inactive }
    ensures stored { stored_pages s.boot (after s) ≡ pages_after s is_stored }
    ensures free { free s.boot (after s) ≡ free_after s }
    ensures entered { entered (after s) ≡ entered_after s }
    ensures left { left s.boot (after s) ≡ left_after s }
{}

/// The five counts of a task.
pub fn counts_next()
    ghost s: { Step }
    ensures counts { (t : ℕ) → counts s.boot (after s) t ≡ counts_after s t }
{}

/// An Exit or a kill: each object goes to the least task that still maps it. The pages of all those
/// that no task maps any more become Absent, and their frames are free. A task that goes on has its
/// pages and those of the objects that it inherits.
pub fn ending_next()
    ghost s: { Step }
    ensures maps { IsEnding s → (o t : ℕ) → maps s.boot (after s) o t ≡ still_maps s o t }
    ensures owner { IsEnding s → (o : ℕ) → owner s.boot (after s) o ≡ heir s o }
    ensures gone { IsEnding s → AreAbsent s (unmapped_in s) }
    ensures stay { IsEnding s → KeepsPlaces s (unmapped_in s) }
    ensures pages { IsEnding s → LosesPages s }
    ensures free { IsEnding s → IsLegal s.boot s.before → FreesUnmapped s }
    ensures counts { IsEnding s → (t : ℕ) → is_end s.boot t s.entry ≡ false → HasInherited s t }
{}

/// An entry that changes objects with a test alone: what those had in a place, or added to a task's
/// pages, goes, and what they have or add now comes.
pub fn objects_next()
    ghost s: { Step }
    ensures pages { (p : ℕ → Bool) (k : Place → Bool) → KeepsPlaces s p → ChangesPages s p k }
    ensures counts { (p : ℕ → Bool) → CountsByShares s p }
{}

/// The object of a ripe purge, and that of a forced one.
pub fn choice_next()
    ghost s: { Step }
    ensures deadlines { deadlines s.boot (after s) ≡ deadlines_after s }
    ensures ripe { ripe_queue s.boot (after s) ≡ ripe_after s }
    ensures pick { pick s.boot (after s) ≡ pick_after s }
    ensures forced { forced s.boot (after s) ≡ forced_after s }
{}

/// The answer to a scan.
pub fn scan_next()
    ghost s: { Step }
    ensures first_active { first_active s.boot (after s) ≡ first_page_after s is_active }
    ensures first_inactive { first_inactive s.boot (after s) ≡ first_page_after s is_inactive }
    ensures touched { (p : PageId) → touched_since s.boot (after s) p ≡ touched_after s p }
    ensures written { (p : PageId) → written (after s) p ≡ written_after s p }
    ensures scan { scan s.boot (after s) ≡ scan_after s }
{}

/// What holds after every history: a page that isn't Absent was placed by an entry, and where the
/// history is legal it is one of a mapped object; a task that isn't live has no pages; each object
/// is in one of eight groups; no more pages are Inactive than were ever deactivated.
pub fn every_history()
    ghost past: { List Entry }
    ensures placed { (boot : System) → ArePlaced boot past }
    ensures mapped { (boot : System) → IsValidBoot boot → IsLegal boot past → AreMapped boot past }
    ensures dead { (b : System) (t : ℕ) → live b past t ≡ false → counts b past t ≡ no_counts }
    ensures group { (o : ℕ) → (standing past o).group < 8 }
    ensures inactive { (boot : System) → inactive_pages boot past ≤ entered past }
{}
