//! The moves of the scan.

ghost use Rattle.std.specs.Prelude.{◌≡◌, ◌∷◌, ◌+◌, ◌<◌, ◌^◌, List, IsTrue, length, option_map, slice_get, Some};
ghost use Rattle.kern_ids.specs.declared.entries.Entry.{Entry};
ghost use Rattle.kern_ids.specs.declared.calls.Call.TheVariants.{Scan as AskScan};
ghost use Rattle.kern_ids.specs.declared.replies.Reply.TheVariants.{Moved as HasMoved};
ghost use Rattle.kernel_model.specs.Answers.{answer};
ghost use Rattle.kernel_model.specs.Histories.{fits};
ghost use Rattle.kernel_model.specs.Pages.{moved_to as place_moved_to};
ghost use Rattle.kernel_tables.specs.Values.{values, entry_of};
ghost use Rattle.kernel_tables.specs.Stands.{Stands};
ghost use Rattle.kernel_tables.specs.Moves as moves;

use crate::page_charges::recharge;
use crate::parts::Parts;
use kern_ids::ids::{PageId, ThreadId};
use kern_ids::replies::{Move, Reply};
use kernel_model::place::Place;
use page_queues::PageQueues;
use ripen_advance::TokenQueues;

/// The place from which the scan moves a page.
fn moved_from(how: Move) -> Place
    ensures { result ≡ moves.moved_from how }
{
    match how {
        Move::Deactivated => Place::Active,
        _ => Place::Inactive,
    }
}

/// The place to which the scan moves a page.
fn moved_to(how: Move) -> Place
    ensures { result ≡ place_moved_to how }
{
    match how {
        Move::Deactivated => Place::Inactive,
        Move::Reactivated | Move::Requeued => Place::Active,
        Move::Freed => Place::Absent,
        Move::Compressed => Place::Stored,
    }
}

/// The page that was placed first where this move takes one goes where it moves one.
fn move_first(pages: &mut PageQueues, how: Move)
    requires { 0 < length (moves.movable pages.old how) }
    ensures { pages.new ≡ moves.moved_first pages.old how }
{
    match how {
        Move::Deactivated => {
            pages.deactivate_first();
        }
        Move::Reactivated | Move::Requeued => {
            pages.reactivate_first();
        }
        Move::Freed => {
            pages.free_first();
        }
        Move::Compressed => {
            pages.store_first();
        }
    }
}

/// The tokens count a page that entered the inactive queue, or left it.
fn tell(tokens: &mut TokenQueues, how: Move)
    requires { moves.CanTell how tokens.old.ahead }
    ensures { tokens.new ≡ moves.told_of how tokens.old }
{
    match how {
        Move::Deactivated => tokens.entered(1),
        _ => tokens.departed(1),
    }
}

/// How many pages were ever deactivated, after a move.
fn entered_by(how: Move, entered: u64) -> u64
    requires { entered + 1 < 2 ^ 64 }
    ensures { result ≡ moves.entered_by how entered }
{
    match how {
        Move::Deactivated => entered + 1,
        _ => entered,
    }
}

impl Parts {
    /// Scan, where it is decided that it moves a page.
    pub(crate) fn scan_move(&mut self, who: ThreadId, how: Move, p: PageId) -> Reply
        ghost past: { List Entry }
        requires stands { Stands (values self.old) past }
        requires fits { IsTrue (fits self.old.boot who AskScan) }
        requires decided { answer self.old.boot past who AskScan ≡ HasMoved how p }
        requires room { self.old.entered + 1 < 2 ^ 64 }
        ensures reply { result ≡ answer self.old.boot past who AskScan }
        ensures stands { Stands (values self.new) (entry_of who AskScan result ∷ past) }
        ensures boot { self.new.boot ≡ self.old.boot }
    {
        self.boot.valid();
        self.objects.pages.are_pages();
        recharge(
            &self.objects.table,
            &mut self.tasks.ledgers,
            p.obj,
            moved_from(how),
            moved_to(how),
        );
        move_first(&mut self.objects.pages, how);
        tell(&mut self.objects.tokens, how);
        self.entered = entered_by(how, self.entered);
        Reply::Moved(how, p)
    }
}
