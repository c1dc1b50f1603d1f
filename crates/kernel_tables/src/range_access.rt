//! Accesses to the bytes of an object: Read and Write.

ghost use Rattle.std.specs.Prelude.{◌≡◌, ◌∷◌, ◌+◌, ◌<◌, ◌≤◌, ◌^◌, ℕ, List, IsTrue, None, length, map, true};
ghost use Rattle.std.specs.List.{range_with_len};
ghost use Rattle.kern_ids.specs.declared.entries.Entry.{Entry};
ghost use Rattle.kern_ids.specs.declared.calls.Call.TheVariants.{Read as AskRead, Write as AskWrite};
ghost use Rattle.kernel_model.specs.Answers.{answer, refusal};
ghost use Rattle.kernel_model.specs.Contents.{byte};
ghost use Rattle.kernel_model.specs.Histories.{fits};
ghost use Rattle.kernel_model.specs.State.{is_empty as has_no_bytes};
ghost use Rattle.page_queues.specs.Pages.{IsPage, place as place_in, is_out, free};
ghost use Rattle.vm_object.specs.Objects.{object_at, owner as owner_of, IsObject};
ghost use Rattle.kernel_tables.specs.Values.{values, entry_of};
ghost use Rattle.kernel_tables.specs.Stands.{Stands};
ghost use Rattle.kernel_tables.specs.Moves as moves;

use crate::page_charges::recharge;
use crate::parts::Parts;
use kern_ids::calls::State;
use kern_ids::ids::{ObjId, PageId, ThreadId};
use kern_ids::lines::ByteLine;
use kern_ids::replies::Reply;
use kernel_model::place::Place;
use page_queues::PageQueues;
use task_ledger::Ledgers;
use vm_object::ObjectTable;

/// How many bytes a page has.
const PAGE: u32 = 4096;

/// The place of a page after a touch.
fn place_touched(was: Place) -> Place
    ensures { result ≡ moves.place_touched was }
{
    match was {
        Place::Absent | Place::Stored => Place::Active,
        _ => was,
    }
}

/// How many bytes a Write has.
fn length_of(bytes: &ByteLine) -> u32
    ensures { result ≡ length bytes.now }
{
    bytes.as_slice().len() as u32
}

/// Whether an object is EMPTY.
fn is_empty(state: State) -> bool
    ensures { result ≡ has_no_bytes state }
{
    matches!(state, State::Empty)
}

/// A page that has no frame takes a free one and becomes Active, placed last; one that is Inactive is marked.
fn touch_page(pages: &mut PageQueues, o: ObjId, page: u32)
    requires page { IsPage pages.old (moves.page_at o page) }
    requires frame { is_out (place_in pages.old (moves.page_at o page)) ≡ true → 0 < free pages.old }
    ensures { pages.new ≡ moves.touched pages.old (moves.page_at o page) }
{
    match pages.place(PageId { obj: o, page }) {
        Place::Absent | Place::Stored => {
            pages.fault(PageId { obj: o, page });
        }
        _ => pages.touch(PageId { obj: o, page }),
    }
}

/// A touch of a page, and what it changes in the account of the owner of its object.
fn touch(pages: &mut PageQueues, table: &ObjectTable, ledgers: &mut Ledgers, o: ObjId, page: u32)
    requires { moves.CanTouch pages.old table.now ledgers.old (moves.page_at o page) }
    ensures pages { pages.new ≡ moves.touched pages.old (moves.page_at o page) }
    ensures ledgers { ledgers.new ≡ moves.charged_touch (owner_of table.now o) (object_at table.now o).state pages.old (moves.page_at o page) ledgers.old }
{
    let was = pages.place(PageId { obj: o, page });
    recharge(table, ledgers, o, was, place_touched(was));
    touch_page(pages, o, page);
}

/// A touch of the pages of a range of 1 to 256 bytes: those of its first and of its last byte.
fn touch_range(
    pages: &mut PageQueues,
    table: &ObjectTable,
    ledgers: &mut Ledgers,
    o: ObjId,
    off: u32,
    len: u32,
)
    requires some { 0 < len }
    requires bound { off + len < 2 ^ 32 }
    requires first { moves.CanTouch pages.old table.now ledgers.old (moves.first_page o off) }
    requires last { moves.CanTouch (moves.touched pages.old (moves.first_page o off)) table.now (moves.charged_touch (owner_of table.now o) (object_at table.now o).state pages.old (moves.first_page o off) ledgers.old) (moves.last_page o off len) }
    ensures pages { pages.new ≡ moves.touched_range pages.old o off len }
    ensures ledgers { ledgers.new ≡ moves.charged_range (owner_of table.now o) (object_at table.now o).state pages.old o off len ledgers.old }
{
    touch(pages, table, ledgers, o, off / PAGE);
    touch(pages, table, ledgers, o, (off + len - 1) / PAGE);
}

/// The pages of a range of bytes are written ones.
fn mark_range(table: &mut ObjectTable, o: ObjId, off: u32, len: u32)
    requires object { o < length table.old }
    requires some { 0 < len }
    requires inside { off + len ≤ 1048576 }
    ensures { table.new ≡ moves.written_range o off len table.old }
{
    table.mark_written(PageId {
        obj: o,
        page: off / PAGE,
    });
    table.mark_written(PageId {
        obj: o,
        page: (off + len - 1) / PAGE,
    });
}

impl Parts {
    /// Read, where it is not refused, of bytes that the caller has seen.
    pub(crate) fn read(
        &mut self,
        who: ThreadId,
        o: ObjId,
        off: u32,
        len: u32,
        seen: ByteLine,
    ) -> Reply
        ghost past: { List Entry }
        requires stands { Stands (values self.old) past }
        requires fits { IsTrue (fits self.old.boot who (AskRead o off len)) }
        requires accepted { refusal self.old.boot past who (AskRead o off len) ≡ None }
        requires seen { seen ≡ map (byte past o) (range_with_len off len) }
        ensures reply { result ≡ answer self.old.boot past who (AskRead o off len) }
        ensures stands { Stands (values self.new) (entry_of who (AskRead o off len) result ∷ past) }
        ensures boot { self.new.boot ≡ self.old.boot }
    {
        self.boot.valid();
        self.objects.pages.are_pages();
        if is_empty(self.objects.table.state(o)) {
            return Reply::Bytes(seen);
        }
        touch_range(
            &mut self.objects.pages,
            &self.objects.table,
            &mut self.tasks.ledgers,
            o,
            off,
            len,
        );
        Reply::Bytes(seen)
    }

    /// Write, where it is not refused.
    pub(crate) fn write(&mut self, who: ThreadId, o: ObjId, off: u32, bytes: ByteLine) -> Reply
        ghost past: { List Entry }
        requires stands { Stands (values self.old) past }
        requires fits { IsTrue (fits self.old.boot who (AskWrite o off bytes)) }
        requires accepted { refusal self.old.boot past who (AskWrite o off bytes) ≡ None }
        ensures reply { result ≡ answer self.old.boot past who (AskWrite o off bytes) }
        ensures stands { Stands (values self.new) (entry_of who (AskWrite o off bytes) result ∷ past) }
        ensures boot { self.new.boot ≡ self.old.boot }
    {
        self.boot.valid();
        self.objects.pages.are_pages();
        self.objects.table.is_object(o);
        let len = length_of(&bytes);
        touch_range(
            &mut self.objects.pages,
            &self.objects.table,
            &mut self.tasks.ledgers,
            o,
            off,
            len,
        );
        mark_range(&mut self.objects.table, o, off, len);
        Reply::Wrote
    }
}
