//! Where the pages are, since when, and how many frames are free.

ghost use Rattle.std.specs.Prelude.{◌≡◌, reverse, ◌<◌, ◌≤◌, ◌+◌, ◌-◌, ◌++◌, [], length, get_or, map, option_map, find, count_by, ◌^◌, ◌&&◌, IfOk, OnOk};
ghost use Rattle.kernel_model.specs.Pages as spec;
ghost use Rattle.kernel_model.specs.Answers as answers;
ghost use Rattle.kernel_model.specs.Events as events;
ghost use Rattle.kernel_model.specs.State as states;
ghost use Rattle.slow_kernel.specs.Tables as tables;

use crate::mapping::{Mapper, advance_mappers, owner_in, start_mappers};
use crate::states::{empties_from, next_state};
use kern_ids::calls::{Call, State};
use kern_ids::entries::{Entry, NoMemory};
use kern_ids::ids::{ObjId, PageId, TaskId};
use kern_ids::replies::{Move, Reply};
use kernel_model::boot::Boot;
use kernel_model::events::{accepted, move_of, reaches_page, touches_from, write_covers};
use kernel_model::place::{Place, Placed};
use std::alloc::Global;

/// The size of an object.
pub fn pages_in(boot: &Boot, o: ObjId) -> u32
    ensures value { result ≡ spec.pages_in boot.now o }
    ensures bound { result ≤ 256 }
{
    match boot.objects().get(o.get() as usize) {
        Some(object) => object.pages,
        None => 0,
    }
}

/// The page after entry n.
#[tactic(auto, unfolding(kernel_model::specs::Pages::next_placed))]
fn next_placed(state: State, unmapped: bool, n: usize, p: PageId, was: Placed, e: &Entry) -> Placed
    ensures { result ≡ spec.next_placed state unmapped n p was e.now }
{
    let PageId { obj, page } = p;
    if empties_from(state, obj, e) || unmapped {
        return Placed {
            place: Place::Absent,
            number: n,
        };
    }
    if touches_from(state, PageId { obj, page }, e)
        && matches!(was.place, Place::Absent | Place::Stored)
    {
        return Placed {
            place: Place::Active,
            number: n,
        };
    }
    match move_of(PageId { obj, page }, &e.reply) {
        Some(place) => Placed { place, number: n },
        None => was,
    }
}

/// What is known of a page: where it is, whether it was touched since, and whether it was written since
/// its object was emptied.
#[derive(Clone, Copy)]
pub struct PageFacts {
    pub placed: Placed,
    pub touched: bool,
    pub written: bool,
}

#[tactic(auto, unfolding(crate::specs::Tables::next_touched))]
fn next_touched(state: State, unmapped: bool, p: PageId, place: Place, was: bool, e: &Entry) -> bool
    ensures { result ≡ tables.next_touched state unmapped p place was e.now }
{
    let PageId { obj, page } = p;
    if empties_from(state, obj, e) || unmapped {
        return false;
    }
    if touches_from(state, PageId { obj, page }, e) {
        return !matches!(place, Place::Absent | Place::Stored);
    }
    match move_of(PageId { obj, page }, &e.reply) {
        Some(_) => false,
        None => was,
    }
}

#[tactic(auto, unfolding(crate::specs::Tables::next_written))]
fn next_written(state: State, p: PageId, was: bool, e: &Entry) -> bool
    ensures { result ≡ tables.next_written state p was e.now }
{
    let PageId { obj, page } = p;
    if empties_from(state, obj, e) {
        false
    } else {
        (accepted(e) && write_covers(PageId { obj, page }, &e.call)) || was
    }
}

#[tactic(auto, unfolding(crate::specs::Tables::next_facts))]
fn next_facts(
    state: State,
    unmapped: bool,
    n: usize,
    o: ObjId,
    k: u32,
    was: PageFacts,
    e: &Entry,
) -> PageFacts
    ensures { result ≡ tables.next_facts state unmapped n (tables.page o k) was e.now }
{
    let page = |k| PageId { obj: o, page: k };
    PageFacts {
        placed: next_placed(state, unmapped, n, page(k), was.placed, e),
        touched: next_touched(state, unmapped, page(k), was.placed.place, was.touched, e),
        written: next_written(state, page(k), was.written, e),
    }
}

/// The pages of o before the first entry.
#[tactic(auto, using(crate::proofs::PageTables::facts_none, crate::proofs::Tables::table_more))]
fn start_pages(alloc: Global, boot: &Boot, o: ObjId) -> Result<Vec<PageFacts>, NoMemory>
    ensures { IfOk result (λ v. v.items ≡ tables.pages boot.now [] o) }
{
    let mut pages = Vec::new(alloc);
    let n = pages_in(boot, o);
    for _k in 0..n {
        pages.reserve(1).map_err(|_| NoMemory)?;
        pages.push_reserved(PageFacts {
            placed: Placed {
                place: Place::Absent,
                number: 0,
            },
            touched: false,
            written: false,
        });
    }
    Ok(pages)
}

/// The scan moves a page of o.
fn moves_page_of(o: ObjId, reply: &Reply) -> bool
    ensures { result ≡ tables.moves_page_of o reply.now }
{
    match reply {
        Reply::Moved(_, p) => o.get() == p.obj.get(),
        _ => false,
    }
}

/// The call is a Write or a Read of o.
fn is_access(o: ObjId, call: &Call) -> bool
    ensures { result ≡ tables.is_access o call.now }
{
    match call {
        Call::Write { obj, .. } => obj.get() == o.get(),
        Call::Read { obj, .. } => obj.get() == o.get(),
        _ => false,
    }
}

/// The entry may say something of a page of o.
#[tactic(auto, unfolding(crate::specs::Tables::tells_pages))]
fn tells_pages(state: State, unmapped: bool, o: ObjId, e: &Entry) -> bool
    ensures { result ≡ tables.tells_pages state unmapped o e.now }
{
    empties_from(state, o, e) || unmapped || is_access(o, &e.call) || moves_page_of(o, &e.reply)
}

fn facts_in(pages: &[PageFacts], k: usize) -> PageFacts
    requires { k < length pages.now }
    ensures { result ≡ get_or pages.now k result }
{
    pages[k]
}

fn update_pages(
    boot: &Boot,
    entries: &[Entry],
    i: usize,
    o: ObjId,
    state: State,
    unmapped: bool,
    pages: &mut [PageFacts],
)
    requires at { i < length entries.now }
    requires state { state ≡ states.state (tables.past_at entries.now i) o }
    requires unmapped { unmapped ≡ tables.unmapped_at boot.now entries.now i o }
    requires before { pages.old ≡ tables.pages boot.now (tables.past_at entries.now i) o }
    ensures { pages.new ≡ tables.pages boot.now (tables.past_at entries.now (i + 1)) o }
{
    let e = &entries[i];
    let n = pages_in(boot, o);
    for k in 0..n {
        let was = facts_in(pages, k as usize);
        pages[k as usize] = next_facts(state, unmapped, i, o, k, was, e);
    }
}

/// Brings the pages of o from before entry i to after it.
fn advance_pages(
    boot: &Boot,
    entries: &[Entry],
    i: usize,
    o: ObjId,
    state: State,
    unmapped: bool,
    pages: &mut [PageFacts],
)
    requires at { i < length entries.now }
    requires state { state ≡ states.state (tables.past_at entries.now i) o }
    requires unmapped { unmapped ≡ tables.unmapped_at boot.now entries.now i o }
    requires before { pages.old ≡ tables.pages boot.now (tables.past_at entries.now i) o }
    ensures { pages.new ≡ tables.pages boot.now (tables.past_at entries.now (i + 1)) o }
{
    if tells_pages(state, unmapped, o, &entries[i]) {
        update_pages(boot, entries, i, o, state, unmapped, pages);
    }
}

/// What is known of an object while the entries are looked through.
#[derive(Drop)]
pub struct ObjectPass {
    pub state: State,
    pub mappers: Vec<Mapper>,
    pub pages: Vec<PageFacts>,
}

/// Looks at entry i.
fn advance(boot: &Boot, entries: &[Entry], i: usize, o: ObjId, pass: &mut ObjectPass)
    requires at { i < length entries.now }
    requires known { tables.IsKnown boot.now (tables.past_at entries.now i) o pass.old }
    ensures { tables.IsKnown boot.now (tables.past_at entries.now (i + 1)) o pass.new }
{
    let unmapped = advance_mappers(boot, entries, i, o, &mut pass.mappers);
    advance_pages(boot, entries, i, o, pass.state, unmapped, &mut pass.pages);
    pass.state = next_state(o, pass.state, &entries[i]);
}

/// Looks through all entries.
fn look_through(
    alloc: Global,
    boot: &Boot,
    entries: &[Entry],
    o: ObjId,
) -> Result<ObjectPass, NoMemory>
    ensures { IfOk result (λ pass. tables.IsKnown boot.now (tables.past_at entries.now (length entries.now)) o pass) }
{
    let mut pass = ObjectPass {
        state: State::Nonvolatile,
        mappers: start_mappers(alloc, boot, o)?,
        pages: start_pages(alloc, boot, o)?,
    };
    for i in 0..entries.len() {
        advance(boot, entries, i, o, &mut pass);
    }
    Ok(pass)
}

/// What is known of a page.
#[derive(Clone, Copy)]
pub struct PageRow {
    pub page: PageId,
    pub facts: PageFacts,
    pub state: State,
    pub owner: Option<TaskId>,
}

fn row_at(o: ObjId, pass: &ObjectPass, k: u32) -> PageRow
    requires { k < length pass.now.pages.items }
    ensures page { result.page ≡ tables.page o k }
    ensures facts { result.facts ≡ get_or pass.now.pages.items k result.facts }
    ensures state { result.state ≡ pass.now.state }
    ensures owner { result.owner ≡ option_map (λ m. m.task) (find tables.is_mapping pass.now.mappers.items) }
{
    PageRow {
        page: PageId { obj: o, page: k },
        facts: facts_in(&pass.pages, k as usize),
        state: pass.state,
        owner: owner_in(&pass.mappers),
    }
}

/// Appends what is known of the pages of an object after these entries.
pub fn add_rows(
    alloc: Global,
    rows: &mut Vec<PageRow>,
    boot: &Boot,
    entries: &[Entry],
    o: ObjId,
) -> Result<(), NoMemory>
    ensures { OnOk result (rows.new.items ≡ rows.old.items ++ tables.object_rows boot.now (reverse entries.now) o) }
{
    let pass = look_through(alloc, boot, entries, o)?;
    let n = pages_in(boot, o);
    for k in 0..n {
        rows.reserve(1).map_err(|_| NoMemory)?;
        let PageRow {
            page,
            facts,
            state,
            owner,
        } = row_at(o, &pass, k);
        rows.push_reserved(PageRow {
            page,
            facts,
            state,
            owner,
        });
    }
    Ok(())
}

/// What is known of all pages after these entries, by their objects.
#[tactic(auto, using(kernel_model::proofs::Ranges::flat_range))]
pub fn all_rows(alloc: Global, boot: &Boot, entries: &[Entry]) -> Result<Vec<PageRow>, NoMemory>
    ensures { IfOk result (λ rows. rows.items ≡ tables.all_rows boot.now (reverse entries.now)) }
{
    let mut rows = Vec::new(alloc);
    let n = boot.objects().len();
    for i in 0..n {
        match ObjId::new(i as u32) {
            Some(o) => add_rows(alloc, &mut rows, boot, entries, o)?,
            None => unreachable!(),
        }
    }
    Ok(rows)
}

/// A number of pages or deadlines as the answers give it. So many that it doesn't fit have no memory.
pub fn small(n: usize) -> Result<u32, NoMemory>
    ensures { IfOk result (λ small. small ≡ n) }
{
    if n <= 0xffff_ffff {
        Ok(n as u32)
    } else {
        Err(NoMemory)
    }
}

/// The page is Active.
pub fn is_active(row: &PageRow) -> bool
    ensures { result ≡ spec.is_active row.now.facts.placed.place }
{
    matches!(row.facts.placed.place, Place::Active)
}

/// The page is Inactive.
pub fn is_inactive(row: &PageRow) -> bool
    ensures { result ≡ spec.is_inactive row.now.facts.placed.place }
{
    matches!(row.facts.placed.place, Place::Inactive)
}

/// The page is Stored.
pub fn is_stored(row: &PageRow) -> bool
    ensures { result ≡ spec.is_stored row.now.facts.placed.place }
{
    matches!(row.facts.placed.place, Place::Stored)
}

/// How many pages are Active.
#[tactic(auto, using(crate::proofs::PageTables::active_rows))]
pub fn active_pages(boot: &Boot, entries: &[Entry], rows: &[PageRow]) -> usize
    requires { rows.now ≡ tables.all_rows boot.now (reverse entries.now) }
    ensures { result ≡ spec.active_pages boot.now (reverse entries.now) }
{
    rows.iter().filter(|row| is_active(row)).count()
}

/// How many pages are Inactive.
#[tactic(auto, using(crate::proofs::PageTables::inactive_rows))]
pub fn inactive_pages(boot: &Boot, entries: &[Entry], rows: &[PageRow]) -> usize
    requires { rows.now ≡ tables.all_rows boot.now (reverse entries.now) }
    ensures { result ≡ spec.inactive_pages boot.now (reverse entries.now) }
{
    rows.iter().filter(|row| is_inactive(row)).count()
}

/// How many pages are Stored.
#[tactic(auto, using(crate::proofs::PageTables::stored_rows))]
pub fn stored_pages(boot: &Boot, entries: &[Entry], rows: &[PageRow]) -> usize
    requires { rows.now ≡ tables.all_rows boot.now (reverse entries.now) }
    ensures { result ≡ spec.stored_pages boot.now (reverse entries.now) }
{
    rows.iter().filter(|row| is_stored(row)).count()
}

/// The free frames.
#[tactic(auto, unfolding(kernel_model::specs::Pages::free))]
pub fn free(boot: &Boot, entries: &[Entry], rows: &[PageRow]) -> u32
    requires { rows.now ≡ tables.all_rows boot.now (reverse entries.now) }
    ensures { result ≡ spec.free boot.now (reverse entries.now) }
{
    let active = active_pages(boot, entries, rows);
    let inactive = inactive_pages(boot, entries, rows);
    let frames = boot.params().frames as usize;
    frames.saturating_sub(active).saturating_sub(inactive) as u32
}

#[tactic(auto, unfolding(kernel_model::specs::Pages::next_entered))]
fn next_entered(was: usize, e: &Entry) -> usize
    requires { was < 2 ^ 63 }
    ensures value { result ≡ spec.next_entered was e.now }
    ensures bound { result ≤ was + 1 }
{
    match e.reply {
        Reply::Moved(Move::Deactivated, _) => was + 1,
        _ => was,
    }
}

/// How many pages were ever deactivated.
#[tactic(auto, using(crate::proofs::Loops::entered_loop, crate::proofs::Loops::entered_none))]
pub fn entered(entries: &[Entry]) -> usize
    ensures { result ≡ spec.entered (reverse entries.now) }
{
    let mut entered = 0;
    for e in entries {
        entered = next_entered(entered, e);
    }
    entered
}

/// How many of these aren't Inactive any more.
#[tactic(auto, unfolding(kernel_model::specs::Pages::left))]
pub fn left(boot: &Boot, entries: &[Entry], rows: &[PageRow]) -> usize
    requires { rows.now ≡ tables.all_rows boot.now (reverse entries.now) }
    ensures { result ≡ spec.left boot.now (reverse entries.now) }
{
    entered(entries).saturating_sub(inactive_pages(boot, entries, rows))
}

fn is_out(row: &PageRow) -> bool
    ensures { result ≡ spec.is_out row.now.facts.placed.place }
{
    matches!(row.facts.placed.place, Place::Absent | Place::Stored)
}

/// How many of the covered pages of o are Absent or Stored.
#[tactic(auto, using(crate::proofs::PageTables::needed_rows))]
pub fn needed(
    alloc: Global,
    boot: &Boot,
    entries: &[Entry],
    o: ObjId,
    off: u32,
    len: u32,
) -> Result<usize, NoMemory>
    ensures { IfOk result (λ n. n ≡ answers.needed boot.now (reverse entries.now) o off len) }
{
    let mut rows = Vec::new(alloc);
    add_rows(alloc, &mut rows, boot, entries, o)?;
    Ok(needed_in(&rows, off, len))
}

fn needed_in(rows: &[PageRow], off: u32, len: u32) -> usize
    ensures { result ≡ count_by (λ row. events.reaches_page off len row.page.page && spec.is_out row.facts.placed.place) rows.now }
{
    rows.iter()
        .filter(|row| reaches_page(off, len, row.page.page) && is_out(row))
        .count()
}
