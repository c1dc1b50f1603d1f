//! Why a call is refused: the first of the causes that applies.

ghost use Rattle.std.specs.Prelude.{◌≡◌, ◌<◌, ◌≤◌, ◌+◌, ◌*◌, ◌^◌, ◌&&◌, List, Option, None, length, nat_lt, IfSome, IsTrue, true, false};
ghost use Rattle.std.specs.Option.{unwrap_or};
ghost use Rattle.kern_ids.specs.declared.entries.Entry.{Entry};
ghost use Rattle.kernel_model.specs.Answers as spec;
ghost use Rattle.kernel_model.specs.Events as events;
ghost use Rattle.kernel_model.specs.Histories.{fits};
ghost use Rattle.kernel_model.specs.State as states;
ghost use Rattle.kernel_model.specs.Mapping.{mapped};
ghost use Rattle.kernel_model.specs.Laws.Frames.{bit};
ghost use Rattle.kernel_tables.specs.Values.{values};
ghost use Rattle.kernel_tables.specs.Stands.{Stands};
ghost use Rattle.kernel_model.specs.Pages.{place, pages_in, free};
ghost use Rattle.kernel_tables.specs.Asked.{IsAsked};

use crate::parts::Parts;
use kern_ids::calls::{Call, State, decode_word};
use kern_ids::ids::{ObjId, PageId, TaskId, ThreadId};
use kern_ids::replies::Refusal;
use kernel_model::boot::Boot;
use kernel_model::events::task_of;
use kernel_model::place::Place;

/// The object that a call names.
pub fn object_of(call: &Call) -> Option<ObjId>
    ensures { result ≡ spec.object_of call.now }
{
    match call {
        Call::Map { obj } => Some(*obj),
        Call::Attach { obj } => Some(*obj),
        Call::Unmap { obj } => Some(*obj),
        Call::Write { obj, .. } => Some(*obj),
        Call::Read { obj, .. } => Some(*obj),
        Call::SetState { obj, .. } => Some(*obj),
        Call::GetState { obj } => Some(*obj),
        _ => None,
    }
}

/// The task that a SetBand or a SetLimits names.
pub fn named_task(call: &Call) -> Option<TaskId>
    ensures { result ≡ spec.named_task call.now }
{
    match call {
        Call::SetBand { task, .. } => Some(*task),
        Call::SetLimits { task, .. } => Some(*task),
        _ => None,
    }
}

fn invalid(call: &Call) -> bool
    ensures { result ≡ spec.invalid call.now }
{
    match call {
        Call::SetState { word, .. } => decode_word(*word).is_none(),
        _ => false,
    }
}

/// The task of a task thread.
pub fn caller(boot: &Boot, who: ThreadId) -> TaskId
    ensures { result ≡ unwrap_or (events.task_of boot.now who) 0 }
{
    match task_of(boot, who) {
        Some(t) => t,
        None => TaskId::ZERO,
    }
}

fn is_out(place: Place) -> bool
    ensures { result ≡ Rattle.kernel_model.specs.Pages.is_out place }
{
    matches!(place, Place::Absent | Place::Stored)
}

// Whether bytes of an object reach a page.
fn reaches(off: u32, len: u32, k: u32) -> bool
    requires { k ≤ 2 ^ 20 }
    ensures { result ≡ events.reaches_page off len k }
{
    let start = 4096 * u64::from(k);
    u64::from(off) < start + 4096 && start < u64::from(off) + u64::from(len) && 0 < len
}

fn one_if(held: bool) -> u32
    ensures value { result ≡ bit held }
    ensures small { result ≤ 1 }
{
    if held { 1 } else { 0 }
}

impl Parts {
    /// The task of a task thread.
    fn task_in(&self, who: ThreadId) -> Option<TaskId>
        ensures value { result ≡ events.task_of self.now.boot who }
        ensures declared { IfSome result (λ t. t < length self.now.boot.tasks) }
    {
        self.boot.valid();
        task_of(&self.boot, who)
    }

    fn is_dead(&self, t: Option<TaskId>) -> bool
        ghost past: { List Entry }
        requires stands { Stands (values self.now) past }
        requires declared { IfSome t (λ u. u < length self.now.boot.tasks) }
        ensures { result ≡ spec.is_dead self.now.boot past t }
    {
        match t {
            Some(t) => !self.tasks.ledgers.is_live(t),
            None => false,
        }
    }

    fn shares(&self, o: ObjId, t: TaskId) -> bool
        ghost past: { List Entry }
        requires stands { Stands (values self.now) past }
        requires object { o < length self.now.boot.objects }
        ensures { result ≡ spec.shares self.now.boot o t }
    {
        self.objects.table.shares(o, t)
    }

    fn maps(&self, o: ObjId, t: TaskId) -> bool
        ghost past: { List Entry }
        requires stands { Stands (values self.now) past }
        requires object { o < length self.now.boot.objects }
        ensures { result ≡ Rattle.kernel_model.specs.Mapping.maps self.now.boot past o t }
    {
        self.objects.table.maps(o, t)
    }

    /// Whether some task maps an object.
    pub(crate) fn is_mapped(&self, o: ObjId) -> bool
        ghost past: { List Entry }
        requires stands { Stands (values self.now) past }
        requires object { o < length self.now.boot.objects }
        ensures { result ≡ mapped self.now.boot past o }
    {
        self.boot.valid();
        self.objects.table.is_mapped(o)
    }

    /// The state of a mapped object.
    pub(crate) fn state(&self, o: ObjId) -> State
        ghost past: { List Entry }
        requires stands { Stands (values self.now) past }
        requires object { o < length self.now.boot.objects }
        requires mapped { mapped self.now.boot past o ≡ true }
        ensures { result ≡ states.state past o }
    {
        self.objects.table.state(o)
    }

    fn is_stranger(&self, t: TaskId, call: &Call) -> bool
        ghost past: { List Entry }
        requires stands { Stands (values self.now) past }
        requires asked { IsAsked self.now.boot t call.now }
        ensures { result ≡ spec.is_stranger self.now.boot t call.now }
    {
        match object_of(call) {
            Some(o) => !self.shares(o, t),
            None => false,
        }
    }

    fn no_object(&self, t: TaskId, call: &Call) -> bool
        ghost past: { List Entry }
        requires stands { Stands (values self.now) past }
        requires asked { IsAsked self.now.boot t call.now }
        ensures { result ≡ spec.no_object self.now.boot past t call.now }
    {
        match call {
            Call::Attach { obj } => !self.is_mapped(*obj),
            Call::Unmap { obj } => !self.maps(*obj, t),
            Call::Write { obj, .. } => !self.maps(*obj, t),
            Call::Read { obj, .. } => !self.maps(*obj, t),
            Call::SetState { obj, .. } => !self.maps(*obj, t),
            Call::GetState { obj } => !self.maps(*obj, t),
            _ => false,
        }
    }

    fn already(&self, t: TaskId, call: &Call) -> bool
        ghost past: { List Entry }
        requires stands { Stands (values self.now) past }
        requires asked { IsAsked self.now.boot t call.now }
        ensures { result ≡ spec.already self.now.boot past t call.now }
    {
        match call {
            Call::Map { obj } => self.is_mapped(*obj),
            Call::Attach { obj } => self.maps(*obj, t),
            _ => false,
        }
    }

    fn bad_range(&self, o: ObjId, off: u32, len: u32) -> bool
        ghost past: { List Entry }
        requires stands { Stands (values self.now) past }
        requires object { o < length self.now.boot.objects }
        ensures { result ≡ spec.bad_range self.now.boot o off len }
    {
        let pages = self.objects.table.pages(o);
        len == 0 || 256 < len || 4096 * u64::from(pages) < u64::from(off) + u64::from(len)
    }

    fn out_of_range(&self, t: TaskId, call: &Call) -> bool
        ghost past: { List Entry }
        requires stands { Stands (values self.now) past }
        requires asked { IsAsked self.now.boot t call.now }
        ensures { result ≡ spec.out_of_range self.now.boot call.now }
    {
        match call {
            Call::Write { obj, off, bytes } => {
                self.bad_range(*obj, *off, bytes.as_slice().len() as u32)
            }
            Call::Read { obj, off, len } => self.bad_range(*obj, *off, *len),
            _ => false,
        }
    }

    fn emptied(&self, t: TaskId, call: &Call) -> bool
        ghost past: { List Entry }
        requires stands { Stands (values self.now) past }
        requires asked { IsAsked self.now.boot t call.now }
        requires mapped { spec.no_object self.now.boot past t call.now ≡ false }
        ensures { result ≡ spec.emptied past call.now }
    {
        match call {
            Call::Write { obj, .. } => matches!(self.state(*obj), State::Empty),
            _ => false,
        }
    }

    /// Whether bytes of an object reach a page of it that is in no frame.
    pub(crate) fn is_needed(&self, o: ObjId, off: u32, len: u32, k: u32) -> bool
        ghost past: { List Entry }
        requires stands { Stands (values self.now) past }
        requires object { o < length self.now.boot.objects }
        requires page { k ≤ 2 ^ 20 }
        ensures { result ≡ (nat_lt k (pages_in self.now.boot o) && (events.reaches_page off len k && Rattle.kernel_model.specs.Pages.is_out (place self.now.boot past (record { obj = o; page = k })))) }
    {
        if self.objects.table.pages(o) <= k {
            return false;
        }
        let page = PageId { obj: o, page: k };
        reaches(off, len, k) && is_out(self.objects.pages.place(page))
    }

    // Bytes in range reach at most two pages.
    fn needed(&self, o: ObjId, off: u32, len: u32) -> u32
        ghost past: { List Entry }
        requires stands { Stands (values self.now) past }
        requires object { o < length self.now.boot.objects }
        requires range { spec.bad_range self.now.boot o off len ≡ false }
        ensures { result ≡ spec.needed self.now.boot past o off len }
    {
        let first = off / 4096;
        one_if(self.is_needed(o, off, len, first)) + one_if(self.is_needed(o, off, len, first + 1))
    }

    fn short_of(&self, o: ObjId, off: u32, len: u32) -> Option<Refusal>
        ghost past: { List Entry }
        requires stands { Stands (values self.now) past }
        requires object { o < length self.now.boot.objects }
        requires range { spec.bad_range self.now.boot o off len ≡ false }
        ensures { result ≡ spec.short_of self.now.boot past (spec.needed self.now.boot past o off len) }
    {
        let needed = self.needed(o, off, len);
        let free = self.objects.pages.counts().free;
        if free < needed {
            Some(Refusal::Shortage { needed, free })
        } else {
            None
        }
    }

    fn shortage(&self, t: TaskId, call: &Call) -> Option<Refusal>
        ghost past: { List Entry }
        requires stands { Stands (values self.now) past }
        requires asked { IsAsked self.now.boot t call.now }
        requires mapped { spec.no_object self.now.boot past t call.now ≡ false }
        requires range { spec.out_of_range self.now.boot call.now ≡ false }
        ensures { result ≡ spec.shortage self.now.boot past call.now }
    {
        match call {
            Call::Write { obj, off, bytes } => {
                let len = bytes.as_slice().len() as u32;
                self.short_of(*obj, *off, len)
            }
            Call::Read { obj, off, len } => {
                if matches!(self.state(*obj), State::Empty) {
                    None
                } else {
                    self.short_of(*obj, *off, *len)
                }
            }
            _ => None,
        }
    }

    /// Why a call is refused, if it is.
    #[tactic(auto, unfolding(kernel_model::specs::Answers::refusal))]
    pub(crate) fn refusal(&self, who: ThreadId, call: &Call) -> Option<Refusal>
        ghost past: { List Entry }
        requires stands { Stands (values self.now) past }
        requires fits { IsTrue (fits self.now.boot who call.now) }
        ensures { result ≡ spec.refusal self.now.boot past who call.now }
    {
        let t = caller(&self.boot, who);
        if self.is_dead(self.task_in(who)) || self.is_dead(named_task(call)) {
            return Some(Refusal::Dead);
        }
        if self.is_stranger(t, call) {
            return Some(Refusal::NotMine);
        }
        if self.no_object(t, call) {
            return Some(Refusal::NoObject);
        }
        if self.already(t, call) {
            return Some(Refusal::Already);
        }
        if invalid(call) {
            return Some(Refusal::Invalid);
        }
        if self.out_of_range(t, call) {
            return Some(Refusal::Range);
        }
        if self.emptied(t, call) {
            return Some(Refusal::Emptied);
        }
        self.shortage(t, call)
    }
}
