//! The ripening tokens of one queue. A token is seen by its due: the pages that have still to leave
//! the inactive queue until it is ripe. It is kept as the difference of its due to that of the token
//! before it, so that a page that leaves changes one number.
#![tactic(auto)]

ghost use Rattle.std.specs.Prelude.{◌≡◌, ◌≤◌, ◌<◌, ◌+◌, ◌-◌, ◌^◌, ◌∷◌, ◌++◌, [], ℕ, length, slice_get, IfOk, All, true, false};
ghost use Rattle.std.specs.List.{remove};
ghost use Rattle.std.specs.List.Sorted.{IsNonDecreasing};
ghost use Rattle.std.proofs.Common.{set};
ghost use Rattle.token_list.specs.Dues.{lowered_by, put_due, begins_ripe, counts_of};
ghost use Rattle.token_list.specs.Slots.{Stands, StandsAt, number_at};

mod slot_ring;

use kern_ids::entries::NoMemory;
use kern_ids::replies::QueueCounts;
use slot_ring::{END, SlotRing};
use std::alloc::Global;
use std::marker::Model;

/// At most 256 tokens in the order of their dues, and how many pages are ahead: those that entered
/// the inactive queue and have not left it. No due is above that number. A token of due 0 is ripe.
#[derive(Drop)]
pub struct TokenList {
    /// For each token the difference of its due to that of the token before it, or its due; for the
    /// end what `ahead` is more than the last due.
    ring: SlotRing,
    /// The slot of the first token that isn't ripe, or the end.
    mark: usize,
    /// How many tokens are ripe.
    ripe: usize,
    ahead: u64,
}

impl Model for TokenList {
    ghost use Rattle.token_list.specs.Dues.{Tokens};

    ghost Value = { Tokens };

    ghost use Rattle.token_list.specs.Gaps.{tokens_of, IsTokens};

    ghost view = { tokens_of };

    ghost invariant = { IsTokens };
}

impl TokenList {
    /// No tokens, and no page ahead.
    pub fn new(alloc: Global) -> Result<TokenList, NoMemory>
        ensures { IfOk result (λ list. list ≡ record { dues = []; ahead = 0 }) }
    {
        Ok(TokenList {
            ring: SlotRing::new(alloc)?,
            mark: END,
            ripe: 0,
            ahead: 0,
        })
    }

    /// n pages entered.
    pub fn entered(&mut self, n: u32)
        requires { self.old.ahead + n < 2 ^ 32 }
        ensures dues { self.new.dues ≡ self.old.dues }
        ensures ahead { self.new.ahead ≡ self.old.ahead + n }
    {
        let rest = self.ring.number(END);
        self.ring.set_number(END, rest + n as u64);
        self.ahead += n as u64;
    }

    /// n pages left: each due falls by n, not below 0. Touches no ripe token, and costs at most the
    /// tokens that become ripe.
    pub fn advance(&mut self, n: u32)
        requires { n ≤ self.old.ahead }
        ensures dues { self.new.dues ≡ lowered_by n self.old.dues }
        ensures ahead { self.new.ahead ≡ self.old.ahead - n }
    {
        let mut left = n as u64;
        let mut gap = self.ring.number(self.mark);
        while gap <= left && self.mark != END {
            left -= gap;
            self.ring.set_number(self.mark, 0);
            self.mark = self.ring.after(self.mark);
            self.ripe += 1;
            gap = self.ring.number(self.mark);
        }
        self.ring.set_number(self.mark, gap - left);
        self.ahead -= n as u64;
    }

    /// One more token, after all others, that is ripe once all pages ahead have left.
    pub fn add(&mut self)
        requires { length self.old.dues < 256 }
        ensures dues { self.new.dues ≡ self.old.dues ++ self.old.ahead ∷ [] }
        ensures ahead { self.new.ahead ≡ self.old.ahead }
    {
        self.insert(self.ahead);
    }

    /// One more token, after all whose dues aren't greater. Costs at most the tokens whose dues are.
    pub fn insert(&mut self, due: u64)
        requires room { length self.old.dues < 256 }
        requires within { due ≤ self.old.ahead }
        ensures dues { self.new.dues ≡ put_due due self.old.dues }
        ensures ahead { self.new.ahead ≡ self.old.ahead }
    {
        let mut place = self.ring.len();
        let mut at = END;
        let mut before = self.ahead - self.ring.number(END);
        while before > due {
            place -= 1;
            at = self.ring.before(at);
            before -= self.ring.number(at);
        }
        let gap = due - before;
        let rest = self.ring.number(at) - gap;
        self.ring.set_number(at, rest);
        let slot = self.ring.insert_before(at, gap);
        mark_new(&mut self.ripe, &mut self.mark, place, slot, due == 0);
    }

    /// Drops the first token; answers its due.
    pub fn drop_first(&mut self) -> u64
        requires { 0 < length self.old.dues }
        ensures dues { self.old.dues ≡ result ∷ self.new.dues }
        ensures ahead { self.new.ahead ≡ self.old.ahead }
        ensures within { result ≤ self.old.ahead }
        ensures room { length self.new.dues < 256 }
    {
        let slot = self.ring.first();
        let due = self.ring.number(slot);
        let after = take_out(&mut self.ring, slot);
        unmark(&mut self.ripe, &mut self.mark, 0, after);
        due
    }

    /// Drops the last token; answers its due.
    pub fn drop_last(&mut self) -> u64
        requires { 0 < length self.old.dues }
        ensures dues { self.old.dues ≡ self.new.dues ++ result ∷ [] }
        ensures ahead { self.new.ahead ≡ self.old.ahead }
        ensures within { result ≤ self.old.ahead }
        ensures room { length self.new.dues < 256 }
    {
        let place = self.ring.len() - 1;
        let due = self.ahead - self.ring.number(END);
        let slot = self.ring.last();
        let after = take_out(&mut self.ring, slot);
        unmark(&mut self.ripe, &mut self.mark, place, after);
        due
    }

    /// Whether there is a first token, and it is ripe.
    pub fn first_is_ripe(&self) -> bool
        ensures { result ≡ begins_ripe self.now.dues }
    {
        self.ripe > 0
    }

    /// The due of token k, from 0, if there are so many.
    pub fn due_at(&self, k: u32) -> Option<u64>
        ensures { result ≡ slice_get self.now.dues k }
    {
        if k as usize >= self.ring.len() {
            return None;
        }
        let mut slot = self.ring.first();
        let mut due = self.ring.number(slot);
        for place in 0..k {
            slot = self.ring.after(slot);
            due += self.ring.number(slot);
        }
        Some(due)
    }

    /// The number of tokens and of ripe ones, the due of the first that isn't ripe, and that of the
    /// last, each 0 where there is none.
    pub fn counts(&self) -> QueueCounts
        ensures counts { result ≡ counts_of self.now.dues }
        ensures rising { IsNonDecreasing self.now.dues }
        ensures within { All (λ d. d ≤ self.now.ahead) self.now.dues }
        ensures size { length self.now.dues ≤ 256 }
    {
        QueueCounts {
            tokens: self.ring.len() as u32,
            ripe: self.ripe as u32,
            next: if self.mark == END {
                0
            } else {
                self.ring.number(self.mark)
            },
            last: self.ahead - self.ring.number(END),
        }
    }
}

/// Takes a slot out of use, and adds its number to that of the one after it, which it answers.
fn take_out(ring: &mut SlotRing, slot: usize) -> usize
    requires bound { slot < 256 }
    requires stands { Stands ring.old.slots slot }
    requires fits { (p : ℕ) → StandsAt ring.old.slots p slot → number_at ring.old.numbers p + number_at ring.old.numbers (p + 1) < 2 ^ 64 }
    ensures slots { (p : ℕ) → StandsAt ring.old.slots p slot → ring.new.slots ≡ remove ring.old.slots p }
    ensures numbers { (p : ℕ) → StandsAt ring.old.slots p slot → ring.new.numbers ≡ remove (set ring.old.numbers (p + 1) (number_at ring.old.numbers p + number_at ring.old.numbers (p + 1))) p }
    ensures after { (p : ℕ) → StandsAt ring.old.slots p slot → StandsAt ring.old.slots (p + 1) result }
{
    let after = ring.after(slot);
    let joined = ring.number(slot) + ring.number(after);
    ring.set_number(after, joined);
    ring.remove(slot);
    after
}

/// The mark once the token at a place has gone, and `after` is there.
fn unmark(ripe: &mut usize, mark: &mut usize, place: usize, after: usize)
    ensures ripe_one { place < ripe.old → (ripe.new ≡ ripe.old - 1) × (mark.new ≡ mark.old) }
    ensures first_unripe { place ≡ ripe.old → (ripe.new ≡ ripe.old) × (mark.new ≡ after) }
    ensures later { ripe.old < place → (ripe.new ≡ ripe.old) × (mark.new ≡ mark.old) }
{
    if place < *ripe {
        *ripe -= 1;
    } else if place == *ripe {
        *mark = after;
    }
}

/// The mark once a token has come to a place after all ripe ones.
fn mark_new(ripe: &mut usize, mark: &mut usize, place: usize, slot: usize, is_ripe: bool)
    requires { ripe.old < 2 ^ 32 }
    ensures ripe_one { is_ripe ≡ true → (ripe.new ≡ ripe.old + 1) × (mark.new ≡ mark.old) }
    ensures first_unripe { is_ripe ≡ false → place ≡ ripe.old → (ripe.new ≡ ripe.old) × (mark.new ≡ slot) }
    ensures later { is_ripe ≡ false → ripe.old < place → (ripe.new ≡ ripe.old) × (mark.new ≡ mark.old) }
{
    if is_ripe {
        *ripe += 1;
    } else if place == *ripe {
        *mark = slot;
    }
}
