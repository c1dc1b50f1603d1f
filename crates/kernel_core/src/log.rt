//! The log of a kernel: the entries of its history in order, which are kept or which only proofs know.

ghost use Rattle.std.specs.Prelude.{◌≡◌, ◌≤◌, ◌-◌, ◌∷◌, ◌++◌, [], ℕ, List, length, OnOk};
ghost use Rattle.kern_ids.specs.declared.entries.Entry.{Entry as AnEntry};

use kern_ids::calls::Call;
use kern_ids::entries::{Entry, EntryList, NoMemory};
use kern_ids::ids::ThreadId;
use kern_ids::replies::Reply;

/// The most entries that a history has.
pub(crate) const MOST: usize = 4_294_967_296;

/// The entries of a history in order, and room for more.
pub trait Log: Drop {
    ghost list: { Self → List AnEntry };

    ghost spare: { Self → ℕ };

    /// How many entries there are.
    fn count(&self) -> usize
        ensures { result ≡ length (list self.now) };

    /// Makes room for n more entries. Without memory there is the room that there was, or more.
    fn make_room(&mut self, n: usize) -> Result<(), NoMemory>
        ensures list { list self.new ≡ list self.old }
        ensures room { OnOk result (n ≤ spare self.new) }
        ensures kept { spare self.old ≤ spare self.new };

    /// Appends an entry. Takes no memory.
    fn append(&mut self, who: ThreadId, call: &Call, reply: &Reply)
        requires { 1 ≤ spare self.old }
        ensures list { list self.new ≡ list self.old ++ record { who = who; call = call.now; reply = reply.now } ∷ [] }
        ensures spare { spare self.new ≡ spare self.old - 1 };
}

impl Log for EntryList {
    ghost list = { λ l. l.list };

    ghost spare = { λ l. l.spare };

    fn count(&self) -> usize {
        self.len()
    }

    fn make_room(&mut self, n: usize) -> Result<(), NoMemory> {
        self.reserve(n)
    }

    fn append(&mut self, who: ThreadId, call: &Call, reply: &Reply) {
        self.push(Entry {
            who,
            call: *call,
            reply: *reply,
        });
    }
}
