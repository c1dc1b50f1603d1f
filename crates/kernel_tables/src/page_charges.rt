//! What a page in another place changes in the account of the owner of its object.

ghost use Rattle.std.specs.Prelude.{◌≡◌, ◌<◌, ℕ, Some, length};
ghost use Rattle.task_ledger.specs.Accounts.{IsSummed};
ghost use Rattle.vm_object.specs.Objects.{object_at, owner as owner_of};
ghost use Rattle.kernel_tables.specs.Moves as moves;

use kern_ids::calls::State;
use kern_ids::ids::{ObjId, TaskId};
use kern_ids::replies::Counts;
use kernel_model::place::Place;
use task_ledger::Ledgers;
use vm_object::ObjectTable;

/// No page.
const NONE: Counts = Counts {
    res_non: 0,
    res_vol: 0,
    com_non: 0,
    com_vol: 0,
    footprint: 0,
};

/// What one page in a place adds to the counts of the owner of its object, by the object's state.
fn one_page(state: State, place: Place) -> Counts
    ensures value { result ≡ moves.one_page state place }
    ensures summed { IsSummed result }
{
    match place {
        Place::Absent => NONE,
        Place::Active | Place::Inactive => match state {
            State::Nonvolatile => Counts {
                res_non: 1,
                footprint: 1,
                ..NONE
            },
            State::Volatile => Counts { res_vol: 1, ..NONE },
            State::Empty => NONE,
        },
        Place::Stored => match state {
            State::Nonvolatile => Counts {
                com_non: 1,
                footprint: 1,
                ..NONE
            },
            State::Volatile => Counts { com_vol: 1, ..NONE },
            State::Empty => NONE,
        },
    }
}

/// A task is charged for one page that went to another place.
fn recount(ledgers: &mut Ledgers, t: TaskId, state: State, was: Place, now: Place)
    requires { moves.IsChargeable state was now ledgers.old t }
    ensures { ledgers.new ≡ moves.recharged (Some t) state was now ledgers.old }
{
    ledgers.take(t, &one_page(state, was));
    ledgers.add(t, &one_page(state, now));
}

/// The owner of an object, if it has one, is charged for one page of it that went to another place.
pub(crate) fn recharge(table: &ObjectTable, ledgers: &mut Ledgers, o: ObjId, was: Place, now: Place)
    requires object { o < length table.now }
    requires charged { (t : ℕ) → owner_of table.now o ≡ Some t → moves.IsChargeable (object_at table.now o).state was now ledgers.old t }
    ensures { ledgers.new ≡ moves.recharged (owner_of table.now o) (object_at table.now o).state was now ledgers.old }
{
    match table.owner(o) {
        None => {}
        Some(t) => {
            let state = table.state(o);
            recount(ledgers, t, state, was, now);
        }
    }
}
