//! The state of an object.

ghost use Rattle.std.specs.Prelude.{◌≡◌, reverse};
ghost use Rattle.kernel_model.specs.State as states;
ghost use Rattle.kernel_model.specs.Contents as contents;

use kern_ids::calls::{State, Wish};
use kern_ids::entries::Entry;
use kern_ids::ids::ObjId;
use kernel_model::events::{asked, is_map, is_purge};

/// The state that a SetState leaves.
pub fn state_asked(was: State, wish: Wish) -> State
    ensures { result ≡ states.state_asked was wish }
{
    match wish {
        Wish::Nonvolatile => State::Nonvolatile,
        Wish::Empty => State::Empty,
        Wish::Volatile { .. } => match was {
            State::Empty => State::Empty,
            _ => State::Volatile,
        },
    }
}

/// The state after one entry more.
#[tactic(auto, unfolding(kernel_model::specs::State::next_state))]
pub fn next_state(o: ObjId, was: State, e: &Entry) -> State
    ensures { result ≡ states.next_state o was e.now }
{
    if is_map(o, e) {
        State::Nonvolatile
    } else if is_purge(o, e) {
        State::Empty
    } else {
        match asked(o, e) {
            Some(wish) => state_asked(was, wish),
            None => was,
        }
    }
}

/// The state of o after these entries.
#[tactic(auto, using(crate::proofs::Loops::state_loop, crate::proofs::Loops::state_none))]
pub fn state(entries: &[Entry], o: ObjId) -> State
    ensures { result ≡ states.state (reverse entries.now) o }
{
    let mut state = State::Nonvolatile;
    for e in entries {
        state = next_state(o, state, e);
    }
    state
}

/// The entry empties o, which was in this state before.
pub fn empties_from(was: State, o: ObjId, e: &Entry) -> bool
    ensures { result ≡ contents.empties_from was o e.now }
{
    is_map(o, e)
        || is_purge(o, e)
        || (matches!(asked(o, e), Some(Wish::Empty)) && !matches!(was, State::Empty))
}

/// The object is EMPTY.
pub fn is_empty(entries: &[Entry], o: ObjId) -> bool
    ensures { result ≡ states.is_empty (states.state (reverse entries.now) o) }
{
    matches!(state(entries, o), State::Empty)
}
