//! Which volatile object is purged: for a ripe token, or by force.
#![tactic(auto)]

ghost use Rattle.std.specs.Prelude.{◌≡◌, ◌↔◌, ◌⊎◌, ◌<◌, ℕ, List, [], ◌∷◌, ◌++◌, length, flat_map, map, option_map, slice_get, None, Some, IsNone, IfSome};
ghost use Rattle.std.specs.List.{range_with_len};
ghost use Rattle.kern_ids.specs.declared.calls.Queue.{Queue as AQueue};
ghost use Rattle.kernel_model.specs.Choice.{groups_of};
ghost use Rattle.ripen_advance.specs.Queues.{dues_in, CanServe};
ghost use Rattle.volatile_groups.specs.Grouped.{members};
ghost use Rattle.purge_pick.specs.Picks.{ripe_queue, picked, forced_of, first_of, both_places, HasTokens, HeadsGroup};

pub mod choice;
pub mod law;

use choice::Pick;
use kern_ids::calls::Queue;
use kern_ids::ids::ObjId;
use ripen_advance::TokenQueues;
use volatile_groups::Groups;

/// The object of a ripe purge; None exactly where no queue's first token is ripe.
///
/// The token queue is the first of OBSOLETE, LIFO, FIFO that is ripe. For OBSOLETE the object is the first of
/// its group 0. Otherwise the groups are gone through from 0 upward; in each the token queue's own first object
/// comes before that of the other aged queue.
pub fn pick(t: &TokenQueues, g: &Groups) -> Option<Pick>
    requires { HasTokens t.now g.now }
    ensures object { option_map (λ p. p.obj) result ≡ picked t.now g.now }
    ensures none { IsNone result ↔ (ripe_queue t.now ≡ None) }
    ensures token_queue { IfSome result (λ p. ripe_queue t.now ≡ Some p.token_queue) }
    ensures object_queue { IfSome result (λ p. HeadsGroup g.now p.object_queue p.obj) }
    ensures serves { IfSome result (λ p. CanServe p.token_queue p.object_queue) }
    ensures has_token { IfSome result (λ p. 0 < length (dues_in t.now p.object_queue)) }
{
    g.are_groups();
    let token_queue = first_ripe(t)?;
    let (obj, object_queue) = match token_queue {
        Queue::Obsolete => (g.first(Queue::Obsolete, 0)?, Queue::Obsolete),
        Queue::Lifo => first_of_both(g, Queue::Lifo, Queue::Fifo)?,
        Queue::Fifo => first_of_both(g, Queue::Fifo, Queue::Lifo)?,
    };
    Some(Pick {
        obj,
        token_queue,
        object_queue,
    })
}

/// The object of a forced purge: the first object of the least group of the first of FIFO, LIFO, OBSOLETE that
/// has one; None exactly where no group has an object.
pub fn forced(g: &Groups) -> Option<ObjId>
    ensures object { result ≡ forced_of g.now }
    ensures none { IsNone result ↔ ((q : AQueue) (n : ℕ) → n < 8 → members g.now q n ≡ []) }
{
    match first_of_queue(g, Queue::Fifo) {
        Some(o) => Some(o),
        None => match first_of_queue(g, Queue::Lifo) {
            Some(o) => Some(o),
            None => first_of_queue(g, Queue::Obsolete),
        },
    }
}

/// The first of OBSOLETE, LIFO, FIFO whose first token is ripe.
fn first_ripe(t: &TokenQueues) -> Option<Queue>
    ensures { result ≡ ripe_queue t.now }
{
    if t.ripe(Queue::Obsolete) {
        Some(Queue::Obsolete)
    } else if t.ripe(Queue::Lifo) {
        Some(Queue::Lifo)
    } else if t.ripe(Queue::Fifo) {
        Some(Queue::Fifo)
    } else {
        None
    }
}

/// The first object of two queues by group, in each group one of `own` before one of `other`, and its queue.
fn first_of_both(g: &Groups, own: Queue, other: Queue) -> Option<(ObjId, Queue)>
    ensures object { option_map (λ p. p.0) result ≡ first_of g.now (both_places own other (range_with_len 0 8)) }
    ensures heads { IfSome result (λ p. HeadsGroup g.now p.1 p.0) }
    ensures queue { IfSome result (λ p. (p.1 ≡ own) ⊎ (p.1 ≡ other)) }
{
    for group in 0..8 {
        if let Some(o) = g.first(own, group) {
            return Some((o, own));
        }
        if let Some(o) = g.first(other, group) {
            return Some((o, other));
        }
    }
    None
}

/// The first object of a queue by group.
fn first_of_queue(g: &Groups, q: Queue) -> Option<ObjId>
    ensures { result ≡ first_of g.now (groups_of q) }
{
    for group in 0..8 {
        if let Some(o) = g.first(q, group) {
            return Some(o);
        }
    }
    None
}
