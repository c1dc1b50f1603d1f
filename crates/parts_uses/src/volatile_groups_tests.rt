//! That groups are made, and who is first in them.

use kern_ids::calls::Queue;
use kern_ids::ids::ObjId;
use volatile_groups::Groups;

#[test]
fn the_first_of_each_group(rt: HostRuntime) {
    let made = Groups::new(rt.alloc());
    assert!(rt; made.is_ok());
    if let Ok(mut groups) = made
        && let Some(one) = ObjId::new(1)
        && let Some(two) = ObjId::new(2)
    {
        groups.enter(one, Queue::Lifo, 3);
        groups.enter(two, Queue::Lifo, 3);
        assert!(rt; groups.first(Queue::Lifo, 3) == Some(two));
        assert!(rt; groups.remove(two) == Queue::Lifo);
        assert!(rt; groups.first(Queue::Lifo, 3) == Some(one));
        assert!(rt; groups.first(Queue::Fifo, 3).is_none());
    }
}
