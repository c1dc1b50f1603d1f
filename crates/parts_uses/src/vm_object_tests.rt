//! That objects are made, and whose they are then.

use kern_ids::calls::{Queue, Wish};
use kern_ids::ids::{ObjId, PageId, TaskId};
use kern_ids::lines::TaskLine;
use kernel_model::boot::ObjBoot;
use vm_object::ObjectTable;

#[test]
fn two_tasks_share_an_object(rt: HostRuntime) {
    let mut tasks = TaskLine::new();
    if let Some(o) = ObjId::new(0)
        && let Some(three) = TaskId::new(3)
        && let Some(sixty) = TaskId::new(60)
    {
        tasks.push(three);
        tasks.push(sixty);
        let made = ObjectTable::new(rt.alloc(), &[ObjBoot { tasks, pages: 2 }]);
        assert!(rt; made.is_ok());
        if let Ok(mut objects) = made {
            assert!(rt; objects.owner(o).is_none());
            assert!(rt; objects.shares(o, sixty));
            objects.map(o, sixty);
            assert!(rt; objects.owner(o) == Some(sixty));
            assert!(rt; objects.shares(o, three));
            objects.attach(o, three);
            assert!(rt; objects.owner(o) == Some(three));
            objects.mark_written(PageId { obj: o, page: 1 });
            let answer = objects.set_state(
                o,
                Wish::Volatile {
                    queue: Queue::Lifo,
                    group: 2,
                },
                None,
            );
            assert!(rt; answer.enter == Some((Queue::Lifo, 2)));
            assert!(rt; objects.is_written(PageId { obj: o, page: 1 }));
            assert!(rt; !objects.unmap(o, three));
            assert!(rt; objects.unmap(o, sixty));
        }
    }
}
