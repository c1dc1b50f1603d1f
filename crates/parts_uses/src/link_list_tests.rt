//! That lists are made, and in which order they are gone through.

use link_list::Lists;

#[test]
fn keys_come_in_order(rt: HostRuntime) {
    let made: Result<Lists<2>, _> = Lists::new(rt.alloc(), 5);
    assert!(rt; made.is_ok());
    if let Ok(mut lists) = made {
        lists.push_back(0, 3);
        lists.push_back(0, 1);
        lists.push_front(0, 4);
        lists.push_front(1, 0);
        lists.remove(3);
        assert!(rt; lists.front(0) == Some(4));
        assert!(rt; lists.next(4) == Some(1));
        assert!(rt; lists.next(1).is_none());
        assert!(rt; lists.list_of(0) == Some(1));
        assert!(rt; lists.list_of(3).is_none());
    }
}
