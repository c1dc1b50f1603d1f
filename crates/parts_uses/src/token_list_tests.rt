//! That tokens ripen in the order of their dues.

use kern_ids::replies::QueueCounts;
use std::test::Fail;
use token_list::TokenList;

#[test]
fn tokens_ripen_in_order(rt: HostRuntime) -> Result<(), Fail> {
    let mut list = TokenList::new(rt.alloc())?;
    list.entered(5);
    list.add();
    list.entered(2);
    list.add();
    list.insert(5);
    list.advance(5);
    assert_eq!(rt; list.due_at(2), Some(2));
    assert_eq!(rt;
        list.counts(),
        QueueCounts {
            tokens: 3,
            ripe: 2,
            next: 2,
            last: 2
        }
    );
    Ok(())
}
