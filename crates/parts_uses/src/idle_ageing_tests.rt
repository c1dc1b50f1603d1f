//! That ages are made, and that the delay-th tick ages a task.

use idle_ageing::Ages;
use kern_ids::ids::{Band, TaskId};
use priority_bands::Bands;

#[test]
fn the_second_tick_ages(rt: HostRuntime) {
    let ages = Ages::new(rt.alloc(), &[1, 2]);
    let bands = Bands::new(rt.alloc());
    assert!(rt; ages.is_ok() && bands.is_ok());
    if let Ok(mut ages) = ages
        && let Ok(mut bands) = bands
        && let Some(one) = TaskId::new(1)
        && let Some(low) = Band::new(1)
    {
        bands.place(one, low);
        ages.restart(one);
        assert!(rt; ages.tick(&bands).len() == 0);
        let line = ages.tick(&bands);
        assert!(rt; line.len() == 1 && line.get(0) == Some(one));
        assert!(rt; ages.tick(&bands).len() == 0);
    }
}
