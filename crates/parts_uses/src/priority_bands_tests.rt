//! That bands are made, and in which order tasks are found in them.

use kern_ids::ids::{Band, TaskId};
use priority_bands::Bands;

#[test]
fn tasks_are_found_from_the_lowest_band(rt: HostRuntime) {
    let made = Bands::new(rt.alloc());
    assert!(rt; made.is_ok());
    if let Ok(mut bands) = made
        && let Some(one) = TaskId::new(1)
        && let Some(two) = TaskId::new(2)
        && let Some(low) = Band::new(3)
        && let Some(high) = Band::new(7)
    {
        bands.place(one, high);
        bands.place(two, low);
        bands.place(two, low);
        assert!(rt; bands.band_of(two) == Some(low));
        assert!(rt; bands.first_from(low, |_| true) == Some(two));
        assert!(rt; bands.first_from(low, |t| t.get() == 1) == Some(one));
        assert!(rt; bands.next(two).is_none());
        bands.remove(one);
        assert!(rt; bands.first(high).is_none());
    }
}
