use clone_track::Tracker;
use std::alloc::AllocError;

// What is noted before tracking starts isn't listed.
#[test]
fn starts_with_pages_in_flight(rt: HostRuntime) -> Result<(), AllocError> {
    let mut tracker = Tracker::new(rt.alloc());
    tracker.note(1, 2)?;
    tracker.start(&[(5, 2), (0, 9), (5, 2)])?;
    for (space, page) in [(0, 70_000), (5, 1), (0, 9)] {
        tracker.note(space, page)?;
    }
    let list = [(0, 9), (0, 70_000), (5, 1), (5, 2)];
    assert!(rt; tracker.stop().as_slice() == list.as_slice());
    Ok(())
}
