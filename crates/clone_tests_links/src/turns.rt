use clone_turn::{Adder, TurnCell, add_by_two};
use std::test::Fail;

#[test]
fn two_threads_add_2000(rt: HostRuntime) -> Result<(), Fail> {
    let added = add_by_two(&rt, rt.alloc(), 1_000)?;
    assert_eq!(rt; added.sum, 2_000);
    assert_eq!(rt; added.first.len(), 1_000);
    assert_eq!(rt; added.second.len(), 1_000);
    assert!(rt; added.first.is_sorted() && added.second.is_sorted());
    Ok(())
}

#[test]
fn a_pass_is_the_seat(rt: HostRuntime) -> Result<(), Fail> {
    let (cell, seat) = TurnCell::<Adder>::new(rt.alloc(), 41).map_err(|(refused, _)| refused)?;
    let mut seat = seat.into_pass().into_seat();
    assert_eq!(rt; cell.call(&rt, &mut seat, ()), 42);
    assert_eq!(rt; cell.close(&rt, seat), 42);
    Ok(())
}
