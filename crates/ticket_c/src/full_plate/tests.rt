use crate::full_plate::FullPlate;
use action::actions::Action;
use action::steps::Steps;
use mechanism::fault::Fault;
use mechanism::mechanism::Mechanism;
use std::test::Fail;

/// It begins full, uses its paper, and is filled up where an action leaves less than 512; no cover and no supply changes what it holds.
#[test]
fn filled_up_in_time(rt: HostRuntime) -> Result<(), Fail> {
    let advance = Action::Advance(Steps::new(255).ok_or("no steps")?);
    let mut full = FullPlate::new();
    assert_eq!(rt; full.plate.reserve(), 10_000_000);
    assert!(rt; full.act(&advance).is_ok());
    assert!(rt; full.act(&Action::Beep).is_ok());
    assert_eq!(rt; full.plate.reserve(), 9_999_745);

    full.cover(true);
    assert!(rt; full.act(&advance) == Err(Fault::Stopped));
    assert_eq!(rt; full.supply(1_000), 0);
    full.cover(false);
    assert_eq!(rt; full.plate.reserve(), 9_999_745);

    for _ in 1..39_213 {
        assert!(rt; full.act(&advance).is_ok());
    }
    assert_eq!(rt; full.plate.reserve(), 685);
    assert_eq!(rt; full.status().status1, 0x56);
    assert!(rt; full.act(&advance).is_ok());
    assert_eq!(rt; full.plate.reserve(), 10_000_000);
    assert_eq!(rt; full.counts().advance, 9_999_570);
    assert_eq!(rt; full.counts().beeps, 1);
    Ok(())
}
