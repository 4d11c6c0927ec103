use crate::odd::OddMechanism;
use action::actions::Action;
use mechanism::fault::Fault;
use mechanism::mechanism::Mechanism;
use reading::Reply;
use std::test::Fail;

/// A stopped mechanism replies, and beeps once its cover is closed.
#[test]
fn stopped_until_closed(rt: HostRuntime) -> Result<(), Fail> {
    let mut m = OddMechanism::new();
    assert!(rt; m.act(&Action::Beep) == Err(Fault::Stopped));
    assert!(rt; Fault::Stopped.number() == 4);
    assert!(rt; m.act(&Action::Reply(Reply::Identity)).is_ok());
    m.cover(false);
    assert!(rt; m.act(&Action::Beep).is_ok());
    assert!(rt; m.status().status1 == 0x56);
    Ok(())
}
