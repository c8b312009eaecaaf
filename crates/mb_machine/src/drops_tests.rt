//! Counts of drops, where each reason dropped a packet.
use crate::{Drops, Reason};
use std::test::Fail;

#[test]
fn a_drop_counts_for_its_own_reason(rt: HostRuntime) -> Result<(), Fail> {
    let mut drops = Drops::none();
    assert_eq!(rt; drops.count(Reason::Done), 0);
    for reason in Reason::ALL {
        drops = drops.counted(reason);
    }
    let again = drops.counted(Reason::Block);
    for reason in Reason::ALL {
        assert_eq!(rt; drops.count(reason), 1);
        assert_eq!(rt;
            again.count(reason),
            if reason == Reason::Block { 2 } else { 1 }
        );
    }
    Ok(())
}
