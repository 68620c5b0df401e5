// Slips that one gives and two take.
use slip_queue::{Slip, Slips};
use std::test::Fail;

#[test]
fn each_slip_is_taken_once(rt: HostRuntime) -> Result<(), Fail> {
    let (slips, mut giver) = Slips::<u32>::open(rt.alloc(), 2)?;
    let mut one = giver.taker(&slips);
    let mut two = giver.taker(&slips);
    assert!(rt; matches!(giver.give(&slips, Some(7)), Ok(1)));
    assert!(rt; matches!(giver.give(&slips, None), Ok(2)));
    assert!(rt; matches!(giver.give(&slips, Some(8)), Err(Some(8))));
    assert!(rt;
        matches!(
            one.take(&slips),
            Some(Slip {
                number: 1,
                work: Some(7)
            })
        )
    );
    assert!(rt;
        matches!(
            two.take(&slips),
            Some(Slip {
                number: 2,
                work: None
            })
        )
    );
    assert!(rt; one.take(&slips).is_none());
    assert!(rt; matches!(giver.give(&slips, Some(9)), Ok(3)));
    assert!(rt;
        matches!(
            one.take(&slips),
            Some(Slip {
                number: 3,
                work: Some(9)
            })
        )
    );
    giver.absorb(&slips, one);
    giver.absorb(&slips, two);
    giver.settle(&slips);
    Ok(())
}
