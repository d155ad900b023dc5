//! The sequences of a worked test.
use seq_conv::{Origin, Sequences};
use std::test::Fail;
use worked_texts::{COWW, test_of};

/// The two stores of the one thread have the odd and the even values.
#[test]
fn values_and_their_owners(rt: HostRuntime) -> Result<(), Fail> {
    let test = test_of(rt.alloc(), COWW).ok_or("it is a test")?;
    let sequences = Sequences::of(rt.alloc(), &test)?;
    assert!(rt; test.threads() == 1);
    assert!(rt; test.body(0).len() == 3);
    assert!(rt; test.locations().len() == 1);
    assert_eq!(rt; sequences.stores(0), 2);
    assert_eq!(rt; sequences.sites(0).len(), 2);
    assert_eq!(rt; sequences.rank(0, 1), 2);
    assert_eq!(rt; sequences.value(0, 1, 99999), 200000);
    let rows = [
        (0, None),
        (1, Some((0, 0))),
        (2, Some((1, 0))),
        (4, Some((1, 1))),
    ];
    for (value, want) in rows {
        let owner = want.map(|(place, iteration)| Origin {
            thread: 0,
            place,
            iteration,
        });
        assert_eq!(rt; sequences.owner(0, value), owner, "at {value}");
    }
    Ok(())
}
