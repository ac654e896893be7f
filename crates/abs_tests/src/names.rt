//! Bounded names of cogs: the place comes first, and no more places are kept than the depth says.
use name_bounding::{Name, bound};
use std::test::Fail;

// The name of the cog made at 1 by the one made at 2 by the one made at 3.
fn deep() -> Name {
    bound(1, &bound(2, &bound(3, &Name::of_main(), 3), 3), 3)
}

#[test]
fn bounded_names(rt: HostRuntime) -> Result<(), Fail> {
    let main = Name::of_main();
    let nine = bound(9, &main, 3);
    assert!(rt; bound(7, &main, 1).places() == [7].as_slice());
    assert!(rt; bound(7, &nine, 1).places() == [7].as_slice());
    assert!(rt; bound(7, &nine, 2).places() == [7, 9].as_slice());
    assert!(rt; bound(7, &nine, 3).places() == [7, 9].as_slice());
    assert!(rt; deep().places() == [1, 2, 3].as_slice());
    assert!(rt; bound(7, &deep(), 3).places() == [7, 1, 2].as_slice());
    Ok(())
}
