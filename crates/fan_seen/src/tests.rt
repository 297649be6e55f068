// Objects that are added, and others.
use super::Seen;
use std::test::Fail;

#[test]
fn what_was_added_is_there_and_nothing_else(rt: HostRuntime) -> Result<(), Fail> {
    let mut seen = Seen::new(rt.alloc())?;
    seen.add(4);
    seen.add(65_535);
    for (object, added) in [
        (0, false),
        (3, false),
        (4, true),
        (5, false),
        (65_535, true),
    ] {
        assert_eq!(rt; seen.has(object), added, "of object {object}");
    }
    assert!(rt; !seen.has(65_536));
    Ok(())
}
