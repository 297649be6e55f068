// Each call of a map, with an entry that is held before, among or behind the others, and with none.
use super::Map;
use super::counts::{add_one, number_at, take_one};
use std::alloc::{AllocError, Global};
use std::ops::Bound;
use std::test::Fail;

// A map with the keys 10, 20 and 30, and another key that is held. At each key stands its double.
fn with_held(alloc: Global, held: u32) -> Result<Map<u32, u64>, AllocError> {
    let mut map = Map::new(alloc);
    for key in [10u32, 30, 20, held] {
        map.reserve()?;
        if !map.contains_key(&key) {
            map.insert_reserved(key, u64::from(key) * 2);
        }
    }
    Ok(map)
}

// The keys within a start.
fn keys_from(
    map: &Map<u32, u64>,
    start: Bound<&u32>,
    alloc: Global,
) -> Result<Vec<u32>, AllocError> {
    map.iter_from(start).map(|(key, _)| *key).collect(alloc)
}

#[test]
fn entries_are_found_in_order(rt: HostRuntime) -> Result<(), Fail> {
    for (held, all, from_20, behind_20) in [
        (5, [5u32, 10, 20, 30].as_slice(), [20u32, 30].as_slice(), 30),
        (20, [10, 20, 30].as_slice(), [20, 30].as_slice(), 30),
        (25, [10, 20, 25, 30].as_slice(), [20, 25, 30].as_slice(), 25),
        (35, [10, 20, 30, 35].as_slice(), [20, 30, 35].as_slice(), 30),
    ] {
        let map = with_held(rt.alloc(), held)?;
        assert_eq!(rt;
            keys_from(&map, Bound::Unbounded, rt.alloc())?.as_slice(),
            all
        );
        assert_eq!(rt;
            keys_from(&map, Bound::Included(&20), rt.alloc())?.as_slice(),
            from_20
        );
        assert_eq!(rt; map.first_from(Bound::Included(&20)), Some((&20, &40)));
        assert_eq!(rt;
            map.first_from(Bound::Excluded(&20)).map(|(key, _)| *key),
            Some(behind_20)
        );
        assert_eq!(rt; map.first_from(Bound::Excluded(&35)), None);
        assert_eq!(rt; map.len(), all.len());
        let mut seen = Vec::new(rt.alloc());
        for (key, value) in map.iter() {
            assert_eq!(rt; *value, u64::from(*key) * 2);
            seen.push(*key)?;
        }
        assert_eq!(rt; seen.as_slice(), all);
    }
    Ok(())
}

#[test]
fn values_change_and_entries_go(rt: HostRuntime) -> Result<(), Fail> {
    for held in [5, 25, 35] {
        let mut map = with_held(rt.alloc(), held)?;
        for key in [10, held, 30] {
            assert_eq!(rt; map.get(&key), Some(&(u64::from(key) * 2)));
            assert_eq!(rt; map.replace(&key, 7), Some(u64::from(key) * 2));
            assert_eq!(rt; map.remove(&key), Some(7));
            assert!(rt; !map.contains_key(&key));
            assert_eq!(rt; map.replace(&key, 8), None);
            assert_eq!(rt; map.remove(&key), None);
        }
        assert_eq!(rt;
            keys_from(&map, Bound::Unbounded, rt.alloc())?.as_slice(),
            [20u32].as_slice()
        );
        assert_eq!(rt; map.remove(&20), Some(40));
        assert!(rt; map.is_empty());
    }
    Ok(())
}

#[test]
fn numbers_are_counted_at_each_key(rt: HostRuntime) -> Result<(), Fail> {
    let mut counts: Map<u32, u32> = Map::new(rt.alloc());
    for key in [7, 9, 7] {
        counts.reserve()?;
        assert!(rt; number_at(&counts, key) < 2);
        add_one(&mut counts, key);
    }
    assert_eq!(rt; number_at(&counts, 8), 0);
    assert_eq!(rt; number_at(&counts, 7), 2);
    take_one(&mut counts, 7);
    assert_eq!(rt; number_at(&counts, 7), 1);
    assert_eq!(rt; number_at(&counts, 9), 1);
    take_one(&mut counts, 9);
    assert_eq!(rt; counts.len(), 1);
    Ok(())
}
