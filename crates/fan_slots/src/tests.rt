// Values that come in no order, change in their places and go, and slots that are used again.
use super::Slots;
use fan_io::NoMemory;
use std::alloc::Global;
use std::test::Fail;

// At each of these numbers stands its double.
fn with_doubles(alloc: Global, numbers: &[u32]) -> Result<Slots<u64>, NoMemory> {
    let mut slots = Slots::new(alloc);
    for number in numbers {
        slots.reserve()?;
        if slots.get(*number).is_none() {
            slots.insert_reserved(*number, u64::from(*number) * 2);
        }
    }
    Ok(slots)
}

#[test]
fn values_are_found_by_their_numbers(rt: HostRuntime) -> Result<(), Fail> {
    let slots = with_doubles(rt.alloc(), &[30, 10, 20])?;
    assert_eq!(rt; slots.get(10), Some(&20));
    assert_eq!(rt; slots.get(20), Some(&40));
    assert_eq!(rt; slots.get(30), Some(&60));
    assert_eq!(rt; slots.get(0), None);
    assert_eq!(rt; slots.first(), Some(10));
    Ok(())
}

#[test]
fn a_value_changes_in_its_place(rt: HostRuntime) -> Result<(), Fail> {
    let mut slots = with_doubles(rt.alloc(), &[30, 10, 20])?;
    if let Some(value) = slots.get_mut(20) {
        *value = 7;
    }
    assert!(rt; slots.get_mut(15).is_none());
    assert_eq!(rt; slots.get(10), Some(&20));
    assert_eq!(rt; slots.get(20), Some(&7));
    assert_eq!(rt; slots.get(30), Some(&60));
    Ok(())
}

#[test]
fn a_slot_is_used_again_under_another_number(rt: HostRuntime) -> Result<(), Fail> {
    let mut slots = with_doubles(rt.alloc(), &[30, 10, 20])?;
    assert_eq!(rt; slots.remove(10), Some(20));
    assert_eq!(rt; slots.remove(10), None);
    assert_eq!(rt; slots.first(), Some(20));
    slots.reserve()?;
    if slots.get(5).is_none() {
        slots.insert_reserved(5, 1);
    }
    assert_eq!(rt; slots.get(10), None);
    assert_eq!(rt; slots.get(5), Some(&1));
    assert_eq!(rt; slots.get(20), Some(&40));
    assert_eq!(rt; slots.first(), Some(5));
    Ok(())
}

#[test]
fn nothing_is_in_new_slots(rt: HostRuntime) -> Result<(), Fail> {
    let mut slots: Slots<u64> = Slots::new(rt.alloc());
    assert_eq!(rt; slots.first(), None);
    assert_eq!(rt; slots.get(1), None);
    assert_eq!(rt; slots.remove(1), None);
    Ok(())
}
