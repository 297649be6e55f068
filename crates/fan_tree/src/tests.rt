// Trees and their refusals.
use super::inode::{About, TreeRefused};
use super::tree::Tree;
use fan_bits::Errno;
use std::alloc::Global;
use std::test::Fail;

// A tree with the directory `d`, 4, at its root, and in it the file `f`, 5.
fn small_tree(alloc: Global) -> Result<Tree, TreeRefused> {
    let mut tree = Tree::new(alloc);
    tree.make(2, b"d".as_slice(), true)?;
    tree.make(4, b"f".as_slice(), false)?;
    Ok(tree)
}

#[test]
fn entries_are_found_where_they_were_made(rt: HostRuntime) -> Result<(), Fail> {
    let tree = small_tree(rt.alloc())?;
    assert_eq!(rt; tree.child(2, b"d".as_slice()), Some(4));
    assert_eq!(rt; tree.child(4, b"f".as_slice()), Some(5));
    assert_eq!(rt; tree.child(2, b"f".as_slice()), None);
    assert_eq!(rt; tree.child(4, b"d".as_slice()), None);
    assert_eq!(rt; tree.child(2, b"".as_slice()), None);
    let file = About { fs: 1, dir: false };
    assert_eq!(rt; tree.about(5), Some(file));
    assert_eq!(rt; tree.about(3), None);
    assert_eq!(rt; tree.about(6), None);
    Ok(())
}

#[test]
fn a_filesystem_gets_a_number_and_its_root_the_next(rt: HostRuntime) -> Result<(), Fail> {
    let mut tree = small_tree(rt.alloc())?;
    assert_eq!(rt; tree.make_fs(), Ok(6));
    assert_eq!(rt; tree.root(6), Some(7));
    assert_eq!(rt; tree.root(1), Some(2));
    assert_eq!(rt; tree.root(7), None);
    assert_eq!(rt; tree.root(4), None);
    assert_eq!(rt; tree.make(7, b"d".as_slice(), true), Ok(8));
    let dir = About { fs: 6, dir: true };
    assert_eq!(rt; tree.about(8), Some(dir));
    assert_eq!(rt; tree.child(7, b"d".as_slice()), Some(8));
    Ok(())
}

#[test]
fn a_refused_step_draws_no_number(rt: HostRuntime) -> Result<(), Fail> {
    let mut tree = small_tree(rt.alloc())?;
    for (dir, name, why) in [
        (3, b"f".as_slice(), Errno::Enoent),
        (5, b"f".as_slice(), Errno::Enotdir),
        (4, b"f".as_slice(), Errno::Eexist),
        (2, b"d".as_slice(), Errno::Eexist),
    ] {
        assert_eq!(rt; tree.make(dir, name, true), Err(TreeRefused::No(why)));
    }
    assert_eq!(rt; tree.make(4, b"g".as_slice(), false), Ok(6));
    Ok(())
}

#[test]
fn the_last_number_is_65535(rt: HostRuntime) -> Result<(), Fail> {
    let mut tree = small_tree(rt.alloc())?;
    for number in 6..65_534 {
        assert_eq!(rt; tree.next_number(), Some(number));
        assert_eq!(rt; tree.draw(), Some(number));
    }
    let full = Err(TreeRefused::No(Errno::Enospc));
    assert_eq!(rt; tree.make_fs(), Ok(65_534));
    assert_eq!(rt; tree.root(65_534), Some(65_535));
    assert_eq!(rt; tree.make_fs(), full);
    assert_eq!(rt; (tree.next_number(), tree.draw()), (None, None));
    for (dir, name, why) in [
        (2, b"e".as_slice(), Errno::Enospc),
        (2, b"d".as_slice(), Errno::Eexist),
        (5, b"e".as_slice(), Errno::Enotdir),
        (3, b"e".as_slice(), Errno::Enoent),
    ] {
        assert_eq!(rt; tree.make(dir, name, false), Err(TreeRefused::No(why)));
    }
    Ok(())
}

#[test]
fn a_directory_has_many_entries(rt: HostRuntime) -> Result<(), Fail> {
    let mut tree = small_tree(rt.alloc())?;
    for number in 6..2_006u32 {
        assert_eq!(rt;
            tree.make(2, number.to_le_bytes().as_slice(), false),
            Ok(number)
        );
    }
    for number in 6..2_006u32 {
        assert_eq!(rt;
            tree.child(2, number.to_le_bytes().as_slice()),
            Some(number)
        );
    }
    assert_eq!(rt; tree.child(4, 6u32.to_le_bytes().as_slice()), None);
    Ok(())
}

#[test]
fn a_removed_name_leads_nowhere_and_its_number_is_not_given_again(
    rt: HostRuntime,
) -> Result<(), Fail> {
    let mut tree = small_tree(rt.alloc())?;
    assert_eq!(rt; tree.remove(4, b"f".as_slice()), Ok(5));
    assert_eq!(rt; tree.child(4, b"f".as_slice()), None);
    assert_eq!(rt; tree.about(5), None);
    assert_eq!(rt; tree.make(4, b"f".as_slice(), true), Ok(6));
    assert_eq!(rt; tree.remove(4, b"f".as_slice()), Ok(6));
    assert_eq!(rt; tree.remove(2, b"d".as_slice()), Ok(4));
    assert_eq!(rt;
        tree.make(4, b"f".as_slice(), true),
        Err(TreeRefused::No(Errno::Enoent))
    );
    Ok(())
}

#[test]
fn a_directory_with_entries_stays(rt: HostRuntime) -> Result<(), Fail> {
    let mut tree = small_tree(rt.alloc())?;
    assert_eq!(rt; tree.remove(2, b"d".as_slice()), Err(Errno::Enotempty));
    assert_eq!(rt; tree.remove(2, b"f".as_slice()), Err(Errno::Enoent));
    assert_eq!(rt; tree.remove(3, b"f".as_slice()), Err(Errno::Enoent));
    assert_eq!(rt; tree.child(2, b"d".as_slice()), Some(4));
    for (inode, has) in [(2, true), (4, true), (5, false), (6, false)] {
        assert_eq!(rt; tree.has_entries(inode), has);
    }
    assert_eq!(rt; tree.remove(4, b"f".as_slice()), Ok(5));
    assert_eq!(rt; tree.has_entries(4), false);
    Ok(())
}

#[test]
fn a_renamed_file_keeps_its_number(rt: HostRuntime) -> Result<(), Fail> {
    let mut tree = small_tree(rt.alloc())?;
    assert_eq!(rt; tree.rename(4, b"f".as_slice(), 2, b"g".as_slice()), Ok(5));
    assert_eq!(rt; tree.child(4, b"f".as_slice()), None);
    assert_eq!(rt; tree.child(2, b"g".as_slice()), Some(5));
    assert_eq!(rt;
        (tree.parent(5), tree.parent(4), tree.parent(2)),
        (Some(2), Some(2), None)
    );
    assert_eq!(rt; (tree.has_entries(4), tree.has_entries(2)), (false, true));
    assert_eq!(rt; tree.rename(2, b"d".as_slice(), 2, b"e".as_slice()), Ok(4));
    assert_eq!(rt; tree.rename(2, b"g".as_slice(), 4, b"f".as_slice()), Ok(5));
    assert_eq!(rt; tree.child(2, b"e".as_slice()), Some(4));
    assert_eq!(rt; tree.child(4, b"f".as_slice()), Some(5));
    assert_eq!(rt; tree.remove(4, b"f".as_slice()), Ok(5));
    assert_eq!(rt; tree.make(2, b"d".as_slice(), true), Ok(6));
    Ok(())
}

// A tree with the directories `a`, 6, `a/b`, 7, and `a/b/c`, 8.
fn deep_tree(alloc: Global) -> Result<Tree, TreeRefused> {
    let mut tree = small_tree(alloc)?;
    tree.make(2, b"a".as_slice(), true)?;
    tree.make(6, b"b".as_slice(), true)?;
    tree.make(7, b"c".as_slice(), true)?;
    Ok(tree)
}

#[test]
fn a_directory_does_not_go_below_itself(rt: HostRuntime) -> Result<(), Fail> {
    let mut tree = deep_tree(rt.alloc())?;
    let below = Err(TreeRefused::No(Errno::Einval));
    for to in [6, 7, 8] {
        assert_eq!(rt; tree.rename(2, b"a".as_slice(), to, b"x".as_slice()), below);
    }
    assert_eq!(rt; tree.rename(7, b"c".as_slice(), 2, b"c".as_slice()), Ok(8));
    assert_eq!(rt; tree.rename(2, b"a".as_slice(), 8, b"a".as_slice()), Ok(6));
    assert_eq!(rt; tree.rename(2, b"c".as_slice(), 7, b"c".as_slice()), below);
    assert_eq!(rt; tree.rename(2, b"d".as_slice(), 7, b"d".as_slice()), Ok(4));
    assert_eq!(rt; tree.child(4, b"f".as_slice()), Some(5));
    Ok(())
}

#[test]
fn a_refused_rename_changes_nothing(rt: HostRuntime) -> Result<(), Fail> {
    let mut tree = small_tree(rt.alloc())?;
    assert_eq!(rt; tree.make_fs(), Ok(6));
    for (dir, name, to, new_name, why) in [
        (2, b"f".as_slice(), 2, b"g".as_slice(), Errno::Enoent),
        (2, b"d".as_slice(), 3, b"g".as_slice(), Errno::Enoent),
        (2, b"d".as_slice(), 5, b"g".as_slice(), Errno::Enotdir),
        (4, b"f".as_slice(), 7, b"d".as_slice(), Errno::Exdev),
        (4, b"f".as_slice(), 2, b"d".as_slice(), Errno::Eexist),
        (4, b"f".as_slice(), 4, b"f".as_slice(), Errno::Eexist),
        (2, b"d".as_slice(), 4, b"f".as_slice(), Errno::Eexist),
        (2, b"d".as_slice(), 4, b"g".as_slice(), Errno::Einval),
    ] {
        assert_eq!(rt;
            tree.rename(dir, name, to, new_name),
            Err(TreeRefused::No(why))
        );
    }
    assert_eq!(rt; tree.child(2, b"d".as_slice()), Some(4));
    assert_eq!(rt; tree.child(4, b"f".as_slice()), Some(5));
    Ok(())
}
