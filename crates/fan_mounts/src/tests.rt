// Walks over mounts, mounts and their ends, and the last name of a path.
use super::mounts::Mounts;
use super::path::split_last;
use fan_bits::{Errno, Place};
use fan_tree::{Tree, TreeRefused};
use std::alloc::Global;
use std::test::Fail;

// The directories `a`, 4, and `b`, 5, and the file `f`, 6, at the root of filesystem 1; and filesystem 7,
// whose root, 8, has the directory `x`, 9.
fn small_tree(alloc: Global) -> Result<Tree, TreeRefused> {
    let mut tree = Tree::new(alloc);
    tree.make(2, b"a".as_slice(), true)?;
    tree.make(2, b"b".as_slice(), true)?;
    tree.make(2, b"f".as_slice(), false)?;
    tree.make_fs()?;
    tree.make(8, b"x".as_slice(), true)?;
    Ok(tree)
}

// Mounts a filesystem on what a path reaches.
fn mount_on(
    mounts: &mut Mounts,
    tree: &mut Tree,
    fs: u32,
    path: &[u8],
) -> Result<u32, TreeRefused> {
    match mounts.place(tree, path) {
        Ok(at) => mounts.mount(tree, fs, at),
        Err(refusal) => Err(TreeRefused::No(refusal)),
    }
}

// Takes away the mount through which a path goes.
fn umount_at(mounts: &mut Mounts, tree: &Tree, path: &[u8]) -> Result<(), Errno> {
    match mounts.place(tree, path) {
        Ok(at) => mounts.umount(at.mount),
        Err(refusal) => Err(refusal),
    }
}

// A directory, or the file 6.
fn place(mount: u32, fs: u32, inode: u32, parent: Option<u32>) -> Result<Place, Errno> {
    Ok(Place {
        mount,
        fs,
        inode,
        parent,
        dir: inode != 6,
    })
}

#[test]
fn a_walk_crosses_to_the_mount_that_stands_on_a_directory(rt: HostRuntime) -> Result<(), Fail> {
    let mut tree = small_tree(rt.alloc())?;
    let mut mounts = Mounts::new(rt.alloc())?;
    assert_eq!(rt;
        mount_on(&mut mounts, &mut tree, 7, b"/a".as_slice()),
        Ok(10)
    );
    assert_eq!(rt;
        mount_on(&mut mounts, &mut tree, 7, b"/b".as_slice()),
        Ok(11)
    );
    assert_eq!(rt;
        mount_on(&mut mounts, &mut tree, 1, b"/a/x".as_slice()),
        Ok(12)
    );
    let walks = [
        (b"/".as_slice(), place(3, 1, 2, None)),
        (b"/f".as_slice(), place(3, 1, 6, Some(2))),
        (b"/a".as_slice(), place(10, 7, 8, None)),
        (b"//b/".as_slice(), place(11, 7, 8, None)),
        (b"/a/x".as_slice(), place(12, 1, 2, None)),
        (b"/b/x".as_slice(), place(11, 7, 9, Some(8))),
        (b"/a/x/f".as_slice(), place(12, 1, 6, Some(2))),
        (b"/a/x/a".as_slice(), place(12, 1, 4, Some(2))),
    ];
    for (path, wanted) in walks {
        assert_eq!(rt; mounts.place(&tree, path), wanted);
    }
    assert_eq!(rt;
        mount_on(&mut mounts, &mut tree, 7, b"/a/x/a".as_slice()),
        Ok(13)
    );
    assert_eq!(rt;
        mounts.place(&tree, b"/a/x/a".as_slice()),
        place(13, 7, 8, None)
    );
    assert_eq!(rt;
        mounts.place(&tree, b"/a".as_slice()),
        place(10, 7, 8, None)
    );
    Ok(())
}

#[test]
fn a_walk_stops_at_the_first_name_that_leads_nowhere(rt: HostRuntime) -> Result<(), Fail> {
    let tree = small_tree(rt.alloc())?;
    let mounts = Mounts::new(rt.alloc())?;
    let walks = [
        (b"/x".as_slice(), Err(Errno::Enoent)),
        (b"/x/f".as_slice(), Err(Errno::Enoent)),
        (b"/a/f".as_slice(), Err(Errno::Enoent)),
        (b"/f/x".as_slice(), Err(Errno::Enotdir)),
        (b"/f/f".as_slice(), Err(Errno::Enotdir)),
        (b"/f/".as_slice(), place(3, 1, 6, Some(2))),
        (b"".as_slice(), place(3, 1, 2, None)),
    ];
    for (path, wanted) in walks {
        assert_eq!(rt; mounts.place(&tree, path), wanted);
    }
    Ok(())
}

#[test]
fn a_mount_is_refused_for_its_filesystem_first(rt: HostRuntime) -> Result<(), Fail> {
    let mut tree = small_tree(rt.alloc())?;
    let mut mounts = Mounts::new(rt.alloc())?;
    let refusals = [
        (99, b"/f".as_slice(), Errno::Enoent),
        (8, b"/".as_slice(), Errno::Enoent),
        (7, b"/f".as_slice(), Errno::Enotdir),
        (7, b"/".as_slice(), Errno::Ebusy),
    ];
    for (fs, path, why) in refusals {
        assert_eq!(rt;
            mount_on(&mut mounts, &mut tree, fs, path),
            Err(TreeRefused::No(why))
        );
    }
    assert_eq!(rt;
        mount_on(&mut mounts, &mut tree, 7, b"/a".as_slice()),
        Ok(10)
    );
    let busy = Err(TreeRefused::No(Errno::Ebusy));
    assert_eq!(rt; mount_on(&mut mounts, &mut tree, 1, b"/a".as_slice()), busy);
    Ok(())
}

#[test]
fn a_mount_stays_while_it_carries_another(rt: HostRuntime) -> Result<(), Fail> {
    let mut tree = small_tree(rt.alloc())?;
    let mut mounts = Mounts::new(rt.alloc())?;
    mount_on(&mut mounts, &mut tree, 7, b"/a".as_slice())?;
    mount_on(&mut mounts, &mut tree, 7, b"/b".as_slice())?;
    mount_on(&mut mounts, &mut tree, 1, b"/a/x".as_slice())?;
    assert_eq!(rt;
        umount_at(&mut mounts, &tree, b"/".as_slice()),
        Err(Errno::Ebusy)
    );
    assert_eq!(rt;
        umount_at(&mut mounts, &tree, b"/a".as_slice()),
        Err(Errno::Ebusy)
    );
    for (inode, stands) in [(4, true), (5, true), (9, true), (8, false), (2, false)] {
        assert_eq!(rt; mounts.stands_on(inode), stands);
    }
    assert_eq!(rt; umount_at(&mut mounts, &tree, b"/a/x".as_slice()), Ok(()));
    assert_eq!(rt; umount_at(&mut mounts, &tree, b"/a".as_slice()), Ok(()));
    assert!(rt; !mounts.stands_on(9));
    assert!(rt; !mounts.stands_on(4));
    assert!(rt; mounts.stands_on(5));
    assert_eq!(rt;
        mounts.place(&tree, b"/a".as_slice()),
        place(3, 1, 4, Some(2))
    );
    assert_eq!(rt;
        mounts.place(&tree, b"/b".as_slice()),
        place(11, 7, 8, None)
    );
    Ok(())
}

#[test]
fn the_last_name_of_a_path_is_split_off(rt: HostRuntime) {
    let paths = [
        (b"/a".as_slice(), Some((b"".as_slice(), b"a".as_slice()))),
        (
            b"//a//bc//".as_slice(),
            Some((b"//a/".as_slice(), b"bc".as_slice())),
        ),
        (b"d/e".as_slice(), Some((b"d".as_slice(), b"e".as_slice()))),
        (b"f".as_slice(), Some((b"".as_slice(), b"f".as_slice()))),
        (b"//".as_slice(), None),
        (b"".as_slice(), None),
    ];
    for (path, wanted) in paths {
        assert_eq!(rt; split_last(path), wanted);
    }
}
