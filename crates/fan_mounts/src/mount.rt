// One mount.

/// Where a mount stands: on a directory, as another mount shows it.
#[derive(Clone, Copy, Debug, PartialEq, Eq)]
pub struct MountPoint {
    /// The mount through which the directory is reached.
    pub mount: u32,
    /// The directory.
    pub dir: u32,
}

/// A mount of a filesystem.
#[derive(Clone, Copy, Debug, PartialEq, Eq)]
pub struct Mount {
    /// Its object number, from 1 to 65,535.
    pub number: u32,
    /// The filesystem that it shows.
    pub fs: u32,
    /// Where it stands; the one at `/` stands on nothing.
    pub point: Option<MountPoint>,
}
