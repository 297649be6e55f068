// What is answered to a step.
use super::outcomes::Outcomes;
use fan_bits::Errno;
use fan_io::Items;

/// What the machine answers to a step.
#[derive(Debug, Drop)]
pub enum Reply {
    /// It was done.
    Done,
    /// The number of the file or directory that was made.
    Inode(u32),
    /// The number of the filesystem that was made; its root has the next number.
    Fs(u32),
    /// The number of the mount that was made.
    Mount(u32),
    /// The number of the group that was made.
    Group(u32),
    /// The records that were read.
    Bytes(Items<u8>),
    /// How many retired marks were reclaimed.
    Reclaimed(u64),
    /// It was refused, and nothing changed.
    Refused(Errno),
    /// What single steps of an access did.
    Out(Outcomes),
}
