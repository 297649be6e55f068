// The bits of masks and of flag words that other crates name: fanotify_init(2), fanotify_mark(2)
// and fanotify(7).
use super::flags::InitFlags;
use super::mark_flags::MaskBits;

/// FAN_ACCESS of fanotify_mark(2): a file was read from, or a directory listed.
pub const FAN_ACCESS: u32 = MaskBits::ACCESS.0 as u32;

/// FAN_MODIFY of fanotify_mark(2): a file was written to.
pub const FAN_MODIFY: u32 = MaskBits::MODIFY.0 as u32;

/// FAN_ATTRIB of fanotify_mark(2): the metadata of a file or directory changed.
pub const FAN_ATTRIB: u32 = MaskBits::ATTRIB.0 as u32;

/// FAN_CLOSE_WRITE of fanotify_mark(2): a file that was open for writing was closed.
pub const FAN_CLOSE_WRITE: u32 = MaskBits::CLOSE_WRITE.0 as u32;

/// FAN_CLOSE_NOWRITE of fanotify_mark(2): a file or directory that was open for reading was closed.
pub const FAN_CLOSE_NOWRITE: u32 = MaskBits::CLOSE_NOWRITE.0 as u32;

/// FAN_OPEN of fanotify_mark(2): a file or directory was opened.
pub const FAN_OPEN: u32 = MaskBits::OPEN.0 as u32;

/// FAN_MOVED_FROM of fanotify_mark(2): an entry was renamed out of the directory.
pub const FAN_MOVED_FROM: u32 = MaskBits::MOVED_FROM.0 as u32;

/// FAN_MOVED_TO of fanotify_mark(2): an entry was renamed into the directory.
pub const FAN_MOVED_TO: u32 = MaskBits::MOVED_TO.0 as u32;

/// FAN_CREATE of fanotify_mark(2): an entry was made in the directory.
pub const FAN_CREATE: u32 = MaskBits::CREATE.0 as u32;

/// FAN_DELETE of fanotify_mark(2): an entry of the directory was removed.
pub const FAN_DELETE: u32 = MaskBits::DELETE.0 as u32;

/// FAN_DELETE_SELF of fanotify_mark(2): the file or directory itself was removed.
pub const FAN_DELETE_SELF: u32 = MaskBits::DELETE_SELF.0 as u32;

/// FAN_MOVE_SELF of fanotify_mark(2): the file or directory itself was renamed.
pub const FAN_MOVE_SELF: u32 = MaskBits::MOVE_SELF.0 as u32;

/// FAN_OPEN_EXEC of fanotify_mark(2): a file was opened to be executed.
pub const FAN_OPEN_EXEC: u32 = MaskBits::OPEN_EXEC.0 as u32;

/// FAN_Q_OVERFLOW of fanotify(7): events were lost at the limit of the queue.
pub const FAN_Q_OVERFLOW: u32 = 0x4000;

/// FAN_OPEN_PERM of fanotify_mark(2): permission is asked to open a file or directory.
pub const FAN_OPEN_PERM: u32 = MaskBits::OPEN_PERM.0 as u32;

/// FAN_ACCESS_PERM of fanotify_mark(2): permission is asked to read a file or directory.
pub const FAN_ACCESS_PERM: u32 = MaskBits::ACCESS_PERM.0 as u32;

/// FAN_OPEN_EXEC_PERM of fanotify_mark(2): permission is asked to open a file to be executed.
pub const FAN_OPEN_EXEC_PERM: u32 = MaskBits::OPEN_EXEC_PERM.0 as u32;

/// FAN_EVENT_ON_CHILD of fanotify_mark(2): events on the entries of the marked directory are asked
/// for.
pub const FAN_EVENT_ON_CHILD: u32 = MaskBits::EVENT_ON_CHILD.0 as u32;

/// FAN_ONDIR of fanotify_mark(2): events on directories are asked for.
pub const FAN_ONDIR: u32 = MaskBits::ONDIR.0 as u32;

/// The events that a mark on a directory reports of its entries with FAN_EVENT_ON_CHILD.
pub const CHILD_EVENTS: u32 = MaskBits::CHILD_EVENTS.0 as u32;

/// FAN_REPORT_FID of fanotify_init(2): events report the handle of their object.
pub const FAN_REPORT_FID: u32 = InitFlags::REPORT_FID.0;

/// FAN_REPORT_DIR_FID of fanotify_init(2): events report the handle of a directory.
pub const FAN_REPORT_DIR_FID: u32 = InitFlags::REPORT_DIR_FID.0;

/// FAN_REPORT_NAME of fanotify_init(2): events report the name of an entry.
pub const FAN_REPORT_NAME: u32 = InitFlags::REPORT_NAME.0;
