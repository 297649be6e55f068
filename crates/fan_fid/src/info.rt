// An information record as it is read.

/// A file or directory. Source: fanotify(7), `struct fanotify_event_info_fid`; open_by_handle_at(2),
/// `struct file_handle`.
#[derive(Clone, Copy, Debug, PartialEq, Eq)]
pub struct Ident<'a> {
    /// The filesystem, 8 bytes: a part of the input.
    pub fsid: &'a [u8],
    /// The type of the handle. Any number is taken.
    pub handle_type: i32,
    /// The handle, of any length: a part of the input.
    pub handle: &'a [u8],
}

/// An information record.
#[derive(Clone, Copy, Debug, PartialEq, Eq)]
pub enum Info<'a> {
    /// FAN_EVENT_INFO_TYPE_FID, 1: the object of the event.
    Fid(Ident<'a>),
    /// FAN_EVENT_INFO_TYPE_DFID, 3: a directory.
    Dfid(Ident<'a>),
    /// FAN_EVENT_INFO_TYPE_DFID_NAME, 2: a directory, and the name of an entry in it without the 0
    /// behind it: a part of the input.
    DfidName(Ident<'a>, &'a [u8]),
    /// Another type, and the bytes behind the first four: a part of the input.
    Other(u8, &'a [u8]),
}
