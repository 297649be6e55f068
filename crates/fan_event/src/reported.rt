// The object of an event as a group reports it: fanotify_init(2), under FAN_REPORT_FID,
// FAN_REPORT_DIR_FID and FAN_REPORT_NAME.
ghost use Rattle.std.specs.Prelude.{◌≡◌, ◌&&◌};
ghost use Rattle.fan_bits.specs.Words.{occurs, report_name};
ghost use Rattle.fan_event.specs.Events.{directory_of, handles_of, if_so, is_of_file_itself, name_of, reports_dir, reports_object, target_of};
ghost use Rattle.fan_event.specs.Names.{IsName};
ghost use Rattle.fan_event.specs.Notices.{target_seen};

use super::name::NameRef;
use super::target_ref::TargetRef;
use fan_bits::{Happening, InitWords, Place, has_self_event};

// The object: by handles if the group reports them, else by its mount and its inode.
pub(crate) fn target_of<'a>(
    init: InitWords,
    happening: &Happening,
    name: &'a [u8],
    bits: u32,
) -> TargetRef<'a>
    requires { IsName name.now }
    ensures { target_seen result ≡ target_of init.bits happening.now name.now bits }
{
    if init.has_handles() {
        handles_of(init, happening, name, bits)
    } else {
        TargetRef::Fd {
            mount: happening.place.mount,
            inode: happening.place.inode,
        }
    }
}

// The object by handles.
fn handles_of<'a>(
    init: InitWords,
    happening: &Happening,
    name: &'a [u8],
    bits: u32,
) -> TargetRef<'a>
    requires { IsName name.now }
    ensures { target_seen result ≡ handles_of init.bits happening.now name.now bits }
{
    let place = &happening.place;
    let with_dir = reports_dir(init, happening, bits);
    TargetRef::Handle {
        fs: place.fs,
        object: if reports_object(init, happening, bits) {
            Some(place.inode)
        } else {
            None
        },
        dir: if with_dir { directory_of(place) } else { None },
        name: if with_dir && init.reports_name() {
            Some(NameRef::of(name_of(happening, name)))
        } else {
            None
        },
    }
}

// Whether a file was itself removed or renamed.
fn is_of_file_itself(happening: &Happening, bits: u32) -> bool
    ensures { result ≡ is_of_file_itself happening.now bits }
{
    !happening.place.dir && has_self_event(bits)
}

// Whether a directory is reported.
fn reports_dir(init: InitWords, happening: &Happening, bits: u32) -> bool
    ensures { result ≡ reports_dir init.bits happening.now bits }
{
    init.reports_dir_fid() && !is_of_file_itself(happening, bits)
}

// Whether the object is reported.
fn reports_object(init: InitWords, happening: &Happening, bits: u32) -> bool
    ensures { result ≡ reports_object init.bits happening.now bits }
{
    !reports_dir(init, happening, bits) || (init.reports_fid() && !happening.place.dir)
}

// The directory that is reported: the place itself, if it is one, or else the one that it is an
// entry of.
fn directory_of(place: &Place) -> Option<u32>
    ensures { result ≡ directory_of place.now }
{
    if place.dir {
        Some(place.inode)
    } else {
        place.parent
    }
}

// The name that is reported: `.` of an event on a directory itself, and else that of the entry.
fn name_of<'a>(happening: &Happening, name: &'a [u8]) -> &'a [u8]
    requires { IsName name.now }
    ensures value { result.now ≡ name_of happening.now name.now }
    ensures whole { IsName result.now }
{
    if happening.place.dir && !happening.entry {
        b"."
    } else {
        name
    }
}
