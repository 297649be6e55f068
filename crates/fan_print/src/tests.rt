// The texts of replies, by the table of docs/FORMATS.md.
use super::print_reply;
use super::reply::print_outcomes;
use fan_bits::Errno;
use fan_io::Items;
use fan_script::{Outcomes, Reply, StepOutcome};
use std::test::Fail;

#[test]
fn replies_have_their_texts(rt: HostRuntime) -> Result<(), Fail> {
    let bytes = b"\x18\x00\xff".to_vec(rt.alloc())?;
    let table: [(Reply, &[u8]); 6] = [
        (Reply::Done, b"ok"),
        (Reply::Inode(65_535), b"inode 65535"),
        (Reply::Reclaimed(0), b"reclaimed 0"),
        (Reply::Bytes(Items::from_vec(bytes)), b"bytes 1800ff"),
        (Reply::Refused(Errno::Enotempty), b"ENOTEMPTY"),
        (
            Reply::Out(Outcomes::one(StepOutcome::Merged(1))),
            b"told 1 merged",
        ),
    ];
    for (reply, text) in table {
        let mut out = b"1 ".to_vec(rt.alloc())?;
        print_reply(&mut out, &reply)?;
        assert_eq!(rt; &out[..2], b"1 ".as_slice());
        assert_eq!(rt; &out[2..], text);
    }
    Ok(())
}

#[test]
fn outcomes_have_commas_between_them(rt: HostRuntime) -> Result<(), Fail> {
    let outcomes = [
        StepOutcome::Allowed(2),
        StepOutcome::Merged(1),
        StepOutcome::Done,
    ];
    let mut out = Vec::new(rt.alloc());
    print_outcomes(&mut out, &outcomes)?;
    assert_eq!(rt; &out[..], b"allowed 2, told 1 merged, done".as_slice());
    Ok(())
}
