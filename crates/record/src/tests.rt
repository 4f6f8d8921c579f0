use crate::entries::read_entry;
use crate::layout::{from_bytes, to_bytes};
use crate::marks::{Content, Mark, RecordMark, SealOrigin};
use crate::numbers::RecordIndex;

// A seal's bytes are as the layout says, and a changed spare byte makes them no mark.
#[test]
fn seal_mark_bytes(rt: HostRuntime) {
    let mark = RecordMark {
        content: Content::Seal {
            origin: SealOrigin::Recovery,
        },
        index: RecordIndex { index: 258 },
        tail: RecordIndex { index: 3 },
    };
    let mut bytes = [9u8; 32];
    to_bytes(Mark::Record(mark), &mut bytes);
    assert!(rt; bytes[0] == 4 && bytes[1] == 2 && bytes[8] == 2 && bytes[9] == 1);
    assert!(rt; bytes[16] == 3 && bytes[28] == 1);
    assert!(rt; from_bytes(&bytes).is_ok());
    bytes[24] = 1;
    assert!(rt; from_bytes(&bytes).is_err());
}

// A blank page has no entries.
#[test]
fn blank_entry(rt: HostRuntime) {
    assert!(rt; read_entry(&[255u8; 4096], 254).is_err());
}
