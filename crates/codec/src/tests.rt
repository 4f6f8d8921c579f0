use crate::page::{mark_of, seal, unseal};

// A page with a bit turned over in the first and the last piece of data and one in the mark.
#[test]
fn turned_bits_are_mended(rt: HostRuntime) {
    let mut page = [7u8; 4352];
    seal(&mut page, &[5u8; 32]);
    page[0] ^= 1;
    page[4095] ^= 128;
    page[4100] ^= 16;
    assert!(rt; mark_of(&page).is_some());
    unseal(&mut page);
    assert!(rt; page[0] == 7 && page[4095] == 7);
}

// Two bits of a mark are too many.
#[test]
fn two_bits_hide_a_mark(rt: HostRuntime) {
    let mut page = [7u8; 4352];
    seal(&mut page, &[5u8; 32]);
    page[4100] ^= 16;
    page[4200] ^= 1;
    assert!(rt; mark_of(&page).is_none());
}

#[test]
fn blank_page_shows_none(rt: HostRuntime) {
    assert!(rt; mark_of(&[255u8; 4352]).is_none());
}
