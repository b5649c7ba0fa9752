use clone_page::*;
use std::test::*;

// The system page after the opening, which ends at 8,213.
const HEADER: [u8; 38] = [
    0xDE, 0xAD, 0xBE, 0xEF, 0, 0, 0, 0, 0xFF, 0xFF, 0xFF, 0xFF, 0xFF, 0xFF, 0xFF, 0xFF, 0, 0, 0, 0,
    0, 0, 0x20, 0x15, 0, 1, 0, 0, 0, 0, 0, 0, 0, 0, 0, 0, 0, 0,
];

const TRAILER: [u8; 8] = [0xDE, 0xAD, 0xBE, 0xEF, 0, 0, 0x20, 0x15];

#[test]
fn a_page_that_is_made(rt: HostRuntime) {
    let mut page = Page::zero();
    assert!(rt; page.check(0, 0));
    page.init(0, 0, PageKind::System, 8213);
    assert_eq!(rt; &page.bytes()[..38], HEADER.as_slice());
    assert_eq!(rt; &page.bytes()[4088..], TRAILER.as_slice());
    assert!(rt; page.check(0, 0) && !page.check(0, 1));
}
