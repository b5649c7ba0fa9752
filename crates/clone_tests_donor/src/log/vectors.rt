// The system space of 257 pages, and its first page.
const OPENING: [u8; 21] = [
    4, 0, 0, 0, 0, 0, 0, 1, 1, // 257 pages in space 0
    1, 0, 0, 0, 0, 0, 0, 0, 0, 0, 1, // page 0 of it is a system page
    6,
];

// Table 1 of four buckets, which the dictionary's first entry names.
const CREATE: [u8; 39] = [
    4, 0, 0, 0, 1, 0, 0, 0, 4, // 4 pages in space 1
    2, 0, 0, 0, 0, 0, 0, 0, 0, 0, 64, 0, 16, // on page 0 of space 0, from 64 on, 16 bytes
    0, 0, 0, 1, 0, 0, 0, 4, 0, 0, 0, 4, 0, 0, 0, 0, // table 1, 4 buckets, 4 pages
    6,
];

// Writer 0 begins its transaction 0 in undo slot 0.
const BEGIN: [u8; 41] = [
    1, 0, 0, 0, 0, 0, 0, 0, 1, 0, 2, // page 1 of space 0 is an undo page
    2, 0, 0, 0, 0, 0, 0, 0, 1, 0, 40, 0, 16, // on it, from 40 on, 16 bytes
    1, 0, 0, 0, 0, 0, 0, 0, 0, 0, 0, 0, 0, 0, 0, 0, // the header
    6,
];

// Writer 3 begins its transaction 1 in undo slot 0, whose page is in use.
const BEGIN_AGAIN: [u8; 30] = [
    2, 0, 0, 0, 0, 0, 0, 0, 1, 0, 40, 0, 16, // on page 1 of space 0, from 40 on, 16 bytes
    1, 0, 0, 0, 0, 0, 0, 3, 0, 0, 0, 0, 0, 0, 0, 1, // the header
    6,
];

// An undo record of key 7, whose slot 0 on page 3 of table 1 was absent. Behind it come 72 zero
// bytes.
const UNDO: [u8; 37] = [
    2, 0, 0, 0, 0, 0, 0, 0, 1, 0, 64, 0, 96, // on page 1 of space 0, from 64 on, 96 bytes
    0, 0, 0, 1, 0, 0, 0, 3, 0, 0, 2, 0, 0, 0, 0, 0, // table, page, slot, state, length
    0, 0, 0, 0, 0, 0, 0, 7,
];

// The count of undo records, and the row of key 7 with the value "hi". Behind it come 62 zero
// bytes.
const ROW: [u8; 57] = [
    2, 0, 0, 0, 0, 0, 0, 0, 1, 0, 42, 0, 2, 0, 1, // the count is 1
    1, 0, 0, 0, 1, 0, 0, 0, 3, 0, 3, // page 3 of space 1 is a bucket page
    2, 0, 0, 0, 1, 0, 0, 0, 3, 0, 48, 0, 80, // on it, from 48 on, 80 bytes
    1, 2, 0, 0, 0, 0, 0, 0, // present, 2 bytes
    0, 0, 0, 0, 0, 0, 0, 7, 104, 105,
];

// The second undo record, of key 7 with the value "hi". Behind it come 70 zero bytes.
const UNDO_HI: [u8; 39] = [
    2, 0, 0, 0, 0, 0, 0, 0, 1, 0, 160, 0, 96, // on page 1 of space 0, from 160 on, 96 bytes
    0, 0, 0, 1, 0, 0, 0, 3, 0, 0, 1, 2, 0, 0, 0, 0, // table, page, slot, state, length
    0, 0, 0, 0, 0, 0, 0, 7, 104, 105,
];

// The count of undo records, and the row of key 7 with the value "ho". Behind it come 62 zero
// bytes.
const ROW_HO: [u8; 46] = [
    2, 0, 0, 0, 0, 0, 0, 0, 1, 0, 42, 0, 2, 0, 2, // the count is 2
    2, 0, 0, 0, 1, 0, 0, 0, 3, 0, 48, 0, 80, // on page 3 of space 1, from 48 on, 80 bytes
    1, 2, 0, 0, 0, 0, 0, 0, // present, 2 bytes
    0, 0, 0, 0, 0, 0, 0, 7, 104, 111,
];

// The row of key 7 with the value "hi" again. Behind it come 62 zero bytes and the count.
const ROW_HI: [u8; 31] = [
    2, 0, 0, 0, 1, 0, 0, 0, 3, 0, 48, 0, 80, // on page 3 of space 1, from 48 on, 80 bytes
    1, 2, 0, 0, 0, 0, 0, 0, // present, 2 bytes
    0, 0, 0, 0, 0, 0, 0, 7, 104, 105,
];

// The row of key 7 is absent. Behind it come 64 zero bytes and the count.
const ROW_ABSENT: [u8; 29] = [
    2, 0, 0, 0, 1, 0, 0, 0, 3, 0, 48, 0, 80, // on page 3 of space 1, from 48 on, 80 bytes
    2, 0, 0, 0, 0, 0, 0, 0, // absent
    0, 0, 0, 0, 0, 0, 0, 7,
];

// Undo slot 0 is free.
const ENDED: [u8; 30] = [
    2, 0, 0, 0, 0, 0, 0, 0, 1, 0, 40, 0, 16, // on page 1 of space 0, from 40 on, 16 bytes
    0, 0, 0, 0, 0, 0, 0, 0, 0, 0, 0, 0, 0, 0, 0, 0, // no header
    6,
];

// Undo slot 0 is free, and the commit position is 1.
const COMMIT: [u8; 51] = [
    2, 0, 0, 0, 0, 0, 0, 0, 1, 0, 40, 0, 16, // on page 1 of space 0, from 40 on, 16 bytes
    0, 0, 0, 0, 0, 0, 0, 0, 0, 0, 0, 0, 0, 0, 0, 0, // no header
    2, 0, 0, 0, 0, 0, 0, 0, 0, 0, 40, 0, 8, // on page 0 of it, from 40 on, 8 bytes
    0, 0, 0, 0, 0, 0, 0, 1, 6,
];

// The undo record of number 40, of key 6, whose slot 0 on page 2 of table 1 was absent. Behind it
// come 72 zero bytes.
const UNDO_ON_NEXT: [u8; 48] = [
    1, 0, 0, 0, 0, 0, 0, 0, 2, 0, 2, // page 2 of space 0 is an undo page
    2, 0, 0, 0, 0, 0, 0, 0, 2, 0, 64, 0, 96, // on it, from 64 on, 96 bytes
    0, 0, 0, 1, 0, 0, 0, 2, 0, 0, 2, 0, 0, 0, 0, 0, // table, page, slot, state, length
    0, 0, 0, 0, 0, 0, 0, 6,
];

// The count of undo records, and the row of key 6 with the value "hi". Behind it come 62 zero
// bytes.
const ROW_ON_NEXT: [u8; 57] = [
    2, 0, 0, 0, 0, 0, 0, 0, 1, 0, 42, 0, 2, 0, 41, // the count is 41
    1, 0, 0, 0, 1, 0, 0, 0, 2, 0, 3, // page 2 of space 1 is a bucket page
    2, 0, 0, 0, 1, 0, 0, 0, 2, 0, 48, 0, 80, // on it, from 48 on, 80 bytes
    1, 2, 0, 0, 0, 0, 0, 0, // present, 2 bytes
    0, 0, 0, 0, 0, 0, 0, 6, 104, 105,
];

// Page 2 of table 1 of two buckets, behind its page 1: a page that the chain of the odd keys gets.
const GROWTH: [u8; 55] = [
    2, 0, 0, 0, 0, 0, 0, 0, 0, 0, 72, 0, 4, 0, 0, 0, 3, // the table has 3 pages
    3, 0, 0, 0, 1, 0, 0, 0, 3, // 3 pages in space 1
    1, 0, 0, 0, 1, 0, 0, 0, 2, 0, 4, // page 2 of it is an overflow page
    2, 0, 0, 0, 1, 0, 0, 0, 1, 0, 12, 0, 4, 0, 0, 0, 2, // behind page 1 comes page 2
    6,
];

// The undo record of number 52, of key 101, whose slot 0 on page 2 of table 1 was absent. Behind it
// come 72 zero bytes.
const UNDO_BEHIND: [u8; 37] = [
    2, 0, 0, 0, 0, 0, 0, 0, 2, 4, 192, 0, 96, // on page 2 of space 0, from 1216 on, 96 bytes
    0, 0, 0, 1, 0, 0, 0, 2, 0, 0, 2, 0, 0, 0, 0, 0, // table, page, slot, state, length
    0, 0, 0, 0, 0, 0, 0, 101,
];

// The count of undo records, and the row of key 101 with the value "hi". Behind it come 62 zero
// bytes.
const ROW_BEHIND: [u8; 46] = [
    2, 0, 0, 0, 0, 0, 0, 0, 1, 0, 42, 0, 2, 0, 53, // the count is 53
    2, 0, 0, 0, 1, 0, 0, 0, 2, 0, 48, 0, 80, // on page 2 of space 1, from 48 on, 80 bytes
    1, 2, 0, 0, 0, 0, 0, 0, // present, 2 bytes
    0, 0, 0, 0, 0, 0, 0, 101, 104, 105,
];

// The last change is taken back: behind the row's slot the count that is left.
const LEFT_1: [u8; 16] = [2, 0, 0, 0, 0, 0, 0, 0, 1, 0, 42, 0, 2, 0, 1, 6];

const LEFT_0: [u8; 16] = [2, 0, 0, 0, 0, 0, 0, 0, 1, 0, 42, 0, 2, 0, 0, 6];

/// A put of "hi" at key 7 in an undo page that is in use and a bucket page that isn't, its commit,
/// and a transaction that begins where the pages of the first are in use.
pub const ONE_ROW: [&[u8]; 10] = [
    &OPENING,
    &CREATE,
    &BEGIN,
    &UNDO,
    &[0; 72],
    &ROW,
    &[0; 62],
    &[6],
    &COMMIT,
    &BEGIN_AGAIN,
];

/// A put of "ho" at key 7, which has the value "hi", and both puts taken back.
pub const TAKING_BACK: [&[u8]; 12] = [
    &UNDO_HI,
    &[0; 70],
    &ROW_HO,
    &[0; 62],
    &[6],
    &ROW_HI,
    &[0; 62],
    &LEFT_1,
    &ROW_ABSENT,
    &[0; 64],
    &LEFT_0,
    &ENDED,
];

/// A put of "hi" at key 101 as the change 52, whose chain gets a page first.
pub const NEXT_OF_CHAIN: [&[u8]; 6] = [
    &GROWTH,
    &UNDO_BEHIND,
    &[0; 72],
    &ROW_BEHIND,
    &[0; 62],
    &[6],
];

/// A put of "hi" at key 6 as the change 40, in an undo page and a bucket page that are both new.
pub const NEXT_PAGE: [&[u8]; 5] = [&UNDO_ON_NEXT, &[0; 72], &ROW_ON_NEXT, &[0; 62], &[6]];
