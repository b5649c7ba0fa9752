//! The 50 slots of a bucket page or an overflow page, 80 bytes each, from byte 48 on. A slot has
//! its state at 0 (0 never used, 1 present, 2 absent), the length of its value at 1, its key in 8
//! bytes at 8, and its value from 16 on, at most 64 bytes. An absent slot has no value, but keeps
//! its key. What is written has zero bytes elsewhere.
ghost use Rattle.std.specs.Prelude.{◌≡◌, ◌+◌, ◌*◌, ◌↔◌, ◌<◌, ◌≤◌, IsTrue, length};
ghost use Rattle.std.specs.Option.{option_copied};
ghost use Rattle.clone_page.specs.Slots.{row_slot_count, slot_at, state_of, length_of, key_of, present_slot};
ghost use Rattle.clone_row.specs.Slots.{slots, slot_of, slot_in, bound_key, row_in, unused, Finds, FindsFree, absent_slot, image};

use clone_base::VALUE_LIMIT;
use clone_model::Value;
use clone_page::{
    Page, ROW_SLOT_COUNT, SLOT_BYTES, SLOT_KEY_AT, SLOT_LENGTH_AT, SLOT_VALUE_AT, SLOTS_AT, put,
    u64_at,
};

// The state of a slot, in its first byte.
const UNUSED: u8 = 0;

const PRESENT: u8 = 1;

const ABSENT: u8 = 2;

/// The first slot that is bound to the key, present or absent. None exactly where no slot is.
pub fn find(page: &Page, key: u64) -> Option<u16>
    ensures { Finds key (slots page.now) result }
{
    for slot_number in 0..ROW_SLOT_COUNT {
        if is_bound(slot_bytes(page, slot_number), key) {
            return Some(slot_number);
        }
    }
    None
}

/// The least slot that was never used. None exactly where each was.
pub fn free_slot(page: &Page) -> Option<u16>
    ensures { FindsFree (slots page.now) result }
{
    for slot_number in 0..ROW_SLOT_COUNT {
        if is_unused(slot_bytes(page, slot_number)) {
            return Some(slot_number);
        }
    }
    None
}

/// The key and the value of a slot. None exactly where there is no such slot, or it isn't present.
/// A slot whose length is above that of a value isn't.
pub fn present(page: &Page, slot: u16) -> Option<(u64, Value)>
    ensures { result ≡ row_in (slot_in (slots page.now) slot) }
{
    if slot >= ROW_SLOT_COUNT {
        return None;
    }
    row(slot_bytes(page, slot))
}

/// The bytes of the slot of a key: present with this value, or absent where there is none.
pub fn slot_image(key: u64, value: Option<&Value>) -> [u8; SLOT_BYTES]
    ensures { result ≡ image key (option_copied value.entry) }
{
    match value {
        Some(value) => present_image(key, value.bytes()),
        None => absent_image(key),
    }
}

/// Where on its page a slot stands, for the write of its image.
pub fn slot_offset(slot: u16) -> u16
    requires { slot < row_slot_count }
    ensures { result ≡ slot_at slot }
{
    (SLOTS_AT + SLOT_BYTES * slot as usize) as u16
}

// The bytes of a slot.
fn slot_bytes(page: &Page, slot_number: u16) -> &[u8]
    requires { slot_number < row_slot_count }
    ensures slot { slot_of result.now ≡ slot_in (slots page.now) slot_number }
    ensures long { length result.now ≡ SLOT_BYTES }
{
    let at = slot_offset(slot_number) as usize;
    &page.bytes()[at..at + SLOT_BYTES]
}

// Whether the slot was never used.
fn is_unused(bytes: &[u8]) -> bool
    requires { length bytes.now ≡ SLOT_BYTES }
    ensures { IsTrue result ↔ (slot_of bytes.now ≡ unused) }
{
    bytes[0] == UNUSED
}

// Whether the slot is bound to the key.
fn is_bound(bytes: &[u8], key: u64) -> bool
    requires { length bytes.now ≡ SLOT_BYTES }
    ensures { IsTrue result ↔ (bound_key (slot_of bytes.now) ≡ Some key) }
{
    if bytes[0] == ABSENT || is_present(bytes) {
        read_key(bytes) == key
    } else {
        false
    }
}

// The row of a slot.
fn row(bytes: &[u8]) -> Option<(u64, Value)>
    requires { length bytes.now ≡ SLOT_BYTES }
    ensures { result ≡ row_in (slot_of bytes.now) }
{
    if !is_present(bytes) {
        return None;
    }
    let value = Value::new(&bytes[SLOT_VALUE_AT..SLOT_VALUE_AT + bytes[SLOT_LENGTH_AT] as usize])?;
    Some((read_key(bytes), value))
}

// Whether the slot holds a row.
fn is_present(bytes: &[u8]) -> bool
    requires { length bytes.now ≡ SLOT_BYTES }
    ensures { IsTrue result ↔ (state_of bytes.now ≡ 1) × (length_of bytes.now ≤ VALUE_LIMIT) }
{
    bytes[0] == PRESENT && bytes[SLOT_LENGTH_AT] as usize <= VALUE_LIMIT
}

// The key in the bytes of a slot.
fn read_key(bytes: &[u8]) -> u64
    requires { length bytes.now ≡ SLOT_BYTES }
    ensures { result ≡ key_of bytes.now }
{
    u64_at(bytes, SLOT_KEY_AT)
}

// A slot that holds a row.
fn present_image(key: u64, value: &[u8]) -> [u8; SLOT_BYTES]
    requires { length value.now ≤ VALUE_LIMIT }
    ensures { result ≡ present_slot key value.now }
{
    let mut bytes = [0; SLOT_BYTES];
    put(&mut bytes, 0, &[PRESENT, value.len() as u8]);
    put(&mut bytes, SLOT_KEY_AT, &key.to_be_bytes());
    put(&mut bytes, SLOT_VALUE_AT, value);
    bytes
}

// A slot whose key has no row.
fn absent_image(key: u64) -> [u8; SLOT_BYTES]
    ensures { result ≡ absent_slot key }
{
    let mut bytes = [0; SLOT_BYTES];
    put(&mut bytes, 0, &[ABSENT, 0]);
    put(&mut bytes, SLOT_KEY_AT, &key.to_be_bytes());
    bytes
}
