//! The calls of the walk, as they are drawn.
ghost use Rattle.std.specs.Prelude.{◌<◌};

use crate::walk::asking::Call;
use rand_core::utils::NextWord;
use rand_pcg::Pcg32;

/// As many bytes as a value that is too long has at most.
pub const LONGEST: usize = 66;

// So few transactions that most calls find theirs open.
const TRANSACTIONS: u32 = 5;

// So many keys that chains get long.
const KEYS: u32 = 2_000;

/// The words that this state and this stream give. (Its caller's proof then knows no number of
/// theirs.)
pub fn words_from(state: u64, stream: u64) -> Pcg32 {
    Pcg32::new(state, stream)
}

/// A word below the limit.
pub fn below(words: &mut Pcg32, limit: u32) -> u32
    requires { 0 < limit }
    ensures { result < limit }
{
    words.next_word() % limit
}

/// The bytes of which a value is a front.
pub fn drawn_bytes(words: &mut Pcg32) -> [u8; LONGEST] {
    [below(words, 256) as u8; LONGEST]
}

/// The next call of a donor, by its number. A value is a front of these bytes, and at most one byte
/// longer than a row may have.
pub fn drawn_call<'a>(words: &mut Pcg32, call: u64, bytes: &'a [u8; LONGEST]) -> Call<'a> {
    let trx = below(words, TRANSACTIONS);
    let table = drawn_table(words);
    let key = below(words, KEYS) as u64;
    match below(words, 20) {
        0 => drawn_call_of_table(words),
        1 | 2 => Call::Begin(below(words, 8), call),
        3..=12 => {
            let length = below(words, 66) as usize;
            Call::Put(trx, table, key, &bytes[..length])
        }
        13 => Call::Delete(trx, table, key),
        14 => Call::Get(trx, table, key),
        15 => Call::Undo(trx),
        _ => Call::Commit(trx),
    }
}

// One of three tables is made, or dropped.
fn drawn_call_of_table<'a>(words: &mut Pcg32) -> Call<'a> {
    let table = 1 + below(words, 3);
    match below(words, 2) {
        0 => Call::Drop(table),
        _ => Call::Create(table, 1 + below(words, 2)),
    }
}

// One of three tables, of which the last is seldom named.
fn drawn_table(words: &mut Pcg32) -> u32 {
    match below(words, 40) {
        0 => 3,
        number => 1 + number % 2,
    }
}
