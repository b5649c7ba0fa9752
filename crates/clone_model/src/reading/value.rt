ghost use Rattle.std.specs.Prelude.{ℕ, ◌≡◌, ◌<◌, ◌≤◌, ◌++◌, List, Option, IfOk, IfSome, IsSomeAnd, length, take};
ghost use Rattle.clone_model.specs.Texts.{hex_digit, hex_byte, hex, value_text};
ghost use Rattle.clone_model.specs.Texts as texts;
ghost use Rattle.clone_model.specs.Ranges.{IsScriptValue};
ghost use Rattle.clone_model.specs.Reading.{IsValue, IsValueOrNone, AreBytes, IsFront};

use crate::{LONGEST_SCRIPT_VALUE, ScriptValue, Value};
use clone_base::VALUE_LIMIT;
use std::alloc::{AllocError, Global};

/// The value that the whole text shows: a dash for the empty one, or two lower-case hex digits for
/// each of its bytes.
pub fn value_of(text: &[u8]) -> Option<Value>
    ensures some { IfSome result (λ v. IsValue v × (text.now ≡ value_text v)) }
    ensures only { (v : List ℕ) → IsValue v → text.now ≡ value_text v → result ≡ Some v }
{
    let mut room = [0; VALUE_LIMIT];
    let len = decode_value(text, &mut room)?;
    Value::new(&room[..len])
}

/// The value of at most 1,024 bytes that the whole text shows, in the form of `value_of`. None
/// where it shows no such value.
pub fn script_value_of(alloc: Global, text: &[u8]) -> Result<Option<ScriptValue>, AllocError>
    ensures some { IfOk result
        (λ read. IfSome read (λ v. IsScriptValue v × (text.now ≡ value_text v))) }
    ensures only { IfOk result
        (λ read. (v : List ℕ) → IsScriptValue v → text.now ≡ value_text v → read ≡ Some v) }
{
    let mut room = [0; LONGEST_SCRIPT_VALUE];
    match decode_value(text, &mut room) {
        Some(len) => ScriptValue::new(alloc, &room[..len]),
        None => Ok(None),
    }
}

/// The value that the whole text shows, or none where the text says that there is none.
pub fn value_or_none(text: &[u8]) -> Option<Option<Value>>
    ensures some { IfSome result (λ v. IsValueOrNone v × (text.now ≡ texts.value_or_none v)) }
    ensures only { (v : Option (List ℕ)) → IsValueOrNone v → text.now ≡ texts.value_or_none v
        → result ≡ Some v }
{
    if text == b"none".as_slice() {
        return Some(None);
    }
    Some(Some(value_of(text)?))
}

/// Puts the bytes of the value that the whole text shows at the front of the room, and says how
/// many they are. None where the text shows no value that fits.
fn decode_value(text: &[u8], room: &mut [u8]) -> Option<usize>
    ensures some { IfSome result
        (λ n. IsFront n room.new × (text.now ≡ value_text (take n room.new))) }
    ensures only { (v : List ℕ) → length v ≤ length room.old → AreBytes v → text.now ≡ value_text v
        → IsSomeAnd result (λ n. take n room.new ≡ v) }
    ensures same_room { length room.new ≡ length room.old }
{
    if text == b"-".as_slice() {
        return Some(0);
    }
    if text.is_empty() {
        return None;
    }
    decode_hex(text, room)
}

/// Puts the bytes of which the text is the hex digits at the front of the room, and says how many
/// they are. None where the text is not of bytes that fit.
fn decode_hex(text: &[u8], room: &mut [u8]) -> Option<usize>
    ensures some { IfSome result (λ n. IsFront n room.new × (text.now ≡ hex (take n room.new))) }
    ensures only { (v : List ℕ) → length v ≤ length room.old → AreBytes v → text.now ≡ hex v
        → IsSomeAnd result (λ n. take n room.new ≡ v) }
    ensures same_room { length room.new ≡ length room.old }
{
    let mut len = 0;
    let mut rest = text;
    while !rest.is_empty() {
        if len == room.len() {
            return None;
        }
        let (byte, behind) = leading_byte(rest)?;
        room[len] = byte;
        len += 1;
        rest = behind;
    }
    Some(len)
}

/// The byte that the first two hex digits show, and what stands behind them.
fn leading_byte(text: &[u8]) -> Option<(u8, &[u8])>
    ensures some { IfSome result
        (λ found. (found.0 < 256) × (text.now ≡ hex_byte found.0 ++ found.1.now)) }
    ensures only { (b : ℕ) (rest : List ℕ) → b < 256 → text.now ≡ hex_byte b ++ rest
        → IsSomeAnd result (λ found. (found.0 ≡ b) × (found.1.now ≡ rest)) }
{
    let [high, low, rest @ ..] = text else {
        return None;
    };
    Some((16 * digit(*high)? + digit(*low)?, rest))
}

/// What a lower-case hex digit counts.
fn digit(byte: u8) -> Option<u8>
    ensures some { IfSome result (λ n. (n < 16) × (byte ≡ hex_digit n)) }
    ensures only { (n : ℕ) → n < 16 → byte ≡ hex_digit n → result ≡ Some n }
{
    match byte {
        b'0'..=b'9' => Some(byte - b'0'),
        b'a'..=b'f' => Some(byte - b'a' + 10),
        _ => None,
    }
}
