ghost use Rattle.std.specs.Prelude.{ℕ, ◌≡◌, ◌≤◌, ◌<◌, ◌^◌, ◌∷◌, ◌++◌, List, Some, IfOk, IfSome, IsSomeAnd};
ghost use Rattle.std.specs.Option.{SomeIff};
ghost use Rattle.std.specs.Fmt.{decimal};
ghost use Rattle.clone_model.specs.Config.{IsPoolSize, IsRingSize};
ghost use Rattle.clone_model.specs.Ranges.{IsCall, IsTable};
ghost use Rattle.clone_model.specs.declared.line.TheConstants.{HIGHEST_TABLE, MOST_BUCKETS, MOST_PAGES};
ghost use Rattle.clone_script.specs.Fields.{IsRowField, IsRowWithValue, row_text, row_with_value_text};
ghost use Rattle.clone_base.specs.declared.limits.TheConstants.{MOST_TASKS};
ghost use Rattle.clone_model.specs.Texts.{value_text};
ghost use Rattle.clone_script.specs.Given.{IsLimit, IsTaskCount, IsVersion};
ghost use Rattle.clone_script.specs.Lines.{AreSomeBytes};
ghost use Rattle.clone_script.specs.Reading.{Parses};
ghost use Rattle.clone_script.specs.declared.fields.RowField.{RowField};

use clone_base::{MOST_LOSSES, MOST_TASKS};
use clone_model::{
    BucketCount, HIGHEST_TABLE, LEAST_POOL, LEAST_RING, MOST_CALLS, MOST_PAGES, MOST_POOL,
    MOST_RING, ScriptValue, TableNumber, Value, as_u32, leading_number, number_of, script_value_of,
    value_of,
};
use std::alloc::{AllocError, Global};

/// What a line says of a row: who is at work on it, and which row it is.
#[derive(Drop)]
pub struct RowField {
    /// The number of a transaction or of a writer.
    pub number: u32,
    /// The number of the row's table.
    pub table: TableNumber,
    /// The key of the row in its table.
    pub key: u64,
}

/// The row that the whole text shows.
pub fn read_row(text: &[u8]) -> Option<RowField>
    ensures { Parses IsRowField row_text text.now result }
{
    let ((number, table), key) = leading_pair(text)?;
    row_from(number, table, number_of(key)?)
}

/// The row that the whole text shows, and the value behind it.
pub fn read_row_with_value(
    alloc: Global,
    text: &[u8],
) -> Result<Option<(RowField, ScriptValue)>, AllocError>
    ensures { IfOk result (λ read. Parses IsRowWithValue row_with_value_text text.now read) }
{
    let Some((row, value)) = leading_row(text) else {
        return Ok(None);
    };
    let Some(value) = script_value_of(alloc, value)? else {
        return Ok(None);
    };
    Ok(Some((row, value)))
}

/// The row in front of a blank, and what stands behind that blank.
fn leading_row(text: &[u8]) -> Option<(RowField, &[u8])>
    ensures some { IfSome result
        (λ found. IsRowField found.0 × (text.now ≡ row_text found.0 ++ 32 ∷ found.1.now)) }
    ensures only { (r : RowField) (rest : List ℕ) → IsRowField r
        → text.now ≡ row_text r ++ 32 ∷ rest
        → IsSomeAnd result (λ found. (found.0 ≡ r) × (found.1.now ≡ rest)) }
{
    let ((number, table), rest) = leading_pair(text)?;
    let (key, rest) = leading_number(rest)?;
    Some((row_from(number, table, key)?, rest))
}

/// Two numbers, each in front of a blank, and what stands behind the second blank.
fn leading_pair(text: &[u8]) -> Option<((u64, u64), &[u8])>
    ensures some { IfSome result (λ found. (found.0.0 < 2 ^ 64) × (found.0.1 < 2 ^ 64)
        × (text.now ≡ decimal found.0.0 ++ 32 ∷ (decimal found.0.1 ++ 32 ∷ found.1.now))) }
    ensures only { (m n : ℕ) (rest : List ℕ) → m < 2 ^ 64 → n < 2 ^ 64
        → text.now ≡ decimal m ++ 32 ∷ (decimal n ++ 32 ∷ rest)
        → IsSomeAnd result (λ found. (found.0.0 ≡ m) × (found.0.1 ≡ n) × (found.1.now ≡ rest)) }
{
    let (first, rest) = leading_number(text)?;
    let (second, rest) = leading_number(rest)?;
    Some(((first, second), rest))
}

/// The row of these numbers.
fn row_from(number: u64, table: u64, key: u64) -> Option<RowField>
    ensures some { IfSome result
        (λ r. (r.number ≡ number) × (r.table ≡ table) × (r.key ≡ key) × IsRowField r) }
    ensures only { (r : RowField) → IsRowField r → number ≡ r.number → table ≡ r.table → key ≡ r.key
        → result ≡ Some r }
{
    Some(RowField {
        number: as_u32(number)?,
        table: table_number(table)?,
        key,
    })
}

/// The table of this number.
pub fn table_number(number: u64) -> Option<TableNumber>
    ensures { SomeIff result ((1 ≤ number) × (number ≤ HIGHEST_TABLE)) number }
{
    TableNumber::new(as_u32(number)?)
}

/// The table whose number the whole text shows.
pub fn table_of(text: &[u8]) -> Option<TableNumber>
    ensures { Parses IsTable decimal text.now result }
{
    table_number(number_of(text)?)
}

/// So many buckets.
pub fn bucket_count(number: u64) -> Option<BucketCount>
    ensures { SomeIff result ((1 ≤ number) × (number ≤ MOST_BUCKETS)) number }
{
    BucketCount::new(as_u32(number)?)
}

/// The number below 2^32 that the whole text shows.
pub fn small_number(text: &[u8]) -> Option<u32>
    ensures { Parses (λ n. n < 2 ^ 32) decimal text.now result }
{
    as_u32(number_of(text)?)
}

/// The space of this number.
pub fn space_number(number: u64) -> Option<u32>
    ensures { SomeIff result (number ≤ HIGHEST_TABLE) number }
{
    let space = as_u32(number)?;
    (space <= HIGHEST_TABLE).then_some(space)
}

/// The number of a page that the whole text shows.
pub fn page_number(text: &[u8]) -> Option<u32>
    ensures { Parses (λ page. page < MOST_PAGES) decimal text.now result }
{
    let page = small_number(text)?;
    (page < MOST_PAGES).then_some(page)
}

/// The byte that the whole text shows in decimal digits.
pub fn byte_of(text: &[u8]) -> Option<u8>
    ensures { Parses (λ b. b < 256) decimal text.now result }
{
    u8::try_from(number_of(text)?).ok()
}

/// The number of a call that the whole text shows.
pub fn call_of(text: &[u8]) -> Option<u32>
    ensures { Parses IsCall decimal text.now result }
{
    let call = small_number(text)?;
    (1..=MOST_CALLS).contains(&call).then_some(call)
}

/// The size of a pool that the whole text shows.
pub fn pool_size(text: &[u8]) -> Option<u32>
    ensures { Parses IsPoolSize decimal text.now result }
{
    let frames = small_number(text)?;
    (LEAST_POOL..=MOST_POOL).contains(&frames).then_some(frames)
}

/// The size of a ring that the whole text shows.
pub fn ring_size(text: &[u8]) -> Option<u64>
    ensures { Parses IsRingSize decimal text.now result }
{
    let bytes = number_of(text)?;
    (LEAST_RING..=MOST_RING).contains(&bytes).then_some(bytes)
}

/// The version of the wire that the whole text shows.
pub fn version_of(text: &[u8]) -> Option<u16>
    ensures { Parses IsVersion decimal text.now result }
{
    match number_of(text)? {
        1 => Some(1),
        2 => Some(2),
        _ => None,
    }
}

/// The number of tasks that the whole text shows.
pub fn task_count(text: &[u8]) -> Option<u8>
    ensures { Parses IsTaskCount decimal text.now result }
{
    let number = number_of(text)?;
    if number == 0 || number > MOST_TASKS as u64 {
        return None;
    }
    Some(number as u8)
}

/// The number of a task that the whole text shows.
pub fn task_number(text: &[u8]) -> Option<u8>
    ensures { Parses (λ n. n < MOST_TASKS) decimal text.now result }
{
    let number = number_of(text)?;
    if number >= MOST_TASKS as u64 {
        return None;
    }
    Some(number as u8)
}

/// The number of losses that the whole text shows.
pub fn loss_limit(text: &[u8]) -> Option<u32>
    ensures { Parses IsLimit decimal text.now result }
{
    let number = number_of(text)?;
    if number > MOST_LOSSES as u64 {
        return None;
    }
    Some(number as u32)
}

/// The bytes that the whole text shows, one at least and 64 at most.
pub fn some_bytes(text: &[u8]) -> Option<Value>
    ensures { Parses AreSomeBytes value_text text.now result }
{
    let value = value_of(text)?;
    if value.bytes().is_empty() {
        return None;
    }
    Some(value)
}
