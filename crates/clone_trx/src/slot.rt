ghost use Rattle.std.specs.Prelude.{◌≡◌, [], option_and_then, unwrap_or};
ghost use Rattle.clone_undo.specs.Entries.{state_number, value_before, IsBefore};
ghost use Rattle.clone_trx.specs.RowSlots.{held_value, state_of_row};

use clone_model::Value;
use clone_page::Page;
use clone_row::present;
use clone_undo::Before;

/// The value of the row in a slot, if there is a slot, and a row in it.
pub fn value_on(page: &Page, slot: Option<u16>) -> Option<Value>
    ensures { result ≡ option_and_then (held_value page.now) slot }
{
    let (_, value) = present(page, slot?)?;
    Some(value)
}

/// What a slot holds.
pub fn before_on(page: &Page, slot: u16) -> Before
    ensures state { state_number result ≡ state_of_row (held_value page.now slot) }
    ensures value { value_before result ≡ unwrap_or (held_value page.now slot) [] }
    ensures range { IsBefore (state_number result) (value_before result) }
{
    let Some((_, value)) = present(page, slot) else {
        return Before::Absent;
    };
    // it has at most 64 bytes
    value.bytes();
    Before::Present(value)
}
