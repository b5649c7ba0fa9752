use clone_model::Value;

/// What a row slot held before it was changed.
#[derive(Drop)]
pub enum Before {
    /// A row with this value.
    Present(Value),
    /// No row, or nothing ever.
    Absent,
}
