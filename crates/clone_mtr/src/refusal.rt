ghost use Rattle.std.specs.Prelude.{◌≡◌};
ghost use Rattle.clone_mtr.specs.declared.refusal.DecodeRefusal.TheVariants.{Short};

/// Why a mini-transaction has no spelling.
#[derive(Clone, Copy, Debug, PartialEq, Eq)]
pub enum EncodeRefusal {
    /// It would have so many bytes, which is above 1,024.
    TooLong { length: usize },
    /// There was no memory.
    NoMemory,
}

/// The spelling of a mini-transaction would have so many bytes, which is above 1,024.
#[derive(Clone, Copy, Debug, PartialEq, Eq)]
pub struct TooLong {
    /// How many bytes, or the greatest number where there would be more.
    pub length: usize,
}

/// Why no mini-transaction was read. `Short` comes exactly where further bytes would make one. The
/// others come exactly where no further bytes could, each for the first cause that reading from left
/// to right meets.
#[derive(Clone, Copy, Debug, PartialEq, Eq)]
pub enum DecodeRefusal {
    /// The bytes end inside a record, or before the end mark.
    Short,
    /// The byte at this offset begins no record, or names no kind of page.
    BadKind { at: usize },
    /// The write whose offset is at this byte lies outside the bytes that a write may name.
    OutOfPage { at: usize },
    /// More than 1,024 bytes would be needed.
    TooLong,
}

impl From<clone_bytes::Short> for DecodeRefusal {
    ghost from_gives = { λ _ e. e ≡ Short };

    fn from(_short: clone_bytes::Short) -> DecodeRefusal {
        DecodeRefusal::Short
    }
}
