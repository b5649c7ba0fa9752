//! A row's value: room for 64 bytes in place, of which the first `len` count. `len` is at most 64,
//! and what stands behind it means nothing.
ghost use Rattle.std.specs.Prelude.{◌≡◌, ◌≤◌, ◌<◌, List, ℕ, length, IfSome, IfNone, take};
ghost use Rattle.clone_base.specs.declared.limits.TheConstants.{VALUE_LIMIT};

use clone_base::VALUE_LIMIT;
use std::fmt;
use std::marker::Model;

/// The value of a row: at most 64 bytes, kept in place.
#[derive(Drop)]
pub struct Value {
    bytes: [u8; VALUE_LIMIT],
    len: u8,
}

impl Model for Value {
    ghost Value = { List ℕ };

    ghost view = { λ v. take v.len v.bytes };

    ghost invariant = { λ v. v.len ≤ VALUE_LIMIT };
}

impl Value {
    /// The value of these bytes, or none where there are more than 64.
    pub fn new(bytes: &[u8]) -> Option<Value>
        ensures value { IfSome result (λ v. v ≡ bytes.now) }
        ensures none { IfNone result (VALUE_LIMIT < length bytes.now) }
    {
        if bytes.len() > VALUE_LIMIT {
            return None;
        }
        let mut kept = [0; VALUE_LIMIT];
        kept[..bytes.len()].copy_from_slice(bytes);
        Some(Value {
            bytes: kept,
            len: bytes.len() as u8,
        })
    }

    /// The bytes of the value.
    pub fn bytes(&self) -> &[u8]
        ensures value { result.now ≡ self.now }
        ensures short { length self.now ≤ VALUE_LIMIT }
    {
        &self.bytes[..self.len as usize]
    }

    /// The same value once more. This takes no memory.
    pub fn copied(&self) -> Value
        ensures { result ≡ self.now }
    {
        Value {
            bytes: self.bytes,
            len: self.len,
        }
    }
}

impl PartialEq for Value {
    ghost use Rattle.std.specs.Prelude.{nat_eq};
    ghost use Rattle.std.specs.Cmp.{partial_equiv_from_equiv};
    ghost use Rattle.std.specs.Cmp.Lexicographic.{pointwise, nat_list_eq_equiv};

    ghost eq = { pointwise nat_eq };

    ghost laws = { partial_equiv_from_equiv nat_list_eq_equiv };

    fn eq(&self, other: &Value) -> bool {
        self.bytes() == other.bytes()
    }
}

impl Eq for Value {
    ghost use Rattle.std.specs.Cmp.Lexicographic.{nat_list_eq_equiv};

    ghost laws = { nat_list_eq_equiv };
}

/// The list of the bytes.
impl fmt::Debug for Value {
    fn fmt<W: fmt::Write>(&self, f: &mut fmt::Formatter<W>) -> fmt::Result {
        self.bytes().fmt(f)
    }
}
