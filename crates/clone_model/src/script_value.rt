//! A value as a script gives it: at most 1,024 bytes. A value that a row may have stands in place,
//! and a longer one in memory.
ghost use Rattle.std.specs.Prelude.{◌≡◌, ◌≤◌, ◌<◌, length, IfOk, IfSome, IfNone};

use crate::Value;
use std::alloc::{AllocError, Global};
use std::fmt;
use std::marker::Model;

/// The most bytes that a script may give a value.
pub const LONGEST_SCRIPT_VALUE: usize = 1_024;

/// The value of a row as a script gives it: at most 1,024 bytes. A row keeps at most 64 of them,
/// and it is for the reader of a script's lines to refuse more.
#[derive(Drop)]
pub struct ScriptValue {
    kept: Kept,
}

/// Where the bytes of a script's value are.
#[derive(Drop)]
enum Kept {
    /// No more than a row's value has, kept in place.
    Short(Value),
    /// More than that.
    Long(Vec<u8>),
}

impl Model for ScriptValue {
    ghost use Rattle.std.specs.Prelude.{List, ℕ, length, ◌≤◌};
    ghost use Rattle.clone_model.specs.Kept.{bytes_of};
    ghost use Rattle.clone_model.specs.declared.script_value.TheConstants.{LONGEST_SCRIPT_VALUE};

    ghost Value = { List ℕ };

    ghost view = { λ v. bytes_of v.kept };

    ghost invariant = { λ v. length (bytes_of v.kept) ≤ LONGEST_SCRIPT_VALUE };
}

impl ScriptValue {
    /// The value of these bytes, or none where there are more than 1,024.
    pub fn new(alloc: Global, bytes: &[u8]) -> Result<Option<ScriptValue>, AllocError>
        ensures value { IfOk result (λ read. IfSome read (λ v. v ≡ bytes.now)) }
        ensures none { IfOk result (λ read. IfNone read (LONGEST_SCRIPT_VALUE < length bytes.now)) }
    {
        if let Some(value) = Value::new(bytes) {
            let kept = Kept::Short(value);
            return Ok(Some(ScriptValue { kept }));
        }
        if bytes.len() > LONGEST_SCRIPT_VALUE {
            return Ok(None);
        }
        let kept = Kept::Long(bytes.to_vec(alloc)?);
        Ok(Some(ScriptValue { kept }))
    }

    /// The bytes of the value.
    pub fn bytes(&self) -> &[u8]
        ensures value { result.now ≡ self.now }
        ensures short { length self.now ≤ LONGEST_SCRIPT_VALUE }
    {
        match &self.kept {
            Kept::Short(value) => value.bytes(),
            Kept::Long(bytes) => bytes,
        }
    }
}

impl PartialEq for ScriptValue {
    ghost use Rattle.std.specs.Prelude.{nat_eq};
    ghost use Rattle.std.specs.Cmp.{partial_equiv_from_equiv};
    ghost use Rattle.std.specs.Cmp.Lexicographic.{pointwise, nat_list_eq_equiv};

    ghost eq = { pointwise nat_eq };

    ghost laws = { partial_equiv_from_equiv nat_list_eq_equiv };

    fn eq(&self, other: &ScriptValue) -> bool {
        self.bytes() == other.bytes()
    }
}

impl Eq for ScriptValue {
    ghost use Rattle.std.specs.Cmp.Lexicographic.{nat_list_eq_equiv};

    ghost laws = { nat_list_eq_equiv };
}

/// The list of the bytes.
impl fmt::Debug for ScriptValue {
    fn fmt<W: fmt::Write>(&self, f: &mut fmt::Formatter<W>) -> fmt::Result {
        self.bytes().fmt(f)
    }
}
