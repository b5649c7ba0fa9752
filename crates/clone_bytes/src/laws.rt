ghost use Rattle.std.specs.Prelude.{◌≡◌, ◌≤◌, List, ℕ, length, take};
ghost use Rattle.byteorder.specs.Endian.{big_bytes, big_number};
ghost use Rattle.clone_bytes.specs.Fields.{IsBytes};

/// The bytes of a number that was read are the bytes that were read, whatever the width.
pub fn a_number_is_its_bytes()
    ensures { (n : ℕ) (bytes : List ℕ) → n ≤ length bytes → IsBytes bytes
        → big_bytes n (big_number n bytes) ≡ take n bytes }
{}
