ghost use Rattle.std.specs.Prelude.{◌≡◌, ◌<◌, ◌∷◌, length};
ghost use Rattle.clone_script.specs.Script.{texts_of};

use clone_model::split_once;

/// The first text of a script, and the bytes behind its line feed.
pub fn first_text(bytes: &[u8]) -> (&[u8], &[u8])
    requires { 0 < length bytes.now }
    ensures text { texts_of bytes.now ≡ result.0.now ∷ texts_of result.1.now }
    ensures shorter { length result.1.now < length bytes.now }
{
    match split_once(bytes, b'\n') {
        Some(parts) => parts,
        None => (bytes, &[]),
    }
}
