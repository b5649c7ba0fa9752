//! The names of the files that hold a disk's spaces: `space_N.pages`, where N is the number in
//! decimal digits, with none before it.
ghost use Rattle.std.specs.Prelude.{◌≡◌, ◌++◌, IfOk, OnOk, IfSome, string_bytes};
ghost use Rattle.clone_real.specs.Names.{file_name};

use std::alloc::{AllocError, Global};

/// Adds the name of the file of a space. The error is that there is no memory.
pub fn push_file_name(path: &mut String, space: u32) -> Result<(), AllocError>
    ensures { OnOk result (string_bytes path.new ≡ string_bytes path.old ++ file_name space) }
{
    write!(path, "space_{space}.pages")
}

/// The space whose file has this name, or none where the file is a foreign one. The error is that
/// there is no memory.
pub fn space_named(alloc: Global, name: &str) -> Result<Option<u32>, AllocError>
    ensures { IfOk result (λ space. IfSome space (λ n. name.now ≡ file_name n)) }
{
    let Some(space) = number_in(name) else {
        return Ok(None);
    };
    let mut own = String::new(alloc);
    push_file_name(&mut own, space)?;
    if own.as_str() == name {
        Ok(Some(space))
    } else {
        Ok(None)
    }
}

// The number between the two parts that each name has.
fn number_in(name: &str) -> Option<u32> {
    let rest = name.strip_prefix("space_")?;
    let number = rest.strip_suffix(".pages")?;
    number.parse().ok()
}
