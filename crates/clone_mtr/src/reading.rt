ghost use Rattle.clone_mtr.specs.Answers.{Decodes};

use crate::fields::item_of;
use crate::{DecodeRefusal, Records};
use clone_bytes::Reader;

/// The records of the mini-transaction whose spelling is at the front of the bytes, and the length
/// of that spelling. No memory is taken.
pub fn decode(bytes: &[u8]) -> Result<(Records<'_>, usize), DecodeRefusal>
    ensures { Decodes bytes.now result }
{
    let mut reader = Reader::new(bytes);
    loop {
        let at = bytes.len() - reader.left();
        match item_of(at, &mut reader)? {
            Some(_) => {}
            None if at == 0 => return Err(DecodeRefusal::BadKind { at: 0 }),
            None => return Ok((Records::new(&bytes[..at]), at + 1)),
        }
    }
}
