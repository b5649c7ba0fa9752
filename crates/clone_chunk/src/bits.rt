ghost use Rattle.std.specs.Prelude.{◌≡◌};
ghost use Rattle.clone_chunk.specs.Chunks.{has_bit};

/// Whether the bit of a chunk is set. Past the end of the bitmap none is.
pub fn is_set(bitmap: &[u8], chunk: u32) -> bool
    ensures { result ≡ has_bit bitmap.now chunk }
{
    match bitmap.get(chunk as usize / 8) {
        Some(byte) => *byte >> (chunk % 8) & 1 == 1,
        None => false,
    }
}
