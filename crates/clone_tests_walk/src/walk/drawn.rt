//! What the walk draws.
ghost use Rattle.std.specs.Prelude.{◌<◌};

use rand_core::utils::NextWord;
use rand_pcg::Pcg32;

/// The words that this state and this stream give. (Its caller's proof then knows no number of
/// theirs.)
pub fn words_from(state: u64, stream: u64) -> Pcg32 {
    Pcg32::new(state, stream)
}

/// A word below the limit.
pub fn below(words: &mut Pcg32, limit: u32) -> u32
    requires { 0 < limit }
    ensures { result < limit }
{
    words.next_word() % limit
}

/// A length up to this one.
pub fn length_within(words: &mut Pcg32, most: usize) -> usize {
    let most = most.min(u32::MAX as usize) as u64;
    (words.next_word() as u64 % (most + 1)) as usize
}
