ghost use Rattle.std.specs.Prelude.{◌≡◌, ◌<◌};
ghost use Rattle.clone_workload.specs.Words.{first, rest, words_of};
ghost use Rattle.clone_workload.specs.declared.generator.TheConstants.{INDEX_LIMIT};

use crate::INDEX_LIMIT;
use rand_core::utils::NextWord;
use rand_pcg::Pcg32;
use std::marker::Model;

/// The words that a transaction is made of, from the next one on.
#[derive(Drop)]
pub(crate) struct Words {
    generator: Pcg32,
}

impl Model for Words {
    ghost use Rattle.rand_pcg.specs.Lcg.{Lcg};

    ghost Value = { Lcg };

    ghost view = { λ w. w.generator };
}

impl Words {
    /// The words of this transaction of the writer. Each transaction has a stream of its own.
    #[tactic(auto, unfolding(crate::specs::Words::words_of))]
    pub(crate) fn new(seed: u64, writer: u32, index: u64) -> Words
        requires index { index < INDEX_LIMIT }
        ensures { result ≡ words_of seed writer index }
    {
        Words {
            generator: Pcg32::new(seed, u64::from(writer) * INDEX_LIMIT + index),
        }
    }

    /// The next word.
    #[tactic(auto, unfolding(crate::specs::Words::first, crate::specs::Words::rest))]
    pub(crate) fn next(&mut self) -> u32
        ensures word { result ≡ first self.old }
        ensures left { self.new ≡ rest self.old }
    {
        self.generator.next_word()
    }
}
