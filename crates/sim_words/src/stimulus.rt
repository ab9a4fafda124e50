//! What drives the runs: the words of a permuted congruential generator (M. O'Neill, PCG, 2014), which a seed repeats.
ghost use Rattle.std.specs.Prelude.{◌≡◌, length};
ghost use Rattle.rand_core.specs.Pcg32Seed.{pcg32_seed};
ghost use Rattle.rand_core.specs.Steps.{first_words};
ghost use Rattle.rand_pcg.specs.Pcg.{pcg64, pcg64_of_seed};
ghost use Rattle.sim_words.specs.Stimulus.{after_words};

use rand_core::SeedableRng;
use rand_core::utils::NextWord;
use rand_pcg::Lcg128Xsl64;
use std::marker::Model;

/// A source of words, seen as the state of its generator.
#[derive(Drop)]
pub struct Stimulus {
    generator: Lcg128Xsl64,
}

impl Model for Stimulus {
    ghost use Rattle.rand_pcg.specs.Lcg.{Lcg};
    ghost use Rattle.sim_words.specs.Stimulus.{generator_code};

    ghost Value = { Lcg };

    ghost coded = { generator_code };

    ghost view = { λ s. s.generator };
}

impl Stimulus {
    /// The source of this seed.
    pub fn new(seed: u64) -> Stimulus
        ensures { result ≡ pcg64_of_seed (pcg32_seed 32 seed) }
    {
        Stimulus {
            generator: Lcg128Xsl64::seed_from_u64(seed),
        }
    }

    /// Writes the generator's next words, in their order.
    pub fn fill(&mut self, words: &mut [u64])
        ensures words { words.new ≡ first_words pcg64 (length words.old) self.old }
        ensures after { self.new ≡ after_words (length words.old) self.old }
    {
        for i in 0..words.len() {
            words[i] = self.generator.next_word();
        }
    }
}
