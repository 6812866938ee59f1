//! Random bytes and readings of a node's calls.

ghost use Rattle.std.specs.Prelude.{◌≡◌, IfOk};
ghost use Rattle.model_words.specs.Seen.{answer_seen};
ghost use Rattle.rehearsal_rules.specs.Words.{words_for};
ghost use Rattle.world_nodes.specs.Random as words;

use plain_types::NoMemory;
use rand_core::SeedableRng;
use rand_core::utils::NextWord;
use rand_xoshiro::SplitMix64;
use record_model::Answer;
use std::alloc::Global;

/// Words of a generator, of eight bytes each, that a call uses at most.
const MOST_WORDS: usize = 14;

/// How many of the clock's readings the call used that is answered so: 0 or 1.
pub fn readings_of(answer: &Answer) -> u64
    ensures { result ≡ words.readings_of (answer_seen answer.now) }
{
    match answer {
        Answer::Begun { .. } => 1,
        Answer::Stored { .. } => 1,
        _ => 0,
    }
}

/// How many words of its node's generator the call used that is answered so: 0, 2 or 14.
pub fn words_of(answer: &Answer) -> u64
    ensures { result ≡ words_for (words.bytes_of (answer_seen answer.now)) }
{
    match answer {
        Answer::Begun { .. } => 2,
        Answer::Stored { .. } => 14,
        _ => 0,
    }
}

/// The bytes of the next words of the generator with this state, as many as a call uses at most.
///
/// # Errors
///
/// [`NoMemory`].
pub(crate) fn next_bytes(alloc: Global, state: u64) -> Result<Vec<u8>, NoMemory>
    ensures { IfOk result (λ bytes. bytes.items ≡ words.word_bytes state 14) }
{
    let mut generator = SplitMix64::seed_from_u64(state);
    let mut bytes = Vec::new(alloc);
    for _ in 0..MOST_WORDS {
        let word = generator.next_word();
        bytes.extend_from_slice(&word.to_le_bytes())?;
    }
    Ok(bytes)
}

/// The generator's state behind so many words.
pub(crate) fn state_after(state: u64, count: u64) -> u64
    ensures { result ≡ words.state_after state count }
{
    state.wrapping_add(count.wrapping_mul(0x9e37_79b9_7f4a_7c15))
}
