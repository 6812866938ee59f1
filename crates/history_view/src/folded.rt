//! Texts with their letters folded, many in one block, so that one look passes by all of them, and one text is looked
//! through together with what stands behind it.

ghost use Rattle.std.specs.Prelude.{◌≡◌, ℕ, ◌+◌, ◌/◌, ◌≤◌, ◌<◌, ◌⊎◌, [], ◌∷◌, map, length, drop, get_or, OnOk, OnErr, IfOk};
ghost use Rattle.std.specs.Char.{to_ascii_lowercase};
ghost use Rattle.history_view.specs.Folded.{blocks_seen, starts_seen, block_of, StandsFrom, KeepsBlocks};

use plain_types::NoMemory;
use std::alloc::Global;
use std::mem;

/// So many texts share a block.
const BLOCK_TEXTS: usize = 64;

/// Texts with their ASCII letters folded to lower case, end to end: those of 64 numbers in each block. And where the text of
/// each number begins in its block.
#[derive(Drop)]
pub struct Blocks {
    whole: Vec<Vec<u8>>,
    last: Vec<u8>,
    starts: Vec<u32>,
}

impl Blocks {
    /// One block without texts. It takes no memory.
    pub fn new(alloc: Global) -> Blocks
        ensures blocks { blocks_seen result ≡ [] ∷ [] }
        ensures starts { starts_seen result ≡ [] }
    {
        Blocks {
            whole: Vec::new(alloc),
            last: Vec::new(alloc),
            starts: Vec::new(alloc),
        }
    }

    /// Puts the text of this number into its block, which is the last one or the next.
    ///
    /// # Errors
    ///
    /// [`NoMemory`], also where the block is longer than 2^32 - 1 bytes. What stood in the blocks stands there.
    pub fn add(&mut self, alloc: Global, number: usize, text: &[u8]) -> Result<(), NoMemory>
        requires reach { number / 64 ≤ length (blocks_seen self.old) }
        requires few { length (blocks_seen self.old) ≤ number / 64 + 1 }
        requires started { number ≤ length (starts_seen self.old) }
        ensures holds { OnOk result (StandsFrom (map to_ascii_lowercase text.now) (block_of (blocks_seen self.new) number) (get_or (starts_seen self.new) number 0)) }
        ensures keeps { KeepsBlocks (blocks_seen self.old) (blocks_seen self.new) }
        ensures starts { (n : ℕ) → n < number → get_or (starts_seen self.new) n 0 ≡ get_or (starts_seen self.old) n 0 }
        ensures longer { length (starts_seen self.old) ≤ length (starts_seen self.new) }
        ensures started { OnOk result (number + 1 ≤ length (starts_seen self.new)) }
        ensures reach { OnOk result (length (blocks_seen self.new) ≡ number / 64 + 1) }
        ensures size { (length (blocks_seen self.new) ≡ length (blocks_seen self.old)) ⊎ (length (blocks_seen self.new) ≡ number / 64 + 1) }
    {
        let folded = folded(alloc, text)?;
        self.begin(alloc, number / BLOCK_TEXTS)?;
        mark(&mut self.starts, number, self.last.len())?;
        self.put(folded.as_slice())?;
        Ok(())
    }

    /// Begins the block of this number, if it isn't the last one.
    ///
    /// # Errors
    ///
    /// [`NoMemory`]. The blocks are as before.
    fn begin(&mut self, alloc: Global, number: usize) -> Result<(), NoMemory>
        requires reach { number ≤ length (blocks_seen self.old) }
        requires few { length (blocks_seen self.old) ≤ number + 1 }
        ensures keeps { KeepsBlocks (blocks_seen self.old) (blocks_seen self.new) }
        ensures starts { starts_seen self.new ≡ starts_seen self.old }
        ensures begun { OnOk result (length (blocks_seen self.new) ≡ number + 1) }
        ensures same { OnErr result (length (blocks_seen self.new) ≡ length (blocks_seen self.old)) }
    {
        if number == self.whole.len() {
            return Ok(());
        }
        self.whole.reserve(1)?;
        let last = mem::replace(&mut self.last, Vec::new(alloc));
        match self.whole.push(last) {
            Ok(()) => Ok(()),
            Err(_) => unreachable!(),
        }
    }

    /// Puts the text behind those of the last block.
    ///
    /// # Errors
    ///
    /// [`NoMemory`]. The blocks are as before.
    fn put(&mut self, folded: &[u8]) -> Result<(), NoMemory>
        ensures holds { OnOk result ((i : ℕ) → length (blocks_seen self.old) ≡ i + 1 → StandsFrom folded.now (get_or (blocks_seen self.new) i []) (length self.old.last.items)) }
        ensures keeps { KeepsBlocks (blocks_seen self.old) (blocks_seen self.new) }
        ensures starts { starts_seen self.new ≡ starts_seen self.old }
        ensures same { length (blocks_seen self.new) ≡ length (blocks_seen self.old) }
    {
        self.last.extend_from_slice(folded)?;
        Ok(())
    }

    /// The block of this number; nothing where there is none.
    pub fn block(&self, number: usize) -> &[u8]
        ensures { result.now ≡ get_or (blocks_seen self.now) number [] }
    {
        match self.whole.get(number) {
            Some(block) => block.as_slice(),
            None => {
                if number == self.whole.len() {
                    self.last.as_slice()
                } else {
                    b""
                }
            }
        }
    }

    /// What stands in the block of this number's text from its beginning on.
    pub fn text(&self, number: usize) -> &[u8]
        ensures { result.now ≡ drop (get_or (starts_seen self.now) number 0) (block_of (blocks_seen self.now) number) }
    {
        let block = self.block(number / BLOCK_TEXTS);
        let start = self.start(number);
        if block.len() <= start {
            return b"";
        }
        &block[start..]
    }

    /// Where the text of this number begins in its block; 0 where nothing is noted.
    fn start(&self, number: usize) -> usize
        ensures { result ≡ get_or (starts_seen self.now) number 0 }
    {
        match self.starts.get(number) {
            Some(start) => *start as usize,
            None => 0,
        }
    }
}

/// Notes where the text of this number begins in its block.
///
/// # Errors
///
/// [`NoMemory`]. What was noted of lesser numbers stands.
fn mark(starts: &mut Vec<u32>, number: usize, start: usize) -> Result<(), NoMemory>
    requires { number ≤ length starts.old.items }
    ensures noted { OnOk result (get_or starts.new.items number 0 ≡ start) }
    ensures same { (n : ℕ) → n < number → get_or starts.new.items n 0 ≡ get_or starts.old.items n 0 }
    ensures longer { length starts.old.items ≤ length starts.new.items }
    ensures reach { OnOk result (number + 1 ≤ length starts.new.items) }
{
    let Ok(start) = u32::try_from(start) else {
        return Err(NoMemory);
    };
    if number == starts.len() {
        starts.push(start)?;
    } else {
        starts[number] = start;
    }
    Ok(())
}

/// The text with its ASCII letters folded to lower case.
fn folded(alloc: Global, text: &[u8]) -> Result<Vec<u8>, NoMemory>
    ensures { IfOk result (λ v. v.items ≡ map to_ascii_lowercase text.now) }
{
    Ok(
        text.iter()
            .map(|byte| byte.to_ascii_lowercase())
            .collect(alloc)?,
    )
}
