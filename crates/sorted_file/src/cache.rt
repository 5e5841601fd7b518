//! The cache of an open file: the blocks that were used last.

ghost use Rattle.std.specs.Prelude.{◌≡◌, [], IfOk, ◌⊎◌, ℕ, List, slice_get, take, Contains, Some, IsOkUnless};
ghost use Rattle.std.specs.NonZero.{non_zero_usize_get};
ghost use Rattle.lru.specs.LruCache.{lru_cache};
ghost use Rattle.sorted_file.specs.Index.{block_of};
ghost use Rattle.sorted_file.specs.File.{AreCached};
ghost use Rattle.sorted_file.specs.Block.{IsParsed};
ghost use Rattle.sorted_file.specs.declared.block.BlockRow.{BlockRow as Row};
ghost use Rattle.sorted_file.specs.declared.block.Block.{Block as Cached};

use crate::block::Block;
use cell_key::Refusal;
use lru::LruCache;
use std::alloc::Global;
use std::num::NonZeroUsize;

/// The default capacity of an open file's cache, in blocks.
const FEW_BLOCKS: usize = 8;

/// The default capacity of an open file's cache: 8 blocks.
pub fn few_blocks() -> NonZeroUsize
    ensures { non_zero_usize_get result ≡ 8 }
{
    NonZeroUsize::new(FEW_BLOCKS).unwrap()
}

/// An empty cache with a capacity of this many blocks. Answers `NoMemory` if there is no memory.
pub(crate) fn no_blocks(
    alloc: Global,
    most: NonZeroUsize,
) -> Result<LruCache<usize, Block>, Refusal>
    ensures none { IfOk result (λ cache. cache.entries ≡ []) }
    ensures most { IfOk result (λ cache. cache.cap ≡ non_zero_usize_get most) }
    ensures refusal { IsOkUnless result Refusal.NoMemory }
{
    // Room for more blocks is allocated when they are cached.
    let mut cache = LruCache::new(alloc, few_blocks())?;
    cache.resize(most);
    Ok(cache)
}

/// Sets the capacity of a cache, in blocks. If it holds more, the least recently used ones are evicted.
pub(crate) fn resize(cache: &mut LruCache<usize, Block>, most: NonZeroUsize)
    ensures cache { cache.new ≡ lru_cache (take (non_zero_usize_get most) cache.old.entries)
        (non_zero_usize_get most) }
    ensures still { (rows : List Row) → AreCached rows cache.old.entries
        → AreCached rows cache.new.entries }
    ensures kept { (e : ℕ × Cached) → Contains cache.new.entries e
        → Contains cache.old.entries e }
{
    cache.resize(most);
}

/// Caches a block as the most recently used, and evicts the least recently used one if the cache is full. If there is
/// no memory for it, it isn't cached.
pub(crate) fn keep(cache: &mut LruCache<usize, Block>, number: usize, block: Block)
    ensures still { (rows : List Row) → AreCached rows cache.old.entries
        → ((row : Row) → slice_get rows number ≡ Some row → IsParsed (block_of row) block)
        → AreCached rows cache.new.entries }
    ensures kept { (e : ℕ × Cached) → Contains cache.new.entries e
        → Contains cache.old.entries e ⊎ (e ≡ (number, block)) }
{
    let _told: Result<_, _> = cache.put(number, block);
}

/// Marks a block as the most recently used.
pub(crate) fn promote(cache: &mut LruCache<usize, Block>, number: usize)
    ensures still { (rows : List Row) → AreCached rows cache.old.entries
        → AreCached rows cache.new.entries }
    ensures kept { (e : ℕ × Cached) → Contains cache.new.entries e
        → Contains cache.old.entries e }
{
    let _ = cache.promote(&number);
}

/// The block that is evicted next, if the cache is full, or an empty block: the room for another one.
pub(crate) fn evict(alloc: Global, cache: &mut LruCache<usize, Block>) -> Block
    ensures still { (rows : List Row) → AreCached rows cache.old.entries
        → AreCached rows cache.new.entries }
    ensures kept { (e : ℕ × Cached) → Contains cache.new.entries e
        → Contains cache.old.entries e }
{
    if cache.len() < cache.cap().get() {
        return Block::new(alloc);
    }
    match cache.pop_lru() {
        Some((_, block)) => block,
        None => Block::new(alloc),
    }
}
