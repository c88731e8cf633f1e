//! Items of an iterator, cut into chunks.
ghost use Rattle.std.specs.Prelude.{◌≡◌, ◌<◌, ◌≤◌, true, false, List, [], length, None, IfOk, OnErr};
ghost use Rattle.std.specs.Iterator.{count_unless, Yields, YieldsThen};
ghost use Rattle.gix_features_parts.specs.Chunks.{Cuts, Runs, LeavesAtMost};

use odb_mem_disk::NoMemory;
use std::alloc::Global;

/// The items of an inner iterator in vectors of one length, the last of which may be shorter.
///
/// After a shorter vector, and after an out-of-memory item, there is no further item.
#[derive(Drop)]
pub struct Chunks<I> {
    /// The iterator that gives the items.
    pub inner: I,
    /// The number of items in a vector.
    pub size: usize,
    alloc: Global,
    has_ended: bool,
    ghost sized: { 0 < size },
}

impl<I: Iterator> Chunks<I> {
    /// The items of `inner` in vectors of `size` items.
    pub fn new(alloc: Global, inner: I, size: usize) -> Chunks<I>
        requires { 0 < size }
        ensures inner { result.inner ≡ inner }
        ensures size { result.size ≡ size }
        ensures begun { result.has_ended ≡ false }
    {
        Chunks {
            inner,
            size,
            alloc,
            has_ended: false,
        }
    }
}

impl<I: Iterator> Iterator for Chunks<I>
where
    I::Item: Drop,
{
    type Item = Result<Vec<I::Item>, NoMemory>;

    ghost can_next = { λ s. s.has_ended ≡ false → I.can_next s.inner };

    ghost next_gives = { λ s chunk t.
        Cuts I.next_gives (λ v. v.items) s.size s.inner s.has_ended chunk t.inner t.has_ended × (t.size ≡ s.size) };

    ghost remaining = { λ s. count_unless s.has_ended (I.remaining s.inner) };

    fn next(&mut self) -> Option<Result<Vec<I::Item>, NoMemory>> {
        if self.has_ended {
            return None;
        }
        let mut chunk = Vec::new(self.alloc);
        match fill(&mut self.inner, &mut chunk, self.size) {
            Ok(has_ended) => self.has_ended = has_ended,
            Err(NoMemory) => {
                self.has_ended = true;
                return Some(Err(NoMemory));
            }
        }
        if chunk.is_empty() {
            return None;
        }
        Some(Ok(chunk))
    }
}

/// Appends items of an iterator until there are `size` of them. Returns whether the iterator ended before.
fn fill<I: Iterator>(inner: &mut I, chunk: &mut Vec<I::Item>, size: usize) -> Result<bool, NoMemory>
where
    I::Item: Drop,
    requires can { I.can_next inner.old }
    requires empty { chunk.old.items ≡ [] }
    ensures full { IfOk result (λ ended. ended ≡ false → (length chunk.new.items ≡ size)
        × Runs I.can_next I.next_gives I.remaining inner.old chunk.new.items inner.new) }
    ensures ended { IfOk result (λ ended. ended ≡ true → (length chunk.new.items < size)
        × YieldsThen I.next_gives inner.old chunk.new.items None inner.new) }
    ensures fewer { IfOk result (λ _. LeavesAtMost I.remaining inner.old chunk.new.items) }
    ensures lost { OnErr result ((items : List I.Item) × (0 < length items) × (length items ≤ size)
        × LeavesAtMost I.remaining inner.old items × Yields I.next_gives inner.old items inner.new) }
{
    'filling: while chunk.len() < size {
        let Some(item) = inner.next() else {
            return Ok(true);
        };
        chunk.push(item)?;
    }
    Ok(false)
}
