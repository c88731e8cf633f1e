//! Lists in blocks that are being filled.
ghost use Rattle.std.specs.Prelude.{◌≡◌, IfOk, OnErr, OnOk, [], ◌∷◌, ◌++◌};
ghost use Rattle.odb_base.specs.Blocks.{AreFilled, joined};

use crate::shared_list::WIDTH;
use crate::{NoMemory, Sequence, Shared};
use std::alloc::Global;
use std::marker::Model;
use std::mem;

/// A list of items so far: full blocks, and the items after them.
#[derive(Drop)]
struct Filling<X> {
    full: Sequence<Shared<Sequence<X>>>,
    last: Sequence<X>,
}

impl<X> Model for Filling<X> {
    ghost use Rattle.std.specs.Prelude.{◌≡◌, ◌≤◌, ◌++◌, List, length};
    ghost use Rattle.std.specs.Coded.{coded_list};
    ghost use Rattle.std.specs.List.{All};
    ghost use Rattle.odb_base.specs.Blocks.{joined};

    ghost Value = { List X };

    ghost coded = { coded_list X.code };

    ghost view = { λ filling. joined filling.full ++ filling.last };

    ghost invariant = { λ filling. All (λ block. length block ≡ 32) filling.full × (length filling.last ≤ 32) };
}

impl<X: Drop> Filling<X> {
    /// No item yet.
    fn new(alloc: Global) -> Filling<X>
        ensures empty { result ≡ [] }
    {
        Filling {
            full: Sequence::new(alloc),
            last: Sequence::new(alloc),
        }
    }

    /// Adds an item.
    fn push(&mut self, alloc: Global, item: X) -> Result<(), NoMemory>
        ensures ok { OnOk result (self.new ≡ self.old ++ item ∷ []) }
    {
        if self.last.len() == WIDTH {
            let last = mem::replace(&mut self.last, Sequence::new(alloc));
            add_block(alloc, &mut self.full, last)?;
        }
        self.last.push(item)?;
        Ok(())
    }

    /// The blocks; the last may not be full.
    fn finish(self, alloc: Global) -> Result<Sequence<Shared<Sequence<X>>>, NoMemory>
        ensures filled { IfOk result (AreFilled 32) }
        ensures items { IfOk result (λ blocks. joined blocks ≡ self) }
    {
        let mut blocks = self.full;
        add_block(alloc, &mut blocks, self.last)?;
        Ok(blocks)
    }
}

/// Adds a block, which then has one owner. On error the others stay.
fn add_block<X: Drop>(
    alloc: Global,
    blocks: &mut Sequence<Shared<Sequence<X>>>,
    block: Sequence<X>,
) -> Result<(), NoMemory>
    ensures ok { OnOk result (blocks.new ≡ blocks.old ++ block ∷ []) }
    ensures err { OnErr result (blocks.new ≡ blocks.old) }
{
    let block = Shared::new(alloc, block)?;
    blocks.push(block)?;
    Ok(())
}

/// The items of a vector, in blocks.
pub(crate) fn in_blocks<X: Drop>(
    alloc: Global,
    items: Vec<X>,
) -> Result<Sequence<Shared<Sequence<X>>>, NoMemory>
    ensures filled { IfOk result (AreFilled 32) }
    ensures items { IfOk result (λ blocks. joined blocks ≡ items.items) }
{
    let mut filling = Filling::new(alloc);
    for item in items {
        filling.push(alloc, item)?;
    }
    filling.finish(alloc)
}
