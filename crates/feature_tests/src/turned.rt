//! Items of a list that come last first, and are given in order.
ghost use Rattle.std.specs.Prelude.{◌≡◌, ◌∷◌, ◌++◌, [], Ok, vec_len, IfOk, MatchOption};
ghost use Rattle.std.specs.Iterator.{at_most};
ghost use Rattle.gix_features_parts.specs.InOrderRuns.{GivesItems};

use crate::orders::{Broken, Given, drained};
use std::alloc::{AllocError, Global};
use std::test::Fail;

/// The items of a list with their places as numbers, the last one first.
#[derive(Drop)]
struct LastFirst<T> {
    left: Vec<T>,
}

impl<T: Drop> Iterator for LastFirst<T> {
    type Item = Result<(usize, T), Broken>;

    ghost next_gives = { λ s came t. MatchOption came (vec_len s.left ≡ 0)
        (λ numbered. (item : T) × (numbered ≡ Ok (vec_len t.left, item)) × (s.left.items ≡ t.left.items ++ item ∷ [])) };

    ghost remaining = { λ s. at_most (vec_len s.left) };

    fn next(&mut self) -> Option<Result<(usize, T), Broken>> {
        let item = self.left.pop()?;
        Some(Ok((self.left.len(), item)))
    }
}

/// A list's items that come last first are given in order: the law, at an iterator.
fn turned<T: Drop>(alloc: Global, left: Vec<T>) -> Result<Given<T, Broken>, AllocError>
    ensures in_order { IfOk result (λ given. GivesItems left.items given.items) }
{
    drained(alloc, LastFirst { left })
}

// Catches a list of which nothing is given because memory ran out.
#[test]
fn last_first(rt: HostRuntime) -> Result<(), Fail> {
    let given = turned(rt.alloc(), b"abc".to_vec(rt.alloc())?)?;
    let is_right = matches!(given.as_slice(), [Ok(b'a'), Ok(b'b'), Ok(b'c')]);
    drop(given);
    assert!(rt; is_right);
    Ok(())
}
