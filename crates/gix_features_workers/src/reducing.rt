//! Outputs that are fed to a reducer.
ghost use Rattle.std.specs.Vec.Iter.{into_iter_items};
ghost use Rattle.gix_features_workers.specs.Reduced.{IfReduced, Reduces};

use crate::calls::ParallelError;
use gix_features_parts::parallel::Reduce;
use std::vec::IntoIter;

/// Feeds outputs to a reducer one after another, up to its first error.
pub(crate) fn reduce_all<O: Drop, R: Reduce<Input = O> + Drop>(
    outputs: Vec<O>,
    reducer: R,
) -> Result<R::Output, ParallelError<R::Error>>
where
    R::FeedProduce: Drop,
    ensures reduced { IfReduced result (Reduces R.feeds R.comes_to reducer outputs.items) }
{
    reduce_rest(outputs.into_iter(), reducer)
}

/// Feeds the outputs that are left to a reducer one after another, up to its first error.
pub(crate) fn reduce_rest<O: Drop, R: Reduce<Input = O> + Drop>(
    mut rest: IntoIter<O>,
    mut reducer: R,
) -> Result<R::Output, ParallelError<R::Error>>
where
    R::FeedProduce: Drop,
    ensures reduced { IfReduced result (Reduces R.feeds R.comes_to reducer (into_iter_items rest)) }
{
    'feeding: while let Some(output) = rest.next() {
        match reducer.feed(output) {
            Ok(given) => drop(given),
            Err(error) => return Err(ParallelError::Reduce(error)),
        }
    }
    match reducer.finalize() {
        Ok(value) => Ok(value),
        Err(error) => Err(ParallelError::Reduce(error)),
    }
}
