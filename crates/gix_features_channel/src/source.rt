//! The source of items: a worker that draws them, or the iterator.
ghost use Rattle.std.specs.Prelude.{◌≡◌};
ghost use Rattle.gix_features_channel.specs.Eager.{has_worker};

use crate::taker::Worker;
use std::thread::Threads;

/// The source of items.
pub(crate) enum Source<I: Iterator>
where
    I::Item: Drop,
{
    /// A worker draws them.
    Elsewhere(Worker<I>),
    /// No thread could be started, so they are drawn as they are asked for.
    Here(I),
    /// There are no more.
    Ended,
}

impl<I: Iterator> Source<I>
where
    I::Item: Drop,
{
    /// Whether a worker draws the items.
    pub(crate) fn has_worker(&self) -> bool
        ensures is { result ≡ has_worker self.now }
    {
        match self {
            Source::Elsewhere(_) => true,
            Source::Here(_) => false,
            Source::Ended => false,
        }
    }
}

impl<I: Iterator + Drop> Source<I>
where
    I::Item: Drop,
{
    /// Ends the worker, if there is one.
    pub(crate) fn end<H: Threads>(self, rt: &H) {
        match self {
            Source::Elsewhere(worker) => worker.end(rt),
            Source::Here(iter) => drop(iter),
            Source::Ended => {}
        }
    }
}
