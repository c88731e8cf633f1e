//! The names under which `gix_features` re-exports its other parts. One that is gone is an error here.
pub use gix_features::cache::Debug;
pub use gix_features::decode::{Error, leb64_from_read};
pub use gix_features::fs::walk_dir::{
    DirEntry, DirEntryIter, Error as WalkError, Parallelism, WalkDir, walkdir_new,
    walkdir_sorted_new,
};
pub use gix_features::interrupt::{
    AtomicFlag, Error as InterruptError, Flag, Iter, IterWithErr, Read as InterruptRead, SetAfter,
    Write as InterruptWrite,
};
pub use gix_features::io::pipe::{Gone, PipeError, Reader, Writer, together, unidirectional};
pub use gix_features::iter::Chunks;
pub use gix_features::parallel::reduce::{
    Finalize, IdentityWithResult, Reduce as Reducer, Stepwise as Steps,
};
pub use gix_features::parallel::{
    EagerIter, EagerIterIf, InOrderError, InOrderIter, ParallelError, Reduce, Scope, SequenceId,
    Stepwise, build_thread, in_parallel, in_parallel_if, in_parallel_with_finalize,
    in_parallel_with_slice, join, num_threads, optimize_chunk_size_and_thread_limit, threads,
};
pub use gix_features::progress::{ByteSize, Count, Read as CountedRead, Write as CountedWrite};
pub use gix_features::threading::{
    MappedRefGuard, Mutable, MutableOnDemand, OnceBox, OnceLock, OwnShared, RefGuard,
    downgrade_mut_to_ref, get_mut, get_ref, lock, make_mut, with_ref,
};
