//! How many threads work, and how many items they take at a time.
ghost use Rattle.std.specs.Prelude.{◌≡◌, ◌≤◌, None, Some, unwrap_or};
ghost use Rattle.gix_features_parts.specs.Sizes.{threads_of, chunk_of, limit_of, limit_for_chunks};

/// The fewest items of a chunk, if their total is unknown.
const LEAST: usize = 50;

/// The most items of a chunk, unless a single thread takes an unknown number of items.
const MOST: usize = 1000;

/// The number of threads: the limit, or that of the cores if there is no limit or it is 0.
pub fn num_threads(thread_limit: Option<usize>, cores: usize) -> usize
    ensures number { result ≡ threads_of thread_limit cores }
{
    match thread_limit {
        None | Some(0) => cores,
        Some(limit) => limit,
    }
}

/// The items in a chunk, and the most threads that work, twice: as a limit and as a number.
pub fn optimize_chunk_size_and_thread_limit(
    desired_chunk_size: usize,
    num_items: Option<usize>,
    thread_limit: Option<usize>,
    available_threads: Option<usize>,
    cores: usize,
) -> (usize, Option<usize>, usize)
    requires some { 1 ≤ threads_of thread_limit (unwrap_or available_threads cores) }
    requires few { threads_of thread_limit (unwrap_or available_threads cores) ≤ 65_536 }
    ensures chunk { result.0 ≡ chunk_of desired_chunk_size num_items
        (threads_of thread_limit (unwrap_or available_threads cores)) }
    ensures threads { result.2 ≡ limit_of num_items result.0
        (threads_of thread_limit (unwrap_or available_threads cores)) }
    ensures limit { result.1 ≡ Some result.2 }
{
    let threads = num_threads(thread_limit, available_threads.unwrap_or(cores));
    let (chunk, limit) = match num_items {
        None => (chunk_without_items(desired_chunk_size, threads), threads),
        Some(items) => {
            let chunk = (items / (2 * threads)).clamp(1, MOST);
            (chunk, limit_with_items(items / chunk, threads))
        }
    };
    (chunk, Some(limit), limit)
}

/// The items in a chunk, if their total is unknown.
fn chunk_without_items(desired: usize, threads: usize) -> usize
    ensures chunk { result ≡ chunk_of desired None threads }
{
    if threads == 1 {
        desired
    } else {
        desired.clamp(LEAST, MOST)
    }
}

/// How many threads take these chunks: half as many but at least one, if each thread could have a chunk; else all.
fn limit_with_items(chunks: usize, threads: usize) -> usize
    ensures limit { result ≡ limit_for_chunks chunks threads }
{
    if chunks <= threads {
        (chunks / 2).max(1)
    } else {
        threads
    }
}
