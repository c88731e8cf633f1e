//! The order in which the rows of a listing are tried.
ghost use Rattle.std.specs.Prelude.{◌≡◌, IfOk};
ghost use Rattle.gix_odb_search.specs.LongestFirst.{longest_first};

use gix_odb_events::ListingRowList;
use odb_base::{NoMemory, Sequence};

/// Sorts the rows of a listing, the longest files first; those of one length stay in their order.
pub fn longest_first(rows: ListingRowList) -> Result<ListingRowList, NoMemory>
    ensures ordered { IfOk result (λ ordered. ordered ≡ longest_first rows) }
{
    let mut rows = rows.into_vec();
    rows.sort_by(|row, other| other.len.cmp(&row.len))?;
    Ok(Sequence::from_vec(rows))
}
