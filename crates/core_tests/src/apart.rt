//! Whether a listing can be published: no two of its rows have the same path.
ghost use Rattle.std.specs.Prelude.{◌≡◌, true};
ghost use Rattle.std.specs.List.{list_any};
ghost use Rattle.core_tests.specs.Apart.{are_apart};
ghost use Rattle.gix_odb_events.specs.PackFiles.{same_path, HasDifferentPaths};

use gix_odb_core::ListingRow;
use odb_base::PathText;

/// Whether a row has this path.
fn has_path(rows: &[ListingRow], path: &PathText) -> bool
    ensures has { result ≡ list_any (λ row. same_path path.now row.path) rows.now }
{
    rows.iter().any(|row| *path == row.path)
}

#[tactic(auto, unfolding(crate::specs::Apart::are_apart))]
fn are_apart(rows: &[ListingRow]) -> bool
    ensures apart { result ≡ are_apart rows.now }
{
    let mut rest = rows;
    while let [first, more @ ..] = rest {
        if has_path(more, &first.path) {
            return false;
        }
        rest = more;
    }
    true
}

/// Whether no two rows have the same path.
pub fn can_be_published(rows: &[ListingRow]) -> bool
    ensures apart { result ≡ true → HasDifferentPaths rows.now }
{
    are_apart(rows)
}
