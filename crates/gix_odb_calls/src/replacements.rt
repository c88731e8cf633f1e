//! The ids that are sought in the place of others.
ghost use Rattle.std.specs.Prelude.{◌≡◌, IfOk, reverse};
ghost use Rattle.std.specs.BTreeMap.{IsFromIterResult};
ghost use Rattle.std.specs.FinMap as finite;
ghost use Rattle.gix_hash.specs.ObjectId.{id_cmp};

use gix_hash::ObjectId;
use odb_base::NoMemory;
use std::alloc::Global;
use std::collections::BTreeMap;
use std::marker::Model;

/// The replacement of each id that has one.
#[derive(Drop)]
pub struct Replacements {
    by_id: BTreeMap<ObjectId, ObjectId>,
}

impl Model for Replacements {
    ghost use Rattle.std.specs.FinMap as finite;
    ghost use Rattle.gix_odb_calls.specs.Replacements.{Replacements as ReplacementsValue, coded_replacements};

    ghost Value = { ReplacementsValue };

    ghost coded = { coded_replacements };

    ghost view = { λ r. finite.from_entries r.by_id.entries };
}

impl Replacements {
    /// Returns the replacements that pairs name: each pair's first id is replaced by its second. Where pairs have the same
    /// first id, the first of them stands.
    pub fn from_pairs(
        alloc: Global,
        pairs: &[(ObjectId, ObjectId)],
    ) -> Result<Replacements, NoMemory>
        ensures made { IfOk result (λ made. made ≡ finite.from_entries pairs.now) }
    {
        let by_id = map_of(alloc, pairs)?;
        Ok(Replacements { by_id })
    }

    /// Returns the replacement of an id, if it has one.
    pub fn get(&self, id: &ObjectId) -> Option<ObjectId>
        ensures replacement { result ≡ finite.get self.now id.now }
    {
        self.by_id.get(id).copied()
    }
}

/// Collects pairs into a map, from the last to the first.
fn map_of(
    alloc: Global,
    pairs: &[(ObjectId, ObjectId)],
) -> Result<BTreeMap<ObjectId, ObjectId>, NoMemory>
    ensures made { IfOk result (IsFromIterResult id_cmp (reverse pairs.now)) }
{
    Ok(pairs.iter().rev().copied().collect(alloc)?)
}
