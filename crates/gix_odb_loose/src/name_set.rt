//! The ids that look-ups of a prefix found.
ghost use Rattle.std.specs.Prelude.{◌≡◌, ◌||◌, [], OnErr, OnOk};
ghost use Rattle.std.specs.BTreeSet.{contains};
ghost use Rattle.gix_hash.specs.ObjectId.{id_cmp};
ghost use Rattle.gix_hash.specs.declared.object_id.ObjectId.{ObjectId as IdValue};
ghost use Rattle.gix_odb_loose.specs.NameSet.{is_ambiguous, outcome_of, taken};
ghost use Rattle.gix_odb_loose.specs.PrefixNames.{same_id};

use crate::lookup::Outcome;
use gix_hash::ObjectId;
use odb_base::{NoMemory, Sequence};
use std::alloc::Global;
use std::collections::BTreeSet;
use std::marker::Model;

/// Ids, in the order in which they were found.
pub type IdList = Sequence<ObjectId>;

/// The ids that were found, each once, which contracts see as that list. Whether an id is among them is found without
/// going through the list.
#[derive(Drop)]
pub struct NameSet {
    list: Vec<ObjectId>,
    /// The same ids.
    known: BTreeSet<ObjectId>,
}

impl Model for NameSet {
    ghost use Rattle.std.specs.Prelude.{List};
    ghost use Rattle.gix_hash.specs.declared.object_id.ObjectId.{ObjectId as IdValue};
    ghost use Rattle.gix_odb_loose.specs.NameSet.{AreKnown};

    ghost Value = { List IdValue };

    ghost view = { λ names. names.list.items };

    ghost invariant = { λ names. AreKnown names.known names.list.items };
}

impl NameSet {
    /// No ids. It allocates no memory.
    pub fn new(alloc: Global) -> NameSet
        ensures empty { result ≡ [] }
    {
        NameSet {
            list: Vec::new(alloc),
            known: BTreeSet::new(alloc),
        }
    }

    /// Takes an id that was found, unless it is there already. Running out of memory changes nothing.
    pub fn take(&mut self, id: ObjectId) -> Result<(), NoMemory>
        ensures taken { OnOk result (self.new ≡ taken self.old id) }
        ensures kept { OnErr result (self.new ≡ self.old) }
    {
        if self.known.contains(&id) {
            return Ok(());
        }
        self.list.push(id)?;
        if let Err(error) = add(&mut self.known, id) {
            // The list goes back too, so that both have the same ids.
            let _ = self.list.pop();
            return Err(error);
        }
        Ok(())
    }

    /// Whether there are several.
    pub fn is_ambiguous(&self) -> bool
        ensures several { result ≡ is_ambiguous self.now }
    {
        self.list.len() > 1
    }

    /// None, one, or several.
    pub fn outcome(&self) -> Option<Outcome>
        ensures outcome { result ≡ outcome_of self.now }
    {
        match self.list.get(0) {
            None => None,
            Some(_) if self.list.len() > 1 => Some(Outcome::Ambiguous),
            Some(id) => Some(Outcome::One(*id)),
        }
    }

    /// The ids.
    pub fn into_list(self) -> IdList
        ensures ids { result ≡ self }
    {
        IdList::from_vec(self.list)
    }
}

/// Adds an id. Running out of memory changes nothing.
fn add(known: &mut BTreeSet<ObjectId>, id: ObjectId) -> Result<(), NoMemory>
    ensures added { OnOk result ((other : IdValue) → contains id_cmp known.new other ≡ (contains id_cmp known.old other || same_id other id)) }
    ensures kept { OnErr result (known.new.keys ≡ known.old.keys) }
{
    known.insert(id)?;
    Ok(())
}
