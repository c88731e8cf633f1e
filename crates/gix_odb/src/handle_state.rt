//! A handle on a store without its work.
ghost use Rattle.std.specs.Prelude.{◌≡◌, IfOk};
ghost use Rattle.gix_odb.specs.HandleState.{IsAlike, replaced_by, sought_by, with_view};

use crate::refresh_mode::RefreshMode;
use gix_hash::ObjectId;
use gix_object::Want;
use gix_odb_calls::{Query, StoreParts};
use gix_odb_events::View;
use odb_base::NoMemory;
use std::alloc::Global;
use std::sync::Arc;

/// A handle that is registered at the core of its store, without its work: its store, its modes and its snapshot.
#[derive(Drop)]
pub struct HandleState {
    /// The parts of its store, which all handles on the store share.
    pub info: Arc<StoreParts, Global>,
    /// Whether its look-ups bring the list of the core up to date.
    pub refresh: RefreshMode,
    pub ignore_replacements: bool,
    /// The most changes of the list of indices that a call of the handle tolerates.
    pub max_changes: u32,
    /// Its snapshot: what the store's core last showed it.
    pub view: View,
}

impl HandleState {
    /// Returns a copy, which shares the parts of the store and the lists of the snapshot.
    pub fn try_clone(&self) -> Result<HandleState, NoMemory>
        ensures alike { IfOk result (λ copy. IsAlike copy self.now) }
    {
        let view = self.view.try_clone()?;
        self.sharing(view)
    }

    /// Returns another handle on the same store, in the same modes, with a snapshot of its own.
    pub fn sharing(&self, view: View) -> Result<HandleState, NoMemory>
        ensures alike { IfOk result (λ other. IsAlike other (with_view self.now view)) }
    {
        Ok(HandleState {
            info: Arc::try_clone(&self.info)?,
            refresh: self.refresh,
            ignore_replacements: self.ignore_replacements,
            max_changes: self.max_changes,
            view,
        })
    }

    /// Returns the parts of the handle's store.
    pub fn parts(&self) -> &StoreParts
        ensures parts { result.now ≡ self.now.info.value }
    {
        &self.info
    }

    /// Returns the id that a query seeks: the replacement of its own, where there is one and it isn't ignored. A test seeks
    /// its own.
    pub fn sought(&self, query: Query) -> ObjectId
        ensures sought { result ≡ sought_by self.now query }
    {
        match query.want {
            Want::Object | Want::Header => self.replaced(query.of),
            Want::Presence => query.of,
        }
    }

    fn replaced(&self, id: ObjectId) -> ObjectId
        ensures replaced { result ≡ replaced_by self.now id }
    {
        if self.ignore_replacements {
            return id;
        }
        match self.parts().replacements.get(&id) {
            Some(other) => other,
            None => id,
        }
    }
}
