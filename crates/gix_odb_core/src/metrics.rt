//! The counts over a core.
ghost use Rattle.std.specs.Prelude.{◌≡◌};
ghost use Rattle.gix_odb_core.specs.Countable.{IsCountable};
ghost use Rattle.gix_odb_core.specs.Metrics.{metrics_of};

use crate::counts::{count_unused, disposable_tally, listed_tally};
use crate::shape::Shape;
use gix_odb_events::Metrics;

impl Shape {
    /// The counts over a shape, where `refreshes` listings were published or confirmed the list.
    pub(crate) fn metrics(&self, refreshes: usize) -> Metrics
        requires countable { IsCountable self.now }
        ensures metrics { result ≡ metrics_of self.now refreshes }
    {
        let slots = self.slots.list();
        let listed = listed_tally(slots, self.list.as_slice());
        let disposable = disposable_tally(slots);
        Metrics {
            num_handles: self.handles.len(),
            num_refreshes: refreshes,
            open_reachable_indices: listed.open_indices,
            known_reachable_indices: listed.indices,
            open_reachable_packs: listed.open_packs,
            known_packs: listed.packs,
            unused_slots: count_unused(slots),
            unreachable_indices: disposable.indices,
            unreachable_packs: disposable.open_packs,
            loose_dbs: self.folders,
        }
    }
}
