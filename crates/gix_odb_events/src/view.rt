//! What a handle sees of a core.
ghost use Rattle.std.specs.Prelude.{◌≡◌, IfOk};
ghost use Rattle.gix_odb_events.specs.View.{view_at};

use crate::loaded::{KeptList, LoadedList, TodoList};
use odb_base::NoMemory;

/// Which state of a core a snapshot shows.
#[derive(Clone, Copy, Debug, Default, PartialEq, Eq)]
pub struct SlotIndexMarker {
    /// How many listings took over slots that held something.
    pub generation: u32,
    /// How many lists were published and files stored, in sum.
    pub state_id: u64,
}

/// The loaded files at one moment.
#[derive(Drop)]
pub struct Snapshot {
    /// Those of the listed slots.
    pub indices: LoadedList,
    /// Those of the filled slots that are not listed.
    pub kept: KeptList,
    pub marker: SlotIndexMarker,
    /// The number of the journal's entry that returned it.
    pub entry: u64,
}

/// What a core shows at one moment.
#[derive(Drop)]
pub struct View {
    pub snapshot: Snapshot,
    /// The number of the list.
    pub list_no: u64,
    /// Whether a listing was published.
    pub read: bool,
    /// What is to be loaded.
    pub todo: TodoList,
}

impl Snapshot {
    /// A copy for another entry, which shares the lists.
    fn at(&self, entry: u64) -> Result<Snapshot, NoMemory>
        ensures copy { IfOk result (λ copy. copy ≡ record self.now { entry = entry }) }
    {
        let indices = self.indices.try_clone()?;
        let kept = self.kept.try_clone()?;
        Ok(Snapshot {
            indices,
            kept,
            marker: self.marker,
            entry,
        })
    }
}

impl View {
    /// A copy for another entry, which shares the lists.
    pub fn at(&self, entry: u64) -> Result<View, NoMemory>
        ensures copy { IfOk result (λ copy. copy ≡ view_at self.now entry) }
    {
        let snapshot = self.snapshot.at(entry)?;
        let todo = self.todo.try_clone()?;
        Ok(View {
            snapshot,
            list_no: self.list_no,
            read: self.read,
            todo,
        })
    }

    /// A copy, which shares the lists.
    pub fn try_clone(&self) -> Result<View, NoMemory>
        ensures copy { IfOk result (λ copy. copy ≡ self.now) }
    {
        self.at(self.snapshot.entry)
    }
}
