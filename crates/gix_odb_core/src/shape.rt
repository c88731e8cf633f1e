//! The shape of a core: its slots, its list, its counters and its handles.
ghost use Rattle.std.specs.Prelude.{◌≡◌, [], false, IfOk, replicate};
ghost use Rattle.gix_odb_core.specs.Shelf.{settled_by, shelf_of, shown_of, with_shelf, without_handles};
ghost use Rattle.gix_odb_events.specs.Shown.{shown_indices, shown_kept, shown_todo};

use crate::handles::HandleTable;
use crate::{Shared, SlotTable};
use gix_odb_events::{
    KeptList, ListedSlots, LoadedList, PlaceList, SlotIndexMarker, Snapshot, TodoList, View,
};
use odb_base::NoMemory;
use std::alloc::Global;

/// The slots of a core, its list, its counters and its handles.
#[derive(Drop)]
pub struct Shape {
    /// How many folders the store has. No event changes it.
    pub folders: usize,
    pub slots: SlotTable,
    /// The slots of the newest listing, in its order.
    pub list: PlaceList,
    /// Whether a listing was published.
    pub read: bool,
    /// How many lists were published.
    pub list_no: u64,
    /// How many listings took over slots that held something.
    pub generation: u32,
    /// How many lists were published and files stored, in sum.
    pub state_id: u64,
    /// The registered handles.
    pub handles: HandleTable,
}

/// The slots, the list and the counters after an event.
#[derive(Drop)]
pub(crate) struct Shelf {
    pub slots: SlotTable,
    pub list: PlaceList,
    pub read: bool,
    pub list_no: u64,
    pub generation: u32,
    pub state_id: u64,
}

impl Shelf {
    /// The slots, the list and the counters of a new core.
    pub(crate) fn opening(slots: u16, generation: u32, state_id: u64) -> Shelf
        ensures opening { result ≡ record { slots = replicate slots None; list = []; read = false; list_no = 0; generation = generation; state_id = state_id } }
    {
        Shelf {
            slots: SlotTable::empty(slots as usize),
            list: PlaceList::empty(),
            read: false,
            list_no: 0,
            generation,
            state_id,
        }
    }
}

impl Shape {
    /// The shape of these slots, this list and these counters, with no handle.
    pub(crate) fn without_handles(alloc: Global, folders: usize, shelf: Shelf) -> Shape
        ensures shape { result ≡ without_handles folders shelf }
    {
        Shape {
            folders,
            slots: shelf.slots,
            list: shelf.list,
            read: shelf.read,
            list_no: shelf.list_no,
            generation: shelf.generation,
            state_id: shelf.state_id,
            handles: HandleTable::new(alloc),
        }
    }

    /// Takes over the shelf that an event leaves.
    pub(crate) fn settle(&mut self, shelf: Shelf)
        ensures settled { self.new ≡ with_shelf self.old shelf }
    {
        self.slots = shelf.slots;
        self.list = shelf.list;
        self.read = shelf.read;
        self.list_no = shelf.list_no;
        self.generation = shelf.generation;
        self.state_id = shelf.state_id;
    }

    /// Takes over the shelf that an event leaves, if it changes something.
    pub(crate) fn settle_by(&mut self, shelf: Option<Shelf>)
        ensures settled { self.new ≡ settled_by self.old shelf }
    {
        if let Some(shelf) = shelf {
            self.settle(shelf);
        }
    }

    /// Its list and counters with other slots.
    pub(crate) fn with_slots(&self, slots: SlotTable) -> Result<Shelf, NoMemory>
        ensures shelf { IfOk result (λ shelf. shelf ≡ record (shelf_of self.now) { slots = slots }) }
    {
        let list = self.list.try_clone()?;
        Ok(Shelf {
            slots,
            list,
            read: self.read,
            list_no: self.list_no,
            generation: self.generation,
            state_id: self.state_id,
        })
    }
}

/// The snapshot that slots and a list show, for an entry.
fn snapshot(
    of: &Shared<ListedSlots>,
    marker: SlotIndexMarker,
    entry: u64,
) -> Result<Snapshot, NoMemory>
    ensures snapshot { IfOk result (λ snapshot. snapshot ≡ record { indices = shown_indices of.now.slots of.now.list; kept = shown_kept of.now.slots of.now.list; marker = marker; entry = entry }) }
{
    Ok(Snapshot {
        indices: LoadedList::of(of)?,
        kept: KeptList::of(of)?,
        marker,
        entry,
    })
}

impl Shelf {
    /// Its slots and its list, shared with one more owner.
    fn shared(&self, alloc: Global) -> Result<Shared<ListedSlots>, NoMemory>
        ensures slots { IfOk result (λ shared. shared.slots ≡ self.now.slots) }
        ensures list { IfOk result (λ shared. shared.list ≡ self.now.list) }
    {
        let slots = self.slots.list().try_clone()?;
        let list = self.list.try_clone()?;
        Shared::new(alloc, ListedSlots { slots, list })
    }

    /// The view of it that an entry returns to a handle. It shares the slots and the list.
    pub(crate) fn view(&self, alloc: Global, entry: u64) -> Result<View, NoMemory>
        ensures view { IfOk result (λ view. view ≡ shown_of self.now entry) }
    {
        let of = self.shared(alloc)?;
        let marker = SlotIndexMarker {
            generation: self.generation,
            state_id: self.state_id,
        };
        let snapshot = snapshot(&of, marker, entry)?;
        Ok(View {
            snapshot,
            list_no: self.list_no,
            read: self.read,
            todo: TodoList::of(&of)?,
        })
    }
}
