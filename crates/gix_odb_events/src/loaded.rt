//! Indices that are loaded or to be loaded: one of them, and the lists.
ghost use Rattle.std.specs.Prelude.{◌≡◌, ◌<◌, ◌^◌, ◌==◌, [], Contains, IfOk, IfSome, OnErr, OnOk, Some, drop, length, option_map, slice_get};
ghost use Rattle.std.specs.List.{find};
ghost use Rattle.gix_odb_events.specs.Lent.{lent_index, lent_todo};
ghost use Rattle.gix_odb_events.specs.Shown.{first_of, shown_indices, shown_kept, shown_todo};

use crate::lent::{
    LentIndex, LentTodo, count_kept, count_shown, count_unloaded, first_shown, kept_after,
    shown_after, unloaded_after,
};
use crate::places::PlaceList;
use crate::shown::{first_unloaded, shown_at};
use crate::slot::SlotList;
use crate::{PackFileList, Shared};
use gix_pack_read::{index, multi_index};
use odb_base::{NoMemory, PathText};
use std::alloc::Global;
use std::marker::Model;

/// An index that is loaded.
#[derive(Drop)]
pub enum LoadedIndex {
    Single(Shared<index::File>),
    Multi(Shared<multi_index::File>),
}

/// A loaded index with its packs.
#[derive(Drop)]
pub struct SnapshotIndex {
    pub slot: u16,
    pub path: Shared<PathText>,
    pub index: LoadedIndex,
    pub packs: Shared<PackFileList>,
}

/// An index that is listed and not loaded.
#[derive(Drop)]
pub struct Todo {
    pub slot: u16,
    pub path: Shared<PathText>,
}

/// Slots and the list of those that are listed, in the form that the lists of a view share.
#[derive(Drop)]
pub struct ListedSlots {
    pub slots: SlotList,
    pub list: PlaceList,
}

impl ListedSlots {
    /// No slot.
    pub fn none(alloc: Global) -> Result<Shared<ListedSlots>, NoMemory>
        ensures slots { IfOk result (λ none. none.slots ≡ []) }
        ensures list { IfOk result (λ none. none.list ≡ []) }
    {
        let slots = SlotList::empty(0);
        let list = PlaceList::empty();
        Shared::new(alloc, ListedSlots { slots, list })
    }
}

/// The loaded indices of the listed slots, in the order of the list and of a search. Contracts see it as that list.
#[derive(Drop)]
pub struct LoadedList {
    of: Shared<ListedSlots>,
}

impl Model for LoadedList {
    ghost use Rattle.std.specs.Prelude.{List};
    ghost use Rattle.gix_odb_events.specs.Shown.{shown_indices};
    ghost use Rattle.gix_odb_events.specs.declared.loaded.SnapshotIndex.{SnapshotIndex};

    ghost Value = { List SnapshotIndex };

    ghost view = { λ loaded. shown_indices loaded.of.slots loaded.of.list };
}

impl LoadedList {
    /// The loaded indices of slots and a list.
    pub fn of(slots: &Shared<ListedSlots>) -> Result<LoadedList, NoMemory>
        ensures shown { IfOk result (λ loaded. loaded ≡ shown_indices slots.now.slots slots.now.list) }
    {
        Ok(LoadedList {
            of: slots.try_clone()?,
        })
    }

    /// A copy, which shares the contents.
    pub fn try_clone(&self) -> Result<LoadedList, NoMemory>
        ensures copy { IfOk result (λ copy. copy ≡ self.now) }
    {
        LoadedList::of(&self.of)
    }

    /// How many there are. It goes through the listed slots.
    pub fn len(&self) -> usize
        ensures len { result ≡ length self.now }
    {
        let of = self.of.value();
        count_shown(&of.slots, of.list.as_slice())
    }

    /// The index at a place, counted from 0, if there is one, lent by the slots. It goes through the listed slots before it.
    pub fn get(&self, place: usize) -> Option<LentIndex<'_>>
        ensures lent { option_map lent_index result ≡ slice_get self.now place }
    {
        let of = self.of.value();
        shown_after(&of.slots, of.list.as_slice(), place)
    }

    /// The whole list, to be taken one by one.
    pub fn rest(&self) -> Result<LoadedRest, NoMemory>
        ensures all { IfOk result (λ rest. rest ≡ self.now) }
    {
        Ok(LoadedRest {
            of: self.of.try_clone()?,
            next: 0,
        })
    }

    /// The index of a slot, if it is among these. Where there are several of one slot, they are equal.
    pub fn in_slot(&self, place: u16) -> Result<Option<SnapshotIndex>, NoMemory>
        ensures first { IfOk result (λ found. found ≡ find (λ index. index.slot == place) self.now) }
        ensures only { IfOk result (λ found. (index : SnapshotIndex) → Contains self.now index → index.slot ≡ place → found ≡ Some index) }
    {
        let of = self.of.value();
        if !of.list.has(place) {
            return Ok(None);
        }
        shown_at(&of.slots, place)
    }
}

/// The loaded indices of the filled slots that aren't listed, in the order of the slots. Contracts see it as that list.
#[derive(Drop)]
pub struct KeptList {
    of: Shared<ListedSlots>,
}

impl Model for KeptList {
    ghost use Rattle.std.specs.Prelude.{List};
    ghost use Rattle.gix_odb_events.specs.Shown.{shown_kept};
    ghost use Rattle.gix_odb_events.specs.declared.loaded.SnapshotIndex.{SnapshotIndex};

    ghost Value = { List SnapshotIndex };

    ghost view = { λ kept. shown_kept kept.of.slots kept.of.list };
}

impl KeptList {
    /// The loaded indices of the slots that aren't on a list.
    pub fn of(slots: &Shared<ListedSlots>) -> Result<KeptList, NoMemory>
        ensures shown { IfOk result (λ kept. kept ≡ shown_kept slots.now.slots slots.now.list) }
    {
        Ok(KeptList {
            of: slots.try_clone()?,
        })
    }

    /// A copy, which shares the contents.
    pub fn try_clone(&self) -> Result<KeptList, NoMemory>
        ensures copy { IfOk result (λ copy. copy ≡ self.now) }
    {
        KeptList::of(&self.of)
    }

    /// How many there are. It goes through the slots.
    pub fn len(&self) -> usize
        ensures len { result ≡ length self.now }
    {
        let of = self.of.value();
        count_kept(&of.slots, &of.list)
    }

    /// The index at a place, counted from 0, if there is one, lent by the slots. It goes through the slots before it.
    pub fn get(&self, place: usize) -> Option<LentIndex<'_>>
        ensures lent { option_map lent_index result ≡ slice_get self.now place }
    {
        let of = self.of.value();
        kept_after(&of.slots, &of.list, place)
    }

    /// The index of a slot, if it is among these. Where there are several of one slot, they are equal.
    pub fn in_slot(&self, place: u16) -> Result<Option<SnapshotIndex>, NoMemory>
        ensures first { IfOk result (λ found. found ≡ find (λ index. index.slot == place) self.now) }
        ensures only { IfOk result (λ found. (index : SnapshotIndex) → Contains self.now index → index.slot ≡ place → found ≡ Some index) }
    {
        let of = self.of.value();
        let listed = of.list.has(place);
        if listed {
            return Ok(None);
        }
        shown_at(&of.slots, place)
    }
}

/// The listed indices that are not loaded, in the order of the list. Contracts see it as that list.
#[derive(Drop)]
pub struct TodoList {
    of: Shared<ListedSlots>,
}

impl Model for TodoList {
    ghost use Rattle.std.specs.Prelude.{List};
    ghost use Rattle.gix_odb_events.specs.Shown.{shown_todo};
    ghost use Rattle.gix_odb_events.specs.declared.loaded.Todo.{Todo};

    ghost Value = { List Todo };

    ghost view = { λ todo. shown_todo todo.of.slots todo.of.list };
}

impl TodoList {
    /// The indices of slots and a list that are to be loaded.
    pub fn of(slots: &Shared<ListedSlots>) -> Result<TodoList, NoMemory>
        ensures shown { IfOk result (λ todo. todo ≡ shown_todo slots.now.slots slots.now.list) }
    {
        Ok(TodoList {
            of: slots.try_clone()?,
        })
    }

    /// A copy, which shares the contents.
    pub fn try_clone(&self) -> Result<TodoList, NoMemory>
        ensures copy { IfOk result (λ copy. copy ≡ self.now) }
    {
        TodoList::of(&self.of)
    }

    /// How many there are. It goes through the listed slots.
    pub fn len(&self) -> usize
        ensures len { result ≡ length self.now }
    {
        let of = self.of.value();
        count_unloaded(&of.slots, of.list.as_slice())
    }

    /// The index at a place, counted from 0, if there is one, lent by the slots. It goes through the listed slots before it.
    pub fn get(&self, place: usize) -> Option<LentTodo<'_>>
        ensures lent { option_map lent_todo result ≡ slice_get self.now place }
    {
        let of = self.of.value();
        unloaded_after(&of.slots, of.list.as_slice(), place)
    }

    /// The whole list, to be taken one by one.
    pub fn rest(&self) -> Result<TodoRest, NoMemory>
        ensures all { IfOk result (λ rest. rest ≡ self.now) }
    {
        Ok(TodoRest {
            of: self.of.try_clone()?,
            next: 0,
        })
    }

    /// Its end, with nothing left.
    pub fn end(&self) -> Result<TodoRest, NoMemory>
        ensures none { IfOk result (λ rest. rest ≡ []) }
    {
        let of = self.of.try_clone()?;
        let next = of.value().list.as_slice().len();
        Ok(TodoRest { of, next })
    }
}

/// The rest of a list of loaded indices, which contracts see as a list.
#[derive(Drop)]
pub struct LoadedRest {
    of: Shared<ListedSlots>,
    next: usize,
}

impl Model for LoadedRest {
    ghost use Rattle.std.specs.Prelude.{◌≤◌, List, drop, length};
    ghost use Rattle.gix_odb_events.specs.Shown.{shown_indices};
    ghost use Rattle.gix_odb_events.specs.declared.loaded.SnapshotIndex.{SnapshotIndex};

    ghost Value = { List SnapshotIndex };

    ghost view = { λ rest. shown_indices rest.of.slots (drop rest.next rest.of.list) };

    ghost invariant = { λ rest. rest.next ≤ length rest.of.list };
}

impl LoadedRest {
    /// The first, if one is left, lent by the slots. It goes through the listed slots before it.
    pub fn first(&self) -> Option<LentIndex<'_>>
        ensures lent { option_map lent_index result ≡ first_of self.now }
        // A listed slot has a number of 16 bits.
        ensures slot { IfSome result (λ index. index.slot < 2 ^ 16) }
    {
        let of = self.of.value();
        let (first, _) = first_shown(&of.slots, &of.list.as_slice()[self.next..]);
        first
    }

    /// Passes the first, if one is left, with the listed slots before it: none of these is gone through again.
    pub fn pass(&mut self)
        ensures rest { self.new ≡ drop 1 self.old }
    {
        let of = self.of.value();
        let (_, gone) = first_shown(&of.slots, &of.list.as_slice()[self.next..]);
        self.next += gone;
    }
}

/// The rest of a list of indices that are to be loaded, which contracts see as a list.
#[derive(Drop)]
pub struct TodoRest {
    of: Shared<ListedSlots>,
    next: usize,
}

impl Model for TodoRest {
    ghost use Rattle.std.specs.Prelude.{◌≤◌, List, drop, length};
    ghost use Rattle.gix_odb_events.specs.Shown.{shown_todo};
    ghost use Rattle.gix_odb_events.specs.declared.loaded.Todo.{Todo};

    ghost Value = { List Todo };

    ghost view = { λ rest. shown_todo rest.of.slots (drop rest.next rest.of.list) };

    ghost invariant = { λ rest. rest.next ≤ length rest.of.list };
}

impl TodoRest {
    /// Takes the first, if one is left. If memory runs out, it takes none.
    pub fn pop(&mut self) -> Result<Option<Todo>, NoMemory>
        ensures first { IfOk result (λ first. first ≡ first_of self.old) }
        ensures rest { OnOk result (self.new ≡ drop 1 self.old) }
        ensures kept { OnErr result (self.new ≡ self.old) }
    {
        let of = self.of.value();
        let (first, gone) = first_unloaded(&of.slots, &of.list.as_slice()[self.next..])?;
        self.next += gone;
        Ok(first)
    }
}
