//! The rule of two contents: which folders are watched, what a turn asks for, and what this would make their paths show.
ghost use Rattle.std.specs.Prelude.{◌≡◌, ◌∷◌, IfOk, None, OnOk, Some, true};
ghost use Rattle.std.specs.Option.{option_map};
ghost use Rattle.std.specs.Result.{result_err};
ghost use Rattle.odb_disk.specs.Ask.{change_of_ask};
ghost use Rattle.odb_disk.specs.Tree.{Tree as TreeValue, tree_of};
ghost use Rattle.odb_disk.specs.Tree.Change.{is_possible_in};
ghost use Rattle.gix_odb_watch.specs.Kept.{Fits};
ghost use Rattle.gix_odb_history.specs.Run.{change_asked, change_by};
ghost use Rattle.gix_odb_world.specs.Valid.{IsFirstReason};
ghost use Rattle.gix_odb_world.specs.Watch.{NotesMade, ShowsSecondBy, TellsChange, Watches};
ghost use Rattle.gix_odb_world.specs.Handle.{seen};
ghost use Rattle.gix_odb_world.specs.Table.{ask_by_handle};

use crate::handle::Handle;
use gix_odb_calls::{PathList, Why};
use gix_odb_events::Ask;
use gix_odb_history::{ChangeMade, boxed_change};
use gix_odb_watch::{Revealed, Shown};
use odb_base::{Boxed, NoMemory};
use odb_disk::DiskAsk;
use odb_mem_disk::{Change, MemDisk, PathText, Tree};
use std::alloc::Global;

/// What was judged of a valid turn: what its work asks for, the change that this makes, and what watched paths show by it.
#[derive(Drop)]
pub struct Judged {
    pub ask: Option<Ask>,
    pub change: ChangeMade,
    pub revealed: Option<Revealed>,
}

/// Watches the folders of a store from now on.
pub fn watch_store(
    alloc: Global,
    shown: &mut Shown,
    tree: &Tree,
    path: &PathText,
    folders: &PathList,
) -> Result<(), NoMemory>
    requires fits { Fits shown.old tree.now }
    ensures watches { OnOk result (Watches shown.old shown.new tree.now (path.now ∷ folders.now)) }
{
    shown.watch(alloc, path, tree)?;
    watch_each(alloc, shown, tree, folders.as_slice())
}

/// Watches some folders from now on.
fn watch_each(
    alloc: Global,
    shown: &mut Shown,
    tree: &Tree,
    folders: &[PathText],
) -> Result<(), NoMemory>
    requires fits { Fits shown.old tree.now }
    ensures watches { OnOk result (Watches shown.old shown.new tree.now folders.now) }
{
    for folder in folders {
        shown.watch(alloc, folder, tree)?;
    }
    Ok(())
}

/// Returns what the work of a handle asks for, the change that this would make, and what watched paths would show by
/// it. The error: it would be a second content.
pub fn judged_work(
    alloc: Global,
    disk: &MemDisk,
    shown: &Shown,
    handle: &Handle,
) -> Result<Result<Judged, Why>, NoMemory>
    requires fits { Fits shown.now (tree_of disk.now.state) }
    ensures why { IfOk result (λ judged. IsFirstReason None (ShowsSecondBy shown.now (tree_of disk.now.state) (change_asked disk.now (ask_by_handle (Some (seen handle.now))))) (result_err judged)) }
    ensures asked { IfOk result (λ judged. IfOk judged (λ told. told.ask ≡ ask_by_handle (Some (seen handle.now)))) }
    ensures change { IfOk result (λ judged. IfOk judged (λ told. told.change ≡ change_asked disk.now told.ask)) }
    ensures tells { IfOk result (λ judged. IfOk judged (λ told. TellsChange shown.now.folders (tree_of disk.now.state) (change_asked disk.now (ask_by_handle (Some (seen handle.now)))) told.revealed)) }
{
    let ask = handle.ask(alloc)?;
    judged_ask(alloc, disk, shown, ask)
}

/// Judges what a piece of work asks for, and passes this on.
fn judged_ask(
    alloc: Global,
    disk: &MemDisk,
    shown: &Shown,
    ask: Option<Ask>,
) -> Result<Result<Judged, Why>, NoMemory>
    requires fits { Fits shown.now (tree_of disk.now.state) }
    ensures why { IfOk result (λ judged. IsFirstReason None (ShowsSecondBy shown.now (tree_of disk.now.state) (change_asked disk.now ask)) (result_err judged)) }
    ensures asked { IfOk result (λ judged. IfOk judged (λ told. told.ask ≡ ask)) }
    ensures change { IfOk result (λ judged. IfOk judged (λ told. told.change ≡ change_asked disk.now told.ask)) }
    ensures tells { IfOk result (λ judged. IfOk judged (λ told. TellsChange shown.now.folders (tree_of disk.now.state) (change_asked disk.now ask) told.revealed)) }
{
    match judged_part(alloc, disk, shown, &ask) {
        Ok(Ok((change, revealed))) => Ok(Ok(Judged {
            ask,
            change,
            revealed,
        })),
        Ok(Err(why)) => {
            drop(ask);
            Ok(Err(why))
        }
        Err(error) => {
            drop(ask);
            Err(error)
        }
    }
}

/// Returns the change that the ask of a piece of work would make, and what watched paths would show by it. The error: it
/// would be a second content.
fn judged_part(
    alloc: Global,
    disk: &MemDisk,
    shown: &Shown,
    ask: &Option<Ask>,
) -> Result<Result<(ChangeMade, Option<Revealed>), Why>, NoMemory>
    requires fits { Fits shown.now (tree_of disk.now.state) }
    ensures why { IfOk result (λ judged. IsFirstReason None (ShowsSecondBy shown.now (tree_of disk.now.state) (change_asked disk.now ask.now)) (result_err judged)) }
    ensures change { IfOk result (λ judged. IfOk judged (λ told. told.0 ≡ change_asked disk.now ask.now)) }
    ensures tells { IfOk result (λ judged. IfOk judged (λ told. TellsChange shown.now.folders (tree_of disk.now.state) (change_asked disk.now ask.now) told.1)) }
{
    match ask {
        Some(Ask::Disk(ask)) => judged_call(alloc, disk, shown, ask),
        _ => Ok(Ok((None, None))),
    }
}

/// Judges a call of the disk: its change, and what watched paths would show by it.
fn judged_call(
    alloc: Global,
    disk: &MemDisk,
    shown: &Shown,
    ask: &DiskAsk,
) -> Result<Result<(ChangeMade, Option<Revealed>), Why>, NoMemory>
    requires fits { Fits shown.now (tree_of disk.now.state) }
    ensures why { IfOk result (λ judged. IsFirstReason None (ShowsSecondBy shown.now (tree_of disk.now.state) (change_by disk.now ask.now)) (result_err judged)) }
    ensures change { IfOk result (λ judged. IfOk judged (λ told. told.0 ≡ change_by disk.now ask.now)) }
    ensures tells { IfOk result (λ judged. IfOk judged (λ told. TellsChange shown.now.folders (tree_of disk.now.state) (change_by disk.now ask.now) told.1)) }
{
    // The proof takes from this call that the disk shows a tree, in which the change of a call is possible.
    let tree = disk.tree();
    if disk.fails_now(ask) {
        return Ok(Ok((None, None)));
    }
    let made = disk.change_of(alloc, ask)?;
    let change = boxed_change(alloc, made)?;
    match change {
        None => Ok(Ok((None, None))),
        Some(change) => judged_boxed(alloc, shown, tree, change),
    }
}

/// Judges a possible change, and passes it on.
fn judged_boxed(
    alloc: Global,
    shown: &Shown,
    tree: &Tree,
    change: Boxed<Change>,
) -> Result<Result<(ChangeMade, Option<Revealed>), Why>, NoMemory>
    requires fits { Fits shown.now tree.now }
    requires possible { is_possible_in tree.now change ≡ true }
    ensures why { IfOk result (λ judged. IsFirstReason None (ShowsSecondBy shown.now tree.now (Some change)) (result_err judged)) }
    ensures change { IfOk result (λ judged. IfOk judged (λ told. told.0 ≡ Some change)) }
    ensures tells { IfOk result (λ judged. IfOk judged (λ told. TellsChange shown.now.folders tree.now (Some change) told.1)) }
{
    match judged_change(alloc, shown, tree, change.get()) {
        Ok(Ok(revealed)) => Ok(Ok((Some(change), revealed))),
        Ok(Err(why)) => {
            drop(change);
            Ok(Err(why))
        }
        Err(error) => {
            drop(change);
            Err(error)
        }
    }
}

/// Returns what a possible change would make watched paths show. The error: it would be a second content.
fn judged_change(
    alloc: Global,
    shown: &Shown,
    tree: &Tree,
    change: &Change,
) -> Result<Result<Option<Revealed>, Why>, NoMemory>
    requires fits { Fits shown.now tree.now }
    requires possible { is_possible_in tree.now change.now ≡ true }
    ensures why { IfOk result (λ judged. IsFirstReason None (ShowsSecondBy shown.now tree.now (Some change.now)) (result_err judged)) }
    ensures tells { IfOk result (λ judged. IfOk judged (TellsChange shown.now.folders tree.now (Some change.now))) }
{
    let revealed = shown.revealed(alloc, tree, change)?;
    if shown.has_second(&revealed) {
        return Ok(Err(Why::TwoContents));
    }
    Ok(Ok(Some(revealed)))
}

/// Keeps what the change of a turn made watched paths show, if it made one.
pub fn keep(
    shown: &mut Shown,
    revealed: Option<Revealed>,
    change: &ChangeMade,
) -> Result<(), NoMemory>
    ensures noted { OnOk result ((tree : TreeValue) → Fits shown.old tree → TellsChange shown.old.folders tree change.now revealed → (ShowsSecondBy shown.old tree change.now → ⊥) → NotesMade shown.old tree change.now shown.new) }
{
    let Some(revealed) = revealed else {
        return Ok(());
    };
    match change {
        Some(_) => shown.keep(revealed),
        None => {
            drop(revealed);
            Ok(())
        }
    }
}
