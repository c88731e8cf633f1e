//! The look-up of a prefix in a store: the machine's calls, made on a disk.
ghost use Rattle.std.specs.Prelude.{⊤, ◌≡◌, ◌≤◌, ◌<◌, ◌||◌, List, is_some, true, false, ◌⊎◌, IfErr, IfOk, IfSome, OnErr, OnOk};
ghost use Rattle.std.specs.HashSet.{contains};
ghost use Rattle.odb_base.specs.Faults.{Rose};
ghost use Rattle.odb_disk.specs.Ask.{state_told_after};
ghost use Rattle.odb_disk.specs.Tree.{tree_of};
ghost use Rattle.odb_disk.specs.declared.ask.DiskAnswer.{DiskAnswer as answer_value};
ghost use Rattle.walkdir.specs.Error.{no_memory};
ghost use Rattle.walkdir.specs.OwnStreams.{AreBack};
ghost use Rattle.gix_hash.specs.ObjectId.{kind_of};
ghost use Rattle.gix_hash.specs.declared.object_id.ObjectId.{ObjectId as id_value};
ghost use Rattle.gix_odb_loose.specs.NameSet.{is_among};
ghost use Rattle.gix_odb_loose.specs.PrefixCauses.{PrefixCause};
ghost use Rattle.gix_odb_loose.specs.PrefixNames.{Gains, IfPassed, IsCandidate, Stays, Tells, same_id};
ghost use Rattle.gix_odb_loose.specs.PrefixOrder.{ask_of, begun};
ghost use Rattle.gix_odb_loose.specs.PrefixOrder as order;
ghost use Rattle.gix_odb_loose.specs.PrefixRuns.{AsksBy, Comes};
ghost use Rattle.gix_odb_loose.specs.PrefixSearches.{Began, IsAnswered, IsFound, OwnsOne, Stands, StandsAfter, calls_after, calls_at};
ghost use Rattle.gix_odb_loose.specs.PrefixSearches as searches;
ghost use Rattle.gix_odb_loose.specs.Store.{store_hash, store_path};

use crate::name_set::IdList;
use crate::prefix_search::{Candidates, PrefixSearch, SearchStage, SearchStep};
use crate::{Store, iter, lookup};
use gix_hash::{ObjectId, Prefix};
use odb_base::NoMemory;
use odb_disk::{DirId, Disk, DiskAnswer};
use std::alloc::Global;
use std::collections::HashSet;

impl Store {
    /// Looks up a prefix: none of the objects has it, one has it, or several have it, which is ambiguous. All of them
    /// are added to `candidates`, if that was passed in.
    ///
    /// Only the directory of the prefix's first two digits is read. An object is there if its path leads to a file,
    /// links followed. Names that are no ids are passed over, and so are links that lead to no file. Where a call fails,
    /// or the directory's way is of the wrong kind or a link loop, the error has the path; a file in the place of the
    /// directory is no error. After an error `candidates` has what it had.
    pub fn lookup_prefix<D: Disk>(
        &self,
        alloc: Global,
        disk: &mut D,
        prefix: Prefix,
        candidates: Option<&mut HashSet<ObjectId>>,
    ) -> Result<Option<lookup::Outcome>, iter::Error>
        requires hash { kind_of prefix.id ≡ store_hash self.now }
        ensures answer { IfSome (D.state disk.old) (λ s.
            IfOk result (Tells (IsCandidate (tree_of s) (store_path self.now) prefix))) }
        ensures gathered { IfSome (D.state disk.old) (λ s.
            OnOk result (IfPassed (Gains (IsCandidate (tree_of s) (store_path self.now) prefix)) candidates.entry candidates.exit)) }
        ensures refused { OnErr result (IfPassed Stays candidates.entry candidates.exit) }
        ensures cause { IfErr result
            (PrefixCause (store_path self.now) prefix (D.state disk.old) (Rose (D.faults disk.old) (D.faults disk.new)) ⊤) }
        ensures kept { D.state disk.new ≡ D.state disk.old }
        ensures later { D.faults disk.old ≤ D.faults disk.new }
        ensures streams { AreBack (D.streams disk.old) 1 (D.streams disk.new) }
        ensures asked { AsksBy D.answered (begun (store_path self.now) prefix (is_some candidates.entry)) disk.old disk.new result }
    {
        match candidates {
            None => self.outcome(alloc, disk, prefix),
            Some(set) => self.gather(alloc, disk, prefix, set),
        }
    }

    // Looks up a prefix, and gathers no candidates.
    fn outcome<D: Disk>(
        &self,
        alloc: Global,
        disk: &mut D,
        prefix: Prefix,
    ) -> Result<Option<lookup::Outcome>, iter::Error>
        ensures answer { IfSome (D.state disk.old) (λ s.
            IfOk result (Tells (IsCandidate (tree_of s) (store_path self.now) prefix))) }
        ensures cause { IfErr result
            (PrefixCause (store_path self.now) prefix (D.state disk.old) (Rose (D.faults disk.old) (D.faults disk.new)) ⊤) }
        ensures kept { D.state disk.new ≡ D.state disk.old }
        ensures later { D.faults disk.old ≤ D.faults disk.new }
        ensures streams { AreBack (D.streams disk.old) 1 (D.streams disk.new) }
        ensures asked { AsksBy D.answered (begun (store_path self.now) prefix false) disk.old disk.new result }
    {
        let found = self.candidates(alloc, disk, prefix, false)?;
        let Candidates { answer, names } = found;
        drop(names);
        answer
    }

    // Looks up a prefix, and adds the candidates to a set.
    fn gather<D: Disk>(
        &self,
        alloc: Global,
        disk: &mut D,
        prefix: Prefix,
        set: &mut HashSet<ObjectId>,
    ) -> Result<Option<lookup::Outcome>, iter::Error>
        ensures answer { IfSome (D.state disk.old) (λ s.
            IfOk result (Tells (IsCandidate (tree_of s) (store_path self.now) prefix))) }
        ensures gathered { IfSome (D.state disk.old) (λ s.
            OnOk result (Gains (IsCandidate (tree_of s) (store_path self.now) prefix) set.old set.new)) }
        ensures refused { OnErr result (Stays set.old set.new) }
        ensures cause { IfErr result
            (PrefixCause (store_path self.now) prefix (D.state disk.old) (Rose (D.faults disk.old) (D.faults disk.new)) ⊤) }
        ensures kept { D.state disk.new ≡ D.state disk.old }
        ensures later { D.faults disk.old ≤ D.faults disk.new }
        ensures streams { AreBack (D.streams disk.old) 1 (D.streams disk.new) }
        ensures asked { AsksBy D.answered (begun (store_path self.now) prefix true) disk.old disk.new result }
    {
        let found = self.candidates(alloc, disk, prefix, true)?;
        put_found(set, found)
    }

    // Looks up a prefix, and gathers the candidates on request.
    fn candidates<D: Disk>(
        &self,
        alloc: Global,
        disk: &mut D,
        prefix: Prefix,
        gather: bool,
    ) -> Result<Candidates, NoMemory>
        ensures found { IfOk result (λ found. IsFound (record { state = D.state disk.old; streams = D.streams disk.old; faults = D.faults disk.old; objects = store_path self.now; prefix = prefix; gather = gather })
            (D.faults disk.new) found) }
        ensures kept { D.state disk.new ≡ D.state disk.old }
        ensures later { D.faults disk.old ≤ D.faults disk.new }
        ensures streams { AreBack (D.streams disk.old) 1 (D.streams disk.new) }
        ensures asked { IfOk result (λ found. (given : List answer_value) × Comes D.answered given (SearchStep.More (begun (store_path self.now) prefix gather)) disk.old disk.new (SearchStep.Done found)) }
    {
        prove!(prefix.hex_len() >= Prefix::MIN_HEX_LEN);
        let search = PrefixSearch::start(alloc, self, prefix, gather)?;
        run(alloc, disk, search)
    }
}

// Runs a look-up: what it finds.
fn run<D: Disk>(alloc: Global, disk: &mut D, search: PrefixSearch) -> Result<Candidates, NoMemory>
    requires stands { (b : Began) × (b.state ≡ D.state disk.old) × Stands b (D.streams disk.old) (D.faults disk.old) search }
    ensures found { (b : Began) → b.state ≡ D.state disk.old → Stands b (D.streams disk.old) (D.faults disk.old) search →
        IfOk result (λ found. IsFound b (D.faults disk.new) found) }
    ensures kept { D.state disk.new ≡ D.state disk.old }
    ensures later { D.faults disk.old ≤ D.faults disk.new }
    ensures streams { (b : Began) → b.state ≡ D.state disk.old → Stands b (D.streams disk.old) (D.faults disk.old) search →
        AreBack b.streams 1 (D.streams disk.new) }
    ensures asked { IfOk result (λ found. (given : List answer_value) × Comes D.answered given (SearchStep.More search) disk.old disk.new (SearchStep.Done found)) }
{
    let mut current = search;
    'turns: loop {
        match turn(alloc, disk, current) {
            Ok(SearchStep::More(next)) => current = next,
            Ok(SearchStep::Done(found)) => return Ok(found),
            Err(NoMemory) => return Err(NoMemory),
        }
    }
}

// One call of the disk, and what its answer leads to. If memory runs out, no stream is left open.
fn turn<D: Disk>(alloc: Global, disk: &mut D, search: PrefixSearch) -> Result<SearchStep, NoMemory>
    ensures stands { (b : Began) → b.state ≡ D.state disk.old → Stands b (D.streams disk.old) (D.faults disk.old) search →
        IfOk result (StandsAfter b (D.streams disk.new) (D.faults disk.new)) }
    ensures back { (b : Began) → b.state ≡ D.state disk.old → Stands b (D.streams disk.old) (D.faults disk.old) search →
        OnErr result (AreBack b.streams 1 (D.streams disk.new)) }
    ensures fewer { (b : Began) → b.state ≡ D.state disk.old → Stands b (D.streams disk.old) (D.faults disk.old) search →
        IfOk result (λ step. calls_after (D.streams disk.new) step < calls_at (D.streams disk.old) search.stage) }
    ensures asked { IfOk result (λ step. (answer : answer_value) × D.answered disk.old (ask_of search) answer disk.new × (step ≡ order.fed search answer)) }
    ensures kept { D.state disk.new ≡ D.state disk.old }
    ensures later { D.faults disk.old ≤ D.faults disk.new }
{
    let own = own_at(&search.stage);
    match asked(alloc, disk, &search) {
        Ok(answer) => fed(alloc, disk, search, answer),
        Err(NoMemory) => {
            close(disk, own);
            Err(NoMemory)
        }
    }
}

// Gives a look-up the answer to its call.
#[tactic(auto, using(crate::proofs::PrefixSearchesLemmas::Drives::back_by))]
fn fed<D: Disk>(
    alloc: Global,
    disk: &mut D,
    search: PrefixSearch,
    answer: DiskAnswer,
) -> Result<SearchStep, NoMemory>
    ensures fed { IfOk result (λ step. step ≡ order.fed search answer) }
    ensures same { OnOk result (disk.new ≡ disk.old) }
    ensures back { (b : Began) → OwnsOne b (searches.own_after search.stage answer) (D.streams disk.old) → OnErr result (AreBack b.streams 1 (D.streams disk.new)) }
    ensures kept { D.state disk.new ≡ D.state disk.old }
    ensures faults { D.faults disk.new ≡ D.faults disk.old }
{
    let own = own_after(&search.stage, &answer);
    match search.feed(alloc, answer) {
        Ok(step) => Ok(step),
        Err(NoMemory) => {
            close(disk, own);
            Err(NoMemory)
        }
    }
}

// Makes the next call of a look-up.
fn asked<D: Disk>(
    alloc: Global,
    disk: &mut D,
    search: &PrefixSearch,
) -> Result<DiskAnswer, NoMemory>
    ensures unasked { OnErr result (disk.new ≡ disk.old) }
    ensures answered { IfOk result (λ answer. D.answered disk.old (ask_of search.now) answer disk.new) }
    ensures told { IfOk result (IsAnswered (ask_of search.now) (D.state disk.old) (D.streams disk.old) (D.streams disk.new) (D.faults disk.old) (D.faults disk.new)) }
    ensures state { IfOk result (λ answer. D.state disk.new ≡ state_told_after (D.state disk.old) (ask_of search.now) answer) }
    ensures later { D.faults disk.old ≤ D.faults disk.new }
{
    let ask = search.ask(alloc)?;
    let answer = ask.carry_out(alloc, disk);
    drop(ask);
    Ok(answer)
}

// Closes a stream, if one is open.
#[tactic(auto, using(crate::proofs::PrefixSearchesLemmas::Drives::closed_back, crate::proofs::PrefixSearchesLemmas::Drives::unclosed_back))]
fn close<D: Disk>(disk: &mut D, own: Option<DirId>)
    ensures closed { (b : Began) → OwnsOne b own (D.streams disk.old) → AreBack b.streams 1 (D.streams disk.new) }
    ensures kept { D.state disk.new ≡ D.state disk.old }
    ensures faults { D.faults disk.new ≡ D.faults disk.old }
{
    match own {
        Some(dir) => disk.close_dir(dir),
        None => {}
    }
}

// The stream that is open at a stage.
fn own_at(stage: &SearchStage) -> Option<DirId>
    ensures own { result ≡ searches.own_at stage.now }
{
    match stage {
        SearchStage::Reading { dir, .. } => Some(*dir),
        SearchStage::Closing { dir, .. } => Some(*dir),
        _ => None,
    }
}

// The one that is open after an answer.
fn own_after(stage: &SearchStage, answer: &DiskAnswer) -> Option<DirId>
    ensures own { result ≡ searches.own_after stage.now answer.now }
{
    match (stage, answer) {
        (SearchStage::Opening, DiskAnswer::Dir(dir)) => Some(*dir),
        (SearchStage::Reading { dir, .. }, _) => Some(*dir),
        _ => None,
    }
}

// Adds what was found to a set, if nothing was refused.
fn put_found(
    set: &mut HashSet<ObjectId>,
    found: Candidates,
) -> Result<Option<lookup::Outcome>, iter::Error>
    ensures outcome { IfOk result (λ outcome. found.answer ≡ Ok outcome) }
    ensures all { OnOk result ((id : id_value) → contains same_id set.new id ≡ (contains same_id set.old id || is_among found.names id)) }
    ensures none { OnErr result (Stays set.old set.new) }
    ensures error { IfErr result (λ error. (found.answer ≡ Err error) ⊎ (error ≡ no_memory)) }
{
    let Candidates { answer, names } = found;
    match answer {
        Ok(outcome) => {
            put_all(set, &names)?;
            Ok(outcome)
        }
        Err(error) => Err(error),
    }
}

// Adds ids to a set: all of them, or none if memory runs out.
fn put_all(set: &mut HashSet<ObjectId>, names: &IdList) -> Result<(), NoMemory>
    ensures all { OnOk result ((id : id_value) → contains same_id set.new id ≡ (contains same_id set.old id || is_among names.now id)) }
    ensures none { OnErr result (Stays set.old set.new) }
{
    set.reserve(names.len())?;
    for id in names.as_slice() {
        set.insert(*id)?;
    }
    Ok(())
}
