//! A write whose data come from a source, a piece at a time. The source is read where the machine asks for data, so
//! between two turns a write is at a stage that asks the disk.
ghost use Rattle.std.specs.Prelude.{◌≡◌, ◌<◌, ◌≤◌, ◌++◌, ℕ, List, [], length, nat_lt, false, Option, IfOk, OnOk, Some, None};
ghost use Rattle.odb_disk.specs.StreamAsks.{is_of_streams};
ghost use Rattle.odb_disk.specs.Tree.{State};
ghost use Rattle.gix_odb_loose.specs.WriteOrder.{write_ask};
ghost use Rattle.gix_odb_loose.specs.WriteOrder.{temp_path as temp_path_of};
ghost use Rattle.gix_odb_loose.specs.declared.write_order.WriteHead.{WriteHead as head_of_write};
ghost use Rattle.gix_hash.specs.declared.kind.Kind.{Kind as hash_kind};
ghost use Rattle.gix_hash.specs.declared.object_id.ObjectId.{ObjectId as id_of_object};
ghost use Rattle.gix_odb_loose.specs.WriteNames.{Names};
ghost use Rattle.gix_odb_loose.specs.StreamJobs.Progress.{Begun};
ghost use Rattle.gix_odb_loose.specs.StreamJobs.AtStage.{calls_left};
ghost use Rattle.gix_odb_loose.specs.StreamJobs.Standing.{StandsBefore, WaitsAt, IsEnded, IsBrokenOff};
ghost use Rattle.gix_odb_loose.specs.Exchanges.{Exchange};
ghost use Rattle.gix_odb_loose.specs.StreamJobs.{Since, IsUnderway, IsSomeUnderway, AnsweredTo, AsksTo, GoesOn, TurnsTo, RunsTo, IsBroken};

use crate::fetch::{Fetched, next_piece};
use crate::naming::Naming;
use crate::paths;
use crate::write_order::{Refusal, WriteAsk, WriteHead, WriteStage, ended, failed};
use gix_hash::ObjectId;
use odb_base::{ByteList, NoMemory, PathText, Source};
use odb_disk::{Disk, DiskAsk};
use std::alloc::Global;
use std::mem;

/// A write in progress, with the piece of its data that is appended next.
#[derive(Drop)]
pub struct StreamJob {
    pub head: WriteHead,
    pub stage: WriteStage,
    /// The naming of the data, until their end.
    pub naming: Option<Naming>,
    /// The piece that is to be appended. Empty at other stages.
    pub piece: ByteList,
    /// Whether the source has ended.
    pub has_ended: bool,
    /// The removal of the temporary file. It is ready before the file is made, so it needs no memory.
    pub removal: DiskAsk,
}

impl StreamJob {
    /// A new write, which has asked nothing and read nothing.
    pub fn start(
        alloc: Global,
        hash: gix_hash::Kind,
        head: WriteHead,
        known: Option<ObjectId>,
    ) -> Result<StreamJob, NoMemory>
        ensures head { IfOk result (λ job. job.head ≡ head) }
        ensures stage { IfOk result (λ job. job.stage ≡ WriteStage.Making 0) }
        ensures piece { IfOk result (λ job. job.piece ≡ []) }
        ensures has_ended { IfOk result (λ job. job.has_ended ≡ false) }
        ensures naming { IfOk result (λ job. Names known hash head [] job.naming) }
        ensures removal { IfOk result (λ job. job.removal ≡ DiskAsk.Remove (temp_path_of head.objects 0)) }
    {
        let naming = Naming::start(alloc, hash, &head, known)?;
        let removal = removal_of(alloc, &head.objects, 0)?;
        Ok(StreamJob {
            head,
            stage: WriteStage::Making { number: 0 },
            naming: Some(naming),
            piece: ByteList::new(alloc),
            has_ended: false,
            removal,
        })
    }

    /// Makes one call of the disk, and reads the next piece if the answer leads to that. Returns the end, if reached.
    ///
    /// If memory runs out, the removal of the temporary file is ready, if one was made.
    pub fn turn<D: Disk, S: Source>(
        &mut self,
        alloc: Global,
        disk: &mut D,
        from: &mut S,
    ) -> Result<Option<Result<ObjectId, Refusal>>, NoMemory>
        ensures turned { (w : Begun) (first : D) →
            Since D.answered first disk.old (λ past.
            IsUnderway w (D.state disk.old) (D.faults disk.old) past (S.left from.old) (S.faults from.old) self.old) →
            Since D.answered first disk.new (λ past.
            TurnsTo w (D.state disk.new) (D.faults disk.new) past (S.left from.new) (S.faults from.new) self.new result) }
        ensures fewer { (w : Begun) (first : D) →
            Since D.answered first disk.old (λ past.
            IsUnderway w (D.state disk.old) (D.faults disk.old) past (S.left from.old) (S.faults from.old) self.old) →
            IfOk result (λ end. end ≡ None → calls_left self.new (WriteAsk.Disk self.new.stage) < calls_left self.old (WriteAsk.Disk self.old.stage)) }
        ensures head { self.new.head ≡ self.old.head }
        ensures later { D.faults disk.old ≤ D.faults disk.new }
        ensures streams { D.streams disk.new ≡ D.streams disk.old }
    {
        let wanted = self.asked(alloc, disk)?;
        self.go_on(alloc, from, wanted)
    }

    /// Runs a write in progress: how it ends. If memory runs out, the removal of the temporary file is asked, if one
    /// was made.
    pub fn run<D: Disk, S: Source>(
        &mut self,
        alloc: Global,
        disk: &mut D,
        from: &mut S,
    ) -> Result<Result<ObjectId, Refusal>, NoMemory>
        requires underway { IsSomeUnderway D.answered disk.old (D.state disk.old) (D.faults disk.old) (S.left from.old) (S.faults from.old) self.old }
        ensures ran { (w : Begun) (first : D) →
            Since D.answered first disk.old (λ past.
            IsUnderway w (D.state disk.old) (D.faults disk.old) past (S.left from.old) (S.faults from.old) self.old) →
            Since D.answered first disk.new (λ past.
            RunsTo w (D.state disk.new) (D.faults disk.new) past (S.left from.new) (S.faults from.new) result) }
        ensures head { self.new.head ≡ self.old.head }
        ensures later { D.faults disk.old ≤ D.faults disk.new }
        ensures streams { D.streams disk.new ≡ D.streams disk.old }
    {
        'turns: loop {
            match self.turn(alloc, disk, from) {
                Ok(None) => {}
                Ok(Some(end)) => return Ok(end),
                Err(NoMemory) => {
                    self.clear(alloc, disk);
                    return Err(NoMemory);
                }
            }
        }
    }

    /// Asks to remove the temporary file of a write that ran out of memory, if one was made.
    pub fn clear<D: Disk>(&self, alloc: Global, disk: &mut D)
        ensures cleared { (w : Begun) (first : D) (rest : Option (List ℕ)) (source_now : ℕ) →
            Since D.answered first disk.old (λ past. IsBroken w (D.state disk.old) (D.faults disk.old) past rest source_now self.now) →
            Since D.answered first disk.new (λ past. IsBrokenOff w (D.state disk.new) (D.faults disk.new) past rest source_now) }
        ensures later { D.faults disk.old ≤ D.faults disk.new }
        ensures streams { (w : Begun) (past : List Exchange) (rest : Option (List ℕ)) (source_now : ℕ) →
            IsBroken w (D.state disk.old) (D.faults disk.old) past rest source_now self.now →
            D.streams disk.new ≡ D.streams disk.old }
    {
        if self.stage.number_made().is_some() {
            let _ = self.removal.carry_out(alloc, disk);
        }
    }

    // Makes the call of the disk of its stage: what the answer leads to.
    fn asked<D: Disk>(&mut self, alloc: Global, disk: &mut D) -> Result<WriteAsk, NoMemory>
        ensures asks { (w : Begun) (first : D) (rest : Option (List ℕ)) (source_now : ℕ) →
            Since D.answered first disk.old (λ past. IsUnderway w (D.state disk.old) (D.faults disk.old) past rest source_now self.old) →
            Since D.answered first disk.new (λ past. AsksTo w (D.state disk.new) (D.faults disk.new) past rest source_now self.new result) }
        ensures fewer { (w : Begun) (past : List Exchange) (rest : Option (List ℕ)) (source_now : ℕ) →
            IsUnderway w (D.state disk.old) (D.faults disk.old) past rest source_now self.old →
            IfOk result (λ wanted. calls_left self.new wanted < calls_left self.old (WriteAsk.Disk self.old.stage)) }
        ensures head { self.new.head ≡ self.old.head }
        ensures later { D.faults disk.old ≤ D.faults disk.new }
        ensures streams { D.streams disk.new ≡ D.streams disk.old }
    {
        let stage = self.stage;
        let len = self.piece.len() as u64;
        let ask = self.ask(alloc, &stage)?;
        let answer = ask.carry_out(alloc, disk);
        drop(ask);
        let wanted = stage.next(self.head.size, len, &answer);
        drop(answer);
        Ok(wanted)
    }

    // The call of the disk at a stage, which takes the piece that it appends.
    #[tactic(auto, using(crate::proofs::StillAskLaws::write_asked_still))]
    fn ask(&mut self, alloc: Global, stage: &WriteStage) -> Result<DiskAsk, NoMemory>
        ensures ask { IfOk result (λ ask. ask ≡ write_ask self.old.head self.old.piece stage.now) }
        ensures still { IfOk result (λ ask. is_of_streams ask ≡ false) }
        ensures same { self.new ≡ record self.old { piece = [] } }
    {
        let piece = mem::replace(&mut self.piece, ByteList::new(alloc));
        self.head.ask_at(alloc, stage, piece)
    }

    // Goes on to what an answer led to: a stage, the next piece of the data, or the end.
    fn go_on<S: Source>(
        &mut self,
        alloc: Global,
        from: &mut S,
        wanted: WriteAsk,
    ) -> Result<Option<Result<ObjectId, Refusal>>, NoMemory>
        ensures goes_on { (w : Begun) (state : Option State) (now : ℕ) (past : List Exchange) →
            AnsweredTo w state now past (S.left from.old) (S.faults from.old) self.old wanted →
            TurnsTo w state now past (S.left from.new) (S.faults from.new) self.new result }
        ensures fewer { (w : Begun) (state : Option State) (now : ℕ) (past : List Exchange) →
            AnsweredTo w state now past (S.left from.old) (S.faults from.old) self.old wanted →
            IfOk result (λ end. end ≡ None → calls_left self.new (WriteAsk.Disk self.new.stage) ≤ calls_left self.old wanted) }
        ensures head { self.new.head ≡ self.old.head }
    {
        match wanted {
            WriteAsk::Disk(stage) => {
                self.stand(alloc, stage)?;
                Ok(None)
            }
            WriteAsk::Data { number, written } => {
                self.read_on(alloc, from, number, written)?;
                Ok(None)
            }
            WriteAsk::Done(end) => Ok(Some(end)),
        }
    }

    // Goes to a stage that an answer led to. If a file is to be made, its removal is prepared.
    fn stand(&mut self, alloc: Global, stage: WriteStage) -> Result<(), NoMemory>
        ensures goes_on { (w : Begun) (state : Option State) (now : ℕ) (past : List Exchange) (rest : Option (List ℕ)) (source_now : ℕ) →
            StandsBefore w state now past rest source_now self.old stage → GoesOn w state now past rest source_now self.new result }
        ensures same { OnOk result (calls_left self.new (WriteAsk.Disk self.new.stage) ≡ calls_left self.old (WriteAsk.Disk stage)) }
        ensures head { self.new.head ≡ self.old.head }
    {
        self.stage = stage;
        match stage {
            WriteStage::Making { number } => {
                let removal = removal_of(alloc, &self.head.objects, number)?;
                drop(mem::replace(&mut self.removal, removal));
                Ok(())
            }
            _ => Ok(()),
        }
    }

    // Reads the next piece after `written` bytes, or reports the end of the data or a failure of the source.
    fn read_on<S: Source>(
        &mut self,
        alloc: Global,
        from: &mut S,
        number: u64,
        written: u64,
    ) -> Result<(), NoMemory>
        ensures goes_on { (w : Begun) (state : Option State) (now : ℕ) (past : List Exchange) →
            WaitsAt w state now past (S.left from.old) (S.faults from.old) self.old number written →
            GoesOn w state now past (S.left from.new) (S.faults from.new) self.new result }
        ensures fewer { (w : Begun) (state : Option State) (now : ℕ) (past : List Exchange) →
            WaitsAt w state now past (S.left from.old) (S.faults from.old) self.old number written →
            OnOk result (calls_left self.new (WriteAsk.Disk self.new.stage) ≤ calls_left self.old (WriteAsk.Data number written)) }
        ensures head { self.new.head ≡ self.old.head }
    {
        self.stage = WriteStage::Filling { number, written };
        if self.has_ended {
            self.end(number, written);
            return Ok(());
        }
        let most = self.head.most(written) as usize;
        match next_piece(alloc, from, most)? {
            Fetched::Failed => {
                self.stage = failed(number);
                Ok(())
            }
            Fetched::Piece(piece) => {
                self.take(piece, most);
                if !self.piece.is_empty() {
                    return Ok(());
                }
                self.end(number, written);
                Ok(())
            }
        }
    }

    // Takes a piece of at most `most` bytes. A shorter one is the last.
    fn take(&mut self, piece: ByteList, most: usize)
        ensures piece { self.new.piece ≡ piece }
        ensures has_ended { self.new.has_ended ≡ nat_lt (length piece) most }
        ensures naming { (known : Option id_of_object) (hash : hash_kind) (head : head_of_write) (before : List ℕ) →
            Names known hash head before self.old.naming → Names known hash head (before ++ piece) self.new.naming }
        ensures head { self.new.head ≡ self.old.head }
        ensures stage { self.new.stage ≡ self.old.stage }
        ensures removal { self.new.removal ≡ self.old.removal }
    {
        self.has_ended = piece.len() < most;
        if let Some(naming) = &mut self.naming {
            naming.update(piece.as_slice());
        }
        drop(mem::replace(&mut self.piece, piece));
    }

    // Ends the data, after `written` bytes.
    fn end(&mut self, number: u64, written: u64)
        ensures ended { IsEnded number written self.old.head.size self.old.naming self.new.stage }
        ensures head { self.new.head ≡ self.old.head }
        ensures removal { self.new.removal ≡ self.old.removal }
    {
        if let Some(naming) = self.naming.take() {
            self.stage = ended(number, written, self.head.size, naming.finish());
        }
    }
}

fn removal_of(alloc: Global, objects: &PathText, number: u64) -> Result<DiskAsk, NoMemory>
    ensures ask { IfOk result (λ ask. ask ≡ DiskAsk.Remove (temp_path_of objects.now number)) }
{
    Ok(DiskAsk::Remove {
        path: paths::temp_path(alloc, objects, number)?,
    })
}
