//! A folder of loose objects as a value, and its calls that find.
ghost use Rattle.std.specs.Prelude.{◌≡◌, ◌≤◌, ◌↔◌, true, [], None, IfOk, IfErr, IfSome, OnErr, IsTrue};
ghost use Rattle.odb_base.specs.Faults.{Rose};
ghost use Rattle.odb_disk.specs.Tree.{tree_of};
ghost use Rattle.odb_disk.specs.Tree.Follow.{looked, read_of};
ghost use Rattle.odb_disk.specs.Ask.{AnswersAsk, meta_answer, file_answer};
ghost use Rattle.gix_hash.specs.ObjectId.{kind_of};
ghost use Rattle.gix_object.specs.Data.{found_of};
ghost use Rattle.gix_odb_loose.specs.Store.{store_path, store_hash, store_limit};
ghost use Rattle.gix_odb_loose.specs.LooseFile.{LeadsToFile};
ghost use Rattle.odb_disk.specs.declared.ask.DiskAsk.TheVariants as asks;
ghost use Rattle.gix_odb_loose.specs.Asked.{FindAsks, HeaderAsks, TestAsks};
ghost use Rattle.gix_odb_loose.specs.Answers.{path_in, put_in, Finds, TellsHeader, FindRefused, HeaderRefused, TestRefused};

use crate::{call, find, paths, reply};
use gix_hash::ObjectId;
use gix_object::{Data, Kind};
use odb_base::{NoMemory, PathText};
use odb_disk::{Disk, DiskAnswer, DiskError};
use std::alloc::Global;

/// The options of a store. The default has no limit.
#[derive(Clone, Copy, Default, PartialEq, Eq)]
pub struct Options {
    /// The largest size in bytes of an object's data that a find allows, if there is a limit.
    pub alloc_limit_bytes: Option<u64>,
}

/// A folder of loose objects. It keeps no file open and reads the folder anew at each call.
#[derive(Drop, PartialEq, Eq)]
pub struct Store {
    path: PathText,
    object_hash: gix_hash::Kind,
    options: Options,
}

impl Store {
    /// The store in an objects directory, for ids of one hash, without a limit. Nothing is read yet.
    pub fn at(alloc: Global, path: &PathText, hash: gix_hash::Kind) -> Result<Store, NoMemory>
        ensures path { IfOk result (λ store. store_path store ≡ path.now) }
        ensures hash { IfOk result (λ store. store_hash store ≡ hash) }
        ensures limit { IfOk result (λ store. store_limit store ≡ None) }
    {
        Store::at_opts(
            alloc,
            path,
            hash,
            Options {
                alloc_limit_bytes: None,
            },
        )
    }

    /// The store in an objects directory, for ids of one hash. Nothing is read yet.
    pub fn at_opts(
        alloc: Global,
        path: &PathText,
        hash: gix_hash::Kind,
        options: Options,
    ) -> Result<Store, NoMemory>
        ensures path { IfOk result (λ store. store_path store ≡ path.now) }
        ensures hash { IfOk result (λ store. store_hash store ≡ hash) }
        ensures limit { IfOk result (λ store. store_limit store ≡ options.alloc_limit_bytes) }
    {
        Ok(Store {
            path: path.try_clone(alloc)?,
            object_hash: hash,
            options,
        })
    }

    /// A copy of the store, equal to it.
    pub fn try_clone(&self, alloc: Global) -> Result<Store, NoMemory>
        ensures copy { IfOk result (λ store. store ≡ self.now) }
    {
        Ok(Store {
            path: self.path.try_clone(alloc)?,
            object_hash: self.object_hash,
            options: self.options,
        })
    }

    /// The objects directory.
    pub fn path(&self) -> &PathText
        ensures path { result.now ≡ store_path self.now }
    {
        &self.path
    }

    /// The hash that ids are of.
    pub fn object_hash(&self) -> gix_hash::Kind
        ensures hash { result ≡ store_hash self.now }
    {
        self.object_hash
    }

    /// The largest size in bytes of an object's data that a find allows, if there is a limit.
    pub(crate) fn limit(&self) -> Option<u64>
        ensures limit { result ≡ store_limit self.now }
    {
        self.options.alloc_limit_bytes
    }

    /// The path of an object's file: `xx/rest` in the objects directory: the first two hex digits of the id, then the
    /// others.
    pub fn object_path(&self, alloc: Global, id: &ObjectId) -> Result<PathText, NoMemory>
        requires hash { kind_of id.now ≡ store_hash self.now }
        ensures path { IfOk result (λ path. path ≡ path_in self.now id.now) }
    {
        paths::object_path(alloc, &self.path, id)
    }

    /// Whether the object has a file: whether its path leads to one, links followed.
    ///
    /// Anything else at the path, or nothing, is a no. Apart from memory, the only error is `Io`, which means that a
    /// call of the disk failed.
    pub fn contains<D: Disk>(
        &self,
        alloc: Global,
        disk: &mut D,
        id: &ObjectId,
    ) -> Result<bool, find::Error>
        requires hash { kind_of id.now ≡ store_hash self.now }
        ensures answer { IfSome (D.state disk.old) (λ s.
            IfOk result (λ there. IsTrue there ↔ LeadsToFile (tree_of s) (path_in self.now id.now))) }
        ensures cause { IfErr result
            (TestRefused self.now id.now (Rose (D.faults disk.old) (D.faults disk.new))) }
        ensures kept { D.state disk.new ≡ D.state disk.old }
        ensures later { D.faults disk.old ≤ D.faults disk.new }
        ensures streams { D.streams disk.new ≡ D.streams disk.old }
        ensures asked { TestAsks D.answered self.now id.now disk.old disk.new result }
    {
        let path = self.object_path(alloc, id)?;
        let answer = look(alloc, disk, &path)?;
        let there = reply::tested(alloc, &path, &answer)?;
        there
    }

    /// Finds an object and puts its data into `out`, cleared before. Where none is found, or the find is refused,
    /// `out` is left empty.
    ///
    /// None means that nothing is at the object's path. An empty file is `Io`, one without a header `Decode`, one
    /// whose header says more than the limit `OutOfMemory`, and one with data of another length `SizeMismatch`, in
    /// this order.
    pub fn try_find<'a, D: Disk>(
        &self,
        alloc: Global,
        disk: &mut D,
        id: &ObjectId,
        out: &'a mut Vec<u8>,
    ) -> Result<Option<Data<'a>>, find::Error>
        requires hash { kind_of id.now ≡ store_hash self.now }
        ensures answer { IfSome (D.state disk.old) (λ s.
            Finds self.now id.now s (Rose (D.faults disk.old) (D.faults disk.new)) (found_of result)) }
        ensures cause { IfErr result
            (FindRefused self.now id.now (D.state disk.old) (Rose (D.faults disk.old) (D.faults disk.new))) }
        ensures object_hash { IfOk result (λ found. IfSome found (λ object. object.object_hash ≡ store_hash self.now)) }
        ensures kept { D.state disk.new ≡ D.state disk.old }
        ensures later { D.faults disk.old ≤ D.faults disk.new }
        ensures streams { D.streams disk.new ≡ D.streams disk.old }
        ensures asked { FindAsks D.answered self.now id.now disk.old disk.new (found_of result) }
    {
        match self.find_into(alloc, disk, id, out) {
            Ok(Some(kind)) => Ok(Some(Data {
                kind,
                object_hash: self.object_hash,
                bytes: out.as_slice(),
            })),
            Ok(None) => Ok(None),
            Err(error) => Err(error),
        }
    }

    /// `try_find` that returns only the kind: `out` holds the object's data and nothing else.
    pub fn find_into<D: Disk>(
        &self,
        alloc: Global,
        disk: &mut D,
        id: &ObjectId,
        out: &mut Vec<u8>,
    ) -> Result<Option<Kind>, find::Error>
        requires hash { kind_of id.now ≡ store_hash self.now }
        ensures answer { IfSome (D.state disk.old) (λ s.
            Finds self.now id.now s (Rose (D.faults disk.old) (D.faults disk.new)) (put_in result out.new.items)) }
        ensures none { IfOk result (λ found. found ≡ None → out.new.items ≡ []) }
        ensures refused { OnErr result (out.new.items ≡ []) }
        ensures cause { IfErr result
            (FindRefused self.now id.now (D.state disk.old) (Rose (D.faults disk.old) (D.faults disk.new))) }
        ensures kept { D.state disk.new ≡ D.state disk.old }
        ensures later { D.faults disk.old ≤ D.faults disk.new }
        ensures streams { D.streams disk.new ≡ D.streams disk.old }
        ensures asked { FindAsks D.answered self.now id.now disk.old disk.new (put_in result out.new.items) }
    {
        out.clear();
        let path = self.object_path(alloc, id)?;
        let answer = read(alloc, disk, &path)?;
        let found = reply::found(alloc, &path, self.options.alloc_limit_bytes, answer)?;
        match found {
            Ok(Some((kind, bytes))) => {
                *out = bytes.into_vec();
                Ok(Some(kind))
            }
            Ok(None) => Ok(None),
            Err(error) => Err(error),
        }
    }

    /// The size in bytes and the kind from the header of an object's file. The data aren't checked: they may have
    /// another length, and the limit doesn't count.
    ///
    /// None means that nothing is at the object's path. An empty file is `Io`, and one without a header `Decode`.
    pub fn try_header<D: Disk>(
        &self,
        alloc: Global,
        disk: &mut D,
        id: &ObjectId,
    ) -> Result<Option<(u64, Kind)>, find::Error>
        requires hash { kind_of id.now ≡ store_hash self.now }
        ensures answer { IfSome (D.state disk.old) (λ s.
            TellsHeader self.now id.now s (Rose (D.faults disk.old) (D.faults disk.new)) result) }
        ensures cause { IfErr result
            (HeaderRefused self.now id.now (D.state disk.old) (Rose (D.faults disk.old) (D.faults disk.new))) }
        ensures kept { D.state disk.new ≡ D.state disk.old }
        ensures later { D.faults disk.old ≤ D.faults disk.new }
        ensures streams { D.streams disk.new ≡ D.streams disk.old }
        ensures asked { HeaderAsks D.answered self.now id.now disk.old disk.new result }
    {
        let path = self.object_path(alloc, id)?;
        let answer = read(alloc, disk, &path)?;
        let header = reply::headed(alloc, &path, &answer)?;
        header
    }
}

// The disk's answer to a stat of a path, links followed.
fn look<D: Disk>(alloc: Global, disk: &mut D, path: &PathText) -> Result<DiskAnswer, NoMemory>
    ensures told { IfOk result (λ given. IfSome (D.state disk.old) (λ s. AnswersAsk given (meta_answer (looked (tree_of s) path.now true)))) }
    ensures cause { IfOk result (λ given. given ≡ DiskAnswer.Refused DiskError.Failed → Rose (D.faults disk.old) (D.faults disk.new)) }
    ensures kept { D.state disk.new ≡ D.state disk.old }
    ensures later { D.faults disk.old ≤ D.faults disk.new }
    ensures streams { D.streams disk.new ≡ D.streams disk.old }
    ensures asked { IfOk result (λ given. D.answered disk.old (asks.Look path.now true) given disk.new) }
    ensures unasked { OnErr result (disk.new ≡ disk.old) }
{
    let ask = call::look_at(alloc, path)?;
    let answer = ask.carry_out(alloc, disk);
    drop(ask);
    Ok(answer)
}

// The disk's answer to a read of a path.
fn read<D: Disk>(alloc: Global, disk: &mut D, path: &PathText) -> Result<DiskAnswer, NoMemory>
    ensures told { IfOk result (λ given. IfSome (D.state disk.old) (λ s. AnswersAsk given (file_answer (read_of (tree_of s) path.now)))) }
    ensures cause { IfOk result (λ given. given ≡ DiskAnswer.Refused DiskError.Failed → Rose (D.faults disk.old) (D.faults disk.new)) }
    ensures kept { D.state disk.new ≡ D.state disk.old }
    ensures later { D.faults disk.old ≤ D.faults disk.new }
    ensures streams { D.streams disk.new ≡ D.streams disk.old }
    ensures asked { IfOk result (λ given. D.answered disk.old (asks.Read path.now) given disk.new) }
    ensures unasked { OnErr result (disk.new ≡ disk.old) }
{
    let ask = call::read_of(alloc, path)?;
    let answer = ask.carry_out(alloc, disk);
    drop(ask);
    Ok(answer)
}
