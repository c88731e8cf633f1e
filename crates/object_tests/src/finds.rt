//! A database of one object, asked through the trait bound.
ghost use Rattle.std.specs.Prelude.{◌≡◌, Some, IfOk, IfSome, OnOk};
ghost use Rattle.gix_hash.specs.ObjectId.{kind_of};

use gix_hash::ObjectId;
use gix_object::{Data, Kind};
use gix_pack::cache::{DecodeEntry, Never};
use gix_pack::data::entry::Location;
use gix_pack::find::{Entry, Find};
use odb_base::{ByteList, NoMemory};
use std::alloc::{AllocError, Global};
use std::sync::Wait;
use std::test::Fail;
use test_words::compare;

/// A database of one object, whose entry has one byte of header.
#[derive(Drop)]
struct Single {
    id: ObjectId,
    kind: Kind,
    entry: ByteList,
    location: Location,
}

impl Find for Single {
    type Error = NoMemory;

    ghost hash = { λ single. kind_of single.id };

    ghost is_stable = { λ single. Unit {0} };

    ghost gave = { λ single location. location ≡ single.location };

    ghost tests = { λ single id answer after. after ≡ single };

    ghost finds = { λ single id answer after. (after ≡ single) × IfOk answer (λ found. IfSome found (λ at. at.location ≡ Some single.location)) };

    ghost locates = { λ single id answer after. after ≡ single };

    ghost lists = { λ single pack answer after. after ≡ single };

    ghost reads = { λ single location answer after. after ≡ single };

    fn contains<R: Wait>(
        &mut self,
        _rt: &R,
        _alloc: Global,
        id: &ObjectId,
    ) -> Result<bool, NoMemory> {
        Ok(self.id == *id)
    }

    fn try_find<'a, R: Wait>(
        &mut self,
        _rt: &R,
        _alloc: Global,
        id: &ObjectId,
        out: &'a mut Vec<u8>,
    ) -> Result<Option<(Data<'a>, Option<Location>)>, NoMemory> {
        out.clear();
        let Some((_, bytes)) = self.entry.as_slice().split_first() else {
            return Ok(None);
        };
        if self.id != *id {
            return Ok(None);
        }
        out.extend_from_slice(bytes)?;
        let found = Data {
            kind: self.kind,
            object_hash: self.id.kind(),
            bytes: out.as_slice(),
        };
        Ok(Some((found, Some(self.location))))
    }

    fn try_find_cached<'a, R: Wait, C: DecodeEntry>(
        &mut self,
        rt: &R,
        alloc: Global,
        id: &ObjectId,
        out: &'a mut Vec<u8>,
        _cache: &mut C,
    ) -> Result<Option<(Data<'a>, Option<Location>)>, NoMemory> {
        self.try_find(rt, alloc, id, out)
    }

    fn location_by_oid<R: Wait>(
        &mut self,
        _rt: &R,
        _alloc: Global,
        id: &ObjectId,
    ) -> Result<Option<Location>, NoMemory> {
        if self.id == *id {
            Ok(Some(self.location))
        } else {
            Ok(None)
        }
    }

    fn pack_offsets_and_oid<R: Wait>(
        &mut self,
        _rt: &R,
        alloc: Global,
        _pack_id: u32,
    ) -> Result<Vec<(u64, ObjectId)>, NoMemory> {
        let mut rows = Vec::new(alloc);
        rows.push((self.location.pack_offset, self.id))?;
        Ok(rows)
    }

    fn entry_by_location<R: Wait>(
        &mut self,
        _rt: &R,
        alloc: Global,
        _location: &Location,
    ) -> Result<Entry, NoMemory> {
        Ok(Entry {
            bytes: self.entry.try_clone(alloc)?,
            version: 2,
        })
    }
}

// The result of a find: the kind, the data, and the location.
fn shown<E: Drop>(
    alloc: Global,
    answer: Result<Option<(Data<'_>, Option<Location>)>, E>,
) -> Result<String, AllocError> {
    match answer {
        Ok(Some((data, Some(place)))) => {
            let text = String::from_utf8_lossy(alloc, data.bytes)?;
            format!(in alloc; "{} {text} at {}", data.kind, place.pack_offset)
        }
        Ok(Some((data, None))) => format!(in alloc; "{} in no pack", data.kind),
        Ok(None) => "none".to_string(alloc),
        Err(_) => "refused".to_string(alloc),
    }
}

fn found<D: Find, R: Wait>(
    rt: &R,
    alloc: Global,
    database: &mut D,
    id: &ObjectId,
) -> Result<String, AllocError>
    requires hash { kind_of id.now ≡ D.hash database.old }
    ensures hash { OnOk result (D.hash database.new ≡ D.hash database.old) }
    ensures stable { D.is_stable database.old → OnOk result (D.is_stable database.new) }
{
    let mut out = Vec::from_slice(alloc, b"before")?;
    shown(alloc, database.try_find(rt, alloc, id, &mut out))
}

fn found_cached<D: Find, R: Wait>(
    rt: &R,
    alloc: Global,
    database: &mut D,
    id: &ObjectId,
) -> Result<String, AllocError>
    requires hash { kind_of id.now ≡ D.hash database.old }
    ensures hash { OnOk result (D.hash database.new ≡ D.hash database.old) }
    ensures stable { D.is_stable database.old → OnOk result (D.is_stable database.new) }
{
    let mut out = Vec::from_slice(alloc, b"before")?;
    shown(
        alloc,
        database.try_find_cached(rt, alloc, id, &mut out, &mut Never),
    )
}

// What is read at the location of an id, and how many rows its pack has.
fn located<D: Find, R: Wait>(
    rt: &R,
    alloc: Global,
    database: &mut D,
    id: &ObjectId,
) -> Result<String, AllocError>
    requires hash { kind_of id.now ≡ D.hash database.old }
    requires stable { D.is_stable database.old }
{
    let Ok(Some(location)) = database.location_by_oid(rt, alloc, id) else {
        return "nowhere".to_string(alloc);
    };
    let Ok(entry) = database.entry_by_location(rt, alloc, &location) else {
        return "refused".to_string(alloc);
    };
    let Ok(rows) = database.pack_offsets_and_oid(rt, alloc, location.pack_id) else {
        return "refused".to_string(alloc);
    };
    let bytes = String::from_utf8_lossy(alloc, entry.bytes.as_slice())?;
    format!(in alloc; "version {} {bytes} of {}", entry.version, rows.len())
}

// The database of the blob `version 1`.
fn database_of(alloc: Global, id: ObjectId) -> Result<Single, NoMemory>
    ensures id { IfOk result (λ single. single.id ≡ id) }
{
    Ok(Single {
        id,
        kind: Kind::Blob,
        entry: ByteList::from_slice(alloc, b":version 1")?,
        location: Location {
            pack_id: 0,
            pack_offset: 12,
            entry_size: 10,
        },
    })
}

// The answers of the plain find, the one with a cache, and a read at the location.
fn answers<D: Find, R: Wait>(
    rt: &R,
    alloc: Global,
    database: &mut D,
    id: &ObjectId,
) -> Result<String, AllocError>
    requires hash { kind_of id.now ≡ D.hash database.old }
    requires stable { D.is_stable database.old }
{
    let plain = found(rt, alloc, database, id)?;
    let cached = found_cached(rt, alloc, database, id)?;
    let place = located(rt, alloc, database, id)?;
    format!(in alloc; "{plain}, {cached}, {place}")
}

// A call through the trait bound that does not reach the type's own.
#[test]
fn finds_through_the_bound(rt: HostRuntime) -> Result<(), Fail> {
    let id = ObjectId::from_hex(b"83baae61804e65cc73a7201a7252750c76066a30")?;
    let mut single = database_of(rt.alloc(), id)?;
    let found = answers(&rt, rt.alloc(), &mut single, &id)?;
    compare(
        "blob",
        found.as_str(),
        "blob version 1 at 12, blob version 1 at 12, version 2 :version 1 of 1",
    )
}
