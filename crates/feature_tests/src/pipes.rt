//! Bytes that go through a pipe.
ghost use Rattle.std.specs.Prelude.{◌≡◌, ◌∷◌, ◌++◌, [], List, map, take, IfSome, IfOk, IfErr};
ghost use Rattle.gix_features_channel.specs.Pipe.{Item, Byte, Failure, items_of, written, AreEnds, IsBegun, Reads};

use gix_features_channel::pipe;
use gix_features_channel::pipe::{Gone, PipeError, Reader, Writer};
use odb_mem_disk::{ByteList, NoMemory};
use std::alloc::Global;
use std::sync::Wait;
use std::test::Fail;
use std::thread;
use std::thread::Threads;

/// Whether a piece could be written.
fn is_put<R: Wait>(rt: &R, alloc: Global, writer: &mut Writer, bytes: &[u8]) -> bool {
    writer.write(rt, alloc, bytes).is_ok()
}

/// How many bytes are read, or 9 on an error.
fn count_read<R: Wait>(rt: &R, reader: &mut Reader, out: &mut [u8]) -> usize {
    reader.read(rt, out).unwrap_or(9)
}

/// Writes two pieces, and drops the pipe.
fn write_two<R: Wait>(rt: &R, alloc: Global, mut writer: Writer) -> bool {
    let first = is_put(rt, alloc, &mut writer, b"abc");
    let second = is_put(rt, alloc, &mut writer, b"d");
    first && second
}

/// How many bytes are read, or 9 on an error. The pipe is dropped.
fn read_all<R: Wait>(rt: &R, mut reader: Reader, out: &mut [u8]) -> usize {
    count_read(rt, &mut reader, out)
}

/// Whether both pieces were written, and how many bytes were read meanwhile.
fn relay<R: Threads + Wait + Sync>(
    rt: &R,
    alloc: Global,
    writer: Writer,
    reader: Reader,
    out: &mut [u8],
) -> (bool, usize) {
    thread::join(
        rt,
        move || write_two(rt, alloc, writer),
        || read_all(rt, reader, out),
    )
}

// Catches a read that ends at the end of a piece, and bytes that are lost at the writer's end.
#[test]
fn reads(rt: HostRuntime) -> Result<(), Fail> {
    let alloc: Global = rt.alloc();
    let (writer, reader) = pipe::unidirectional(alloc, 1)?;
    let mut out = [0u8; 8];
    let (written, count) = relay(&rt, alloc, writer, reader, &mut out);
    assert!(rt; written && count == 4 && out[..4] == b"abcd"[..4]);
    Ok(())
}

/// How many bytes come back of a piece that nobody reads.
fn back<R: Wait>(rt: &R, alloc: Global, writer: &mut Writer) -> usize {
    match writer.write(rt, alloc, b"abc") {
        Err(Gone::Piece(piece)) => piece.len(),
        _ => 0,
    }
}

// Catches a piece that is lost if nobody reads it.
#[test]
fn gone(rt: HostRuntime) -> Result<(), Fail> {
    let alloc: Global = rt.alloc();
    let (mut writer, reader) = pipe::unidirectional(alloc, 1)?;
    drop(reader);
    let count = back(&rt, alloc, &mut writer);
    drop(writer);
    assert_eq!(rt; count, 3);
    Ok(())
}

/// Sends an error between two pieces of two bytes. Returns whether all are in the pipe.
fn fail<R: Wait>(rt: &R, alloc: Global, writer: &mut Writer) -> Result<bool, NoMemory> {
    let error = error_of(alloc, b"no")?;
    let is_begun = is_put(rt, alloc, writer, b"ab");
    let is_sent = writer.send_error(rt, error).is_ok();
    let is_ended = is_put(rt, alloc, writer, b"cd");
    Ok(is_begun && is_sent && is_ended)
}

/// Whether an answer is the error that was sent.
fn is_no<T: Drop>(answer: Result<T, PipeError>) -> bool {
    match answer {
        Ok(_) => false,
        Err(PipeError::Sent(text)) => text.as_slice() == b"no".as_slice(),
    }
}

/// Whether the bytes before an error are read, and then the error.
fn reads_before<R: Wait>(rt: &R, reader: &mut Reader) -> bool {
    let mut out = [0u8; 4];
    let count = count_read(rt, reader, &mut out);
    let has_failed = is_no(reader.read(rt, &mut out));
    count == 2 && has_failed
}

// Catches bytes that are lost before an error, and an error that is skipped, or is another one.
#[test]
fn fails(rt: HostRuntime) -> Result<(), Fail> {
    let alloc: Global = rt.alloc();
    let (mut writer, mut reader) = pipe::unidirectional(alloc, 3)?;
    let is_sent = fail(&rt, alloc, &mut writer);
    let is_read = reads_before(&rt, &mut reader);
    drop(writer);
    drop(reader);
    assert!(rt; is_sent? && is_read);
    Ok(())
}

/// The first of some bytes, or 0 if there is none.
fn first_of(bytes: Result<&[u8], PipeError>) -> u8 {
    match bytes {
        Ok([first, ..]) => *first,
        _ => 0,
    }
}

/// Whether the bytes before an error are lent, and then the error, and then the bytes after it.
fn lends_around<R: Wait>(rt: &R, reader: &mut Reader) -> bool {
    let first = first_of(reader.fill_buf(rt));
    reader.consume(2);
    let has_failed = is_no(reader.fill_buf(rt));
    let last = first_of(reader.fill_buf(rt));
    first == b'a' && has_failed && last == b'c'
}

// Catches an error that comes before the buffered bytes, is skipped, is another one or is returned again, and bytes
// that are lost after it.
#[test]
fn fails_between(rt: HostRuntime) -> Result<(), Fail> {
    let alloc: Global = rt.alloc();
    let (mut writer, mut reader) = pipe::unidirectional(alloc, 3)?;
    let is_sent = fail(&rt, alloc, &mut writer);
    let is_lent = lends_around(&rt, &mut reader);
    drop(writer);
    drop(reader);
    assert!(rt; is_sent? && is_lent);
    Ok(())
}

/// Whether bytes are lent, and then those that weren't used.
fn lends_rest<R: Wait>(rt: &R, reader: &mut Reader) -> bool {
    let first = first_of(reader.fill_buf(rt));
    reader.consume(2);
    let third = first_of(reader.fill_buf(rt));
    first == b'a' && third == b'c'
}

// Catches bytes that are lent again once they were used.
#[test]
fn lends(rt: HostRuntime) -> Result<(), Fail> {
    let alloc: Global = rt.alloc();
    let (mut writer, mut reader) = pipe::unidirectional(alloc, 1)?;
    let is_written = is_put(&rt, alloc, &mut writer, b"abc");
    let is_lent = lends_rest(&rt, &mut reader);
    drop(writer);
    drop(reader);
    assert!(rt; is_written && is_lent);
    Ok(())
}

/// Writes two bytes, none, and two more, each as a piece. Returns whether all are in the pipe.
fn put_around_none<R: Wait>(rt: &R, alloc: Global, writer: &mut Writer) -> bool {
    let is_begun = is_put(rt, alloc, writer, b"ab");
    let is_empty = is_put(rt, alloc, writer, b"");
    let is_ended = is_put(rt, alloc, writer, b"cd");
    is_begun && is_empty && is_ended
}

/// Whether one read gives the bytes around an empty piece.
fn reads_around_none<R: Wait>(rt: &R, reader: &mut Reader) -> bool {
    let mut out = [0u8; 4];
    let count = count_read(rt, reader, &mut out);
    count == 4 && out == *b"abcd"
}

/// Whether the bytes before an empty piece are lent, and then those after it.
fn lends_around_none<R: Wait>(rt: &R, reader: &mut Reader) -> bool {
    let first = first_of(reader.fill_buf(rt));
    reader.consume(2);
    let last = first_of(reader.fill_buf(rt));
    first == b'a' && last == b'c'
}

// Catches an empty piece that is taken for the end, by a read and when bytes are lent.
#[test]
fn empty_between(rt: HostRuntime) -> Result<(), Fail> {
    let alloc: Global = rt.alloc();
    let (mut writer, mut reader) = pipe::unidirectional(alloc, 3)?;
    let is_read = put_around_none(&rt, alloc, &mut writer) && reads_around_none(&rt, &mut reader);
    let is_lent = put_around_none(&rt, alloc, &mut writer) && lends_around_none(&rt, &mut reader);
    drop(writer);
    drop(reader);
    assert!(rt; is_read && is_lent);
    Ok(())
}

/// An error with a text, if there is memory for it.
fn error_of(alloc: Global, text: &[u8]) -> Result<PipeError, NoMemory> {
    Ok(PipeError::Sent(ByteList::from_slice(alloc, text)?))
}

/// Whether an error comes back that nobody takes.
fn comes_back<R: Wait>(rt: &R, alloc: Global) -> Result<bool, NoMemory> {
    let error = error_of(alloc, b"no")?;
    let (mut writer, reader) = match pipe::unidirectional(alloc, 1) {
        Ok(ends) => ends,
        Err(NoMemory) => {
            drop(error);
            return Err(NoMemory);
        }
    };
    drop(reader);
    let sent = writer.send_error(rt, error);
    drop(writer);
    Ok(is_no(sent))
}

// Catches an error that is lost if nobody reads it.
#[test]
fn error_gone(rt: HostRuntime) -> Result<(), Fail> {
    let alloc: Global = rt.alloc();
    assert!(rt; comes_back(&rt, alloc)?);
    Ok(())
}

/// A reader of a pipe into which these bytes were written and whose writer is gone.
fn left_with<R: Wait>(rt: &R, alloc: Global, bytes: &[u8]) -> Result<Reader, NoMemory> {
    let (mut writer, reader) = pipe::unidirectional(alloc, 1)?;
    let is_written = is_put(rt, alloc, &mut writer, bytes) && writer.flush().is_ok();
    drop(writer);
    if is_written {
        Ok(reader)
    } else {
        drop(reader);
        Err(NoMemory)
    }
}

/// Whether a reader has buffered these bytes once it was filled.
fn is_filled<R: Wait>(rt: &R, reader: &mut Reader, wanted: &[u8]) -> bool {
    reader.fill(rt).is_ok() && *reader.front() == *wanted
}

/// How many bytes a reader lends, or 9 on an error.
fn lent<R: Wait>(rt: &R, reader: &mut Reader) -> usize {
    match reader.fill_buf(rt) {
        Ok(bytes) => bytes.len(),
        Err(_) => 9,
    }
}

/// Whether these bytes are buffered, are read, and are followed by the end each time that it is asked for.
fn ends_behind<R: Wait>(rt: &R, reader: &mut Reader, bytes: &[u8]) -> bool {
    let is_at_hand = is_filled(rt, reader, bytes);
    let mut out = [0u8; 4];
    let first = count_read(rt, reader, &mut out);
    let second = count_read(rt, reader, &mut out);
    let third = lent(rt, reader);
    is_at_hand && first == bytes.len() && second == 0 && third == 0 && is_filled(rt, reader, b"")
}

// Catches bytes that aren't buffered once they were waited for, an end that is taken for an error, and an end that
// isn't the end at the next read.
#[test]
fn ends(rt: HostRuntime) -> Result<(), Fail> {
    let alloc: Global = rt.alloc();
    let mut reader = left_with(&rt, alloc, b"abc")?;
    let is_right = ends_behind(&rt, &mut reader, b"abc");
    drop(reader);
    assert!(rt; is_right);
    Ok(())
}

/// What is read of a pipe whose ends were put together between two writes.
fn read_together<R: Wait>(rt: &R, alloc: Global) -> Result<[u8; 4], NoMemory> {
    let (mut writer, reader) = pipe::unidirectional(alloc, 2)?;
    let is_begun = writer.write(rt, alloc, b"ab").is_ok();
    let (mut writer, mut reader) = pipe::together(writer, reader);
    let is_written = is_put(rt, alloc, &mut writer, b"cd");
    let mut out = [0u8; 4];
    let count = count_read(rt, &mut reader, &mut out);
    drop(writer);
    drop(reader);
    if is_begun && is_written && count == 4 {
        Ok(out)
    } else {
        Err(NoMemory)
    }
}

// Catches bytes that are lost when both ends are put together, and ends that are no longer of one pipe.
#[test]
fn one_thread(rt: HostRuntime) -> Result<(), Fail> {
    let alloc: Global = rt.alloc();
    assert!(rt; read_together(&rt, alloc)? == *b"abcd");
    Ok(())
}

/// What is read first of a pipe, both of whose ends are in one thread, is what was written first.
fn read_first<R: Wait>(rt: &R, writer: Writer, mut reader: Reader, out: &mut [u8]) -> Option<usize>
    requires ends { AreEnds writer reader }
    requires begun { IsBegun reader }
    ensures first { IfSome result (λ count. (later : List Item) × (items_of (written writer) ≡ map Byte (take count out.new) ++ later)) }
{
    match reader.read(rt, out) {
        Ok(count) => {
            let (writer, reader) = pipe::together(writer, reader);
            drop(writer);
            drop(reader);
            Some(count)
        }
        Err(error) => {
            drop(error);
            drop(writer);
            drop(reader);
            None
        }
    }
}

// Catches a read that gives nothing, or no byte at all, both of which `first` allows.
#[test]
fn first_bytes(rt: HostRuntime) -> Result<(), Fail> {
    let alloc: Global = rt.alloc();
    let (mut writer, reader) = pipe::unidirectional(alloc, 1)?;
    let is_written = writer.write(&rt, alloc, b"abc").is_ok();
    let mut out = [0u8; 2];
    let count = read_first(&rt, writer, reader, &mut out);
    assert!(rt; is_written && count == Some(2) && out == *b"ab");
    Ok(())
}

/// Reads by `fill`, `front` and `consume` what `fill_buf` would lend.
fn read_lent<R: Wait>(rt: &R, reader: &mut Reader, out: &mut [u8]) -> Result<usize, PipeError>
    ensures given { IfOk result (λ count. Reads reader.old reader.new (map Byte (take count out.new))) }
    ensures error { IfErr result (λ error. Reads reader.old reader.new (Failure error ∷ [])) }
{
    reader.fill(rt)?;
    let front = reader.front();
    let count = front.len().min(out.len());
    out[..count].copy_from_slice(&front[..count]);
    reader.consume(count);
    Ok(count)
}

// Catches bytes that are never given, of which no clause speaks.
#[test]
fn lent_bytes(rt: HostRuntime) -> Result<(), Fail> {
    let alloc: Global = rt.alloc();
    let mut reader = left_with(&rt, alloc, b"abc")?;
    let mut out = [0u8; 2];
    let count = read_lent(&rt, &mut reader, &mut out).unwrap_or(9);
    drop(reader);
    assert!(rt; count == 2 && out == *b"ab");
    Ok(())
}
