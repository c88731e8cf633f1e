//! The lines that are written for outcomes.
ghost use Rattle.std.specs.Prelude.{◌≡◌, ◌++◌, codes, OnOk};
ghost use Rattle.std.specs.Fmt.{decimal};
ghost use Rattle.gix_object.specs.Kind.{kind_word};
ghost use Rattle.odb_script.specs.Print.{printed, reply_text, error_text, opening_text, find_text, labelled_load_index, load_index_text, too_many_packs_text, loose_text, sizes_text, write_text, loose_write_text, header_text, yes_or_no, why_text, data_text};

use gix_hash::ObjectId;
use gix_object::Kind;
use gix_odb_calls::{CallError, Outcome, Reply, Why, find, init, load_index, write};
use gix_odb_loose as loose;
use odb_base::{NoMemory, PathText};
use odb_program::{labelled, number, text};
use std::alloc::Global;

/// Adds the line of an outcome, without its line feed.
pub fn print_outcome(alloc: Global, out: &mut Vec<u8>, outcome: &Outcome) -> Result<(), NoMemory>
    ensures ok { OnOk result (out.new.items ≡ out.old.items ++ printed outcome.now) }
{
    match outcome {
        Outcome::Applied => text(out, b"applied"),
        Outcome::Pending => text(out, b"pending"),
        Outcome::Reply(reply) => print_reply(alloc, out, reply.value()),
        Outcome::Misuse(why) => print_misuse(out, *why),
    }
}

fn print_misuse(out: &mut Vec<u8>, why: Why) -> Result<(), NoMemory>
    ensures ok { OnOk result (out.new.items ≡ out.old.items ++ printed (Outcome.Misuse why)) }
{
    text(out, b"misuse ")?;
    text(out, word_of(why))
}

fn print_reply(alloc: Global, out: &mut Vec<u8>, reply: &Reply) -> Result<(), NoMemory>
    ensures ok { OnOk result (out.new.items ≡ out.old.items ++ reply_text reply.now) }
{
    match reply {
        Reply::Opened { slots } => labelled(alloc, out, b"opened ", u64::from(*slots)),
        Reply::Found { kind, bytes } => print_found(alloc, out, *kind, bytes.as_slice()),
        Reply::Header(header) => print_found_header(alloc, out, *header),
        Reply::Tested(there) => print_test(out, *there),
        Reply::Wrote(id) => print_wrote(alloc, out, *id),
        Reply::NotFound => text(out, b"not-found"),
        Reply::Refused(error) => print_refusal(alloc, out, error),
    }
}

fn print_found(alloc: Global, out: &mut Vec<u8>, kind: Kind, bytes: &[u8]) -> Result<(), NoMemory>
    ensures ok { OnOk result (out.new.items ≡ out.old.items ++ reply_text (Reply.Found kind bytes.now)) }
{
    text(out, b"found ")?;
    text(out, kind.as_bytes())?;
    text(out, b" ")?;
    number(alloc, out, bytes.len() as u64)?;
    text(out, b" ")?;
    data(alloc, out, bytes)
}

fn print_found_header(
    alloc: Global,
    out: &mut Vec<u8>,
    header: find::Header,
) -> Result<(), NoMemory>
    ensures ok { OnOk result (out.new.items ≡ out.old.items ++ reply_text (Reply.Header header)) }
{
    text(out, b"header ")?;
    print_header(alloc, out, header)
}

fn print_test(out: &mut Vec<u8>, is_there: bool) -> Result<(), NoMemory>
    ensures ok { OnOk result (out.new.items ≡ out.old.items ++ reply_text (Reply.Tested is_there)) }
{
    text(out, b"test ")?;
    text(out, yes_or_no(is_there))
}

fn print_wrote(alloc: Global, out: &mut Vec<u8>, id: ObjectId) -> Result<(), NoMemory>
    ensures ok { OnOk result (out.new.items ≡ out.old.items ++ reply_text (Reply.Wrote id)) }
{
    text(out, b"wrote ")?;
    text(out, id.to_hex(alloc)?.as_bytes())
}

fn print_refusal(alloc: Global, out: &mut Vec<u8>, error: &CallError) -> Result<(), NoMemory>
    ensures ok { OnOk result (out.new.items ≡ out.old.items ++ reply_text (Reply.Refused error.now)) }
{
    text(out, b"error ")?;
    print_error(alloc, out, error)
}

fn print_header(alloc: Global, out: &mut Vec<u8>, header: find::Header) -> Result<(), NoMemory>
    ensures ok { OnOk result (out.new.items ≡ out.old.items ++ header_text header) }
{
    match header {
        find::Header::Loose { kind, size } => print_standing(alloc, out, kind, size, b" loose"),
        find::Header::Packed { kind, size } => print_standing(alloc, out, kind, size, b" packed"),
    }
}

fn print_standing(
    alloc: Global,
    out: &mut Vec<u8>,
    kind: Kind,
    size: u64,
    place: &[u8],
) -> Result<(), NoMemory>
    ensures ok { OnOk result (out.new.items ≡ out.old.items ++ (kind_word kind ++ codes " " ++ decimal size ++ place.now)) }
{
    text(out, kind.as_bytes())?;
    labelled(alloc, out, b" ", size)?;
    text(out, place)
}

fn yes_or_no(is_yes: bool) -> &'static [u8]
    ensures text { result.now ≡ yes_or_no is_yes }
{
    if is_yes { b"yes" } else { b"no" }
}

fn print_error(alloc: Global, out: &mut Vec<u8>, error: &CallError) -> Result<(), NoMemory>
    ensures ok { OnOk result (out.new.items ≡ out.old.items ++ error_text error.now) }
{
    match error {
        CallError::Open(error) => {
            text(out, b"open ")?;
            print_opening_error(alloc, out, error)
        }
        CallError::Find(error) => print_find_error(alloc, out, error),
        CallError::Write(error) => {
            text(out, b"write ")?;
            print_write_error(alloc, out, error)
        }
    }
}

fn print_opening_error(
    alloc: Global,
    out: &mut Vec<u8>,
    error: &init::Error,
) -> Result<(), NoMemory>
    ensures ok { OnOk result (out.new.items ≡ out.old.items ++ opening_text error.now) }
{
    match error {
        init::Error::NotADirectory => text(out, b"not-a-directory"),
        init::Error::TooManySlots { asked } => labelled(alloc, out, b"too-many-slots ", *asked),
        init::Error::Io => text(out, b"io"),
        init::Error::LoadIndex(error) => print_load_index(alloc, out, error),
        init::Error::NoMemory => text(out, b"no-memory"),
    }
}

fn print_find_error(alloc: Global, out: &mut Vec<u8>, error: &find::Error) -> Result<(), NoMemory>
    ensures ok { OnOk result (out.new.items ≡ out.old.items ++ find_text error.now) }
{
    match error {
        find::Error::Loose(error) => {
            text(out, b"loose ")?;
            print_loose_error(alloc, out, error)
        }
        find::Error::LoadIndex(error) => print_load_index(alloc, out, error),
        find::Error::Pack => text(out, b"pack"),
        find::Error::LoadPack => text(out, b"load-pack"),
        find::Error::EntryType { code } => labelled(alloc, out, b"entry-type ", u64::from(*code)),
        find::Error::DeltaEntry => text(out, b"delta-entry"),
        find::Error::OutOfMemory { size } => labelled(alloc, out, b"out-of-memory ", *size),
        find::Error::NoMemory => text(out, b"no-memory"),
    }
}

fn print_load_index(
    alloc: Global,
    out: &mut Vec<u8>,
    error: &load_index::Error,
) -> Result<(), NoMemory>
    ensures ok { OnOk result (out.new.items ≡ out.old.items ++ labelled_load_index error.now) }
{
    text(out, b"load-index ")?;
    print_load_index_error(alloc, out, error)
}

fn print_load_index_error(
    alloc: Global,
    out: &mut Vec<u8>,
    error: &load_index::Error,
) -> Result<(), NoMemory>
    ensures ok { OnOk result (out.new.items ≡ out.old.items ++ load_index_text error.now) }
{
    match error {
        load_index::Error::Io => text(out, b"io"),
        load_index::Error::InsufficientSlots { current, needed } => {
            labelled(alloc, out, b"insufficient-slots ", *current as u64)?;
            labelled(alloc, out, b" ", *needed as u64)
        }
        load_index::Error::GenerationOverflow => text(out, b"generation-overflow"),
        load_index::Error::TooManyPacksInMultiIndex {
            actual,
            index_path,
            ..
        } => print_too_many_packs(alloc, out, *actual, index_path),
        load_index::Error::Unsettled { begun, own, now } => {
            labelled(alloc, out, b"unsettled ", *begun)?;
            labelled(alloc, out, b" ", *own)?;
            labelled(alloc, out, b" ", *now)
        }
        load_index::Error::NoMemory => text(out, b"no-memory"),
    }
}

fn print_too_many_packs(
    alloc: Global,
    out: &mut Vec<u8>,
    actual: u32,
    path: &PathText,
) -> Result<(), NoMemory>
    ensures ok { OnOk result (out.new.items ≡ out.old.items ++ too_many_packs_text actual path.now) }
{
    labelled(alloc, out, b"too-many-packs ", u64::from(actual))?;
    text(out, b" ")?;
    text(out, path.to_text(alloc)?.as_bytes())
}

fn print_loose_error(
    alloc: Global,
    out: &mut Vec<u8>,
    error: &loose::find::Error,
) -> Result<(), NoMemory>
    ensures ok { OnOk result (out.new.items ≡ out.old.items ++ loose_text error.now) }
{
    match error {
        loose::find::Error::SizeMismatch {
            actual,
            expected,
            ..
        } => print_sizes(alloc, out, *expected, *actual),
        loose::find::Error::Decode => text(out, b"decode"),
        loose::find::Error::OutOfMemory { size } => labelled(alloc, out, b"out-of-memory ", *size),
        loose::find::Error::Io { path, .. } => {
            text(out, b"io ")?;
            text(out, path.to_text(alloc)?.as_bytes())
        }
        loose::find::Error::NoMemory => text(out, b"no-memory"),
    }
}

fn print_write_error(alloc: Global, out: &mut Vec<u8>, error: &write::Error) -> Result<(), NoMemory>
    ensures ok { OnOk result (out.new.items ≡ out.old.items ++ write_text error.now) }
{
    match error {
        write::Error::LooseWrite(error) => print_loose_write_error(alloc, out, error),
        write::Error::LoadIndex(error) => print_load_index(alloc, out, error),
        write::Error::NoMemory => text(out, b"no-memory"),
    }
}

fn print_loose_write_error(
    alloc: Global,
    out: &mut Vec<u8>,
    error: &loose::write::Error,
) -> Result<(), NoMemory>
    ensures ok { OnOk result (out.new.items ≡ out.old.items ++ loose_write_text error.now) }
{
    match error {
        loose::write::Error::Io { .. } => text(out, b"io"),
        loose::write::Error::IoRaw => text(out, b"io-raw"),
        loose::write::Error::Persist { .. } => text(out, b"persist"),
        loose::write::Error::SizeMismatch { expected, actual } => {
            print_sizes(alloc, out, *expected, *actual)
        }
        loose::write::Error::NoMemory => text(out, b"no-memory"),
    }
}

fn print_sizes(alloc: Global, out: &mut Vec<u8>, expected: u64, actual: u64) -> Result<(), NoMemory>
    ensures ok { OnOk result (out.new.items ≡ out.old.items ++ sizes_text expected actual) }
{
    labelled(alloc, out, b"size-mismatch ", expected)?;
    labelled(alloc, out, b" ", actual)
}

fn word_of(why: Why) -> &'static [u8]
    ensures text { result.now ≡ why_text why }
{
    match why {
        Why::HandleTaken => b"handle-taken",
        Why::BadOpen => b"bad-open",
        Why::NoHandle => b"no-handle",
        Why::NotRunning => b"not-running",
        Why::Busy => b"busy",
        Why::WrongHash => b"wrong-hash",
        Why::ImpossibleChange => b"impossible-change",
        Why::TwoContents => b"two-contents",
    }
}

/// Adds data as lower-case hex digits, or `-` for nothing.
fn data(alloc: Global, out: &mut Vec<u8>, bytes: &[u8]) -> Result<(), NoMemory>
    ensures ok { OnOk result (out.new.items ≡ out.old.items ++ data_text bytes.now) }
{
    if bytes.is_empty() {
        return text(out, b"-");
    }
    text(out, hex::encode(alloc, bytes)?.as_bytes())
}
