//! What one line of a script says.
ghost use Rattle.std.specs.Prelude.{◌≡◌, Some, IfOk};
ghost use Rattle.std.specs.Option.{MatchOption};
ghost use Rattle.odb_script.specs.Change.{change_of};
ghost use Rattle.odb_script.specs.Line.{clone_of, item_of, is_blank, fields_of, fields_item, texts_of, one_handle, line_item, call_for, start_of, step_item, setup_item, outside_item, changed_item};

use crate::change::change_of;
use crate::field::{handle_of, id_of};
use crate::opening::open_of;
use crate::split::fields_of;
use crate::word::{ChangeWord, Word, change_word_of, word_of};
use crate::write::{stream, write, writeas};
use gix_hash::ObjectId;
use gix_object::Want;
use gix_odb_calls::{Line, Query, Step};
use odb_base::{NoMemory, parse_decimal};
use odb_mem_disk::Change;
use std::alloc::Global;

/// What a line of a script says.
#[derive(Drop)]
pub enum Item {
    /// Nothing: an empty line, or one that begins with `#`.
    Blank,
    /// The call of the disk with this number fails.
    Fail(u64),
    /// A change of the disk before the steps.
    Setup(Change),
    /// The steps begin.
    Steps,
    /// A line to play.
    Play(Line),
    /// A word of the language that isn't built yet.
    NotBuilt,
    /// Outside the language.
    Refused,
}

/// What a line says. The line has no line feed.
#[tactic(auto, using(crate::proofs::TextLemmas::utf8_true, crate::proofs::TextLemmas::utf8_false), unfolding(crate::specs::Line::item_of))]
pub fn item_of(alloc: Global, line: &[u8]) -> Result<Item, NoMemory>
    ensures item { IfOk result (λ item. item ≡ item_of line.now) }
{
    if is_blank(line) {
        return Ok(Item::Blank);
    }
    match std::str::from_utf8(line) {
        Ok(text) => text_item(alloc, text),
        Err(_) => Ok(Item::Refused),
    }
}

/// Whether a line is empty or begins with `#`.
fn is_blank(line: &[u8]) -> bool
    ensures blank { result ≡ is_blank line.now }
{
    match line {
        [] => true,
        [first, ..] => *first == b'#',
    }
}

/// What a line that is text says.
fn text_item(alloc: Global, line: &str) -> Result<Item, NoMemory>
    ensures item { IfOk result (λ item. item ≡ fields_item (fields_of line.now)) }
{
    let fields = fields_of(alloc, line)?;
    fields_item(alloc, &fields)
}

fn fields_item(alloc: Global, fields: &[&str]) -> Result<Item, NoMemory>
    ensures item { IfOk result (λ item. item ≡ fields_item (texts_of fields.now)) }
{
    match fields {
        [] => Ok(Item::Blank),
        [word, fields @ ..] => line_item(alloc, word_of(word), fields),
    }
}

/// A line by its first word and the fields after it.
#[tactic(auto, unfolding(crate::specs::Line::line_item))]
fn line_item(alloc: Global, word: Option<Word>, fields: &[&str]) -> Result<Item, NoMemory>
    ensures item { IfOk result (λ item. item ≡ line_item word (texts_of fields.now)) }
{
    match word {
        Some(Word::NotBuilt) => Ok(Item::NotBuilt),
        Some(Word::Fail) => Ok(fail(fields)),
        Some(Word::Mkdir) => set_up(alloc, ChangeWord::Mkdir, fields),
        Some(Word::Put) => set_up(alloc, ChangeWord::Put, fields),
        Some(Word::Link) => set_up(alloc, ChangeWord::Link, fields),
        Some(Word::Steps) => Ok(steps(fields)),
        Some(Word::Open) => open(alloc, fields),
        Some(Word::Clone) => Ok(clone_line(fields)),
        Some(Word::Close) => Ok(for_handle(fields, |handle| step_item(Step::Close { handle }))),
        Some(Word::Never) => Ok(for_handle(fields, |handle| step_item(Step::Never { handle }))),
        Some(Word::Ignore) => Ok(for_handle(fields, |handle| step_item(Step::Ignore { handle }))),
        Some(Word::Ask(want)) => Ok(ask(want, fields)),
        Some(Word::Write) => write(alloc, fields),
        Some(Word::Stream) => stream(alloc, fields),
        Some(Word::WriteAs) => writeas(alloc, fields),
        Some(Word::Turn) => Ok(for_handle(fields, |handle| step_item(Step::Turn { handle }))),
        Some(Word::Finish) => Ok(for_handle(fields, |handle| Item::Play(Line::Finish { handle }))),
        Some(Word::Do) => change(alloc, fields),
        None => Ok(Item::Refused),
    }
}

#[tactic(auto, unfolding(crate::specs::Line::line_item))]
fn fail(fields: &[&str]) -> Item
    ensures item { result ≡ line_item (Some Word.Fail) (texts_of fields.now) }
{
    match fields {
        [number] => match parse_decimal(number) {
            Some(number) => Item::Fail(number),
            None => Item::Refused,
        },
        _ => Item::Refused,
    }
}

/// A change before the steps.
fn set_up(alloc: Global, word: ChangeWord, fields: &[&str]) -> Result<Item, NoMemory>
    ensures item { IfOk result (λ item. item ≡ setup_item (change_of word (texts_of fields.now))) }
{
    Ok(setup_item(change_of(alloc, word, fields)?))
}

#[tactic(auto, unfolding(crate::specs::Line::line_item))]
fn steps(fields: &[&str]) -> Item
    ensures item { result ≡ line_item (Some Word.Steps) (texts_of fields.now) }
{
    match fields {
        [] => Item::Steps,
        _ => Item::Refused,
    }
}

#[tactic(auto, unfolding(crate::specs::Line::line_item))]
fn open(alloc: Global, fields: &[&str]) -> Result<Item, NoMemory>
    ensures item { IfOk result (λ item. item ≡ line_item (Some Word.Open) (texts_of fields.now)) }
{
    match fields {
        [handle, path, options @ ..] => open_of(alloc, handle, path, options),
        _ => Ok(Item::Refused),
    }
}

/// A line of the handle that its one field names.
fn for_handle<F: FnOnce(u32) -> Item + Drop>(fields: &[&str], item: F) -> Item
    requires callable { F.IsAlwaysCallable item }
    ensures item { MatchOption (one_handle (texts_of fields.now)) (result ≡ Item.Refused) (λ handle. F.post item handle result) }
{
    match fields {
        [handle] => handle_of(handle).map_or(Item::Refused, item),
        _ => Item::Refused,
    }
}

#[tactic(auto, unfolding(crate::specs::Line::line_item))]
fn clone_line(fields: &[&str]) -> Item
    ensures item { result ≡ line_item (Some Word.Clone) (texts_of fields.now) }
{
    match fields {
        [handle, from] => clone_of(handle_of(handle), handle_of(from)),
        _ => Item::Refused,
    }
}

/// One more handle on the store of another.
fn clone_of(handle: Option<u32>, from: Option<u32>) -> Item
    ensures item { result ≡ clone_of handle from }
{
    let (Some(handle), Some(from)) = (handle, from) else {
        return Item::Refused;
    };
    step_item(Step::Clone { handle, from })
}

#[tactic(auto, unfolding(crate::specs::Line::line_item))]
fn ask(want: Want, fields: &[&str]) -> Item
    ensures item { result ≡ line_item (Some (Word.Ask want)) (texts_of fields.now) }
{
    match fields {
        [handle, id] => start_of(want, handle_of(handle), id_of(id)),
        _ => Item::Refused,
    }
}

/// The start of a call on an id.
fn start_of(want: Want, handle: Option<u32>, id: Option<ObjectId>) -> Item
    ensures item { result ≡ start_of (call_for want) handle id }
{
    let (Some(handle), Some(id)) = (handle, id) else {
        return Item::Refused;
    };
    step_item(Step::Start {
        handle,
        call: Query { want, of: id }.call(),
    })
}

/// A change of another program.
#[tactic(auto, unfolding(crate::specs::Line::line_item))]
fn change(alloc: Global, fields: &[&str]) -> Result<Item, NoMemory>
    ensures item { IfOk result (λ item. item ≡ line_item (Some Word.Do) (texts_of fields.now)) }
{
    match fields {
        [word, fields @ ..] => changed(alloc, change_word_of(word), fields),
        [] => Ok(Item::Refused),
    }
}

/// A change of another program, by the word after `do` and the fields after it.
fn changed(alloc: Global, word: Option<ChangeWord>, fields: &[&str]) -> Result<Item, NoMemory>
    ensures item { IfOk result (λ item. item ≡ changed_item word (texts_of fields.now)) }
{
    match word {
        Some(word) => Ok(outside_item(change_of(alloc, word, fields)?)),
        None => Ok(Item::Refused),
    }
}

/// A line to play that is one step.
pub fn step_item(step: Step) -> Item
    ensures item { result ≡ step_item step }
{
    Item::Play(Line::One(step))
}

fn setup_item(change: Option<Change>) -> Item
    ensures item { result ≡ setup_item change }
{
    match change {
        Some(change) => Item::Setup(change),
        None => Item::Refused,
    }
}

fn outside_item(change: Option<Change>) -> Item
    ensures item { result ≡ outside_item change }
{
    match change {
        Some(change) => step_item(Step::Disk(change)),
        None => Item::Refused,
    }
}
