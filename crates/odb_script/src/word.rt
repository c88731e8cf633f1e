//! The words of the language: those that a line may begin with, and those that may follow `do`.
ghost use Rattle.std.specs.Prelude.{◌≡◌, Some, None, if◌then◌else◌};
ghost use Rattle.odb_script.specs.Word.{word_of, step_word_of, change_word_of, unbuilt_words, is_one_of};

use gix_object::Want;

/// A word that a line may begin with.
#[derive(Clone, Copy, PartialEq, Eq)]
pub enum Word {
    Fail,
    Mkdir,
    Put,
    Link,
    Steps,
    Open,
    Clone,
    Close,
    Never,
    Ignore,
    /// A call that asks for so much of the object with an id.
    Ask(Want),
    Write,
    Stream,
    WriteAs,
    Turn,
    Finish,
    Do,
    /// A word that isn't built yet.
    NotBuilt,
}

/// A word that may follow `do`: how another program changes the disk. Lines of the setup begin with three of them too.
#[derive(Clone, Copy, PartialEq, Eq)]
pub enum ChangeWord {
    Mkdir,
    Put,
    Link,
    Rename,
    Remove,
    Time,
}

/// The word that a line may begin with.
#[tactic(auto, unfolding(crate::specs::Word::word_of))]
pub fn word_of(text: &str) -> Option<Word>
    ensures word { result ≡ word_of text.now }
{
    match text {
        "fail" => Some(Word::Fail),
        "mkdir" => Some(Word::Mkdir),
        "put" => Some(Word::Put),
        "link" => Some(Word::Link),
        "steps" => Some(Word::Steps),
        _ => step_word_of(text),
    }
}

/// The word of a step, or one that isn't built yet, with which a line may begin.
fn step_word_of(text: &str) -> Option<Word>
    ensures word { result ≡ step_word_of text.now }
{
    match text {
        "open" => Some(Word::Open),
        "clone" => Some(Word::Clone),
        "close" => Some(Word::Close),
        "never" => Some(Word::Never),
        "ignore" => Some(Word::Ignore),
        "find" => Some(Word::Ask(Want::Object)),
        "header" => Some(Word::Ask(Want::Header)),
        "test" => Some(Word::Ask(Want::Presence)),
        "write" => Some(Word::Write),
        "stream" => Some(Word::Stream),
        "writeas" => Some(Word::WriteAs),
        "turn" => Some(Word::Turn),
        "finish" => Some(Word::Finish),
        "do" => Some(Word::Do),
        _ => not_built(is_unbuilt_word(text)),
    }
}

/// The word that may follow `do`.
#[tactic(auto, unfolding(crate::specs::Word::change_word_of))]
pub fn change_word_of(text: &str) -> Option<ChangeWord>
    ensures word { result ≡ change_word_of text.now }
{
    match text {
        "mkdir" => Some(ChangeWord::Mkdir),
        "put" => Some(ChangeWord::Put),
        "link" => Some(ChangeWord::Link),
        "rename" => Some(ChangeWord::Rename),
        "remove" => Some(ChangeWord::Remove),
        "time" => Some(ChangeWord::Time),
        _ => None,
    }
}

/// Whether a line may begin with a word that isn't built yet.
fn is_unbuilt_word(text: &str) -> bool
    ensures unbuilt { result ≡ is_one_of unbuilt_words text.now }
{
    matches!(text, "ids" | "upgrade" | "prefix" | "locate" | "entry")
}

/// The word for what isn't built yet, if a test found one.
fn not_built(is_unbuilt: bool) -> Option<Word>
    ensures word { result ≡ (if is_unbuilt then Some Word.NotBuilt else None) }
{
    if is_unbuilt {
        Some(Word::NotBuilt)
    } else {
        None
    }
}
