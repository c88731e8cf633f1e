//! Lists that change while an older copy is kept, with which they share blocks of 32 places and groups of 32 blocks.
use gix_odb_events::SharedSequence;
use odb_base::{Shared, SharedList};
use std::alloc::Global;
use std::test::Fail;
use test_words::Text;

/// In which round an item was put into a list, and where.
#[derive(Drop)]
struct Mark(u64, usize);

fn put(alloc: Global, to: &mut SharedList<Mark>, turn: u64, places: &[usize]) -> Result<(), Fail> {
    for place in places {
        let mark = Shared::new(alloc, Mark(turn, *place))?;
        *to = to.with(alloc, *place, Some(mark))?;
    }
    Ok(())
}

fn check(alloc: Global, list: &SharedList<Mark>, want: &str) -> Result<(), Fail> {
    let mut text = Text::new(alloc);
    for item in list.to_vec(alloc)? {
        if let Some(mark) = item {
            text.marked(" ", mark.value().0);
            text.marked(":", mark.value().1 as u64);
        }
    }
    text.check("list", want)
}

// An older copy that changes with the list.
#[test]
fn list_beside_an_older_copy(rt: HostRuntime) -> Result<(), Fail> {
    let mut list = SharedList::empty(2_000);
    put(rt.alloc(), &mut list, 1, &[0, 31, 32, 1_023, 1_024])?;
    let older = list.try_clone()?;
    put(rt.alloc(), &mut list, 2, &[31, 1_024, 1_999, 2_000])?;
    check(rt.alloc(), &older, " 1:0 1:31 1:32 1:1023 1:1024")?;
    check(rt.alloc(), &list, " 1:0 2:31 1:32 1:1023 2:1024 2:1999")
}

fn put_next(alloc: Global, to: &mut SharedSequence<Mark>, turn: u64) -> Result<(), Fail> {
    let mark = Shared::new(alloc, Mark(turn, to.len()))?;
    *to = to.with_next(alloc, mark)?;
    Ok(())
}

fn show_mark(text: &mut Text, mark: Option<&Shared<Mark>>) {
    match mark {
        Some(mark) => text.marked(" ", mark.value().0),
        None => text.put(" -"),
    }
}

fn check_marks(
    alloc: Global,
    list: &SharedSequence<Mark>,
    places: &[usize],
    want: &str,
) -> Result<(), Fail> {
    let mut text = Text::new(alloc);
    text.marked("", list.len() as u64);
    for place in places {
        show_mark(&mut text, list.get(*place));
    }
    text.check("values", want)
}

// The last value of a full block is lost, or an older copy gets one more.
#[test]
fn values_beside_an_older_copy(rt: HostRuntime) -> Result<(), Fail> {
    let mut list = SharedSequence::empty();
    for turn in 0..70 {
        put_next(rt.alloc(), &mut list, turn)?;
    }
    let older = list.try_clone()?;
    put_next(rt.alloc(), &mut list, 100)?;
    let list = list.with(rt.alloc(), 31, Shared::new(rt.alloc(), Mark(200, 31))?)?;
    check_marks(rt.alloc(), &older, &[0, 31, 32, 69, 70], "70 0 31 32 69 -")?;
    check_marks(
        rt.alloc(),
        &list,
        &[0, 31, 32, 69, 70, 71],
        "71 0 200 32 69 100 -",
    )
}
