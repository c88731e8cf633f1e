//! What is left of a shared list.
ghost use Rattle.std.specs.Prelude.{◌≡◌, drop};
ghost use Rattle.std.specs.Option.{option_copied};
ghost use Rattle.gix_odb_events.specs.Shown.{first_of};

use gix_odb_events::Shared;
use odb_base::Sequence;
use std::marker::Model;

/// What is left of a shared list, which contracts see as a list.
#[derive(Drop)]
pub struct Rest<T> {
    list: Shared<Sequence<T>>,
    next: usize,
}

impl<T> Model for Rest<T> {
    ghost use Rattle.std.specs.Prelude.{List, drop};
    ghost use Rattle.std.specs.Coded.{coded_list};

    ghost Value = { List T };

    ghost coded = { coded_list T.code };

    ghost view = { λ rest. drop rest.next rest.list };
}

impl<T> Rest<T> {
    /// Returns the whole of a list.
    pub fn all(list: Shared<Sequence<T>>) -> Rest<T>
        ensures all { result ≡ list }
    {
        Rest { list, next: 0 }
    }

    /// Returns the first item that is left.
    pub fn first(&self) -> Option<&T>
        ensures first { option_copied result ≡ first_of self.now }
    {
        self.list.value().get(self.next)
    }

    /// Skips the first item.
    pub fn advance(&mut self)
        ensures rest { self.new ≡ drop 1 self.old }
    {
        if self.next < self.list.value().len() {
            self.next += 1;
        }
    }
}
