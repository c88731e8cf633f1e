//! Flags that ask for an interruption.
ghost use Rattle.std.specs.Prelude.{◌≡◌, ℕ, Bool, ⊤};
ghost use Rattle.gix_features_parts.specs.Flag.{Counts, CountsDown};

use std::sync::atomic::{AtomicBool, Ordering};

/// A flag that asks for an interruption.
pub trait Flag {
    /// How often the flag was found set: a count that never falls.
    ghost count: { Self → ℕ };

    /// What the flag may answer, and how it is afterwards. A flag that another thread sets says nothing here.
    ghost tells: { Self → Bool → Self → Type 0 } = { λ _ _ _. ⊤ };

    /// Whether the flag is set.
    fn is_set(&mut self) -> bool
        ensures counts { Counts (count self.old) (count self.new) result }
        ensures tells { tells self.old result self.new };
}

/// A flag that any thread may set. It is read each time.
#[derive(Drop)]
pub struct AtomicFlag<'a> {
    flag: &'a AtomicBool,
    found_set: u64,
}

impl<'a> AtomicFlag<'a> {
    /// Makes a flag that reads this one.
    pub fn new(flag: &'a AtomicBool) -> AtomicFlag<'a>
        ensures count { result.found_set ≡ 0 }
    {
        AtomicFlag { flag, found_set: 0 }
    }
}

impl Flag for AtomicFlag<'_> {
    ghost count = { λ flag. flag.found_set };

    fn is_set(&mut self) -> bool {
        let set = self.flag.load(Ordering::SeqCst);
        if set {
            self.found_set = self.found_set.saturating_add(1);
        }
        set
    }
}

/// A flag in memory that is set from its read `n + 1` on.
#[derive(Drop)]
pub struct SetAfter {
    left: u64,
    found_set: u64,
}

impl SetAfter {
    /// A flag that is unset for `n` reads, and set from then on.
    pub fn new(n: u64) -> SetAfter
        ensures left { result.left ≡ n }
        ensures count { result.found_set ≡ 0 }
    {
        SetAfter {
            left: n,
            found_set: 0,
        }
    }
}

impl Flag for SetAfter {
    ghost count = { λ flag. flag.found_set };

    ghost tells = { λ before answer after. CountsDown before.left answer after.left };

    fn is_set(&mut self) -> bool {
        if self.left > 0 {
            self.left -= 1;
            return false;
        }
        self.found_set = self.found_set.saturating_add(1);
        true
    }
}
