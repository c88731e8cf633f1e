//! The two ends of a channel, one of which sends and the other takes: what was taken is what was sent first.
ghost use Rattle.std.specs.Prelude.{List};

use crossbeam_channel::protocol::{Join, Lesson, Outcome, Protocol, Split};
use std::collections::LinkedList;
use std::marker::PhantomData;

/// A law that holds of what was sent so far, at any time.
pub trait Law<T> {
    ghost keeps: { List T → Type 0 };
}

/// No law.
pub struct Anything;

impl<T> Law<T> for Anything {
    ghost use Rattle.std.specs.Prelude.{⊤};

    ghost keeps = { λ _. ⊤ };
}

/// What an end may do, has sent, and has taken. No value of it is made.
pub struct Hand<T> {
    pub sends: bool,
    pub takes: bool,
    pub sent: LinkedList<T>,
    pub taken: LinkedList<T>,
}

/// The rule of a channel: what was sent is what was taken and then what the channel holds, and keeps a law.
pub struct InOrder<L> {
    law: PhantomData<L>,
}

impl<T, L: Law<T>> Protocol<T, Hand<T>> for InOrder<L> {
    ghost use Rattle.std.specs.Prelude.{true, []};
    ghost use Rattle.gix_features_channel.specs.Ends.{hand, IsInOrder};

    ghost holds = { IsInOrder L.keeps };

    ghost first = { hand true true [] [] };
}

/// One end becomes two, or two become one.
pub struct Roles;

impl<T> Split<Hand<T>> for Roles {
    ghost use Rattle.std.specs.Prelude.{true, false, []};
    ghost use Rattle.gix_features_channel.specs.Ends.{hand};

    ghost left = { λ v. hand true false v.sent [] };

    ghost right = { λ v. hand false true [] v.taken };
}

impl<T> Join<Hand<T>> for Roles {
    ghost use Rattle.std.specs.Prelude.{true, false, []};
    ghost use Rattle.gix_features_channel.specs.Ends.{hand};

    ghost both = { λ v w. hand true true v.sent w.taken };

    ghost spent = { hand false false [] [] };
}

/// Something is sent.
pub struct Sends;

impl<T> Outcome<T, Hand<T>> for Sends {
    ghost use Rattle.std.specs.Prelude.{◌≡◌, ◌∷◌, ◌++◌, []};
    ghost use Rattle.gix_features_channel.specs.Ends.{hand};

    ghost then = { λ v x w. w ≡ hand v.sends v.takes (v.sent ++ x ∷ []) v.taken };
}

impl<T> Lesson<T, Hand<T>> for Sends {
    ghost use Rattle.std.specs.Prelude.{⊤};

    ghost fact = { λ _ _. ⊤ };
}

/// Something is taken, and what was taken is a prefix of what was sent; or the channel was empty at a moment, and all
/// that was sent had been taken.
pub struct Takes<L> {
    law: PhantomData<L>,
}

impl<T, L: Law<T>> Outcome<T, Hand<T>> for Takes<L> {
    ghost use Rattle.std.specs.Prelude.{◌≡◌, ◌∷◌, ◌++◌, [], true};
    ghost use Rattle.gix_features_channel.specs.Ends.{hand, Begins};

    ghost then = { λ v x w. (w ≡ hand v.sends v.takes v.sent (v.taken ++ x ∷ [])) × Begins L.keeps (v.taken ++ x ∷ [])
        × (v.sends ≡ true → Begins (λ all. v.sent ≡ all) (v.taken ++ x ∷ [])) };
}

impl<T, L: Law<T>> Lesson<T, Hand<T>> for Takes<L> {
    ghost use Rattle.std.specs.Prelude.{◌++◌};

    ghost fact = { λ v items. L.keeps (v.taken ++ items) };
}

/// What an end that sends and takes knows of the channel.
pub struct Both;

impl<T> Lesson<T, Hand<T>> for Both {
    ghost use Rattle.std.specs.Prelude.{◌≡◌, ◌++◌};

    ghost fact = { λ v items. v.sent ≡ v.taken ++ items };
}
