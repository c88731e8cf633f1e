//! Reducers, which make one result of many.
ghost use Rattle.std.specs.Prelude.{◌≡◌, Ok, ⊤};
ghost use Rattle.std.specs.Prelude.{Result};

use std::marker::PhantomData;

/// Makes one result of values that it is fed one after another.
pub trait Reduce {
    type Input;

    type FeedProduce;

    type Output;

    type Error;

    /// What the reducer gives for a value, and how it is afterwards.
    ghost feeds: { Self → Self.Input → Result Self.FeedProduce Self.Error → Self → Type 0 } = { λ _ _ _ _. ⊤ };

    /// The result of the reducer.
    ghost comes_to: { Self → Result Self.Output Self.Error → Type 0 } = { λ _ _. ⊤ };

    /// Feeds a value.
    fn feed(&mut self, item: Self::Input) -> Result<Self::FeedProduce, Self::Error>
        ensures fed { feeds self.old item result self.new };

    /// The result of all values that were fed.
    fn finalize(self) -> Result<Self::Output, Self::Error>
        ensures result { comes_to self result };
}

/// Gives each value that it is fed, which may be an error; its result is empty.
#[derive(Drop)]
pub struct IdentityWithResult<Input, Error> {
    input: PhantomData<Input>,
    error: PhantomData<Error>,
}

impl<Input, Error> Default for IdentityWithResult<Input, Error> {
    fn default() -> Self {
        IdentityWithResult {
            input: PhantomData,
            error: PhantomData,
        }
    }
}

impl<Input, Error> Reduce for IdentityWithResult<Input, Error> {
    type Input = Result<Input, Error>;

    type FeedProduce = Input;

    type Output = ();

    type Error = Error;

    ghost feeds = { λ s item given t. (given ≡ item) × (t ≡ s) };

    ghost comes_to = { λ _ result. result ≡ Ok tt };

    fn feed(&mut self, item: Result<Input, Error>) -> Result<Input, Error> {
        item
    }

    fn finalize(self) -> Result<(), Error> {
        let IdentityWithResult { input: _, error: _ } = self;
        Ok(())
    }
}
