//! Queries on the objects of a store.
ghost use Rattle.std.specs.Prelude.{◌≡◌};
ghost use Rattle.gix_odb_calls.specs.Query.{call_of};

use crate::call::Call;
use gix_hash::ObjectId;
use gix_object::Want;

/// The query of a call that writes nothing.
#[derive(Clone, Copy)]
pub struct Query {
    /// What the query wants of the object.
    pub want: Want,
    /// The id in the call.
    pub of: ObjectId,
}

impl Query {
    /// The call of the query.
    pub fn call(self) -> Call
        ensures call { result ≡ call_of self }
    {
        match self.want {
            Want::Object => Call::Find(self.of),
            Want::Header => Call::Header(self.of),
            Want::Presence => Call::Test(self.of),
        }
    }
}
