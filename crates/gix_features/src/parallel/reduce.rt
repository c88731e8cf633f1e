//! Reducers, which make one result of many.
pub use gix_features_parts::parallel::reduce::{IdentityWithResult, Reduce};
pub use gix_features_workers::{Finalize, Stepwise};
