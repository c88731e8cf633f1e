//! Tests of the parts of `gix_features`, those that start threads among them.
//!
//! A row of words says what is done, and after a bar what it returns.
#![tactic(auto)]

#[cfg(test)]
mod ahead;
#[cfg(test)]
mod counts;
#[cfg(test)]
mod eager;
#[cfg(test)]
mod flags;
#[cfg(test)]
mod locks;
#[cfg(test)]
mod meetings;
#[cfg(test)]
mod numbers;
#[cfg(test)]
mod orders;
#[cfg(test)]
mod pipes;
#[cfg(test)]
mod scopes;
#[cfg(test)]
mod slices;
#[cfg(test)]
mod sums;
#[cfg(test)]
mod turned;
#[cfg(test)]
mod waiting;
#[cfg(test)]
mod workers;
