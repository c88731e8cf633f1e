//! How calls in memory are counted, and which of them fail.
use crate::NoMemory;
use std::alloc::Global;
use std::collections::BTreeSet;
use std::marker::Model;

/// The calls of something in memory, some of which are made to fail.
#[derive(Drop)]
pub struct Calls {
    made: u64,
    listed: BTreeSet<u64>,
    faults: u64,
}

impl Model for Calls {
    ghost use Rattle.odb_base.specs.Calls.{Calls as CallsValue, coded_calls};

    ghost Value = { CallsValue };

    ghost coded = { coded_calls };

    ghost use Rattle.std.specs.FinSet as set;

    ghost view = { λ c. record { made = c.made; listed = set.from_list c.listed.keys; faults = c.faults } };
}

impl Calls {
    ghost use Rattle.std.specs.Prelude.{◌≡◌, ◌≤◌, true, IfOk};
    ghost use Rattle.std.specs.FinSet as set;
    ghost use Rattle.odb_base.specs.Faults.{Rose};
    ghost use Rattle.odb_base.specs.Calls.{no_calls, next_fails, after_call};

    /// No calls yet, and none that will fail.
    pub fn new(alloc: Global) -> Calls
        ensures empty { result ≡ no_calls set.empty }
    {
        Calls {
            made: 0,
            listed: BTreeSet::new(alloc),
            faults: 0,
        }
    }

    /// No calls yet; those with these numbers, counted from 1, will fail.
    pub fn with_faults(alloc: Global, calls: &[u64]) -> Result<Calls, NoMemory>
        ensures listed { IfOk result (λ c. c ≡ no_calls (set.from_list calls.now)) }
    {
        let mut listed = BTreeSet::new(alloc);
        for call in calls {
            listed.insert(*call)?;
        }
        Ok(Calls {
            made: 0,
            listed,
            faults: 0,
        })
    }

    /// Whether the next call will fail.
    pub fn next_fails(&self) -> bool
        ensures fails { result ≡ next_fails self.now }
    {
        self.listed.contains(&self.made.saturating_add(1))
    }

    /// Counts a call, which failed or didn't.
    #[tactic(auto, unfolding(crate::specs::Calls::after_call))]
    pub fn count(&mut self, failed: bool)
        ensures counted { self.new ≡ after_call failed self.old }
        ensures later { self.old.faults ≤ self.new.faults }
        ensures rose { failed ≡ true → Rose self.old.faults self.new.faults }
    {
        self.made = self.made.saturating_add(1);
        if failed {
            self.faults = self.faults.saturating_add(1);
        }
    }

    /// The number of calls; it saturates.
    pub fn made(&self) -> u64
        ensures count { result ≡ self.now.made }
    {
        self.made
    }

    /// The number of calls that failed.
    pub fn faults(&self) -> u64
        ensures count { result ≡ self.now.faults }
    {
        self.faults
    }

    /// A copy.
    pub fn try_clone(&self) -> Result<Calls, NoMemory>
        ensures copy { IfOk result (λ copy. copy ≡ self.now) }
    {
        Ok(Calls {
            made: self.made,
            listed: self.listed.clone()?,
            faults: self.faults,
        })
    }
}
