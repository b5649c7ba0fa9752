//! How often something of the system failed.
ghost use Rattle.std.specs.Prelude.{◌≡◌, ◌≢◌, Err};
ghost use Rattle.clone_outside.specs.Causes.{HasCause};
ghost use Rattle.clone_real.specs.Real.{counted};

use clone_outside::Refusal;
use std::io;
use std::marker::Model;

/// A count of faults, which stays at 2^64 - 1. Contracts see it as that number.
#[derive(Drop)]
pub(crate) struct FaultCount {
    faults: u64,
}

impl Model for FaultCount {
    ghost use Rattle.std.specs.Prelude.{ℕ};

    ghost Value = { ℕ };

    ghost view = { λ c. c.faults };
}

impl FaultCount {
    /// No fault so far.
    pub(crate) fn new() -> FaultCount
        ensures { result ≡ 0 }
    {
        FaultCount { faults: 0 }
    }

    pub(crate) fn get(&self) -> u64
        ensures { result ≡ self.now }
    {
        self.faults
    }

    /// Counts the fault of an answer, if it is one.
    pub(crate) fn note<T>(&mut self, answer: Result<T, Refusal>) -> Result<T, Refusal>
        ensures same { result ≡ answer }
        ensures count { self.new ≡ counted self.old answer }
        ensures cause { HasCause self.old self.new result }
    {
        if let Err(Refusal::Fault) = &answer {
            self.faults = self.faults.saturating_add(1);
        }
        answer
    }
}

/// Each error of the system is a fault.
pub(crate) fn faulted<T>(answer: io::Result<T>) -> Result<T, Refusal>
    ensures { result ≢ Err Refusal.NoMemory }
{
    match answer {
        Ok(value) => Ok(value),
        Err(_) => Err(Refusal::Fault),
    }
}
