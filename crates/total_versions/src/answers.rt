//! What a call answers.
ghost use Rattle.std.specs.Prelude.{◌≡◌};
ghost use Rattle.total_versions.specs.Answers.{refusal_code, told, told_back, told_back_here, told_here, told_memory, told_memory_here};

use versions::{Fault, Refused, Version};

/// Why a call did nothing.
#[derive(Clone, Copy, Debug, PartialEq, Eq)]
pub enum Refusal {
    /// The handle has no store.
    NoStore,
    /// The store doesn't hold the version.
    NoVersion,
    /// The index is past the end, one index is past the other, there is no last element to take, the map lacks the key, or there is
    /// too little room for what is asked.
    Range,
    /// The list would have 2^32 values or more.
    Long,
    /// Memory ran out.
    Memory,
    /// The bytes are no text: not UTF-8, with a newline, or more than 65,536.
    NotText,
}

impl Refusal {
    /// Its number, for a program that knows no enum: 1 to 6, in the order of the names.
    pub fn code(self) -> u32
        ensures { result ≡ refusal_code self }
    {
        match self {
            Refusal::NoStore => 1,
            Refusal::NoVersion => 2,
            Refusal::Range => 3,
            Refusal::Long => 4,
            Refusal::Memory => 5,
            Refusal::NotText => 6,
        }
    }
}

// The same of a store's fault.
fn refusal_of(fault: Fault) -> Refusal
    ensures { result ≡ Rattle.total_versions.specs.Answers.refusal_of fault }
{
    match fault {
        Fault::Long => Refusal::Long,
        Fault::Range => Refusal::Range,
        Fault::Memory => Refusal::Memory,
    }
}

// The number of the version that a store made.
pub(crate) fn told(answer: Result<Version, Fault>) -> Result<usize, Refusal>
    ensures { result ≡ told answer }
{
    match answer {
        Ok(version) => Ok(version.number()),
        Err(fault) => Err(refusal_of(fault)),
    }
}

// The same where the store gave the element back.
pub(crate) fn told_back<T: Drop>(answer: Result<Version, Refused<T>>) -> Result<usize, Refusal>
    ensures { result ≡ told_back answer }
{
    match answer {
        Ok(version) => Ok(version.number()),
        Err(refused) => Err(refusal_of(refused.fault)),
    }
}

// The same where the store wants nothing but memory.
pub(crate) fn told_memory<E: Drop>(answer: Result<Version, E>) -> Result<usize, Refusal>
    ensures { result ≡ told_memory answer }
{
    match answer {
        Ok(version) => Ok(version.number()),
        Err(_) => Err(Refusal::Memory),
    }
}

// The number of the version that a store edited.
pub(crate) fn told_here(version: Version, answer: Result<(), Fault>) -> Result<usize, Refusal>
    ensures { result ≡ told_here version answer }
{
    match answer {
        Ok(()) => Ok(version.number()),
        Err(fault) => Err(refusal_of(fault)),
    }
}

// The same where the store gave the element back.
pub(crate) fn told_back_here<T: Drop>(
    version: Version,
    answer: Result<(), Refused<T>>,
) -> Result<usize, Refusal>
    ensures { result ≡ told_back_here version answer }
{
    match answer {
        Ok(()) => Ok(version.number()),
        Err(refused) => Err(refusal_of(refused.fault)),
    }
}

// The same where the store wants nothing but memory.
pub(crate) fn told_memory_here<E: Drop>(
    version: Version,
    answer: Result<(), E>,
) -> Result<usize, Refusal>
    ensures { result ≡ told_memory_here version answer }
{
    match answer {
        Ok(()) => Ok(version.number()),
        Err(_) => Err(Refusal::Memory),
    }
}
