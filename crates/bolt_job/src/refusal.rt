//! Why words aren't a job.
ghost use Rattle.std.specs.Prelude.{◌≡◌};
ghost use Rattle.bolt_job.specs.declared.refusal.Refusal.TheVariants.{Memory};

use std::alloc::{AllocError, AllocFailed};

/// Why words aren't a job.
#[derive(Drop)]
pub enum Refusal {
    /// Memory ran out.
    Memory,
    /// Help was asked for. This is its text.
    Help(String),
    /// The version was asked for. This is its line.
    Version(String),
    /// The words are no line of a command. This text says why.
    Usage(String),
    /// The words are a line of a command, but one of them can't be read. This says what is wrong
    /// with it.
    Word(&'static str),
}

impl From<AllocError> for Refusal {
    ghost from_gives = { λ _ refusal. refusal ≡ Memory };

    fn from(_error: AllocError) -> Refusal {
        Refusal::Memory
    }
}

impl<T: Drop> From<AllocFailed<T>> for Refusal {
    ghost from_gives = { λ _ refusal. refusal ≡ Memory };

    fn from(_error: AllocFailed<T>) -> Refusal {
        Refusal::Memory
    }
}
