//! A whole run of `luntsegi`: from the words of its command line to what it does to files and streams.
#![tactic(auto)]

mod faults;
pub mod laws;
mod names;
mod outside;
mod printer;
mod whole_run;

pub use bolt_commands::{Failure, Status, run};
pub use bolt_job::{
    AssumedMeta, BucketsJob, BucketsShown, CheckJob, CompactJob, CopyKind, Extent, GetJob, InfoJob,
    Job, KeysJob, ListJob, LoadJob, MetaChoice, PageJob, PageSize, PagesJob, Refusal, StatsJob,
    read_words,
};
pub use laws::{answers_are_printed, runs_are_in_order};
pub use outside::{
    CreateFault, EndFault, OpenFault, OutputFault, Outside, ReadFault, Source, Stamp,
};
pub use printer::Printer;
pub use whole_run::{refuse, run_program};
