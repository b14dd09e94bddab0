//! A job: what the words of a command line ask for.
#![tactic(auto)]

mod bucket_commands;
mod choices;
mod command_line;
mod etcd_commands;
mod job;
mod job_words;
mod line;
mod page_commands;
mod path_words;
mod refusal;
mod writing_commands;

pub use bucket_commands::{BucketsJob, GetJob, KeysJob, ListJob, StatsJob};
pub use choices::{AssumedMeta, BucketsShown, CopyKind, Extent, MetaChoice, PageSize};
pub use etcd_commands::{
    EtcdCheckJob, EtcdGetJob, EtcdKeysJob, EtcdRepairJob, EtcdRevisionsJob, EtcdStatusJob,
};
pub use job::Job;
pub use job_words::read_words;
pub use page_commands::{CheckJob, InfoJob, PageJob, PagesJob, StatesJob};
pub use path_words::path_slices;
pub use refusal::Refusal;
pub use writing_commands::{CompactJob, LoadJob};
