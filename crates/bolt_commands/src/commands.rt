//! The commands, each in a file of its own, and which of them does a job.
ghost use Rattle.bolt_commands.specs.{JobAnswers.DoesJob};

mod buckets_command;
mod check_command;
mod compact_command;
mod etcd_check_command;
mod etcd_get_command;
mod etcd_keys_command;
mod etcd_repair_command;
mod etcd_revisions_command;
mod etcd_status_command;
mod get_command;
mod info_command;
mod keys_command;
mod list_command;
mod load_command;
mod page_command;
mod pages_command;
mod states_command;
mod stats_command;

use crate::failure::Outcome;
use crate::opening::Input;
use bolt_format::Sink;
use bolt_job::Job;

/// Does a job, and returns its status.
pub(crate) fn do_job<O: Sink, T: Sink>(
    input: Input<'_>,
    job: &Job,
    out: &mut O,
    target: &mut T,
) -> Outcome
    ensures { DoesJob O.Sink out.old out.new T.Sink target.old target.new
        input.entry.file.now job.now result }
{
    match job {
        Job::Info(job) => info_command::do_info(input, job, out),
        Job::Page(job) => page_command::do_page(input, job, out),
        Job::Pages(job) => pages_command::do_pages(input, job, out),
        Job::Check(job) => check_command::do_check(input, job, out),
        Job::States(job) => states_command::do_states(input, job, out),
        Job::Buckets(job) => buckets_command::do_buckets(input, job, out),
        Job::Stats(job) => stats_command::do_stats(input, job, out),
        Job::Keys(job) => keys_command::do_keys(input, job, out),
        Job::Get(job) => get_command::do_get(input, job, out),
        Job::List(job) => list_command::do_list(input, job, out),
        Job::Compact(job) => compact_command::do_compact(input, job, out, target),
        Job::Load(job) => load_command::do_load(input, job, out, target),
        Job::EtcdRevisions(job) => etcd_revisions_command::do_etcd_revisions(input, job, out),
        Job::EtcdKeys(job) => etcd_keys_command::do_etcd_keys(input, job, out),
        Job::EtcdGet(job) => etcd_get_command::do_etcd_get(input, job, out),
        Job::EtcdCheck(job) => etcd_check_command::do_etcd_check(input, job, out),
        Job::EtcdStatus(job) => etcd_status_command::do_etcd_status(input, job, out),
        Job::EtcdRepair(job) => etcd_repair_command::do_etcd_repair(input, job, out, target),
    }
}
