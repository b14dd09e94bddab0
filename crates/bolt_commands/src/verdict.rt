//! What is wrong with a file, to the extent that is asked for: `check` and `etcd-check` write it.
ghost use Rattle.std.specs.Prelude.{◌≡◌, ◌<◌, [], IfOk, map, true};
ghost use Rattle.std.specs.List.{All};
ghost use Rattle.bolt_recover.specs.{PageGaps.ForGaps, PageGaps.page_gap_view, Losses.is_nothing, LostAndFound.all_lost, KeptPages.AreKeptPages};
ghost use Rattle.bolt_recover.specs.Recoveries.{recovery_claimed, recovery_file, recovery_gaps, recovery_meta};
ghost use Rattle.bolt_recover.specs.{ShownLosses.lost_view};
ghost use Rattle.bolt_commands.specs.{Answers.WritesAnswer, CheckAnswers.check_refusal, CheckAnswers.findings_answer, CheckAnswers.is_right};
ghost use Rattle.bolt_commands.specs.{CheckAnswers.lost_and_found_answer, FilesRead.counts_accounts};
ghost use Rattle.bolt_commands.specs.{Private.Checks.ChecksGaps, Private.Checks.ChecksLost, Private.Checks.ChecksTo, Private.Checks.unopened};
ghost use Rattle.bolt_commands.specs.Private.Contents.{IsCheckOf, IsRecoveryOf, IsSearchOf, IsWholeRecoveryOf};
ghost use Rattle.bolt_report.specs.FoundLines.{IsFoundLeaf, found_view};
ghost use Rattle.bolt_check.specs.declared.check_fault.CheckFault.TheVariants as check;

use crate::failure::{Failure, Outcome};
use crate::file_faults::{FileFaults, put_file_faults};
use crate::opening::Input;
use bolt_check::{CheckFault, Checked, Finding, NoMemory};
use bolt_format::{Meta, MetaFault, Sink};
use bolt_job::{Extent, MetaChoice};
use bolt_recover::{FoundPage, Lost, LostAndFound, PageGap, Recovery};
use bolt_report::{put_counted_lost, put_findings};
use std::slice;

/// What is checked.
#[derive(Clone, Copy)]
pub(crate) struct Checking<'f> {
    pub input: Input<'f>,
    /// The meta that is chosen.
    pub choice: MetaChoice,
    /// What is wrong with the file apart from its pages, which is written first.
    pub faults: FileFaults,
    /// Whether it is then looked for what bbolt fails on when it writes into the file.
    pub for_bbolt: bool,
}

/// What a check comes to.
#[derive(Clone, Copy)]
pub(crate) enum Verdict<'f> {
    /// Nothing is wrong with the file, and nothing was written.
    Right(Checked<'f>),
    /// What is wrong was written, and the job ends so.
    Wrong(Outcome),
}

/// Checks a file to an extent. It writes what is wrong with it apart from its pages, and then the
/// findings, or each loss, or also each page that is found; and the gaps of what is kept, if all of the
/// file is asked for.
pub(crate) fn check_to<'f, O: Sink>(
    checking: Checking<'f>,
    extent: Extent,
    out: &mut O,
) -> Verdict<'f>
    ensures { ChecksTo O.Sink out.old out.new extent checking.entry result }
{
    match extent {
        Extent::Sound => check_sound(checking, out),
        Extent::Losses => check_losses(checking, out),
        Extent::FoundPages => check_found(checking, out),
    }
}

/// Checks that the file is sound. It writes the first finding of its trees, or those of its accounts.
fn check_sound<'f, O: Sink>(checking: Checking<'f>, out: &mut O) -> Verdict<'f>
    ensures { ChecksGaps O.Sink out.old out.new [] checking.entry result }
{
    put_checked(checking.input.check(checking.choice), &[], checking, out)
}

/// Prints what is wrong with a file that was checked, or that has no gaps but these.
fn put_checked<'f, O: Sink>(
    checked: Result<Checked<'f>, CheckFault>,
    gaps: &[PageGap<'_>],
    checking: Checking<'f>,
    out: &mut O,
) -> Verdict<'f>
    requires { IsCheckOf checking.input.file.now checking.choice checked }
    ensures { ChecksGaps O.Sink out.old out.new (map page_gap_view gaps.now) checking.entry result }
{
    match checked {
        Ok(checked) => {
            if is_right(checking.faults, gaps) {
                return Verdict::Right(checked);
            }
            Verdict::Wrong(put_findings_after(&[], gaps, checking.faults, out))
        }
        Err(fault) => Verdict::Wrong(put_refusal(&fault, gaps, checking.faults, out)),
    }
}

/// Whether nothing is wrong with a file whose trees are sound, and whose pages have these gaps.
fn is_right(faults: FileFaults, gaps: &[PageGap<'_>]) -> bool
    ensures { result ≡ is_right faults (map page_gap_view gaps.now) }
{
    gaps.is_empty() && faults.is_fine()
}

/// Writes each loss and each gap; if nothing is lost, the findings and each gap.
fn check_losses<'f, O: Sink>(checking: Checking<'f>, out: &mut O) -> Verdict<'f>
    ensures { ChecksLost O.Sink out.old out.new Extent.Losses checking.entry result }
{
    match checking.input.recover(checking.choice) {
        Ok(recovery) => check_recovered(checking, recovery, out),
        Err(fault) => Verdict::Wrong(put_unopened(Failure::from(fault), checking.faults, out)),
    }
}

/// Writes each loss, each gap and each page that is found; if nothing is lost, the findings and each
/// gap.
fn check_found<'f, O: Sink>(checking: Checking<'f>, out: &mut O) -> Verdict<'f>
    ensures { ChecksLost O.Sink out.old out.new Extent.FoundPages checking.entry result }
{
    match checking.input.search(checking.choice) {
        Ok(searched) => check_searched(checking, &searched, out),
        Err(failure) => Verdict::Wrong(put_unopened(failure, checking.faults, out)),
    }
}

/// Prints what is wrong with a file that is recovered.
fn check_recovered<'f, O: Sink>(
    checking: Checking<'f>,
    mut recovery: Recovery<'f>,
    out: &mut O,
) -> Verdict<'f>
    requires { IsRecoveryOf checking.input.file.now checking.choice recovery }
    ensures { ChecksLost O.Sink out.old out.new Extent.Losses checking.entry result }
{
    let Ok(()) = recovery.finish() else {
        return Verdict::Wrong(Err(Failure::Memory));
    };
    let lost = Lost::Parts(recovery.losses());
    if lost.is_nothing() {
        return check_kept(checking, recovery, out);
    }
    let gaps = recovery.gaps();
    Verdict::Wrong(put_lost_after(lost, gaps, &[], checking.faults, out))
}

/// Prints what is wrong with a file of which nothing is lost. All of it was visited by this recovery.
fn check_kept<'f, O: Sink>(
    checking: Checking<'f>,
    recovery: Recovery<'f>,
    out: &mut O,
) -> Verdict<'f>
    requires { IsWholeRecoveryOf checking.input.file.now checking.choice recovery }
    ensures { ChecksGaps O.Sink out.old out.new (recovery_gaps recovery.entry) checking.entry result }
{
    let (checked, gaps) = recovery.check(counts_accounts(checking.choice));
    put_checked(checked, gaps.as_slice(), checking, out)
}

/// Whether the accounts of the file count: under the active meta alone.
fn counts_accounts(choice: MetaChoice) -> bool
    ensures { result ≡ counts_accounts choice }
{
    match choice {
        MetaChoice::Active => true,
        MetaChoice::InSlot(_) | MetaChoice::Assumed(_) => false,
    }
}

/// Prints what is wrong with a file that was searched.
fn check_searched<'f, O: Sink>(
    checking: Checking<'f>,
    searched: &LostAndFound<'_>,
    out: &mut O,
) -> Verdict<'f>
    requires { IsSearchOf checking.input.file.now checking.choice searched.now }
    ensures { ChecksLost O.Sink out.old out.new Extent.FoundPages checking.entry result }
{
    let lost = searched.lost();
    if lost.is_nothing() {
        return check_whole(checking, searched, out);
    }
    let gaps = searched.gaps();
    let found = searched.found.as_slice();
    Verdict::Wrong(put_lost_after(lost, gaps, found, checking.faults, out))
}

/// Prints what is wrong with a file that was searched, and that lost nothing.
fn check_whole<'f, O: Sink>(
    checking: Checking<'f>,
    searched: &LostAndFound<'_>,
    out: &mut O,
) -> Verdict<'f>
    requires search { IsSearchOf checking.input.file.now checking.choice searched.now }
    requires whole { is_nothing (all_lost searched.now) ≡ true }
    ensures { ChecksLost O.Sink out.old out.new Extent.FoundPages checking.entry result }
{
    let Ok(recovery) = visit_all(checking.input, searched.meta) else {
        return Verdict::Wrong(Err(Failure::Memory));
    };
    check_kept(checking, recovery, out)
}

/// A recovery of a file under a meta that has come to its end.
fn visit_all<'f>(input: Input<'f>, meta: Meta) -> Result<Recovery<'f>, NoMemory>
    requires { 0 < meta.page_size }
    ensures file { IfOk result (λ recovery. recovery_file recovery ≡ input.entry.file.now) }
    ensures meta { IfOk result (λ recovery. recovery_meta recovery ≡ meta) }
    ensures gaps { IfOk result (λ recovery. ForGaps input.entry.file.now meta (λ gaps.
        recovery_gaps recovery ≡ gaps)) }
    ensures kept { IfOk result (λ recovery. AreKeptPages input.entry.file.now meta
        (recovery_claimed recovery)) }
{
    // Nothing is lost of the file, so only memory can be refused.
    let Ok(mut recovery) = Recovery::under(input.alloc, input.file, meta) else {
        return Err(NoMemory);
    };
    recovery.finish()?;
    Ok(recovery)
}

/// Writes why nothing is recovered.
fn put_unopened<O: Sink>(failure: Failure, faults: FileFaults, out: &mut O) -> Outcome
    ensures { WritesAnswer O.Sink out.old out.new (unopened faults failure) result }
{
    match failure {
        Failure::Open(fault) => put_faults_without_meta(fault, faults, out),
        Failure::File(finding) => put_lost_after(Lost::Everything(finding), &[], &[], faults, out),
        _ => Err(failure),
    }
}

/// Writes the findings that a file is refused for, and its gaps.
fn put_refusal<O: Sink>(
    fault: &CheckFault,
    gaps: &[PageGap<'_>],
    faults: FileFaults,
    out: &mut O,
) -> Outcome
    ensures { WritesAnswer O.Sink out.old out.new
        (check_refusal faults (map page_gap_view gaps.now) fault.now) result }
{
    match fault {
        CheckFault::Open(fault) => put_faults_without_meta(*fault, faults, out),
        CheckFault::Structure(finding) => {
            put_findings_after(slice::from_ref(finding), gaps, faults, out)
        }
        CheckFault::Accounts(findings) => put_findings_after(
            findings.as_slice(),
            gaps,
            faults,
            out,
        ),
        CheckFault::Memory => Err(Failure::Memory),
    }
}

/// Writes what else is wrong with a file that has no valid meta. The failure says that.
fn put_faults_without_meta<O: Sink>(fault: MetaFault, faults: FileFaults, out: &mut O) -> Outcome
    ensures { WritesAnswer O.Sink out.old out.new
        (check_refusal faults [] (check.Open fault)) result }
{
    put_file_faults(faults, out)?;
    Err(Failure::Open(fault))
}

fn put_findings_after<O: Sink>(
    findings: &[Finding],
    gaps: &[PageGap<'_>],
    faults: FileFaults,
    out: &mut O,
) -> Outcome
    ensures { WritesAnswer O.Sink out.old out.new
        (findings_answer faults findings.now (map page_gap_view gaps.now)) result }
{
    let earlier = put_file_faults(faults, out)?;
    put_findings(findings, gaps, earlier, out)?;
    Ok(1)
}

/// Writes what is lost, each gap and each page that is found, after what is wrong with the file apart
/// from its pages.
fn put_lost_after<O: Sink>(
    lost: Lost<'_>,
    gaps: &[PageGap<'_>],
    found: &[FoundPage<'_>],
    faults: FileFaults,
    out: &mut O,
) -> Outcome
    requires { All IsFoundLeaf found.now }
    ensures { WritesAnswer O.Sink out.old out.new (lost_and_found_answer faults
        (lost_view lost.entry) (map page_gap_view gaps.now) (map found_view found.now)) result }
{
    let earlier = put_file_faults(faults, out)?;
    put_counted_lost(lost, gaps, found, earlier, out)?;
    Ok(1)
}
