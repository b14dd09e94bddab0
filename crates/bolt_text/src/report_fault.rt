//! Why a text isn't whole on its sink.
ghost use Rattle.std.specs.Prelude.{◌≡◌};
ghost use Rattle.bolt_text.specs.declared.report_fault.ReportFault.TheVariants as fault;

use bolt_format::{PageFault, SinkFault};
use bolt_tree::NoMemory;

/// Why a text isn't whole on its sink. A call that writes a text fails with `Sink`, or with `NoMemory` if
/// it needs memory. Only one that prints a page returns `Page`.
#[derive(Clone, Copy, Debug, PartialEq, Eq)]
pub enum ReportFault {
    /// The sink failed. It has accepted a prefix of the text.
    Sink,
    /// Memory ran out, and the sink had not failed. It has accepted a prefix of the text.
    NoMemory,
    /// The page to be printed is refused. The sink is unchanged.
    Page(PageFault),
}

impl From<SinkFault> for ReportFault {
    ghost from_gives = { λ _ report. report ≡ fault.Sink };

    fn from(_fault: SinkFault) -> ReportFault {
        ReportFault::Sink
    }
}

impl From<NoMemory> for ReportFault {
    ghost from_gives = { λ _ report. report ≡ fault.NoMemory };

    fn from(_error: NoMemory) -> ReportFault {
        ReportFault::NoMemory
    }
}

impl From<PageFault> for ReportFault {
    ghost from_gives = { λ page report. report ≡ fault.Page page };

    fn from(fault: PageFault) -> ReportFault {
        ReportFault::Page(fault)
    }
}
