//! What the definitions imply.
ghost use Rattle.bolt_cli.specs.Printed.{PrintsAnswers, ShowsAll};
ghost use Rattle.bolt_cli.specs.{Orders.ForDeeds, Orders.ForEachRun, Orders.ForWords};
ghost use Rattle.bolt_cli.specs.Orders.{ClosesWhatIsOpened, CopiesBeforeOpening, EndsWhatIsMade, FailsWithStatus1, MakesAfterReading, MakesAskedOut};
ghost use Rattle.bolt_cli.specs.Orders.{MakesOnce, OpensOnce, ReadsFirst, RefusesBeforeReading, SaysFailures, SaysLast, StopsAfterFailures};
ghost use Rattle.bolt_cli.specs.Orders.{StopsWithoutReader, SucceedsOnlyWithoutFailures};

use crate::outside::Outside;
use bolt_format::Sink;

/// A run does its deeds in order: a clause for each sentence of `specs/Orders`.
pub fn runs_are_in_order<O: Outside>()
    ensures reads_first { ForDeeds O.Target.Sink O.Output.Sink ReadsFirst }
    ensures makes_after_reading { ForDeeds O.Target.Sink O.Output.Sink MakesAfterReading }
    ensures makes_once { ForDeeds O.Target.Sink O.Output.Sink MakesOnce }
    ensures ends_what_is_made { ForDeeds O.Target.Sink O.Output.Sink EndsWhatIsMade }
    ensures opens_once { ForDeeds O.Target.Sink O.Output.Sink OpensOnce }
    ensures closes_what_is_opened { ForDeeds O.Target.Sink O.Output.Sink ClosesWhatIsOpened }
    ensures copies_before_opening { ForDeeds O.Target.Sink O.Output.Sink CopiesBeforeOpening }
    ensures says_last { ForDeeds O.Target.Sink O.Output.Sink SaysLast }
    ensures stops_after_failures { ForDeeds O.Target.Sink O.Output.Sink StopsAfterFailures }
    ensures says_failures { ForDeeds O.Target.Sink O.Output.Sink SaysFailures }
    ensures stops_without_reader { ForDeeds O.Target.Sink O.Output.Sink StopsWithoutReader }
    ensures succeeds { ForEachRun O.Target.Sink O.Output.Sink SucceedsOnlyWithoutFailures }
    ensures fails_with_1 { ForEachRun O.Target.Sink O.Output.Sink FailsWithStatus1 }
    ensures refuses_before_reading { ForWords O.Target.Sink O.Output.Sink RefusesBeforeReading }
    ensures makes_asked_out { ForWords O.Target.Sink O.Output.Sink MakesAskedOut }
{}

/// Standard output has what the job answers for the bytes of FILE that were read, if it is closed well. Of
/// a standard output that shows what it has taken.
pub fn answers_are_printed<O: Outside>()
    ensures { ShowsAll O.Target.Sink O.Output.Sink
        → ForWords O.Target.Sink O.Output.Sink (PrintsAnswers O.Target.Sink O.Output.Sink) }
{}
