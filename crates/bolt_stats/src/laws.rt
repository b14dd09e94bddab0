//! What the definitions of figures imply.
ghost use Rattle.std.specs.Prelude.{ℕ, List};
ghost use Rattle.bolt_format.specs.{declared.meta.Meta.Meta};
ghost use Rattle.bolt_check.specs.Ones.{AtMostOne};
ghost use Rattle.bolt_tree.specs.Entries.{Start};
ghost use Rattle.bolt_stats.specs.{StatsOf.IsStatsOf, declared.figures.Stats.Stats};
ghost use Rattle.bolt_tree.specs.Laws.{ForBuckets};

/// A bucket has at most one set of figures.
#[tactic(auto, using(crate::proofs::StatsOnce::one_stats))]
pub fn stats_are_one()
    ensures { (file : List ℕ) (meta : Meta) (start : Start) → AtMostOne (IsStatsOf file meta start) }
{}

/// In sound trees each bucket has figures.
#[tactic(auto, using(crate::proofs::StatsExist::some_stats))]
pub fn stats_exist()
    ensures { ForBuckets (λ file meta start. (stats : Stats) × IsStatsOf file meta start stats) }
{}
