//! What holds of every drill.
ghost use Rattle.es_drill.specs.Laws.{DrillsLegally, RunsToTheEnd, PrintsAnswers};

/// It does nothing. Its contract has three laws: after any 1,000,000 lines of a schedule, or fewer, the law of the core
/// holds; a call that runs ends; and the replies that are printed are those of the calls that were answered, of which the
/// law of the core speaks, once each and in their order.
pub fn laws()
    ensures legal { DrillsLegally }
    ensures ends { RunsToTheEnd }
    ensures prints { PrintsAnswers }
{}
