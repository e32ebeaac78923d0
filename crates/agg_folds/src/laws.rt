ghost use Rattle.agg_folds.specs.Laws.{ChosenIsGreatest, ChosenIsLeast, FoldIsAggregate};

/// A law, with nothing to run: folds are the aggregates of `kql_meaning`.
pub fn law_of_folds()
    ensures value { FoldIsAggregate }
    ensures greatest { ChosenIsGreatest }
    ensures least { ChosenIsLeast }
{}
