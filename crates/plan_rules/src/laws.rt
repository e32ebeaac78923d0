//! The laws.
ghost use Rattle.plan_rules.specs.LawsOfFolding.{FoldingConstants, FoldingFits, FoldingPrograms, FoldingReads};
ghost use Rattle.plan_rules.specs.LawsOfRules.{OneImproves, OneImprovesOver, PairImproves, PairImprovesIn, PairImprovesOver, TermsAreSingle, TopIsLarger, TwiceIsLarger};
ghost use Rattle.plan_rules.specs.Rules.{bare_serialize, expand_then_filter, extend_then_filter, extend_then_take, group_then_filter, idle_projection, join_then_filter, join_then_right_filter, parse_then_filter, parse_then_take, project_then_filter, project_then_take, sort_then_filter, sort_then_take, top_then_take, true_filter, two_filters, two_projections, two_sorts, two_takes, unique_then_filter, unseen_then_count};

/// The rules that leave fewer operators: a filter of the literal true, a bare `serialize` and a projection of all columns under their
/// names are nothing; two filters, two takes, two sorts and two projections are one; `sort` and `take` are `top`, and so are `top` and
/// `take`; and a count does not see `sort`, `extend` or `project`. The terms of two filters, which become one, are taken singly.
pub fn law_of_shortening()
    ensures true_filter { OneImproves true_filter }
    ensures bare_serialize { OneImproves bare_serialize }
    ensures idle_projection { OneImprovesOver idle_projection }
    ensures two_filters { PairImproves two_filters }
    ensures single { TermsAreSingle }
    ensures two_takes { PairImproves two_takes }
    ensures sort_then_take { PairImproves sort_then_take }
    ensures top_then_take { PairImproves top_then_take }
    ensures two_sorts { PairImproves two_sorts }
    ensures two_projections { PairImproves two_projections }
    ensures unseen_then_count { PairImproves unseen_then_count }
{}

/// The rules that carry a filter in front of another operator, or into a side of a join: below `extend`, `project`, `sort`, `mv-expand`
/// and `parse` where it reads nothing that these set, into the left plan of a join by left columns, of one that takes the first row of
/// each key by left key columns alone, into the right plan by right columns, and below `summarize` by keys that are columns.
pub fn law_of_filters()
    ensures extend_then_filter { PairImproves extend_then_filter }
    ensures project_then_filter { PairImproves project_then_filter }
    ensures sort_then_filter { PairImproves sort_then_filter }
    ensures expand_then_filter { PairImproves expand_then_filter }
    ensures parse_then_filter { PairImproves parse_then_filter }
    ensures join_then_filter { PairImprovesOver join_then_filter }
    ensures unique_then_filter { PairImprovesOver unique_then_filter }
    ensures join_then_right_filter { PairImprovesIn join_then_right_filter }
    ensures group_then_filter { PairImproves group_then_filter }
{}

/// The rules that carry a `take` in front of `extend`, `project` and `parse`.
pub fn law_of_takes()
    ensures extend_then_take { PairImproves extend_then_take }
    ensures project_then_take { PairImproves project_then_take }
    ensures parse_then_take { PairImproves parse_then_take }
{}

/// The rule on the nodes of expressions: a node that is a constant and no literal becomes the literal of its value. What an expression
/// becomes reads as it did, so it has the same type and value wherever it stands; it fits where it fitted, and then no node of it is a
/// constant, but for literals. So what a program becomes fits what that fitted and means the same.
#[tactic(auto, using(crate::proofs::FoldingLaws::folding_laws))]
pub fn law_of_constants()
    ensures reading { FoldingReads }
    ensures fitting { FoldingFits }
    ensures constants { FoldingConstants }
    ensures programs { FoldingPrograms }
{}

/// What the size of a plan tells apart: a condition that stands twice from one that stands once, and `top` by keys from `take`.
#[tactic(auto, using(crate::proofs::LargerPlans::larger_laws))]
pub fn law_of_sizes()
    ensures twice { TwiceIsLarger }
    ensures top { TopIsLarger }
{}
