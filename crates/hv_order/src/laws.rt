//! The laws of hierarchical plans. Each function is empty: its contract names what is proved, and a
//! caller knows it from the call on.
ghost use Rattle.hv_order.specs.Laws.{ReachLaw, DerivationLaw, EndLaw, SameEndLaw, SplitLaw, SequenceWindowLaw, WindowLaw, ExchangeLaw, LeastExchangeLaw, WiderLaw, IndexLaw, ScheduleLaw, PlacedLaw, SequenceLaw, TableLaw, LineLaw, RootLaw, JudgeLaw, RiseLaw, DepthLaw, SortLaw, CheckLaw};
ghost use Rattle.hv_order.specs.Examples.{WorkedExamples};

/// Where each line is an initial task or a child of a line, every line belongs to the tree.
pub fn reach_law()
    ensures { ReachLaw }
{}

/// End: every choice has a derivation, and whatever the order of its decompositions, it ends in the
/// steps of the tree with the pairs that the tree gives.
pub fn end_law()
    ensures exists { DerivationLaw }
    ensures end { EndLaw }
    ensures same { SameEndLaw }
{}

/// Split: the steps below a line meet the rest of the plan only through one start and one finish.
pub fn split_law()
    ensures order { SplitLaw }
    ensures sequence { SequenceWindowLaw }
    ensures window { WindowLaw }
{}

/// Exchange: the choices below a line may be replaced by others that keep to the line's
/// start and finish.
pub fn exchange_law()
    ensures schedule { ExchangeLaw }
    ensures least { LeastExchangeLaw }
    ensures wider { WiderLaw }
{}

/// Sequences, schedules and the condition on the tree say the same.
pub fn sequence_law()
    ensures index { IndexLaw }
    ensures schedule { ScheduleLaw }
    ensures placed { PlacedLaw }
    ensures sequence { SequenceLaw }
{}

/// The table, computed children first, has the least finish for each start, and the least finish
/// never falls as the start rises.
pub fn table_law()
    ensures fits { TableLaw }
    ensures line { LineLaw }
    ensures root { RootLaw }
    ensures rise { RiseLaw }
    ensures depth { DepthLaw }
    ensures sort { SortLaw }
{}

/// The table at the root decides whether the plan is a solution, goal and applicability aside.
pub fn judge_law()
    ensures { JudgeLaw }
{}

/// A certificate, which is one candidate a node and one index a precondition, is right exactly
/// where each node keeps the rules.
pub fn check_law()
    ensures { CheckLaw }
{}

/// The definitions, computed on worked examples.
pub fn worked_examples()
    ensures { WorkedExamples }
{}
