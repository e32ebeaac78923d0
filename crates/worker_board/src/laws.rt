ghost use Rattle.std.specs.Prelude.{slice_index};
ghost use Rattle.atomic_table.specs.Table.{State};
ghost use Rattle.worker_board.specs.declared.known.Size.{Size};
ghost use Rattle.worker_board.specs.declared.known.Known.{Known};
ghost use Rattle.worker_board.specs.Rule.{Keeps};
ghost use Rattle.worker_board.specs.Laws.{IsLawful};
ghost use Rattle.worker_board.specs.Views.{ReplaysSoFar};

use board_core::first_claims_are_replayed;

/// What the rule of a board says of its two words and of its seats, between any two steps: no piece is claimed twice
/// and none is left out, whoever draws when, and the core goes along.
pub fn every_board_is_lawful()
    ensures lawful { (size : Size) (s : State (Unit {0}) Known) → Keeps size s
        → IsLawful size (slice_index s.words 0) (slice_index s.words 1) s.views }
    ensures core { (size : Size) (s : State (Unit {0}) Known) → Keeps size s
        → ReplaysSoFar size (slice_index s.words 0) s.views }
{
    first_claims_are_replayed();
}
