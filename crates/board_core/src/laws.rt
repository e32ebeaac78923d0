ghost use Rattle.std.specs.Prelude.{ℕ, ◌≤◌, List};
ghost use Rattle.board_core.specs.declared.events.Event.{Event};
ghost use Rattle.board_core.specs.declared.events.Claim.{Claim};
ghost use Rattle.board_core.specs.State.{first, run};
ghost use Rattle.board_core.specs.Laws.{IsLawful};
ghost use Rattle.board_core.specs.Replay.{NamesEachOnce, IsBegunWith, IsFinishedWith, events_of, turns_of};

/// The laws of the board hold after every list of events, whatever the numbers of pieces and workers.
pub fn every_order_is_lawful()
    ensures lawful { (pieces workers : ℕ) (events : List Event)
        → IsLawful (run events (first pieces workers)) }
{}

/// Claims that name each piece once are the claims of some order of events, which fills every slot and tells
/// every worker the end.
pub fn claims_are_replayed()
    ensures replayed { (claims : List Claim) (pieces workers : ℕ) → NamesEachOnce claims pieces workers
        → IsFinishedWith claims pieces workers
        (run (events_of claims pieces workers) (first pieces workers)) }
{}

/// Claims that name each of the first pieces once are the claims of some order of events, after which these pieces and
/// no others are claimed.
pub fn first_claims_are_replayed()
    ensures replayed { (claims : List Claim) (drawn pieces workers : ℕ) → drawn ≤ pieces → NamesEachOnce claims drawn workers
        → IsBegunWith claims drawn pieces workers (run (turns_of claims drawn) (first pieces workers)) }
{}
