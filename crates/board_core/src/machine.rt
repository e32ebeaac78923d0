ghost use Rattle.std.specs.Prelude.{◌≡◌, ◌<◌, ◌≤◌, ◌↔◌, IfOk, IfSome, Ok};
ghost use Rattle.board_core.specs.State.{after, answer, claims_of, first, is_told, may_claim, open_claim_of, piece_count, run, slot_of, worker_count, IsReached};
ghost use Rattle.board_core.specs.Laws.{claim_count, IsClaimAtTheEnd, IsLawful, IsOutOfTurn};

use crate::events::{Event, Stepped};
use crate::lists::{add_to_list, empty_lists};
use std::alloc::{AllocError, Global};
use std::marker::Model;

/// The state of a board: what each worker claimed, has open and was told, and a slot for each piece.
///
/// A core takes all its memory when it is made. Contracts see it as a `State`.
#[derive(Debug, Drop)]
pub struct Core {
    next: u32,
    claims: Vec<Vec<u32>>,
    open_claims: Vec<Option<u32>>,
    ended: Vec<bool>,
    slots: Vec<Option<u32>>,
}

impl Model for Core {
    ghost use Rattle.board_core.specs.State.{State};

    ghost Value = { State };

    ghost use Rattle.board_core.specs.Storage.{state_of, IsStored};

    ghost view = { state_of };

    ghost invariant = { IsStored };
}

#[tactic(auto, using(crate::proofs::Lawful::lawful_reached))]
impl Core {
    /// The first state of a board of so many pieces and workers, with room for every claim.
    pub fn new(alloc: Global, pieces: u32, workers: u32) -> Result<Core, AllocError>
        ensures first { IfOk result (λ core. core ≡ first pieces workers) }
    {
        let pieces = pieces as usize;
        let workers = workers as usize;
        Ok(Core {
            next: 0,
            claims: empty_lists(alloc, workers, pieces)?,
            open_claims: vec![in alloc; None; workers]?,
            ended: vec![in alloc; false; workers]?,
            slots: vec![in alloc; None; pieces]?,
        })
    }

    /// The piece that is claimed next, which is the number of claims so far.
    pub fn next(&self) -> u64
        ensures next { result ≡ self.now.next }
        ensures count { result ≡ claim_count self.now }
        ensures bound { result ≤ piece_count self.now }
        ensures reached { IsReached self.now }
        ensures lawful { IsLawful self.now }
    {
        u64::from(self.next)
    }

    /// The pieces that a worker has claimed, in that order.
    pub fn claims(&self, worker: u32) -> &[u32]
        requires { worker < worker_count self.now }
        ensures claims { result.now ≡ claims_of self.now worker }
        ensures lawful { IsLawful self.now }
    {
        &self.claims[worker as usize]
    }

    /// What the slot of a piece holds: none exactly where it is empty, else the number of the piece.
    pub fn slot(&self, piece: u32) -> Option<u32>
        requires { piece < piece_count self.now }
        ensures slot { result ≡ slot_of self.now piece }
        ensures own { IfSome result (λ held. held ≡ piece) }
        ensures lawful { IsLawful self.now }
    {
        self.slots[piece as usize]
    }

    /// Whether a worker was told the end.
    pub fn is_ended(&self, worker: u32) -> bool
        requires { worker < worker_count self.now }
        ensures told { result ≡ is_told self.now worker }
        ensures lawful { IsLawful self.now }
    {
        self.ended[worker as usize]
    }

    /// One event. It takes no memory, and constant time.
    #[tactic(auto, using(crate::proofs::Sizes::sizes))]
    pub fn step(&mut self, event: Event) -> Stepped
        ensures state { self.new ≡ after self.old event }
        ensures answer { result ≡ answer self.old event }

        // It is the end for this worker exactly where it claims in turn and no piece is left.
        ensures done { (result ≡ Stepped.Done) ↔ IsClaimAtTheEnd self.old event }

        // Exactly what comes out of turn is ignored, and changes nothing.
        ensures ignored { (result ≡ Stepped.Ignored) ↔ IsOutOfTurn self.old event }
        ensures unchanged { result ≡ Stepped.Ignored → self.new ≡ self.old }

        // There are as many workers and pieces as before.
        ensures workers { worker_count self.new ≡ worker_count self.old }
        ensures pieces { piece_count self.new ≡ piece_count self.old }
    {
        match event {
            Event::Claim(worker) => self.claim(worker),
            Event::Fill(worker) => self.fill(worker),
        }
    }

    /// Whether this is one of the workers, has nothing open and was not told the end.
    fn may_claim(&self, worker: u32) -> bool
        ensures test { result ≡ may_claim self.now worker }
    {
        let at = worker as usize;
        if at >= self.claims.len() {
            return false;
        }
        self.open_claims[at].is_none() && !self.ended[at]
    }

    /// The worker asks for a piece.
    fn claim(&mut self, worker: u32) -> Stepped
        ensures state { self.new ≡ after self.old (Event.Claim worker) }
        ensures answer { result ≡ answer self.old (Event.Claim worker) }
        ensures within { self.old.next ≤ piece_count self.old }
    {
        let piece = self.next;
        if !self.may_claim(worker) {
            return Stepped::Ignored;
        }
        let at = worker as usize;
        if piece as usize >= self.slots.len() {
            self.ended[at] = true;
            return Stepped::Done;
        }
        add_to_list(&mut self.claims, at, piece);
        self.open_claims[at] = Some(piece);
        self.next += 1;
        Stepped::Claimed(piece)
    }

    /// The worker fills the slot of the piece that it has open.
    fn fill(&mut self, worker: u32) -> Stepped
        ensures state { self.new ≡ after self.old (Event.Fill worker) }
        ensures answer { result ≡ answer self.old (Event.Fill worker) }
    {
        let worker = worker as usize;
        if worker >= self.open_claims.len() {
            return Stepped::Ignored;
        }
        let Some(piece) = self.open_claims[worker] else {
            return Stepped::Ignored;
        };
        self.open_claims[worker] = None;
        self.slots[piece as usize] = Some(piece);
        Stepped::Filled(piece)
    }
}

/// Takes events one after another. It takes no memory.
pub fn run_all(core: &mut Core, events: &[Event])
    ensures state { core.new ≡ run events.now core.old }
    ensures workers { worker_count core.new ≡ worker_count core.old }
    ensures pieces { piece_count core.new ≡ piece_count core.old }
    ensures reached { IsReached core.new }
    ensures lawful { IsLawful core.new }
{
    let _ = &core.next; // so that what a core keeps is known here
    for event in events {
        core.step(*event);
    }
}
