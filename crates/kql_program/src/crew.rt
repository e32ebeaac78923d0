//! How many workers evaluate a query, and in which pieces.
ghost use Rattle.std.specs.Prelude.{◌≡◌, ◌<◌, ◌≤◌, IfSome};
ghost use Rattle.kql_program.specs.Workers.{AreAsked};
ghost use Rattle.kql_words.specs.Command.{workers_of};
ghost use Rattle.kql_words.specs.Options.{AreWorkers};

use kql_words::Command;
use phase_run::Sizes;
use std::thread::{Threads, available_parallelism};

/// The workers that evaluate a query, and the pieces of rows that they take.
#[derive(Clone, Copy)]
pub(crate) struct Crew {
    pub workers: u32,
    pub sizes: Sizes,
}

// How many workers there are at the most where no number is given.
const MOST_UNASKED: usize = 8;

/// As many workers as a command asks for; where it gives no number, as many as the machine has processors, but no more than eight.
pub(crate) fn workers_for<R: Threads>(rt: &R, command: &Command) -> u32
    requires given { IfSome (workers_of command.now) AreWorkers }
    ensures few { AreWorkers result }
    ensures asked { AreAsked (workers_of command.now) result }
{
    match workers_of(command) {
        Some(n) => n,
        None => processors(rt),
    }
}

// How many workers a command asks for, where it gives a number.
fn workers_of(command: &Command) -> Option<u32>
    ensures workers { result ≡ workers_of command.now }
{
    match command {
        Command::Run(asked) => asked.options.workers,
        Command::Plain(asked) => asked.options.workers,
        Command::Explain(asked) => asked.options.workers,
        Command::Trial(trial) => trial.workers,
    }
}

// How many processors the machine has, from one to eight; one where it does not tell.
fn processors<R: Threads>(rt: &R) -> u32
    ensures some { 0 < result }
    ensures few { result ≤ 8 }
{
    match available_parallelism(rt) {
        Ok(n) => n.get().clamp(1, MOST_UNASKED) as u32,
        Err(_) => 1,
    }
}
