//! The words behind QUERY: NAME=PATH, and further paths.
ghost use Rattle.std.specs.Prelude.{◌≡◌, ◌≤◌, OnOk, length};
ghost use Rattle.kql_words.specs.Command.{texts};
ghost use Rattle.kql_words.specs.Refusals.{unless};
ghost use Rattle.live_words.specs.LiveWords.{further_faults, live_faults, path_fault};

use kql_words::{Refusal, table_parts};

/// How many paths a command may name.
const PATHS_TOP: u32 = 64;

/// The words behind QUERY, of which the first has this number.
pub(crate) fn check_paths(words: &[String], first: u32) -> Result<(), Refusal>
    requires { first ≤ 8 }
    ensures checked { result ≡ unless (live_faults first (texts words.now)) tt }
    ensures few { OnOk result (length words.now ≤ 64) }
{
    match words {
        [] => Err(Refusal::Usage {
            word: first,
            code: 612,
        }),
        [table, further @ ..] => {
            if table_parts(table.as_str()).is_none() {
                return Err(Refusal::Usage {
                    word: first,
                    code: 607,
                });
            }
            check_further(further, first + 1)
        }
    }
}

// The paths behind NAME=PATH, of which the first has this number.
fn check_further(paths: &[String], first: u32) -> Result<(), Refusal>
    requires { first ≤ 9 }
    ensures checked { result ≡ unless (further_faults first 1 (texts paths.now)) tt }
    ensures few { OnOk result (length paths.now ≤ 63) }
{
    let mut before = 1u32;
    let mut number = first;
    let mut left = paths;
    'paths: while let Some((path, more)) = left.split_first() {
        check_path(path.as_str(), number, before)?;
        before += 1;
        number += 1;
        left = more;
    }
    Ok(())
}

// The path of this number, behind so many others.
fn check_path(path: &str, number: u32, before: u32) -> Result<(), Refusal>
    ensures checked { result ≡ unless (path_fault number before path.now) tt }
    ensures few { OnOk result (before ≤ 63) }
{
    if before >= PATHS_TOP {
        return Err(Refusal::Usage {
            word: number,
            code: 610,
        });
    }
    if path.is_empty() {
        return Err(Refusal::Usage {
            word: number,
            code: 611,
        });
    }
    Ok(())
}
