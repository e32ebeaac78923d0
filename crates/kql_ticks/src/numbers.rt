ghost use Rattle.std.specs.Prelude.{◌≡◌, ◌+◌, ◌<◌, ◌≤◌, ◌^◌, IfSome};
ghost use Rattle.kql_ticks.specs.Numbers.{number, share};

// A number with one digit more is below 10^19 exactly if the number before it is below this.
const LIMIT: u64 = 1_000_000_000_000_000_000;

// The number that one or more digits write, if it is below 10^19.
#[tactic(auto, unfolding(crate::specs::Numbers::number))]
pub(crate) fn number(t: &[u8]) -> Option<u64>
    ensures value { result ≡ number t.now }
    ensures bound { IfSome result (λ n. n < 10000000000000000000) }
{
    if t.is_empty() {
        return None;
    }
    let mut n = 0;
    for b in t {
        if !b.is_ascii_digit() {
            return None;
        }
        if n >= LIMIT {
            return None;
        }
        n = 10 * n + (*b - b'0') as u64;
    }
    Some(n)
}

// The share of a unit that digits after the point are, where that is whole.
pub(crate) fn share(unit: u64, t: &[u8]) -> Option<u64>
    requires low { 0 < unit }
    requires high { unit ≤ 864000000000 }
    ensures value { result ≡ share unit t.now }
    ensures bound { IfSome result (λ n. n < unit) }
{
    let mut n = 0;
    let mut i = t.len();
    'digits: while i > 0 {
        i -= 1;
        if !t[i].is_ascii_digit() {
            return None;
        }
        let ten = (t[i] - b'0') as u64 * unit + n;
        if ten % 10 != 0 {
            return None;
        }
        n = ten / 10;
    }
    Some(n)
}
