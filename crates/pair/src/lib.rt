// Both files taken whole: the first number in order over both, or their rows and the bodies of the profile's types.
#![tactic(auto)]

ghost use Rattle.std.specs.Prelude.{◌≡◌};
ghost use Rattle.lingua.specs.Refusal.{rank};
ghost use Rattle.laws.specs.Lowest.{lesser};
ghost use Rattle.lingua.specs.Faults.{refusal_number};
ghost use Rattle.pair.specs.Pair.{Room, PairIs, BothTaken};

use crate::file::{Taken, take};
use blocks::words::word16_at;
use decoder::rows::Rows;
use lingua::FileKind;
use lingua::errors::Refusal;
use lingua::sizes::MOST_LIMITS;
use profile::agreement::limit_wrong;

pub mod file; // file.rt: one file

// Both files, and of each limit the number of the variable whose it is.
#[derive(Clone, Copy)]
pub struct Pair {
    pub profile: Taken,
    pub limits: Taken,
    pub owners: [u8; MOST_LIMITS],
}

// Where a refusal stands in the order: 18 and 19 come behind 13, and 14 to 17 behind them.
fn rank(refusal: Refusal) -> u8
    ensures { result ≡ rank (refusal_number refusal) }
{
    match refusal {
        Refusal::BadParameters => 14,
        Refusal::RepeatedReference => 15,
        Refusal::ModelsDiffer => 16,
        Refusal::BadLimit => 17,
        Refusal::BadReading => 18,
        Refusal::TypeErrorFound => 19,
        other => other.number(),
    }
}

// The earlier of two refusals. The order is that of document 01 over two files, not the enum's own, and is asked only here: it is no `Ord`.
fn earlier(a: Refusal, b: Refusal) -> Refusal
    ensures { refusal_number result ≡ lesser (refusal_number a) (refusal_number b) }
{
    if rank(a) < rank(b) {
        return a;
    }
    b
}

// Both files, or the earlier of their refusals.
fn both_taken(
    profile: Result<Taken, Refusal>,
    limits: Result<Taken, Refusal>,
) -> Result<(Taken, Taken), Refusal>
    ensures { BothTaken result profile limits }
{
    match (profile, limits) {
        (Ok(p), Ok(l)) => Ok((p, l)),
        (Err(a), Err(b)) => Err(earlier(a, b)),
        (Err(a), Ok(_)) => Err(a),
        (Ok(_), Err(b)) => Err(b),
    }
}

// The profile comes last: the bodies that stay are those of its types.
pub fn take_pair(
    profile: &[u8],
    limits: &[u8],
    areas: &mut [u8],
    others: &mut [u8],
    bodies: &mut [u8],
) -> Result<Pair, Refusal>
    requires { Room areas.old others.old bodies.old }
    ensures { PairIs result profile.now limits.now areas.new others.new bodies.new }
{
    let l = take(FileKind::Limits, limits, &mut *others, &mut *bodies);
    let p = take(FileKind::Profile, profile, &mut *areas, &mut *bodies);
    let taken = both_taken(p, l)?;
    let (p, l) = taken;
    if word16_at(profile, 6) != word16_at(limits, 6) {
        return Err(Refusal::ModelsDiffer);
    }
    let rows = Rows::with(&areas[..p.length], p.tables);
    let limit_rows = Rows::with(&others[..l.length], l.tables);
    let mut owners = [0u8; MOST_LIMITS];
    if limit_wrong(&rows, bodies, &limit_rows, &mut owners) {
        return Err(Refusal::BadLimit);
    }
    Ok(Pair {
        profile: p,
        limits: l,
        owners: owners,
    })
}
