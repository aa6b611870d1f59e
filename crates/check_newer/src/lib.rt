// Newer: which of two envelopes has the newer manifest, and where it stands.
#![tactic(auto)]

ghost use Rattle.std.specs.Prelude.{◌≡◌};
ghost use Rattle.rules.specs.Check as Check;
ghost use Rattle.rules.specs.Newer as Rule;
ghost use Rattle.check_newer.specs.Newer.{Handed, part_in, newest_of};

use check_envelope::check;
use check_envelope::report::Place;

// The sequence number of an envelope that check accepts, and where its manifest stands.
#[derive(Clone, Copy)]
struct Part {
    number: usize,
    place: Place,
}

fn part_in(s: &[u8]) -> Option<Part>
    ensures { result ≡ part_in (Check.check s.now) }
{
    let report = check(s).ok()?;
    Some(Part {
        number: report.number,
        place: report.manifest,
    })
}

// The envelope with the newer manifest, and where it stands in it; where check refuses both, the empty start of the first.
#[derive(Clone, Copy)]
pub enum Newest {
    First(Place),
    Second(Place),
}

pub fn choose(a: &[u8], b: &[u8]) -> Newest
    ensures { result ≡ newest_of (Rule.newer a.now b.now) }
{
    match (part_in(a), part_in(b)) {
        (None, None) => Newest::First(Place { from: 0, to: 0 }),
        (None, Some(y)) => Newest::Second(y.place),
        (Some(x), None) => Newest::First(x.place),
        (Some(x), Some(y)) => {
            if x.number < y.number {
                Newest::Second(y.place)
            } else {
                Newest::First(x.place)
            }
        }
    }
}

// The manifest of the newer of two envelopes, a part of that envelope itself. The first wins a tie, and one that is refused is passed over.
pub fn newer<'a>(a: &'a [u8], b: &'a [u8]) -> &'a [u8]
    ensures { Handed (Rule.newer a.now b.now) a.entry b.entry result }
{
    match choose(a, b) {
        Newest::First(p) => &a[p.from..p.to],
        Newest::Second(p) => &b[p.from..p.to],
    }
}
