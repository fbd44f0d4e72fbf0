//! For which causes a packet was dropped, with the values that show each.
ghost use Rattle.std.specs.Prelude.{◌≡◌};
ghost use Rattle.play_why.specs.Findings as findings;

use crate::blame::{Blame, blame_of};
use crate::seen::Seen;
use crate::sums::COVERED;
use crate::values::{Value, value_of};
use flat_model::{Counters, Why};
use play_text::{CAUSES, causes, rose};
use script_loop::Buffer;

/// Why a packet was dropped.
#[derive(Clone, Copy, Debug, PartialEq, Eq)]
pub struct Finding {
    /// The cause.
    pub why: Why,
    /// What is in the packet, and what would be right.
    pub value: Value,
    /// Who is to blame.
    pub blame: Blame,
}

/// The counters before and after a packet.
#[derive(Clone, Copy)]
pub(crate) struct Counted<'a> {
    pub(crate) before: &'a Counters,
    pub(crate) after: &'a Counters,
}

/// Returns the finding for a cause, if its counter went up. `ours` is the host's address.
fn finding_if(
    seen: &Seen<'_>,
    counted: &Counted<'_>,
    ours: u32,
    why: Why,
    covered: &mut Buffer<COVERED>,
) -> Option<Finding>
    ensures { result ≡ findings.finding_if seen.now counted.now.before.now counted.now.after.now ours why }
{
    if rose(why.counter(), counted.before, counted.after) {
        Some(Finding {
            why,
            value: value_of(why, seen, ours, covered),
            blame: blame_of(seen, why),
        })
    } else {
        None
    }
}

/// Returns the finding for each cause, in the order of [`causes`].
pub(crate) fn findings_of(
    seen: &Seen<'_>,
    counted: &Counted<'_>,
    ours: u32,
    covered: &mut Buffer<COVERED>,
) -> [Option<Finding>; CAUSES]
    ensures { result ≡ findings.findings_of seen.now counted.now.before.now counted.now.after.now ours }
{
    let whys = causes();
    let mut found = [None; CAUSES];
    'places: for place in 0..CAUSES {
        found[place] = finding_if(seen, counted, ours, whys[place], covered);
    }
    found
}
