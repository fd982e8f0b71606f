// The table of the rules: what each goes by, from the part that it looks at and from what it may see beside it.
// Relies on the conditions.

#![tactic(auto)]

ghost use Rattle.std.specs.Prelude.{◌≡◌};
ghost use Rattle.rules.specs.Rules.{ground_of, Judgeable};

use choosing::Chosen;
use conditions::Part;
use conditions::certificates::{missing, moved, uneven};
use conditions::field::{leaking, short};
use conditions::sheet::{Isokinetic, line_against, ratio_against};
use conditions::weighings::{lacking, negative, unsteady};
use grounds::Ground;
use grounds::comparison::Way;
use lines::Lines;
use metering::SamplingRate;
use records::{Counts, Site};
use site::{disturbed, narrow, wrong_points};

// The highest number of a rule.
pub const LAST_RULE: u8 = 20;

// What a rule may see beside its part: the chosen certificates, the lines, the site, the counts, how many filters and
// rinses there are, and the least number of points, the number and not how it came about.
#[derive(Clone, Copy)]
pub struct Beside {
    pub chosen: Chosen,
    pub lines: Lines,
    pub site: Site,
    pub counts: Counts,
    pub filters: u64,
    pub rinses: u64,
    pub least: u64,
}

// The table: what a rule goes by, of its part and of what stands beside it. A number that is not in it is of no rule.
#[tactic(auto, unfolding(crate::specs::Rules::ground_of, crate::specs::Rules::table))]
pub fn ground_of(part: Part, beside: Beside, rule: u8) -> Ground
    requires { Judgeable beside }
    ensures { result ≡ ground_of part beside rule }
{
    let chosen = beside.chosen;
    let metering = beside.lines.metering;
    let stack = beside.lines.stack;
    let sampling = beside.lines.sampling;
    let rate = SamplingRate {
        time: metering.time,
        volume: metering.volume,
    };
    match rule {
        1 => missing(chosen.before),
        2 => missing(chosen.pitot),
        3 => missing(chosen.nozzle),
        4 => missing(chosen.after),
        5 => moved(chosen.before, chosen.after),
        6 => uneven(chosen.nozzle),
        7 => narrow(beside.site),
        8 => disturbed(beside.site),
        9 => wrong_points(beside.site.shape, beside.least, beside.counts.points),
        10 => short(part),
        11 => leaking(rate, part),
        12 => line_against(Some(metering.corrected), Way::Same, 0),
        14 => line_against(stack.velocity, Way::Same, 0),
        15 => ratio_against(sampling.isokinetic, Way::Below, Isokinetic::LEAST),
        16 => ratio_against(sampling.isokinetic, Way::Above, Isokinetic::GREATEST),
        17 => unsteady(part),
        18 => lacking(beside.filters),
        19 => lacking(beside.rinses),
        20 => negative(sampling.catch),
        _ => Ground::Silent,
    }
}
