// A run's findings: every rule at each of its places, in order, kept where it is broken; and of one finding what its rule goes by.
// Relies on the table of the rules, on the chosen certificates, on what each line is promised to be, and on a run that is in range.

#![tactic(auto)]

pub mod weighings;

ghost use Rattle.std.specs.Prelude.{◌≡◌, ◌≤◌};
ghost use Rattle.readings.specs.Ranges.{greatest_weighing_count};
ghost use Rattle.findings.specs.Listing.{beside_of, finding_at, accepted, Worked};
ghost use Rattle.findings.specs.Seeking.{before_of, last_of, Seekable, place_of, walked};

use choosing::Chosen;
use classes::Class;
use conditions::Part;
use grounds::Ground;
use lines::Lines;
use readings::headers::Version;
use readings::weighings::WeighingKind;
use records::Run;
use rules::Beside;
use site::minimum_points;
use steps::Figure;
use weighings::of_kind;

// A broken rule: its number, its class and the place.
#[derive(Clone, Copy)]
pub struct Finding {
    pub rule: u8,
    pub class: u8,
    pub place: u16,
}

// The most findings that a run can have.
pub const MOST_FINDINGS: usize = 98;

// A run's findings in order, and behind them nothing but zeros.
#[derive(Clone, Copy)]
pub struct Findings {
    pub count: usize,
    pub list: [Finding; MOST_FINDINGS],
}

// What is sought of a run: all of its findings, or what stands behind that of a rule at a place.
#[derive(Clone, Copy)]
pub enum Sought {
    All,
    Why(u8, u16),
}

// The place that is sought where all findings are: none has it.
const NOWHERE: u16 = 65535;

impl Sought {
    // How many rules stand before the first that is looked at.
    fn before(self) -> u8
        ensures { result ≡ before_of self }
    {
        match self {
            Sought::All => 0,
            Sought::Why(rule, _) => rule.saturating_sub(1),
        }
    }

    // The last rule that is looked at.
    fn last(self) -> u8
        ensures { result ≡ last_of self }
    {
        match self {
            Sought::All => rules::LAST_RULE,
            Sought::Why(rule, _) => rule,
        }
    }

    // The place at which the walk ends, if the rule is broken there.
    fn place(self) -> u16
        ensures { result ≡ place_of self }
    {
        match self {
            Sought::All => NOWHERE,
            Sought::Why(_, place) => place,
        }
    }
}

// What a walk over the rules comes to: the findings met, and what the rule of the one sought goes by.
#[derive(Clone, Copy)]
pub struct Walked {
    pub findings: Findings,
    pub basis: Ground,
}

// What the rules may see of a run beside the part that each looks at.
fn beside_of(figure: Figure, run: &Run, chosen: Chosen, lines: Lines) -> Beside
    requires { run.now.header.counts.weighings ≤ greatest_weighing_count }
    ensures { result ≡ beside_of figure run.now chosen lines }
{
    let site = run.header.site;
    let counts = run.header.counts;
    let weighings = &run.weighings[..counts.weighings as usize];
    Beside {
        chosen,
        lines,
        site,
        counts,
        filters: of_kind(WeighingKind::FILTER, weighings),
        rinses: of_kind(WeighingKind::RINSE, weighings),
        least: minimum_points(figure, site),
    }
}

// The finding of a rule at one of its places, counted from 0.
#[tactic(auto, unfolding(crate::specs::Listing::finding_at))]
fn finding_at(v: Version, rule: u8, i: u8) -> Finding
    ensures { result ≡ finding_at v rule i }
{
    Finding {
        rule,
        class: classes::class_of(v, rule).number(),
        place: classes::place(rule, i),
    }
}

// The walk over the rules and, of each, its places, for what is sought of a run of a job of that version, judged by that figure. It ends
// with the last rule, or at the finding that is sought.
pub fn find(
    v: Version,
    figure: Figure,
    run: &Run,
    chosen: Chosen,
    lines: Lines,
    sought: Sought,
) -> Walked
    requires worked { Worked run.now lines }
    requires seekable { Seekable sought }
    ensures { result ≡ walked sought v figure run.now chosen lines }
{
    let header = run.header;
    let beside = beside_of(figure, run, chosen, lines);
    let before = sought.before();
    let last = sought.last();
    let place = sought.place();
    let mut walked = Walked {
        findings: Findings {
            count: 0,
            list: [Finding {
                rule: 0,
                class: 0,
                place: 0,
            }; MOST_FINDINGS],
        },
        basis: Ground::Silent,
    };
    let mut count: usize = 0;
    for done in before..last {
        let rule = done + 1;
        for i in 0..classes::places(header.counts, rule) {
            let part = match rule {
                10 => Part::OnePoint(run.points[i as usize]),
                11 => Part::OneSegment(run.segments[i as usize]),
                17 => Part::OneWeighing(run.weighings[i as usize]),
                _ => Part::Whole,
            };
            let ground = rules::ground_of(part, beside, rule);
            if ground.broken() {
                let finding = finding_at(v, rule, i);
                if finding.place == place {
                    walked.findings.count = count;
                    walked.basis = ground;
                    return walked;
                }
                walked.findings.list[count] = finding;
                count += 1;
            }
        }
    }
    walked.findings.count = count;
    walked
}

// Whether no finding is a fault.
#[tactic(auto, using(crate::proofs::Accepting::fault_void, crate::proofs::Accepting::notes_accepted))]
pub fn accepted(findings: &[Finding]) -> bool
    ensures { result ≡ accepted findings.now }
{
    for f in findings {
        if f.class == Class::Fault.number() {
            return false;
        }
    }
    true
}
