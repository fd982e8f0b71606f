// A finding of a run explained: what its rule goes by at its place, and the certificate days that it uses.
// Relies on a reduced run, whose list of findings and whose sought ground come from one table.

#![tactic(auto)]

ghost use Rattle.std.specs.Prelude.{◌≡◌, ◌<◌};
ghost use Rattle.opening.specs.Opening.{version_of, certificate_count_of};
ghost use Rattle.heads.specs.Values.{certificate_of};
ghost use Rattle.job.specs.Places.{run_of};
ghost use Rattle.explaining.specs.Explaining.{explanation_by, explained_run};

use dates::Days;
use findings::{Finding, Sought};
use grounds::Ground;
use heads::certificate::Certificates;
use heads::header::header;
use identities::Record;
use job::clear::ClearFile;
use readings::runs::Shape;
use reduction::reduce;
use steps::Figure;

// Why a run has a finding: the finding, whether the stack is round, what the rule goes by, and the days that it uses.
#[derive(Clone, Copy)]
pub struct Explanation {
    pub finding: Finding,
    pub round: bool,
    pub basis: Ground,
    pub days: Days,
}

// Why run k of a job without trouble has the finding of that rule at that place, by the ground that its rule goes by there.
// Laid into its caller, like `explain_run`.
#[inline(always)]
fn explanation_by(basis: Ground, read: ClearFile<'_>, k: usize, rule: u8, place: u16) -> Explanation
    requires { k < read.job.runs }
    ensures { result ≡ explanation_by basis (version_of read.entry.file.bytes.now) (certificate_of read.entry.file.bytes.now) (certificate_count_of read.entry.file.bytes.now) (run_of read.entry.file.bytes.now k) rule place }
{
    let file = read.file;
    let header = header(Record::at(file, read.job.starts[k]));
    let all = Certificates {
        file,
        count: read.job.certificates,
    };
    Explanation {
        finding: Finding {
            rule,
            class: classes::class_of(file.version, rule).number(),
            place,
        },
        round: header.site.shape == Shape::ROUND,
        basis,
        days: dates::days_of(all, header, rule),
    }
}

// Why run k of a job without trouble, counted from 0 in file order, has the finding of that rule at that place, by a figure.
// Laid into the calls of both forms, as into a single one, so that no explanation is copied on its way.
#[inline(always)]
pub fn explain_run(
    read: ClearFile<'_>,
    figure: Figure,
    k: usize,
    rule: u16,
    place: u16,
) -> Option<Explanation>
    requires { k < read.job.runs }
    ensures { result ≡ explained_run figure read.entry.file.bytes.now k rule place }
{
    if rule < 1 {
        return None;
    }
    if rule > rules::LAST_RULE as u16 {
        return None;
    }
    let number = rule as u8;
    let reduced = reduce(read, figure, k, Sought::Why(number, place));
    let ground = reduced.basis;
    if let Ground::Silent = ground {
        return None;
    }
    Some(explanation_by(ground, read, k, number, place))
}
