// A run of a job reduced: its certificates are chosen, its sheet worked and its findings listed, or one of them sought.
// Relies on the reader's promise that what it reads is in range, and on the promises of the lines and the findings.

#![tactic(auto)]

ghost use Rattle.std.specs.Prelude.{◌≡◌, ◌<◌};
ghost use Rattle.heads.specs.Values.{certificate_of};
ghost use Rattle.choosing.specs.Choosing.{chosen_for};
ghost use Rattle.findings.specs.Seeking.{Seekable};
ghost use Rattle.job.specs.Places.{run_of};
ghost use Rattle.reduction.specs.Reducing.{Reducible, judged, run_named, judged_run};

use fields::numbers;
use findings::{Findings, Sought};
use grounds::Ground;
use heads::certificate::Certificates;
use job::clear::ClearFile;
use lines::{Sheet, sheets};
use records::Run;
use steps::Figure;

// What comes of a run: its number, its sheet, its findings, whether none of these is a fault, and what the rule of a finding that was
// sought goes by.
#[derive(Clone, Copy)]
pub struct Reduced {
    pub number: u16,
    pub accepted: bool,
    pub sheet: Sheet,
    pub findings: Findings,
    pub basis: Ground,
}

// A run, wherever it comes from, reduced with the certificates of a file, by its version and by a figure, and what is sought of its
// findings.
pub fn work(all: Certificates<'_>, figure: Figure, run: &Run, sought: Sought) -> Reduced
    requires reducible { Reducible (certificate_of all.file.bytes.now) all.count run.now }
    requires seekable { Seekable sought }
    ensures { result ≡ judged sought all.entry.file.version figure run.now (chosen_for (certificate_of all.entry.file.bytes.now) all.entry.count run.now.header) }
{
    let v = all.file.version;
    let chosen = certs::choose_all(all, run.header);
    let y = factors::factor_of(v, chosen);
    let cp = factors::coefficient_of(chosen);
    let nozzle = factors::diameters_of(chosen);
    let l = sheets::lines(run, y, cp, nozzle);
    let walked = findings::find(v, figure, run, chosen, l, sought);
    Reduced {
        number: run.header.number,
        accepted: findings::accepted(&walked.findings.list[..walked.findings.count]),
        sheet: sheets::sheet(l),
        findings: walked.findings,
        basis: walked.basis,
    }
}

// Run k of a job without trouble, counted from 0 in file order, by a figure, and what is sought of its findings.
pub fn reduce(read: ClearFile<'_>, figure: Figure, k: usize, sought: Sought) -> Reduced
    requires inside { k < read.job.runs }
    requires seekable { Seekable sought }
    ensures { result ≡ judged_run sought figure read.entry.file.bytes.now k }
{
    let run = parts::run(read.file, read.job.starts[k]);
    let all = Certificates {
        file: read.file,
        count: read.job.certificates,
    };
    work(all, figure, &run, sought)
}

// The run of that number in a job without trouble. Numbers rise, so there is at most one.
pub fn find_run(read: ClearFile<'_>, number: u16) -> Option<usize>
    ensures { result ≡ run_named (run_of read.entry.file.bytes.now) number read.entry.job.runs }
{
    let job = read.job;
    let mut found = None;
    for k in 0..job.runs {
        if numbers::u16_at(numbers::tail(read.file.bytes, job.starts[k]), 0) == number {
            found = Some(k);
        }
    }
    found
}
