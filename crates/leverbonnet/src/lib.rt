// The public calls. Each takes any bytes and any numbers, and its contract says what comes back and what every lent byte then is.
// Relies on the calls for runs and their numbers, for findings, for the printed text and for layouts, and on `output`, which makes an answer
// one number.

#![tactic(auto)]

ghost use Rattle.std.specs.Prelude.{◌≡◌, length};
ghost use Rattle.output.specs.Answers.{packed};
ghost use Rattle.layouts.specs.Outcomes.{round_outcome, rectangle_outcome};
ghost use Rattle.counting.specs.Counting.{count_answer, number_answer};
ghost use Rattle.figures.specs.Figures.{none_supplied, read_figure};
ghost use Rattle.forms.specs.Forms.{Bytes, Text};
ghost use Rattle.leverbonnet.specs.Calls.{Reduces, PrintsText, ExplainsFinding, LaysOut};

use asking::{explain, explain_by_figure};
use output::packed;

// Works the run of that number: 180 bytes of lines, 4 bytes a finding.
pub fn leverbonnet_reduce(job: &[u8], run: u16, lines: &mut [u8], findings: &mut [u8]) -> u64
    ensures { Reduces none_supplied job.now run lines.old findings.old lines.new findings.new result }
{
    packed(runs::reduce(job, run, lines, findings))
}

// The same by a figure, which is judged before the job is read.
pub fn leverbonnet_reduce_by_figure(
    figure: &[u8],
    job: &[u8],
    run: u16,
    lines: &mut [u8],
    findings: &mut [u8],
) -> u64
    ensures { Reduces (read_figure figure.now) job.now run lines.old findings.old lines.new findings.new result }
{
    packed(runs::reduce_by_figure(figure, job, run, lines, findings))
}

// How many runs a job holds.
pub fn leverbonnet_run_count(job: &[u8]) -> u64
    ensures { result ≡ packed (count_answer job.now) }
{
    packed(counting::run_count(job))
}

// The number of a job's run, by its index from 0 in file order.
pub fn leverbonnet_run_number(job: &[u8], index: u16) -> u64
    ensures { result ≡ packed (number_answer job.now index) }
{
    packed(counting::run_number(job, index))
}

// The characters that the program `sheet` prints for a job that is read.
pub fn leverbonnet_sheet_text(job: &[u8], out: &mut [u8]) -> u64
    ensures { PrintsText none_supplied job.now out.old out.new result }
{
    packed(printed::sheet_text(steps::none(), job, out))
}

// The same by a figure, which is judged before the job is read.
pub fn leverbonnet_sheet_text_by_figure(figure: &[u8], job: &[u8], out: &mut [u8]) -> u64
    ensures { PrintsText (read_figure figure.now) job.now out.old out.new result }
{
    packed(printed::sheet_text_by_figure(figure, job, out))
}

// Explains the finding of that rule at that place of the run of that number: 2 bytes, 34 bytes a condition, 5 bytes a certificate day.
pub fn leverbonnet_explain(job: &[u8], run: u16, rule: u16, place: u16, out: &mut [u8]) -> u64
    ensures { ExplainsFinding Bytes none_supplied job.now run rule place out.old out.new result }
{
    packed(explain::<forms::Bytes>(steps::none(), job, run, rule, place, out))
}

// The same by a figure, which is judged before the job is read.
pub fn leverbonnet_explain_by_figure(
    figure: &[u8],
    job: &[u8],
    run: u16,
    rule: u16,
    place: u16,
    out: &mut [u8],
) -> u64
    ensures { ExplainsFinding Bytes (read_figure figure.now) job.now run rule place out.old out.new result }
{
    packed(explain_by_figure::<forms::Bytes>(figure, job, run, rule, place, out))
}

// The same as characters.
pub fn leverbonnet_explain_text(job: &[u8], run: u16, rule: u16, place: u16, out: &mut [u8]) -> u64
    ensures { ExplainsFinding Text none_supplied job.now run rule place out.old out.new result }
{
    packed(explain::<forms::Text>(steps::none(), job, run, rule, place, out))
}

// The same by a figure, which is judged before the job is read.
pub fn leverbonnet_explain_text_by_figure(
    figure: &[u8],
    job: &[u8],
    run: u16,
    rule: u16,
    place: u16,
    out: &mut [u8],
) -> u64
    ensures { ExplainsFinding Text (read_figure figure.now) job.now run rule place out.old out.new result }
{
    packed(explain_by_figure::<forms::Text>(figure, job, run, rule, place, out))
}

// Lays out a round stack: points on the diameter, diameter in 0.1 in, nozzle in 0.001 in; 4 bytes a distance.
pub fn leverbonnet_round_layout(points: u16, diameter: u16, nozzle: u16, out: &mut [u8]) -> u64
    ensures { LaysOut (round_outcome points diameter nozzle (length out.old)) out.old out.new result }
{
    packed(layouts::round_layout(points, diameter, nozzle, out))
}

// Lays out a rectangular stack: points of the grid, sides in 0.1 in; 4 bytes a distance, two distances a point.
pub fn leverbonnet_rect_layout(points: u16, first: u16, second: u16, out: &mut [u8]) -> u64
    ensures { LaysOut (rectangle_outcome points first second (length out.old)) out.old out.new result }
{
    packed(layouts::rectangle_layout(points, first, second, out))
}
