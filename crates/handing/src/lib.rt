// A reduced run handed over in two lent buffers, or refused before a byte is written.
// Relies on the writers of lines and findings; knows nothing of a file.

#![tactic(auto)]

ghost use Rattle.std.specs.Prelude.{◌≡◌, ◌≤◌};
ghost use Rattle.findings.specs.Listing.{most_findings};
ghost use Rattle.output.specs.Answers.{answer_told};
ghost use Rattle.handing.specs.Handing.{success, Handed};

use output::Refusal;
use reduction::Reduced;
use refusals::Reason;
use writing::{FINDING_SIZE, SHEET_SIZE, put_findings, put_sheet};

// How many findings, and 65,536 more if the run is accepted.
#[tactic(auto, unfolding(crate::specs::Handing::success))]
fn success(count: usize, accepted: bool) -> u32
    requires { count ≤ most_findings }
    ensures { result ≡ success count accepted }
{
    if accepted {
        count as u32 + 65536
    } else {
        count as u32
    }
}

// Hands a reduced run over in two buffers, or refuses before a byte is written.
pub fn hand_over(done: Reduced, lines: &mut [u8], findings: &mut [u8]) -> Result<u32, Refusal>
    requires { done.findings.count ≤ most_findings }
    ensures { Handed done lines.old findings.old lines.new findings.new (answer_told result) }
{
    let found = done.findings;
    if lines.len() < SHEET_SIZE {
        return Err(Reason::ShortOutput.into());
    }
    if findings.len() < FINDING_SIZE * found.count {
        return Err(Reason::ShortOutput.into());
    }
    put_sheet(lines, done.sheet);
    put_findings(findings, &found.list[..found.count]);
    Ok(success(found.count, done.accepted))
}
