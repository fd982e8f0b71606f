// The findings of a run, and a run as a whole.

ghost use Rattle.std.specs.Prelude.{◌≤◌, length};
ghost use Rattle.findings.specs.Listing.{most_findings};
ghost use Rattle.characters.specs.Writing.{Room, Wrote};
ghost use Rattle.text.specs.Runs.{class_name, finding_text, findings_text, standing, run_text};

use crate::sheets::put_sheet;
use characters::Writer;
use classes::Class;
use findings::Finding;
use reduction::Reduced;

// What a finding is: a fault or a note.
#[tactic(auto, unfolding(crate::specs::Runs::class_name, characters::specs::Words::spelled))]
fn put_class(to: &mut Writer<'_>, class: u8)
    requires { Room to.old (class_name class) }
    ensures { Wrote to.old (class_name class) to.new }
{
    if class == Class::Fault.number() {
        to.word(b"FAULT ");
    } else {
        to.word(b"NOTE ");
    }
}

// A finding: what it is, its rule and its place.
pub fn put_finding(to: &mut Writer<'_>, f: Finding)
    requires { Room to.old (finding_text f) }
    ensures { Wrote to.old (finding_text f) to.new }
{
    put_class(to, f.class);
    to.decimal(f.rule as u64);
    to.word(b" ");
    to.decimal(f.place as u64);
    to.word(b"\n");
}

// All findings, in order.
fn put_findings(to: &mut Writer<'_>, found: &[Finding])
    requires { Room to.old (findings_text found.now (length found.now)) }
    ensures { Wrote to.old (findings_text found.now (length found.now)) to.new }
{
    for f in found {
        put_finding(to, *f);
    }
}

// Whether the run stands.
fn put_standing(to: &mut Writer<'_>, accepted: bool)
    requires { Room to.old (standing accepted) }
    ensures { Wrote to.old (standing accepted) to.new }
{
    if accepted {
        to.word(b" ACCEPTED\n");
    } else {
        to.word(b" VOID\n");
    }
}

// A run: its number and whether it stands, its twenty lines, its findings.
pub fn put_run(to: &mut Writer<'_>, r: Reduced)
    requires { (r.findings.count ≤ most_findings) × Room to.old (run_text r) }
    ensures { Wrote to.old (run_text r) to.new }
{
    let found = &r.findings.list[..r.findings.count];
    to.word(b"RUN ");
    to.decimal(r.number as u64);
    put_standing(to, r.accepted);
    put_sheet(to, r.sheet);
    put_findings(to, found);
}
