// Lines and findings as bytes: one of each, for any sheet, and all of a run's. Relies on the writers of `output`.

#![tactic(auto)]

ghost use Rattle.std.specs.Prelude.{◌≡◌, ◌+◌, ◌*◌, ◌≤◌, length};
ghost use Rattle.output.specs.Splice.{spliced};
ghost use Rattle.writing.specs.Bytes.{line_size, sheet_size, finding_size, entry_bytes, sheet_bytes, finding_bytes, findings_bytes};

use findings::Finding;
use lines::{Entry, LINES, Sheet};
use output::{put_byte, put_number};

pub const LINE_SIZE: usize = 9;

pub const SHEET_SIZE: usize = LINE_SIZE * LINES;

pub const FINDING_SIZE: usize = 4;

// A line: whether it is present, and its value, 0 if absent.
pub fn put_entry(out: &mut [u8], at: usize, entry: Entry)
    requires { at + line_size ≤ length out.old }
    ensures { out.new ≡ spliced out.old at (entry_bytes entry) }
{
    if let Some(value) = entry.line {
        put_byte(out, at, 1);
        put_number(out, at + 1, 8, value.cast_unsigned());
    } else {
        put_byte(out, at, 0);
        put_number(out, at + 1, 8, 0);
    }
}

// The twenty lines from the front of a buffer.
pub fn put_sheet(out: &mut [u8], sheet: Sheet)
    requires { sheet_size ≤ length out.old }
    ensures { out.new ≡ spliced out.old 0 (sheet_bytes sheet) }
{
    for i in 0..LINES {
        put_entry(out, LINE_SIZE * i, sheet.entries[i]);
    }
}

// A finding: rule, class, place.
pub fn put_finding(out: &mut [u8], at: usize, f: Finding)
    requires { at + finding_size ≤ length out.old }
    ensures { out.new ≡ spliced out.old at (finding_bytes f) }
{
    put_byte(out, at, f.rule);
    put_byte(out, at + 1, f.class);
    put_number(out, at + 2, 2, f.place as u64);
}

// The findings from the front of a buffer.
pub fn put_findings(out: &mut [u8], found: &[Finding])
    requires { finding_size * length found.now ≤ length out.old }
    ensures { out.new ≡ spliced out.old 0 (findings_bytes found.now (length found.now)) }
{
    for (i, f) in found.iter().enumerate() {
        put_finding(out, FINDING_SIZE * i, *f);
    }
}
