// The twenty lines of a sheet, a line of text each.

ghost use Rattle.characters.specs.Writing.{Room, Wrote};
ghost use Rattle.text.specs.Sheets.{value_text, line_text, sheet_text};

use characters::Writer;
use lines::{Entry, LINES, Sheet};

// A line's value, or a dash where it is absent.
fn put_value(to: &mut Writer<'_>, line: Option<i64>)
    requires { Room to.old (value_text line) }
    ensures { Wrote to.old (value_text line) to.new }
{
    match line {
        Some(value) => to.signed(value),
        None => to.word(b"-"),
    }
}

// A line's number, its value and the end of the line.
fn put_line(to: &mut Writer<'_>, number: u64, entry: Entry)
    requires { Room to.old (line_text number entry) }
    ensures { Wrote to.old (line_text number entry) to.new }
{
    to.decimal(number);
    to.word(b" ");
    put_value(to, entry.line);
    to.word(b"\n");
}

// All twenty.
pub fn put_sheet(to: &mut Writer<'_>, sheet: Sheet)
    requires { Room to.old (sheet_text sheet) }
    ensures { Wrote to.old (sheet_text sheet) to.new }
{
    for i in 0..LINES {
        put_line(to, i as u64 + 1, sheet.entries[i]);
    }
}
