// The certificates of a job file together: each in itself, and none that repeats an earlier one.
// Relies on what a certificate holds and on the trouble in it.

#![tactic(auto)]

ghost use Rattle.std.specs.Prelude.{◌≡◌, ◌<◌, ◌≤◌};
ghost use Rattle.readings.specs.Ranges.{greatest_certificate_count};
ghost use Rattle.fields.specs.Trouble.{up_to};
ghost use Rattle.fields.specs.Refusals.{trouble_of};
ghost use Rattle.heads.specs.Values.{certificate_of};
ghost use Rattle.entries.specs.Entries.{same_certificate, any_to, entry_trouble};

use fields::trouble::BadFile;
use heads::certificate::{self, Certificates};
use opening::JobFile;
use records::Certificate;
use refusals::Reason;

// Kind, maker, serial, letter and day all count.
#[tactic(auto, using(records::proofs::Identities::derived_same))]
fn same(a: Certificate, b: Certificate) -> bool
    ensures { result ≡ same_certificate a b }
{
    a.kind == b.kind && a.identity == b.identity && a.day == b.day
}

// Whether one of the earlier certificates of a file is the same as `c`.
fn repeats(earlier: Certificates<'_>, c: Certificate) -> bool
    ensures { result ≡ any_to (λ j. same_certificate (certificate_of earlier.entry.file.bytes.now j) c) earlier.entry.count }
{
    for j in 0..earlier.count {
        if same(earlier.nth(j), c) {
            return true;
        }
    }
    false
}

// The trouble of certificate `k`. It is compared with the earlier ones only where it is complete.
fn entry_trouble(f: JobFile<'_>, k: usize) -> Result<(), BadFile>
    requires { k < greatest_certificate_count }
    ensures { trouble_of result ≡ entry_trouble f.entry.bytes.now k }
{
    let at = certificate::place(f.version, k);
    certificate::trouble(f, at)?;
    let earlier = Certificates { file: f, count: k };
    if repeats(earlier, certificate::nth(f, k)) {
        return Err(BadFile {
            number: Reason::Repeated.number(),
            place: at,
        });
    }
    Ok(())
}

// The first trouble of the `n` certificates of the file.
pub fn troubles(f: JobFile<'_>, n: usize) -> Result<(), BadFile>
    requires { n ≤ greatest_certificate_count }
    ensures { trouble_of result ≡ up_to (entry_trouble f.entry.bytes.now) n }
{
    for k in 0..n {
        entry_trouble(f, k)?;
    }
    Ok(())
}
