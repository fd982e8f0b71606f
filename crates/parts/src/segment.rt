// A segment between two leak checks, 4 bytes.

ghost use Rattle.std.proofs.Common.{refl, lit≤};
ghost use Rattle.fields.proofs.FirstTrouble.{checks_reach};
ghost use Rattle.records.specs.Records.{no_segment};
ghost use Rattle.parts.specs.Values.{segment_size, segment};
ghost use Rattle.parts.specs.Rows.{segment_rows};

use crate::part::Part;
use fields::numbers;
use fields::trouble::{self, BadFile};
use readings::points::{LeakRate, Seconds};
use readings::range::Reading;
use records::Segment;

impl Part for Segment {
    const SIZE: usize = 4;

    ghost SIZE = { segment_size };

    ghost held = { segment };

    ghost rows = { λ t. segment_rows (segment t) };

    ghost none = { no_segment };

    fn read(t: &[u8]) -> Segment {
        Segment {
            seconds: numbers::u16_at(t, 0),
            leak: numbers::u16_at(t, 2),
        }
    }

    fn check(t: &[u8]) -> Result<(), BadFile> {
        let g = Segment::read(t);
        trouble::field(0, Seconds::check(g.seconds)).and(trouble::field(2, LeakRate::check(g.leak)))
    }

    fn none() -> Segment {
        Segment {
            seconds: 0,
            leak: 0,
        }
    }

    ghost some = { lit≤ tt };

    ghost small = { lit≤ tt };

    ghost within = { λ t. checks_reach 4 (segment_rows (segment t)) refl };
}
