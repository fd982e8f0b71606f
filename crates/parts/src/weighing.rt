// A weighing, 14 bytes, of which byte 1 is not used.

ghost use Rattle.std.proofs.Common.{refl, lit≤};
ghost use Rattle.fields.specs.Numbers.{byte_at};
ghost use Rattle.fields.proofs.FirstTrouble.{checks_reach};
ghost use Rattle.records.specs.Records.{no_weighing};
ghost use Rattle.parts.specs.Values.{weighing_size, weighing};
ghost use Rattle.parts.specs.Rows.{weighing_rows};

use crate::part::Part;
use fields::numbers;
use fields::trouble::{self, BadFile};
use readings::certificates::Unused;
use readings::range::Reading;
use readings::weighings::{WeighingKind, Weight};
use records::Weighing;

impl Part for Weighing {
    const SIZE: usize = 14;

    ghost SIZE = { weighing_size };

    ghost held = { weighing };

    ghost rows = { λ t. weighing_rows (weighing t) (byte_at t 1) };

    ghost none = { no_weighing };

    fn read(t: &[u8]) -> Weighing {
        Weighing {
            kind: numbers::byte(t, 0),
            tare: numbers::u32_at(t, 2),
            first: numbers::u32_at(t, 6),
            second: numbers::u32_at(t, 10),
        }
    }

    fn check(t: &[u8]) -> Result<(), BadFile> {
        let w = Weighing::read(t);
        trouble::field(0, WeighingKind::check(w.kind))
            .and(trouble::field(1, Unused::check(numbers::byte(t, 1) as u16)))
            .and(trouble::field(2, Weight::check(w.tare)))
            .and(trouble::field(6, Weight::check(w.first)))
            .and(trouble::field(10, Weight::check(w.second)))
    }

    fn none() -> Weighing {
        Weighing {
            kind: 0,
            tare: 0,
            first: 0,
            second: 0,
        }
    }

    ghost some = { lit≤ tt };

    ghost small = { lit≤ tt };

    ghost within = { λ t. checks_reach 14 (weighing_rows (weighing t) (byte_at t 1)) refl };
}
