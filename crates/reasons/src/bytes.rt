// A condition and a certificate day as bytes.

ghost use Rattle.std.specs.Prelude.{◌≡◌, [], ◌∷◌, ◌++◌};
ghost use Rattle.output.specs.Bytes.{le};
ghost use Rattle.characters.specs.Writing.{Room, Wrote};
ghost use Rattle.reasons.specs.Bytes.{way_number};

use characters::Writer;
use grounds::comparison::Way;

// A way as its number.
#[tactic(auto, unfolding(crate::specs::Bytes::way_number))]
fn way_number(way: Way) -> u8
    ensures { result ≡ way_number way }
{
    match way {
        Way::Below => 1,
        Way::Above => 2,
        Way::Same => 3,
        Way::Differs => 4,
    }
}

// Two bytes.
pub fn put_pair(to: &mut Writer<'_>, first: u8, second: u8)
    requires { Room to.old (first ∷ second ∷ []) }
    ensures { Wrote to.old (first ∷ second ∷ []) to.new }
{
    to.byte(first);
    to.byte(second);
}

// A condition: which of its rule's, the way, and the bits of four numbers.
pub fn put_condition(
    to: &mut Writer<'_>,
    which: u8,
    way: Way,
    left: u64,
    right: u64,
    remainder: u64,
    limit: u64,
)
    requires { Room to.old ((which ∷ way_number way ∷ []) ++ le 8 left ++ le 8 right ++ le 8 remainder ++ le 8 limit) }
    ensures { Wrote to.old ((which ∷ way_number way ∷ []) ++ le 8 left ++ le 8 right ++ le 8 remainder ++ le 8 limit) to.new }
{
    put_pair(to, which, way_number(way));
    to.number(8, left);
    to.number(8, right);
    to.number(8, remainder);
    to.number(8, limit);
}

// A certificate day: kind, side, whether there is one, and the day.
pub fn put_day(to: &mut Writer<'_>, kind: u8, side: u8, found: u8, day: u16)
    requires { Room to.old ((kind ∷ side ∷ []) ++ (found ∷ []) ++ le 2 day) }
    ensures { Wrote to.old ((kind ∷ side ∷ []) ++ (found ∷ []) ++ le 2 day) to.new }
{
    put_pair(to, kind, side);
    to.byte(found);
    to.number(2, day as u64);
}
