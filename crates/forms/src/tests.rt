// What is written by a call on either side of the run's day, in both forms.

ghost use Rattle.std.specs.Prelude.{◌≤◌, length};

use crate::{Bytes, Form, Text};
use characters::Writer;
use dates::Side;

// A meter's day at the front of a buffer that has room for any; where it ends.
fn put_at_front<F: Form>(out: &mut [u8], side: Side, day: Option<u16>) -> usize
    requires { 49 ≤ length out.old }
    ensures { result ≤ length out.new }
{
    let mut to = Writer { out, at: 0 };
    F::put_day(&mut to, 1, side, day);
    to.at
}

#[test]
fn a_day_on_either_side(rt: HostRuntime) {
    let mut out = [0; 49];
    let end = put_at_front::<Bytes>(&mut out, Side::Before, Some(258));
    assert_eq!(rt; &out[..end], [1, 1, 1, 2, 1].as_slice());
    let end = put_at_front::<Bytes>(&mut out, Side::After, None);
    assert_eq!(rt; &out[..end], [1, 2, 0, 0, 0].as_slice());
    let end = put_at_front::<Text>(&mut out, Side::Before, Some(258));
    assert_eq!(rt; &out[..end], b"  CERTIFICATE METER BEFORE 258\n".as_slice());
    let end = put_at_front::<Text>(&mut out, Side::After, None);
    assert_eq!(rt; &out[..end], b"  CERTIFICATE METER AFTER NONE\n".as_slice());
}
