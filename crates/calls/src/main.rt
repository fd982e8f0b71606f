// Answers the public calls over a pipe, one request after the other, and ends with its input.
//
// A request is a header of 18 bytes, then the figure's bytes, then the job's:
//
//     0       the call: 1 reduce, 2 run_count, 3 run_number, 4 round_layout, 5 rect_layout, 6 sheet_text,
//             7 reduce_by_figure, 8 sheet_text_by_figure, 9 explain, 10 explain_by_figure, 11 explain_text,
//             12 explain_text_by_figure
//     1       what every byte of both outputs is before the call
//     2 to 7  three u16, in the order in which the call takes its numbers
//     8, 10   the lengths of the outputs, u16, the second at most 4,096
//     12      the job's length, u32, at most 65,536
//     16      the figure's length, u16, at most 4,096
//
// A length above its most counts as its most, and a file that the input cuts short is made up with zeros. A call
// that takes no figure looks at none. The reply is the call's answer as a u64, 0 where there is no such call, then
// both outputs as the call left them.

#![tactic(auto)]

ghost use Rattle.std.specs.Prelude.{◌≡◌, ◌≤◌, IfOk, OnOk, min, length, take};
ghost use Rattle.std.specs.Io.KnownBytes.{Appends};
ghost use Rattle.output.specs.Bytes.{le};
ghost use Rattle.calls.specs.Requests.{Replied, Exchanged, Served};

use fields::numbers;
use leverbonnet::{
    leverbonnet_explain, leverbonnet_explain_by_figure, leverbonnet_explain_text,
    leverbonnet_explain_text_by_figure, leverbonnet_rect_layout, leverbonnet_reduce,
    leverbonnet_reduce_by_figure, leverbonnet_round_layout, leverbonnet_run_count,
    leverbonnet_run_number, leverbonnet_sheet_text, leverbonnet_sheet_text_by_figure,
};
use std::io;
use std::io::{Read, Write};
use streams::read_full;

// How many bytes the header of a request has.
const HEADER_SIZE: usize = 18;

// A size that the header gives, as far as the buffer goes: the smaller of the size and the buffer's length.
fn within(size: usize, buf: &[u8]) -> usize
    ensures within { result ≤ length buf.now }
    ensures taken { result ≡ length (take result buf.now) }
    ensures value { result ≡ min size (length buf.now) }
{
    size.min(buf.len())
}

// The answer of the call that a header names, 0 where there is no such call. What the call does not write stays
// as it was in both outputs.
fn answer(
    header: &[u8; HEADER_SIZE],
    figure: &[u8],
    job: &[u8],
    first: &mut [u8],
    second: &mut [u8],
) -> u64
    ensures { Replied header.now figure.now job.now first.old second.old first.new second.new result }
{
    let a = numbers::u16_at(header, 2);
    let b = numbers::u16_at(header, 4);
    let c = numbers::u16_at(header, 6);
    let call = header[0];
    match call {
        1 => leverbonnet_reduce(job, a, first, second),
        2 => leverbonnet_run_count(job),
        3 => leverbonnet_run_number(job, a),
        4 => leverbonnet_round_layout(a, b, c, first),
        5 => leverbonnet_rect_layout(a, b, c, first),
        6 => leverbonnet_sheet_text(job, first),
        7 => leverbonnet_reduce_by_figure(figure, job, a, first, second),
        8 => leverbonnet_sheet_text_by_figure(figure, job, first),
        9 => leverbonnet_explain(job, a, b, c, first),
        10 => leverbonnet_explain_by_figure(figure, job, a, b, c, first),
        11 => leverbonnet_explain_text(job, a, b, c, first),
        12 => leverbonnet_explain_text_by_figure(figure, job, a, b, c, first),
        _ => 0,
    }
}

fn write_answer<W: Write>(to: &mut W, answer: u64) -> io::Result<()>
    ensures { OnOk result (Appends (W.contents to.old) (W.contents to.new) (le 8 answer)) }
{
    let mut reply = [0u8; 8];
    output::put_number(&mut reply, 0, 8, answer);
    to.write_all(&reply)
}

// Reads the files that a header announces, makes the call and writes the reply. The four buffers have the
// lengths that the header gives.
fn exchange<R: Read, W: Write>(
    from: &mut R,
    to: &mut W,
    header: &[u8; HEADER_SIZE],
    figure: &mut [u8],
    job: &mut [u8],
    first: &mut [u8],
    second: &mut [u8],
) -> io::Result<()>
    ensures { OnOk result (Exchanged header.now figure.new job.new first.new second.new (R.remaining from.old) (R.remaining from.new) (W.contents to.old) (W.contents to.new)) }
{
    read_full(from, figure)?;
    read_full(from, job)?;
    first.fill(header[1]);
    second.fill(header[1]);
    write_answer(to, answer(header, figure, job, first, second))?;
    to.write_all(first)?;
    to.write_all(second)
}

// Answers one request, and says whether there was one.
fn serve<R: Read, W: Write>(from: &mut R, to: &mut W) -> io::Result<bool>
    ensures { IfOk result (λ served. Served served (R.remaining from.old) (R.remaining from.new) (W.contents to.old) (W.contents to.new)) }
{
    let mut header = [0u8; HEADER_SIZE];
    if read_full(from, &mut header)? < HEADER_SIZE {
        return Ok(false);
    }
    let mut figure = [0u8; 4096];
    let mut job = [0u8; 65536];
    let mut first = [0u8; 65536];
    let mut second = [0u8; 4096];
    let steps = within(numbers::u16_at(&header, 16) as usize, &figure);
    let length = within(numbers::u32_at(&header, 12) as usize, &job);
    let one = within(numbers::u16_at(&header, 8) as usize, &first);
    let two = within(numbers::u16_at(&header, 10) as usize, &second);
    exchange(
        from,
        to,
        &header,
        &mut figure[..steps],
        &mut job[..length],
        &mut first[..one],
        &mut second[..two],
    )?;
    Ok(true)
}

// A proved loop has to end, and nothing says that the input does: the loop has a number of turns that no input
// uses up.
fn main(rt: HostRuntime) -> io::Result<()> {
    for _ in 0..u64::MAX {
        if !serve(&mut rt.stdin(), &mut rt.stdout())? {
            break;
        }
    }
    Ok(())
}
