// A call at a desk. The input is the desk, the call's number, the choice of the checkpoint and its number, the third number, what
// each count was and what the eight come to; then the path or the bookmark.
use crate::record::Record;
use desks::{DeskCounts, call, more_by};

const NUMBERS: usize = 112;

// No call's result.
const OTHER_COUNTS: i64 = -1000;

fn number(input: &[u8], at: usize) -> u64 {
    byte_fields::u64_at(input, at).unwrap_or(0)
}

fn path_in(input: &[u8]) -> &[u8] {
    if input.len() < NUMBERS {
        return &input[..0];
    }
    &input[NUMBERS..]
}

fn counts_agree(c: DeskCounts, input: &[u8]) -> bool {
    let counts = c.counts;
    let mut i = 0;
    while i < 8 {
        if counts[i] != number(input, 48 + 8 * i) {
            return false;
        }
        i += 1;
    }
    true
}

// The call and the sum, since a program of this kind can lend no record of counts.
pub fn made_at_desk(r: Record, image: &[u8], input: &[u8], out: &mut [u8]) -> i64 {
    let t = call(
        number(input, 8),
        image,
        number(input, 16),
        number(input, 24),
        r.volume,
        r.a,
        r.b,
        number(input, 32),
        path_in(input),
        out,
    );
    let before = DeskCounts {
        counts: [number(input, 40); 8],
    };
    let after = more_by(before, number(input, 0), t);
    if counts_agree(after, input) {
        return t.result;
    }
    OTHER_COUNTS
}
