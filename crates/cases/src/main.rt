// Document 01's cases, and a sample of calls on sticks: makes each recorded call, and says how many agree.
#![tactic(auto)]

mod agreement;
mod at_desk;
mod image;
mod made;
mod record;

use crate::agreement::{Tally, counted, print_kinds, print_tally};
use crate::image::{laid_out, wiped};
use crate::made::agrees;
use crate::record::{Record, next_record};
use byte_fields::{Span, part};

const END: u8 = 0;

const TITLE: u8 = 1;

const IMAGE: u8 = 2;

// No file has more records.
const MOST: u64 = 1000000;

// One record gone through: a title ends the cases before it, an image stands until the next one.
fn gone_through(
    r: Record,
    input: &[u8],
    t: Tally,
    image: &mut [u8],
    out: &mut [u8],
    kinds: &mut [u64; 418],
) -> Tally {
    let op = r.op;
    if op == TITLE {
        print_tally(t);
        io::write_all(1, input);
        return Tally {
            titled: true,
            agree: 0,
            differ: 0,
            size: t.size,
        };
    }
    if op == IMAGE {
        wiped(image, r.b);
        laid_out(input, image);
        return Tally {
            titled: t.titled,
            agree: t.agree,
            differ: t.differ,
            size: r.a as usize,
        };
    }
    let size = t.size;
    let stick = part(
        image,
        Span {
            start: 0,
            len: size,
        },
    );
    let same = agrees(r, stick, input, out);
    counted(t, r, same, kinds)
}

// Whether the record's input is there, in `input`.
fn filled(input: &mut [u8], len: usize) -> bool {
    if input.len() < len {
        return false;
    }
    io::read_full(0, &mut input[..len]) == len
}

// Whether the file was gone through to its end.
fn replay(input: &mut [u8], image: &mut [u8], out: &mut [u8], kinds: &mut [u64; 418]) -> bool {
    let mut tally = Tally {
        titled: false,
        agree: 0,
        differ: 0,
        size: 0,
    };
    let mut k = 0;
    while k < MOST {
        let r = next_record();
        let len = r.len;
        if r.op == END {
            print_tally(tally);
            return true;
        }
        if !filled(input, len) {
            return false;
        }
        let given = part(input, Span { start: 0, len: len });
        tally = gone_through(r, given, tally, image, out, kinds);
        k += 1;
    }
    false
}

fn replay_into(image: &mut [u8]) {
    let mut input = [0u8; 65536];
    let mut out = [0u8; 65536];
    let mut kinds = [0u64; 418];
    let whole = replay(&mut input, image, &mut out, &mut kinds);
    print_kinds(&kinds);
    if !whole {
        io::write_all(1, b"cut short\n");
    }
}

fn main() {
    let mut image = [0u8; 262144];
    replay_into(&mut image);
}
