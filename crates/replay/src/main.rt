// Replays recorded answers of the published Rust: calls the leaf of each record, and says how many agree.
//
// A record is its op (1 byte), a, b and the expected answer (8 bytes each), the input's length (4), the input; numbers are
// little-endian. Op 0 ends the file.
#![tactic(auto)]

const HEAD: usize = 29;

// A record's numbers, and where its input lies in the file.
#[derive(Clone, Copy)]
struct Record {
    op: u8,
    a: u64,
    b: u64,
    expected: u64,
    start: usize,
    end: usize,
}

#[derive(Clone, Copy)]
enum Step {
    Record(Record),
    End,
    // Not a record: it is cut short.
    Broken,
}

#[derive(Clone, Copy)]
struct Tally {
    agree: u64,
    differ: u64,
    // The number of the first record that differs, counted from 0.
    first: u64,
    whole: bool,
}

fn one_more(n: u64) -> u64 {
    if n < 18446744073709551615 { n + 1 } else { n }
}

fn record_at(file: &[u8], at: usize) -> Step {
    if file.len() <= at {
        return Step::Broken;
    }
    let op = file[at];
    if op == 0 {
        return Step::End;
    }
    if file.len() - at < HEAD {
        return Step::Broken;
    }
    let len = byte_fields::u32_at(file, at + 25).unwrap_or(0) as usize;
    let start = at + HEAD;
    if file.len() - start < len {
        return Step::Broken;
    }
    Step::Record(Record {
        op: op,
        a: byte_fields::u64_at(file, at + 1).unwrap_or(0),
        b: byte_fields::u64_at(file, at + 9).unwrap_or(0),
        expected: byte_fields::u64_at(file, at + 17).unwrap_or(0),
        start: start,
        end: start + len,
    })
}

// The input is the name and then the text; n is the name's length.
fn reads_as(input: &[u8], n: usize) -> u64 {
    if n <= input.len() {
        leaves::leaf_reads_as(&input[..n], &input[n..])
    } else {
        2
    }
}

fn answer(op: u8, a: u64, b: u64, input: &[u8]) -> u64 {
    match op {
        1 => leaves::leaf_number(input, a as usize, b as usize),
        2 => leaves::leaf_number_refused(input, a as usize, b as usize),
        3 => leaves::leaf_slice_refused(input, a as usize, b as usize),
        4 => leaves::leaf_cstr(input) as u64,
        5 => leaves::leaf_piece(input),
        6 => reads_as(input, a as usize),
        7 => leaves::leaf_is_utf8(input),
        8 => leaves::leaf_replaced(input),
        9 => leaves::leaf_compute(input),
        10 => leaves::leaf_verify(input),
        11 => leaves::leaf_hash(input, a),
        12 => leaves::leaf_len_and_hash(input, a),
        13 => leaves::leaf_header(input, a),
        14 => leaves::leaf_header_refused(input),
        15 => leaves::leaf_read_at(input, a, b as usize),
        _ => 0,
    }
}

// An op that no leaf has differs.
fn agrees(file: &[u8], r: Record) -> bool {
    let start = r.start;
    let end = r.end;
    if 15 < r.op {
        return false;
    }
    if end < start {
        return false;
    }
    if file.len() < end {
        return false;
    }
    answer(r.op, r.a, r.b, &file[start..end]) == r.expected
}

fn counted(t: Tally, number: u64, same: bool) -> Tally {
    if same {
        return Tally {
            agree: one_more(t.agree),
            differ: t.differ,
            first: t.first,
            whole: t.whole,
        };
    }
    let first = if t.differ == 0 { number } else { t.first };
    Tally {
        agree: t.agree,
        differ: one_more(t.differ),
        first: first,
        whole: t.whole,
    }
}

fn replay(file: &[u8]) -> Tally {
    let mut tally = Tally {
        agree: 0,
        differ: 0,
        first: 0,
        whole: false,
    };
    let mut number = 0;
    let mut at = 0;
    while at < file.len() {
        match record_at(file, at) {
            Step::Record(r) => {
                tally = counted(tally, number, agrees(file, r));
                number = one_more(number);
                // Past at: the input of a record starts behind its head.
                if r.end <= at {
                    return tally;
                }
                at = r.end;
            }
            Step::End => {
                tally.whole = true;
                return tally;
            }
            Step::Broken => return tally,
        }
    }
    tally
}

fn report(t: Tally) {
    io::print_decimal(1, t.agree);
    io::write_all(1, b" agree, ");
    io::print_decimal(1, t.differ);
    io::write_all(1, b" differ\n");
    if 0 < t.differ {
        io::write_all(1, b"first: record ");
        io::print_decimal(1, t.first);
        io::write_all(1, b"\n");
    }
    if !t.whole {
        io::write_all(1, b"cut short\n");
    }
}

fn main() {
    let mut space = [0u8; 262144];
    let n = io::read_full(0, &mut space);
    report(replay(&space[..n]));
}
