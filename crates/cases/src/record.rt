// A record of the file: op and expected refusal (1 byte each), volume, a, b (8 each), the buffer's length, the expected count,
// the expected sum of the buffer after the call, the input's length (4 each); then its input. Numbers are little-endian. Op 0
// ends the file.

const HEAD: usize = 42;

#[derive(Clone, Copy)]
pub struct Record {
    pub op: u8,
    // 0 where the call is answered.
    pub refusal: u8,
    pub volume: u64,
    pub a: u64,
    pub b: u64,
    pub room: usize,
    pub count: u64,
    pub sum: u64,
    pub len: usize,
}

fn record_of(head: &[u8; HEAD]) -> Record {
    Record {
        op: head[0],
        refusal: head[1],
        volume: byte_fields::u64_at(head, 2).unwrap_or(0),
        a: byte_fields::u64_at(head, 10).unwrap_or(0),
        b: byte_fields::u64_at(head, 18).unwrap_or(0),
        room: byte_fields::u32_at(head, 26).unwrap_or(0) as usize,
        count: byte_fields::u32_at(head, 30).unwrap_or(0) as u64,
        sum: byte_fields::u32_at(head, 34).unwrap_or(0) as u64,
        len: byte_fields::u32_at(head, 38).unwrap_or(0) as usize,
    }
}

// The next record of the file. Past its end there is one whose input is too long.
pub fn next_record() -> Record {
    let mut head = [0u8; HEAD];
    let n = io::read_full(0, &mut head);
    let mut r = record_of(&head);
    if n == 0 {
        r.op = 255;
        r.len = 18446744073709551615;
    }
    r
}
