// How many calls agree: under each title, and by export and refusal.
use crate::record::Record;

#[derive(Clone, Copy)]
pub struct Tally {
    // Whether a title stands printed, its counts still to come.
    pub titled: bool,
    pub agree: u64,
    pub differ: u64,
    // The length of the image that calls are made on.
    pub size: usize,
}

fn one_more(n: u64) -> u64 {
    if n < 18446744073709551615 { n + 1 } else { n }
}

// Nineteen counts an export: answered, then refused with 1 to 18.
fn kind_of(op: u8, refusal: u8) -> usize {
    if op < 3 {
        return 0;
    }
    if 24 < op {
        return 0;
    }
    if 18 < refusal {
        return 0;
    }
    (op - 3) as usize * 19 + refusal as usize
}

pub fn counted(t: Tally, r: Record, same: bool, kinds: &mut [u64; 418]) -> Tally {
    if !same {
        return Tally {
            titled: t.titled,
            agree: t.agree,
            differ: one_more(t.differ),
            size: t.size,
        };
    }
    let k = kind_of(r.op, r.refusal);
    if k < 418 {
        kinds[k] = one_more(kinds[k]);
    }
    Tally {
        titled: t.titled,
        agree: one_more(t.agree),
        differ: t.differ,
        size: t.size,
    }
}

pub fn print_tally(t: Tally) {
    if !t.titled {
        return;
    }
    io::write_all(1, b": ");
    io::print_decimal(1, t.agree);
    io::write_all(1, b" agree");
    if 0 < t.differ {
        io::write_all(1, b", ");
        io::print_decimal(1, t.differ);
        io::write_all(1, b" DIFFER");
    }
    io::write_all(1, b"\n");
}

fn print_export_at(op: usize) -> bool {
    match op {
        9 => io::write_all(1, b"apfs_checkpoints: "),
        10 => io::write_all(1, b"apfs_open_at: "),
        11 => io::write_all(1, b"apfs_lookup_at: "),
        12 => io::write_all(1, b"apfs_list_at: "),
        13 => io::write_all(1, b"apfs_read_at: "),
        14 => io::write_all(1, b"apfs_wrong_words: "),
        15 => io::write_all(1, b"apfs_measure: "),
        16 => io::write_all(1, b"apfs_measure_at: "),
        17 => io::write_all(1, b"apfs_mark: "),
        18 => io::write_all(1, b"apfs_mark_at: "),
        19 => io::write_all(1, b"apfs_marked: "),
        20 => io::write_all(1, b"apfs_marked_at: "),
        _ => io::write_all(1, b"at a desk: "),
    }
}

fn print_export(op: usize) {
    match op {
        0 => io::write_all(1, b"apfs_open: "),
        1 => io::write_all(1, b"apfs_lookup: "),
        2 => io::write_all(1, b"apfs_read: "),
        3 => io::write_all(1, b"apfs_entry: "),
        4 => io::write_all(1, b"apfs_xattr: "),
        5 => io::write_all(1, b"apfs_link: "),
        6 => io::write_all(1, b"apfs_extent: "),
        7 => io::write_all(1, b"apfs_list: "),
        8 => io::write_all(1, b"apfs_replaced: "),
        _ => print_export_at(op),
    };
}

fn print_kind(op: usize, refusal: usize, n: u64) {
    if refusal == 0 {
        print_export(op);
        io::print_decimal(1, n);
        io::write_all(1, b" answered");
        return;
    }
    if n == 0 {
        return;
    }
    io::write_all(1, b", ");
    io::print_decimal(1, n);
    io::write_all(1, b" refused with ");
    io::print_decimal(1, refusal as u64);
}

pub fn print_kinds(kinds: &[u64; 418]) {
    let mut k = 0;
    while k < 418 {
        print_kind(k / 19, k % 19, kinds[k]);
        k += 1;
        if k % 19 == 0 {
            io::write_all(1, b"\n");
        }
    }
}
