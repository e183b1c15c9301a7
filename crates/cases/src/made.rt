// A recorded call, made.
use crate::at_desk::made_at_desk;
use crate::record::Record;
use apfs::{
    apfs_checkpoints, apfs_entry, apfs_extent, apfs_link, apfs_list, apfs_list_at, apfs_lookup,
    apfs_lookup_at, apfs_mark, apfs_mark_at, apfs_marked, apfs_marked_at, apfs_measure,
    apfs_measure_at, apfs_open, apfs_open_at, apfs_read, apfs_read_at, apfs_replaced,
    apfs_wrong_words, apfs_xattr,
};

// No two bytes in a row are equal, so that one that is written where none may be shows.
fn written_on(out: &mut [u8]) {
    let mut x: u8 = 11;
    let mut i = 0;
    while i < out.len() {
        out[i] = x;
        x = std::num::wrapping_add_u8(x, 37);
        i += 1;
    }
}

// A bookmark handed out or in: the input is the record's kind and a transaction number, or the bookmark.
fn made_marked(r: Record, image: &[u8], input: &[u8], out: &mut [u8]) -> i64 {
    let op = r.op;
    let kind = (byte_fields::u64_at(input, 0).unwrap_or(0) % 256) as u8;
    match op {
        20 => apfs_mark(image, r.volume, r.a, kind, r.b, out),
        21 => apfs_mark_at(
            image,
            byte_fields::u64_at(input, 8).unwrap_or(0),
            r.volume,
            r.a,
            kind,
            r.b,
            out,
        ),
        22 => apfs_marked(image, input, out),
        23 => apfs_marked_at(image, r.a, input, out),
        _ => made_at_desk(r, image, input, out),
    }
}

// At an earlier checkpoint, the list of them, an object's wrong words, or how long a listing will be: the input is a path,
// a transaction number or the object.
fn made_at(r: Record, image: &[u8], input: &[u8], out: &mut [u8]) -> i64 {
    let op = r.op;
    match op {
        12 => apfs_checkpoints(image, out),
        13 => apfs_open_at(image, r.a, out),
        14 => apfs_lookup_at(image, r.a, r.volume, input, out),
        15 => apfs_list_at(image, r.a, r.volume, out),
        17 => apfs_wrong_words(input, out),
        18 => apfs_measure(image, r.volume, out),
        19 => apfs_measure_at(image, r.a, r.volume, out),
        16 => apfs_read_at(
            image,
            byte_fields::u64_at(input, 0).unwrap_or(0),
            r.volume,
            r.a,
            r.b,
            out,
        ),
        _ => made_marked(r, image, input, out),
    }
}

// The input is a path, or a name's kind.
fn made(r: Record, image: &[u8], input: &[u8], out: &mut [u8]) -> i64 {
    let op = r.op;
    match op {
        3 => apfs_open(image, out),
        4 => apfs_lookup(image, r.volume, input, out),
        5 => apfs_read(image, r.volume, r.a, r.b, out),
        6 => apfs_entry(image, r.volume, r.a, r.b, out),
        7 => apfs_xattr(image, r.volume, r.a, r.b, out),
        8 => apfs_link(image, r.volume, r.a, out),
        9 => apfs_extent(image, r.volume, r.a, r.b, out),
        11 => apfs_replaced(
            image,
            r.volume,
            byte_fields::u64_at(input, 0).unwrap_or(0),
            r.a,
            r.b,
            out,
        ),
        10 => apfs_list(image, r.volume, out),
        _ => made_at(r, image, input, out),
    }
}

fn minus(refusal: u8) -> i64 {
    -(refusal as i64)
}

fn wanted(r: Record) -> i64 {
    let count = r.count;
    let refusal = r.refusal;
    if 0 < refusal {
        return minus(refusal);
    }
    if 65536 < count {
        return 65537;
    }
    count as i64
}

// The result is the recorded one, and so is the sum of all the buffer.
fn answers(r: Record, image: &[u8], input: &[u8], out: &mut [u8]) -> bool {
    written_on(out);
    let got = made(r, image, input, out);
    if got != wanted(r) {
        return false;
    }
    name_hash::crc32c_raw(0xFFFFFFFF, out) as u64 == r.sum
}

// A call that no export has differs, and so does one with a buffer that is not to be had.
pub fn agrees(r: Record, image: &[u8], input: &[u8], out: &mut [u8]) -> bool {
    let room = r.room;
    if r.op < 3 {
        return false;
    }
    if 24 < r.op {
        return false;
    }
    if out.len() < room {
        return false;
    }
    answers(r, image, input, &mut out[..room])
}
