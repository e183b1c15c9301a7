use error::Refusal;
// CRC-32C: RFC 3720, B.4, and the catalogue's check value. Fletcher sums worked by hand. The marked lines of document 01 on both.

fn show(label: &[u8], value: u64, width: usize) {
    io::write_all(1, label);
    io::write_all(1, b" ");
    io::print_hex(1, value, width);
    io::write_all(1, b"\n");
}

// With the final complement, as the published values have it.
fn crc_of(label: &[u8], b: &[u8]) {
    show(
        label,
        (4294967295 - name_hash::crc32c_raw(0xFFFFFFFF, b)) as u64,
        8,
    );
}

pub fn crc() {
    crc_of(b"crc32c of 123456789", b"123456789");
    crc_of(b"crc32c of 32 zeros", &[0u8; 32]);
    crc_of(b"crc32c of 32 ones", &[0xFFu8; 32]);
    crc_of(
        b"crc32c of 00 up to 1f",
        b"\x00\x01\x02\x03\x04\x05\x06\x07\x08\x09\x0A\x0B\x0C\x0D\x0E\x0F\x10\x11\x12\x13\x14\x15\x16\x17\x18\x19\x1A\x1B\x1C\x1D\x1E\x1F",
    );
    crc_of(
        b"crc32c of 1f down to 00",
        b"\x1F\x1E\x1D\x1C\x1B\x1A\x19\x18\x17\x16\x15\x14\x13\x12\x11\x10\x0F\x0E\x0D\x0C\x0B\x0A\x09\x08\x07\x06\x05\x04\x03\x02\x01\x00",
    );
    crc_of(
        b"crc32c of a SCSI Read (10) command",
        b"\x01\xC0\x00\x00\x00\x00\x00\x00\x00\x00\x00\x00\x00\x00\x00\x00\x14\x00\x00\x00\x00\x00\x04\x00\x00\x00\x00\x14\x00\x00\x00\x18\x28\x00\x00\x00\x00\x00\x00\x00\x02\x00\x00\x00\x00\x00\x00\x00",
    );
}

fn sum_of(label: &[u8], object: &[u8]) {
    show(label, checksum::compute(object), 16);
    if checksum::verify(object) {
        io::write_all(1, b"  valid\n");
    } else {
        io::write_all(1, b"  invalid\n");
    }
}

pub fn fletcher() {
    let mut object = [0u8; 36];
    sum_of(b"fletcher of 32 bytes, zero", &object[..32]);
    object[8] = 1;
    sum_of(b"fletcher of 32 bytes, word 1 at 8", &object[..32]);
    // 0x00000006FFFFFFF8, stored
    object[0] = 0xF8;
    object[1] = 0xFF;
    object[2] = 0xFF;
    object[3] = 0xFF;
    object[4] = 6;
    sum_of(b"the same, stored", &object[..32]);
    sum_of(b"28 bytes of it", &object[..28]);
    sum_of(b"34 bytes of it", &object[..34]);
    let ones = [0xFFu8; 32];
    sum_of(b"fletcher of 32 bytes, all ones", &ones);
}

fn show_hash(label: &[u8], n: Result<u64, Refusal>) {
    match n {
        Ok(x) => show(label, x, 8),
        Err(e) => show(label, error::number_of(e) as u64, 1),
    }
}

pub fn hashes() {
    show_hash(b"hash of the empty name", name_hash::name_hash(b"", true));
    show_hash(
        b"length and hash of the empty name",
        name_hash::name_len_and_hash(b"", true),
    );
    show_hash(
        b"hash of a name beyond ASCII",
        name_hash::name_hash(b"\xC3\xA4", true),
    );
}
