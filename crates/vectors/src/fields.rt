// Numbers of the bytes 1 to 10, at every offset.
use error::Refusal;

fn show(n: Result<u64, Refusal>) {
    match n {
        Ok(x) => {
            io::write_all(1, b" ");
            io::print_hex(1, x, 1);
        }
        Err(e) => {
            io::write_all(1, b" (");
            io::print_decimal(1, error::number_of(e) as u64);
            io::write_all(1, b")");
        }
    }
}

fn show_at(off: usize, width: u8) {
    let b = b"\x01\x02\x03\x04\x05\x06\x07\x08\x09\x0A";
    match width {
        2 => show(byte_fields::u16_at(b, off).map(|x| x as u64)),
        4 => show(byte_fields::u32_at(b, off).map(|x| x as u64)),
        _ => show(byte_fields::u64_at(b, off)),
    }
}

fn show_all(width: u8) {
    for off in 0..12 {
        show_at(off, width);
    }
    show_at(18446744073709551615, width);
}

fn row(label: &[u8], width: u8) {
    io::write_all(1, label);
    show_all(width);
    io::write_all(1, b"\n");
}

pub fn boundaries() {
    row(b"u16:", 2);
    row(b"u32:", 4);
    row(b"u64:", 8);
}
