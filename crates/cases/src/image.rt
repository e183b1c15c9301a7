// An image is kept as the parts of it that are not zeros, or not as in the image before: each is how many bytes stand before
// it and how many it has (4 bytes each), then its bytes.
use byte_fields::{Span, part};
use text::{clear, put_all};

// Where the part at `from` of the parts ends, and where the image goes on behind it.
#[derive(Clone, Copy)]
struct Laid {
    from: usize,
    to: usize,
}

fn sum(a: usize, b: usize) -> usize {
    if b <= 18446744073709551615 - a {
        return a + b;
    }
    18446744073709551615
}

fn lay(parts: &[u8], image: &mut [u8], from: usize, to: usize) -> Laid {
    let before = byte_fields::u32_at(parts, from).unwrap_or(0) as usize;
    let len = byte_fields::u32_at(parts, sum(from, 4)).unwrap_or(0) as usize;
    let start = sum(from, 8);
    let at = sum(to, before);
    let room = image.len();
    let _ = put_all(
        image,
        room,
        Ok(at),
        part(
            parts,
            Span {
                start: start,
                len: len,
            },
        ),
    );
    Laid {
        from: sum(start, len),
        to: sum(at, len),
    }
}

// Zeros, where nothing is kept of the image before.
pub fn wiped(image: &mut [u8], kept: u64) {
    if kept != 0 {
        return;
    }
    clear(image);
}

// Writes the parts.
pub fn laid_out(parts: &[u8], image: &mut [u8]) {
    let mut from = 0;
    let mut to = 0;
    while from < parts.len() {
        let laid = lay(parts, image, from, to);
        if laid.from <= from {
            return;
        }
        from = laid.from;
        to = laid.to;
    }
}
