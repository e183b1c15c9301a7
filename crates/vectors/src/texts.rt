// Unicode Standard, chapter 3, Tables 3-8 to 3-11: which parts of an ill-formed text U+FFFD stands for.
ghost use Rattle.std.specs.Prelude.{◌≤◌, ◌<◌, length};

use utf8::Piece;

// Where the next piece starts: on from `at`, and not past the end.
fn past(at: usize, n: usize, end: usize) -> usize
    requires { at < end }
    ensures { (at < result) × (result ≤ end) }
{
    if n == 0 {
        return end;
    }
    if n <= end - at {
        return at + n;
    }
    end
}

// Prints a piece's size, an ill-formed one's behind an x, and answers where the next starts.
fn show_piece(text: &[u8], at: usize) -> usize
    requires { at < length text.now }
    ensures { (at < result) × (result ≤ length text.now) }
{
    match utf8::next(&text[at..]) {
        Piece::End => text.len(),
        Piece::WellFormed(n) => {
            io::write_all(1, b" ");
            io::print_decimal(1, n as u64);
            past(at, n, text.len())
        }
        Piece::IllFormed(n) => {
            io::write_all(1, b" x");
            io::print_decimal(1, n as u64);
            past(at, n, text.len())
        }
    }
}

fn show_pieces(text: &[u8]) {
    let mut at = 0;
    while at < text.len() {
        at = show_piece(text, at);
    }
}

fn table(label: &[u8], text: &[u8]) {
    io::write_all(1, label);
    show_pieces(text);
    io::write_all(1, b"\n");
}

pub fn subparts() {
    table(b"table 3-8:", b"\xC0\xAF\xE0\x80\xBF\xF0\x81\x82\x41");
    table(b"table 3-9:", b"\xED\xA0\x80\xED\xBF\xBF\xED\xAF\x41");
    table(b"table 3-10:", b"\xF4\x91\x92\x93\xFF\x41\x80\xBF\x42");
    table(b"table 3-11:", b"\xE1\x80\xE2\xF0\x91\x92\xF1\xBF\x41");
}
