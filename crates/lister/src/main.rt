// The lister: an image of at most 65,536 bytes on standard input, the listing of its volume 0 on standard output. Document 01, "The listing (added)".
#![tactic(auto)]

use byte_fields::{Span, part};
use checkpoints::Choice;
use error::{Refusal, number_of};
use gpt::part_of_image;
use listing::list_text;
use volume::Which;

fn print_refusal(e: Refusal) {
    io::write_all(1, b"(refused ");
    io::print_decimal(1, number_of(e) as u64);
    io::write_all(1, b")\n");
}

fn print_listing(p: Result<usize, Refusal>, out: &[u8]) {
    match p {
        Ok(n) => {
            io::write_all(1, part(out, Span { start: 0, len: n }));
        }
        Err(e) => print_refusal(e),
    }
}

fn main() {
    let mut image = [0u8; 65537];
    let n = io::read_full(0, &mut image);
    if 65536 < n {
        print_refusal(Refusal::ImageTooLarge);
        return;
    }
    let stick = &image[..n];
    let mut out = [0u8; 65536];
    match part_of_image(stick) {
        Ok(s) => {
            let p = list_text(
                part(stick, s),
                Which {
                    checkpoint: Choice::Latest,
                    index: 0,
                },
                &mut out,
            );
            let at = p.answer;
            print_listing(at, &out);
        }
        Err(e) => print_refusal(e),
    }
}
