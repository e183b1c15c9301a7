// The part of an image that everything reads.
ghost use Rattle.std.specs.Prelude.{◌≡◌};
ghost use Rattle.gpt.specs.Part.{part_of_image};

use crate::small::SmallImage;
use byte_fields::{Span, four};
use error::Refusal;

#[tactic(auto, using(crate::proofs::Part::parts), unfolding(crate::specs::Part::part_of_image, error::specs::Answer::if_le, error::specs::Answer::if_eq))]
pub fn part_of_image(image: &[u8]) -> Result<Span, Refusal>
    ensures { result ≡ part_of_image image.now }
{
    if 17179869184 < image.len() {
        return Err(Refusal::ImageTooLarge);
    }
    if image.len() < 4096 {
        return Err(Refusal::Io);
    }
    if four(image, 32) == 0x4253584E {
        return Ok(Span {
            start: 0,
            len: image.len(),
        });
    }
    let small = SmallImage { bytes: image };
    let t = small.table_of()?;
    small.entry_in(t)
}
