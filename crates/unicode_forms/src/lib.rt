// The Unicode data of the characters that keys cover, and the theory of keys (specs, proofs).
#![tactic(auto)]

ghost use Rattle.std.specs.Prelude.{◌≡◌};
ghost use Rattle.unicode_forms.specs.Data.{class_of};

// The combining class of a character.
#[tactic(auto, unfolding(crate::specs::Data::class_of, utf8::specs::Text::if_in, error::specs::Answer::if_le))]
pub fn class_of(c: u32) -> u32
    ensures { result ≡ class_of c }
{
    match c {
        0x0300..=0x030C => 230,
        0x0327..=0x0328 => 202,
        _ => 0,
    }
}
