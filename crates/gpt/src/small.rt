// An image of 16 GiB at most: no place in it passes 64 bits.
ghost use Rattle.std.specs.Prelude.{◌^◌, ◌≤◌, length};

#[derive(Clone, Copy)]
pub struct SmallImage<'a> {
    pub bytes: &'a [u8],
    ghost small: { length bytes.now ≤ 2 ^ 34 },
}
