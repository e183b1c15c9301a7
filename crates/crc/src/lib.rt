// A reflected CRC of 32 bits, by a table of words; the polynomial is the table's.
#![tactic(auto)]

ghost use Rattle.std.specs.Prelude.{◌≡◌, ◌≤◌, length};
ghost use Rattle.crc.specs.Tabled.{step_by, crc_by};

// The register after one more byte.
#[tactic(auto, unfolding(crate::specs::Tabled::step_by))]
pub fn byte_step(table: &[u32], register: u32, byte: u8) -> u32
    requires { 256 ≤ length table.now }
    ensures { result ≡ step_by table.now register byte }
{
    let x = register ^ (byte as u32);
    table[(x % 256) as usize] ^ (x / 256)
}

// The register after the bytes.
#[tactic(auto, unfolding(crate::specs::Tabled::crc_by))]
pub fn crc_of(table: &[u32], register: u32, b: &[u8]) -> u32
    requires { 256 ≤ length table.now }
    ensures { result ≡ crc_by table.now register b.now }
{
    b.iter().fold(register, |c, x| byte_step(table, c, *x))
}
