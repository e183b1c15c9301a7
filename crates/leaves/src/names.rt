// name_hash.rs. A refusal is 2^32 + 9.
ghost use Rattle.std.specs.Prelude.{◌≡◌};
ghost use Rattle.name_hash.specs.Hash.{name_hash, name_len_and_hash};
ghost use Rattle.leaves.specs.Leaves.{value_or, is_not0};

#[unsafe(no_mangle)]
pub extern "C" fn leaf_hash(name: &[u8], insensitive: u64) -> u64
    ensures { result ≡ value_or 4294967305 (name_hash (is_not0 insensitive) name.now) }
{
    name_hash::name_hash(name, insensitive != 0).unwrap_or(4294967305)
}

#[unsafe(no_mangle)]
pub extern "C" fn leaf_len_and_hash(name: &[u8], insensitive: u64) -> u64
    ensures { result ≡ value_or 4294967305 (name_len_and_hash (is_not0 insensitive) name.now) }
{
    name_hash::name_len_and_hash(name, insensitive != 0).unwrap_or(4294967305)
}
