// What is said of an object by its bytes alone.
ghost use Rattle.std.specs.Prelude.{◌≡◌};
ghost use Rattle.wrong_word.specs.Mends.{mends_of, mends_in};
ghost use Rattle.results.specs.Call.{number};

// Every single word whose replacement makes a failing object valid, 12 bytes an entry; the result is how many.
#[unsafe(no_mangle)]
pub extern "C" fn apfs_wrong_words(object: &[u8], out: &mut [u8]) -> i64
    ensures { (result ≡ number (mends_in (mends_of object.now) out.old).answer) × (out.new ≡ (mends_in (mends_of object.now) out.old).buffer) }
{
    apfs::apfs_wrong_words(object, out)
}
