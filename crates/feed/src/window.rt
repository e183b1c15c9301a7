// The bytes that came and are not written yet: at most 4, which decide the piece that they begin with.
ghost use Rattle.std.specs.Prelude.{◌≡◌, [], ◌∷◌, ◌++◌, ◌-◌, ◌≤◌, ◌<◌, min, length, drop};
ghost use Rattle.feed.specs.Fed.{waiting};

#[derive(Clone, Copy)]
pub struct Window {
    pub bytes: [u8; 4],
    pub len: usize,
}

pub fn empty() -> Window
    ensures { waiting result ≡ [] }
{
    let bytes = [0; 4];
    Window {
        bytes: bytes,
        len: 0,
    }
}

// How many bytes wait: in a window that nobody here made, no more than there are.
pub fn count(w: Window) -> usize
    ensures { result ≡ min w.len (length w.bytes) }
{
    w.len.min(w.bytes.len())
}

// One byte more.
#[tactic(auto, using(crate::proofs::Windows::one_more))]
pub fn with(w: Window, b: u8) -> Window
    requires { w.len < 4 }
    ensures { waiting result ≡ waiting w ++ (b ∷ []) }
{
    let mut bytes = w.bytes;
    bytes[w.len] = b;
    Window {
        bytes: bytes,
        len: w.len + 1,
    }
}

// A full window without its first n bytes.
pub fn without(w: Window, n: usize) -> Window
    requires { n ≤ 4 }
    ensures { (waiting result ≡ drop n w.bytes) × (result.len ≡ 4 - n) }
{
    let mut bytes = w.bytes;
    bytes[..4 - n].copy_from_slice(&w.bytes[n..]);
    Window {
        bytes: bytes,
        len: 4 - n,
    }
}
