// What the lines of a listing count for: document 02, request 08.
#![tactic(auto)]

ghost use Rattle.std.specs.Prelude.{◌≡◌, ◌≤◌, length, ◌+◌, ◌-◌};
ghost use Rattle.totals.specs.Totals.{line_length, line_totals, totals_of};
ghost use Rattle.totals.specs.Inner.{has_lf};

#[derive(Clone, Copy)]
pub struct Totals {
    pub nodes: u64,
    pub bytes: u64,
    pub attrs: u64,
}

#[tactic(auto, using(crate::proofs::Turns::by_start, crate::proofs::Turns::data_long))]
fn line_totals(line: &[u8]) -> Totals
    ensures { result ≡ line_totals line.now }
{
    if line.starts_with(b"(node ") {
        return Totals {
            nodes: 1,
            bytes: 0,
            attrs: 0,
        };
    }
    if line.starts_with(b"(attr ") {
        return Totals {
            nodes: 0,
            bytes: 0,
            attrs: 1,
        };
    }
    if line.starts_with(b"(data x") {
        return Totals {
            nodes: 0,
            bytes: ((line.len() - 7) / 2) as u64,
            attrs: 0,
        };
    }
    Totals {
        nodes: 0,
        bytes: 0,
        attrs: 0,
    }
}

// Whether there is an LF. Every byte is looked at, so that many are taken at a time.
fn has_lf(b: &[u8]) -> bool
    ensures { result ≡ has_lf b.now }
{
    let mut any = false;
    for x in b {
        if *x == b'\n' {
            any = true;
        }
    }
    any
}

// What is left of the text once blocks of 64 bytes are passed, as long as none of them has an LF.
fn past_blocks(text: &[u8]) -> &[u8]
    ensures { (length result.now ≤ length text.now) × (line_length text.now ≡ length text.now - length result.now + line_length result.now) }
{
    let mut rest = text;
    while 64 <= rest.len() {
        let (block, after) = rest.split_at(64);
        if has_lf(block) {
            return rest;
        }
        rest = after;
    }
    rest
}

// Where the first line ends: at its LF, or where the text does.
fn line_end(text: &[u8]) -> usize
    ensures { result ≡ line_length text.now }
{
    let rest = past_blocks(text);
    let within = rest.iter().position(|x| *x == b'\n');
    text.len() - rest.len() + within.unwrap_or(rest.len())
}

#[tactic(auto, using(crate::proofs::Turns::turns))]
pub fn totals_in(text: &[u8]) -> Totals
    ensures { result ≡ totals_of text.now }
{
    let mut t = Totals {
        nodes: 0,
        bytes: 0,
        attrs: 0,
    };
    let mut rest = text;
    while !rest.is_empty() {
        let end = line_end(rest);
        let l = line_totals(&rest[..end]);
        t = Totals {
            nodes: t.nodes + l.nodes,
            bytes: t.bytes + l.bytes,
            attrs: t.attrs + l.attrs,
        };
        rest = &rest[rest.len().min(end + 1)..];
    }
    t
}
