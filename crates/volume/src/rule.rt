// How a volume compares names, and which form its directory keys have (fs.rs, `NameRule`).
ghost use Rattle.std.specs.Prelude.{◌≡◌};
ghost use Rattle.volume.specs.Rule.{rule_of, insensitive, hashed_keys};

use crate::Volume;

#[derive(Clone, Copy)]
pub struct NameRule {
    pub case_insensitive: bool,
    pub normalization_insensitive: bool,
}

pub fn name_rule(v: Volume) -> NameRule
    ensures { result ≡ rule_of v }
{
    let sb = v.sb;
    NameRule {
        case_insensitive: sb.incompat % 2 == 1,
        normalization_insensitive: sb.incompat / 8 % 2 == 1,
    }
}

// Whether names with other bytes may be the same.
pub fn insensitive(rule: NameRule) -> bool
    ensures { result ≡ insensitive rule }
{
    if rule.case_insensitive {
        return true;
    }
    rule.normalization_insensitive
}

// Whether directory keys hold a hash of the name.
pub fn hashed_keys(v: Volume) -> bool
    ensures { result ≡ hashed_keys v }
{
    insensitive(name_rule(v))
}
