// Runs vectors of public documents over the leaves and prints what they give. The file `stdout` has what the documents say.
#![tactic(auto)]

mod fields;
mod sums;
mod texts;

fn main() {
    sums::crc();
    sums::fletcher();
    sums::hashes();
    texts::subparts();
    fields::boundaries();
}
