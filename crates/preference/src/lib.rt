// Preferences: for each number the value that is tried first. They come from the bytes that the caller lends or, where none is lent, from
// the house rule. `preference` promises the value that the definition `prefer` gives, for all bytes and numbers. That the rule is 01's entry
// for every number is stated in specs/HouseRule.antt.
#![tactic(auto)]

ghost use Rattle.std.specs.Prelude.{◌≡◌};
ghost use Rattle.preference.specs.Preference.{house as house_value, prefer};

// Preference i, as a value: true for 1.
pub fn preference(lent: &[u8], i: usize) -> bool
    ensures { result ≡ prefer lent.now i }
{
    if lent.len() == 0 {
        return house(i);
    }
    lent[i % lent.len()] % 2 == 1
}

// The house rule: the parity of the ones in the remainder of i by 256.
fn house(i: usize) -> bool
    ensures { result ≡ house_value i }
{
    usize::count_ones(i % 256) % 2 == 1
}
