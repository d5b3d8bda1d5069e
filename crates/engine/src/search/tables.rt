// Whether tables that are lent can be read: their sizes, and that the entries are codes. Whose they are is not found out here.
ghost use Rattle.std.specs.Prelude.{◌≡◌};
ghost use Rattle.formula.specs.Causes.{any};
ghost use Rattle.engine.specs.Private.Prepared.{no_code, tables_fit};

use formula::Formula;

pub(crate) fn fit(codes: &[u16], places: usize) -> bool
    ensures { result ≡ tables_fit codes.now places }
{
    if codes.len() > Formula::ENTRIES {
        return false;
    }
    if places != index::SIZE {
        return false;
    }
    if has_other(codes) {
        return false;
    }
    true
}

// Whether a number is no code. A loop with one way out, so that the compiler looks at several entries at once.
fn has_other(codes: &[u16]) -> bool
    ensures { result ≡ any no_code codes.now }
{
    let mut found = false;
    for code in codes {
        if is_other(*code) {
            found = true;
        }
    }
    found
}

fn is_other(code: u16) -> bool
    ensures { result ≡ no_code code }
{
    let c = usize::from(code);
    if c == 1 {
        return true;
    }
    c > codes::LAST_CODE
}
