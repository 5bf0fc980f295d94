// Of the SSNs passed so far the one to keep: the lowest, or the highest.
#![tactic(auto)]

ghost use Rattle.std.specs.Prelude.{◌≡◌, cond};
ghost use Rattle.serial_model.specs.Serial.{before};

// The lower of two SSNs, the first of them on a tie; the second where there is no first.
pub fn lower(found: bool, kept: u16, ssn: u16) -> u16
    ensures { result ≡ cond found (cond (before 16 ssn kept) ssn kept) ssn }
{
    if !found {
        return ssn;
    }
    if serial_ssns::sna16lt(ssn, kept) {
        return ssn;
    }
    kept
}

// The higher of two SSNs, the first of them on a tie; the second where there is no first.
pub fn higher(found: bool, kept: u16, ssn: u16) -> u16
    ensures { result ≡ cond found (cond (before 16 kept ssn) ssn kept) ssn }
{
    if !found {
        return ssn;
    }
    if serial_ssns_after::sna16gt(ssn, kept) {
        return ssn;
    }
    kept
}
