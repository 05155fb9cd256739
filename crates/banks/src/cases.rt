// Worked cases of banks.
ghost use Rattle.banks.specs.Cases.{AllHold, bank_cases};

// The worked cases hold.
pub fn bank_cases_hold()
    ensures { AllHold bank_cases }
{}
