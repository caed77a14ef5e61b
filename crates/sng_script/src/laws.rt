//! Laws of the definitions that the contracts cite. Each function does nothing: its contract is the law.
ghost use Rattle.std.specs.Prelude.{◌≡◌};
ghost use Rattle.sng_script.specs.Laws.{NumbersAreDecimal, PortsAreDecimal};
ghost use Rattle.sng_script.specs.declared.limits.TheConstants.{MAX_READS, MAX_LINE};

/// The limits in numbers.
pub fn limits()
    ensures reads { MAX_READS ≡ 1000000 }
    ensures line { MAX_LINE ≡ 268435456 }
{}

/// Each port is read from its decimal digits.
pub fn ports_are_decimal()
    ensures { PortsAreDecimal }
{}

/// So is each number of 64 bits, as a clock.
pub fn numbers_are_decimal()
    ensures { NumbersAreDecimal }
{}
