//! Laws of the definitions that the contracts cite. Each function does nothing: its contract is the law.
ghost use Rattle.std.specs.Prelude.{◌≡◌};
ghost use Rattle.sng_questions.specs.Publishing.{PublishersAreFound};
ghost use Rattle.sng_questions.specs.ShortNames.{ShortNamesAreFound};
ghost use Rattle.sng_questions.specs.declared.limits.TheConstants.{MAX_SHOWN};
ghost use Rattle.sng_questions.specs.declared.short_name.TheConstants.{SHORT_NAME};

/// The limits in numbers.
pub fn limits()
    ensures shown { MAX_SHOWN ≡ 200 }
    ensures short_name { SHORT_NAME ≡ 2 }
{}

/// A filter is found to match a short topic name exactly where it matches one.
pub fn short_names_are_found()
    ensures { ShortNamesAreFound }
{}

/// The pairs of a scope are found to let a source publish exactly where they grant a name that it can say.
pub fn publishers_are_found()
    ensures { PublishersAreFound }
{}
