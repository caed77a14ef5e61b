//! Laws of the definitions that the contracts cite. Each function does nothing: its contract is the law.
ghost use Rattle.sng_places.specs.Laws.{PlacesAreOfFaults, TestsAreInOrder};
ghost use Rattle.sng_places.specs.Standing.{FaultsStand, ValuesStand};

/// A place is found exactly where `sng_scope::read_policy` answers a fault, and what is wrong there is of
/// that fault.
pub fn places_are_of_faults()
    ensures { PlacesAreOfFaults }
{}

/// The search goes through the tests of a policy in the documented order, which `specs/Order` lists, and ends
/// at the first that fails: everything before it passes.
pub fn tests_are_in_order()
    ensures { TestsAreInOrder }
{}

/// Each value that is tested is the one that stands at the place of its test.
pub fn values_stand()
    ensures { ValuesStand }
{}

/// What is found of a text that is JSON: the value that stands at the place has the flaw, and every test
/// before it passes.
pub fn faults_stand()
    ensures { FaultsStand }
{}
