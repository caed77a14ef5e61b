//! Client ids by their bytes: equal where these are, in their order, and hashed by them, so that client ids
//! are keys of maps.
ghost use Rattle.std.specs.Prelude.{◌≡◌, Some, nat_eq, refl};
ghost use Rattle.std.proofs.Common.{rules};
ghost use Rattle.std.specs.Cmp.Rules.{hashing};
ghost use Rattle.std.specs.Hash as fed;
ghost use Rattle.std.specs.Ordering.{nat_cmp};
ghost use Rattle.std.specs.Cmp.{partial_equiv_from_equiv};
ghost use Rattle.std.specs.Cmp.Lexicographic.{pointwise, slice_cmp, nat_list_eq_equiv, nat_list_cmp_total};
ghost use Rattle.std.specs.Cmp.Lexicographic.{texts_ties, texts_po};

use crate::ClientId;
use std::cmp::Ordering;
use std::hash::{Hash, Hasher};

impl PartialEq for ClientId {
    ghost eq = { λ i j. pointwise nat_eq i j };

    ghost laws = { partial_equiv_from_equiv nat_list_eq_equiv };

    fn eq(&self, other: &ClientId) -> bool {
        self.text() == other.text()
    }
}

impl Eq for ClientId {
    ghost laws = { nat_list_eq_equiv };
}

impl PartialOrd for ClientId {
    ghost partial_cmp = { λ i j. Some (slice_cmp nat_cmp i j) };

    ghost laws = { texts_po };

    fn partial_cmp(&self, other: &ClientId) -> Option<Ordering> {
        Some(self.cmp(other))
    }
}

impl Ord for ClientId {
    ghost cmp = { λ i j. slice_cmp nat_cmp i j };

    ghost total = { nat_list_cmp_total };

    ghost matches_partial_cmp = { λ i j. refl };

    ghost matches_eq = { λ i j. texts_ties i j };

    /// Most ids differ in their first sixteen bytes, and those are one number: no loop, whose end a processor
    /// does not foresee.
    #[tactic(auto, using(crate::proofs::FrontLemmas::front_decides))]
    fn cmp(&self, other: &ClientId) -> Ordering {
        let (one, two) = (self.front(), other.front());
        if one != two {
            return one.cmp(&two);
        }
        ordered(self.text(), other.text())
    }
}

/// The first octet that is not the same decides, and else the lengths do. Ids are short, so octet by octet is
/// faster than in groups where their fronts are the same.
fn ordered(one: &[u8], two: &[u8]) -> Ordering
    ensures { result ≡ slice_cmp nat_cmp one.now two.now }
{
    for at in 0..one.len().min(two.len()) {
        if one[at] != two[at] {
            return one[at].cmp(&two[at]);
        }
    }
    one.len().cmp(&two.len())
}

impl Hash for ClientId {
    ghost hash_input = { fed.slice fed.u8 };

    ghost respects_eq = { Prim.search (hashing, rules) };

    fn hash<H: Hasher>(&self, state: &mut H) {
        self.text().hash(state);
    }
}
