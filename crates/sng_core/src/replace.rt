//! Another policy comes into force (MQTT-SN 1.2, 6.9).
ghost use Rattle.std.specs.Prelude.{◌≡◌, IfOk, OnOk, OnErr};
ghost use Rattle.sng_grants.specs.Ends.{in_force};
ghost use Rattle.sng_history.specs.Causes.{ByReplace};
ghost use Rattle.sng_history.specs.Good.{Good};
ghost use Rattle.sng_history.specs.Steps.{outs_by, next_by};

use crate::parts::Parts;
use sng_book::OutsPair;
use sng_grants::Policy;
use sng_policy::InForce;
use std::alloc::{AllocError, Global};

impl Parts {
    /// The policy is in force, but for what of it has ended by the clock. The subscriptions end that it does not
    /// allow then, each client's in order of first standing; of a filter that stands for nobody any more the
    /// broker is told where there is place. An `Err` is a failed allocation, and nothing changed.
    pub fn replace(&mut self, alloc: Global, policy: Policy) -> Result<OutsPair, AllocError>
        requires { Good self.old }
        ensures outs { IfOk result (λ outs.
            outs ≡ outs_by self.old (ByReplace (in_force self.old.clock policy))) }
        ensures next { OnOk result
            (self.new ≡ next_by self.old (ByReplace (in_force self.old.clock policy))) }
        ensures err { OnErr result (self.new ≡ self.old) }
    {
        let policy = InForce::at(policy, self.clock);
        let outs = sng_endings::replace(
            alloc,
            &mut self.policy,
            policy,
            &mut self.sessions,
            &mut self.link,
        )?;
        Ok(outs)
    }
}
