//! Equal wills and stages, in memory of their own. Only memory can fail.
ghost use Rattle.std.specs.Prelude.{◌≡◌, IfOk};

use crate::{Stage, StatedTopic, Will};
use std::alloc::AllocError;

impl Will {
    /// An equal will, in memory of its own. Only memory can fail.
    pub(crate) fn copy(&self) -> Result<Will, AllocError>
        ensures { IfOk result (λ will. will ≡ self.now) }
    {
        Ok(Will {
            topic: self.topic.copy()?,
            payload: self.payload.copy()?,
            qos: self.qos,
            retain: self.retain,
        })
    }
}

impl StatedTopic {
    /// What states the same, in memory of its own. Only memory can fail.
    pub(crate) fn copy(&self) -> Result<StatedTopic, AllocError>
        ensures { IfOk result (λ stated. stated ≡ self.now) }
    {
        Ok(StatedTopic {
            topic: self.topic.copy()?,
            qos: self.qos,
            retain: self.retain,
        })
    }
}

impl Stage {
    /// The same stage, in memory of its own. Only memory can fail.
    pub(crate) fn copy(&self) -> Result<Stage, AllocError>
        ensures { IfOk result (λ stage. stage ≡ self.now) }
    {
        match self {
            Stage::Closed => Ok(Stage::Closed),
            Stage::TopicAwaited => Ok(Stage::TopicAwaited),
            Stage::MessageAwaited(stated) => Ok(Stage::MessageAwaited(stated.copy()?)),
        }
    }
}
