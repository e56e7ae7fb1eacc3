//! What statements stand in.
ghost use Rattle.std.specs.Prelude.{◌≡◌};

use crate::records::Records;
use std::alloc::Global;
use vurloske_items::environment::Environment;
use vurloske_names::modes::Mode;

/// What the blocks around a statement say: what is assumed, and in which mode goals are asked.
pub struct Scene {
    pub environment: Environment,
    pub mode: Mode,
}

impl Drop for Scene {
    fn drop(self) {
        let Scene {
            environment: _,
            mode: _,
        } = self;
    }
}

impl Scene {
    /// Outside of blocks.
    pub fn outermost(alloc: Global) -> Scene {
        Scene {
            environment: Environment::empty(alloc),
            mode: Mode::outermost(alloc),
        }
    }
}

/// What goes on from statement to statement: the limit on the depth, and what the last goal recorded.
pub struct Progress {
    pub limit: u32,
    pub records: Records,
}

impl Drop for Progress {
    fn drop(self) {
        let Progress {
            limit: _,
            records: _,
        } = self;
    }
}

/// The limit on the depth before one is said.
const FIRST_LIMIT: u32 = 128;

impl Progress {
    /// Before the first statement.
    pub fn new(alloc: Global) -> Progress
        ensures { result.limit ≡ 128 }
    {
        Progress {
            limit: FIRST_LIMIT,
            records: Records::new(alloc),
        }
    }
}
