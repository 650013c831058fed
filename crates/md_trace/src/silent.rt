// The sink that keeps nothing.
ghost use Rattle.std.specs.Prelude.{ℕ, List, ◌∷◌};
ghost use Rattle.md_trace.specs.declared.event.Event.{Event};
ghost use Rattle.md_trace.specs.PortHistory.{SiteTable, IsPortHistory};

use crate::port_sink::PortSink;
use md_base::{NoMemory, ProcId, SiteId};

/// A sink that keeps nothing, and so stands for every port history.
#[derive(Clone, Copy, Default)]
pub struct Silent;

impl PortSink for Silent {
    type Mark = ();

    ghost stands_for = { λ s t h. IsPortHistory t h };

    ghost belongs = { λ m t h a. Unit {0} };

    ghost alike = { λ s u. Unit {0} };

    fn call(&mut self, _site: Option<SiteId>, _callee: ProcId) -> Result<(), NoMemory> {
        Ok(())
    }

    fn exit(&mut self, _mark: &()) {}

    fn redo(&mut self, _mark: &()) {}

    fn fail(&mut self, _mark: &()) {}

    fn excp(&mut self, _mark: &()) {}

    fn alloc(&mut self, _words: u32) {}

    ghost is_history = { λ s t h p. p };

    ghost alike_self = { λ s. tt };

    ghost alike_on = { λ s t u p q. tt };

    ghost stays = { λ m t h e a p b. tt };
}
