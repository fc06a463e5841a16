//! The phase of a session, and what changes it (LSP 3.17, "Server lifecycle").
ghost use Rattle.std.specs.Prelude.{◌≡◌, IfOk, option_map, unwrap_or};
ghost use Rattle.serde_json.specs.View.{view};
ghost use Rattle.pq_session.specs.Session.{exit_status, phase_after, root_in};

use crate::protocol::methods::RequestMethod;
use crate::protocol::params::text_member;
use crate::protocol::root::Root;
use serde_json::Value;
use std::alloc::{AllocError, Global};

/// The phase of a session.
#[derive(Debug, Drop)]
pub(crate) enum Phase {
    /// Before `initialize`.
    Fresh,
    /// Between `initialize` and `shutdown`, with the root that `initialize` gave.
    Serving(Root),
    /// After `shutdown`.
    Closing,
}

impl Phase {
    /// The root, between `initialize` and `shutdown`.
    pub(crate) fn root(&self) -> Option<&Root>
        ensures { option_map (λ root. root.now) result ≡ root_in self.now }
    {
        match self {
            Phase::Serving(root) => Some(root),
            Phase::Fresh | Phase::Closing => None,
        }
    }

    /// The status of a session that `exit` ends in this phase.
    pub(crate) fn exit_status(&self) -> u8
        ensures { result ≡ exit_status self.now }
    {
        match self {
            Phase::Closing => 0,
            Phase::Fresh | Phase::Serving(_) => 1,
        }
    }

    /// The phase after a request, or `None` if the phase stays.
    pub(crate) fn after(
        &self,
        alloc: Global,
        method: Option<RequestMethod>,
        params: Option<&Value>,
    ) -> Result<Option<Phase>, AllocError>
        ensures { IfOk result (λ next. unwrap_or next self.now
            ≡ phase_after self.now method (option_map (λ d. view d.now) params.entry)) }
    {
        match (self, method) {
            (Phase::Fresh, Some(RequestMethod::Initialize)) => {
                let root = Root::of(alloc, text_member(params, "rootUri"))?;
                Ok(Some(Phase::Serving(root)))
            }
            (Phase::Serving(_), Some(RequestMethod::Shutdown)) => Ok(Some(Phase::Closing)),
            _ => Ok(None),
        }
    }
}
