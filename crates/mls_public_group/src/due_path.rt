//! Whether a commit has to have a path.

ghost use Rattle.std.specs.Prelude.{◌≡◌};
ghost use Rattle.std.specs.List.{list_any};
ghost use Rattle.mls_model.specs.Proposals as proposals;
ghost use Rattle.mls_model.specs.PublicState as model;

use crate::used_proposal::Used;
use mls_leaf::Proposal;

/// Whether a proposal asks for a path: each but an add (RFC 9420, 17.4).
fn asks_for_path(proposal: &Proposal) -> bool
    ensures { result ≡ proposals.asks_for_path proposal.now }
{
    !matches!(proposal, Proposal::Add(_))
}

/// Whether one of them asks for a path.
fn any_asks_for_path(used: &[Used<'_>]) -> bool
    ensures { result ≡ list_any (λ (u : model.Used). proposals.asks_for_path u.proposal) used.now }
{
    used.iter().any(|u| asks_for_path(u.proposal))
}

/// Whether a commit of these has to have a path: there are none, or one asks for it (RFC 9420, 12.4).
#[tactic(auto, unfolding(mls_model::specs::Proposals::is_path_required))]
pub fn is_path_required(used: &[Used<'_>]) -> bool
    ensures { result ≡ proposals.is_path_required used.now }
{
    if used.is_empty() {
        return true;
    }
    any_asks_for_path(used)
}
