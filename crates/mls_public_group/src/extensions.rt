//! The extensions that a group carries after the proposals of a commit (RFC 9420, 12.1.7).

ghost use Rattle.std.specs.Prelude.{◌≡◌, ◌≤◌, ◌^◌, [], ◌∷◌, true, length};
ghost use Rattle.mls_leaf.specs.GroupExtensions.{group_extensions, is_short};
ghost use Rattle.mls_model.specs.Proposals.{extensions_after, extension_lists};
ghost use Rattle.mls_public_group.specs.Short.{IsBelow};

use crate::group::PublicGroup;
use crate::used_proposal::Used;
use mls_leaf::{GroupExtensions, Proposal};

/// How many lists of extensions a proposal has: 1 or 0.
fn lists_in(used: &Used<'_>) -> usize
    ensures counted { result ≡ length (extension_lists (used.now ∷ [])) }
    ensures few { result ≤ 1 }
{
    match used.proposal {
        Proposal::GroupContextExtensions(_) => 1,
        _ => 0,
    }
}

/// How many lists of extensions the proposals have, whoever their senders are.
pub(crate) fn count_lists(used: &[Used<'_>]) -> usize
    ensures { result ≡ length (extension_lists used.now) }
{
    let mut count = 0;
    for one in used {
        count += lists_in(one);
    }
    count
}

impl PublicGroup {
    /// The extensions that the group carries after these proposals: those of the first list among them, or its own
    /// where there is none (RFC 9420, 12.1.7).
    pub fn extensions_after<'a>(&'a self, used: &[Used<'a>]) -> &'a GroupExtensions
        ensures { result.now ≡ extensions_after self.now.context.extensions used.now }
    {
        for one in used {
            if let Proposal::GroupContextExtensions(list) = one.proposal {
                return list;
            }
        }
        &self.context.extensions
    }
}

/// A law: a list that fits into an input has a spelling, of fewer than 2^27 bytes.
pub fn know_short_list(list: &GroupExtensions)
    requires { is_short list.now ≡ true }
    ensures { IsBelow (2 ^ 27) group_extensions list.now }
{
    let _entries = list.as_slice();
}
