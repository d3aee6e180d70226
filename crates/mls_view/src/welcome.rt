//! Views of welcomes (RFC 9420, 12.4.3.1).

ghost use Rattle.mls_types.specs.Welcome.{welcome};
ghost use Rattle.mls_view.specs.Views.{LendsView, OwnsShown};
ghost use Rattle.mls_view.specs.Shown.{ShowsWelcome};

use crate::part::Part;
use mls_leaf::{Items, LeafError};
use mls_types::{EncryptedGroupSecrets, Welcome};
use mls_wire::Reader;
use std::alloc::Global;

/// What a committer sends to new members (RFC 9420, 12.4.3.1), lent from the message's bytes.
#[derive(Drop)]
pub struct WelcomeView<'a> {
    /// The cipher suite's number.
    pub cipher_suite: u16,
    /// An entry for each new member.
    pub secrets: Part<'a, Items<EncryptedGroupSecrets>>,
    /// The sealed GroupInfo.
    pub encrypted_group_info: &'a [u8],
    /// All of the welcome.
    pub whole: Part<'a, Welcome>,
}

/// The welcome at the front. It makes no value and takes no memory.
#[tactic(auto, using(mls_leaf::proofs::Codecs::codecs), unfolding(mls_types::specs::Welcome::welcome))]
pub(crate) fn read_welcome<'a>(reader: &mut Reader<'a>) -> Result<WelcomeView<'a>, LeafError>
    ensures { LendsView welcome ShowsWelcome reader.old result reader.new }
{
    let before = reader.rest();
    let cipher_suite = reader.u16()?;
    let secrets = Part::<Items<EncryptedGroupSecrets>>::read(reader)?;
    let encrypted_group_info = reader.opaque()?;
    let whole = Part::of(before, reader.rest());
    Ok(WelcomeView {
        cipher_suite,
        secrets,
        encrypted_group_info,
        whole,
    })
}

impl<'a> WelcomeView<'a> {
    /// The welcome itself, or want of memory.
    pub fn to_owned(&self, alloc: Global) -> Result<Welcome, LeafError>
        ensures { OwnsShown ShowsWelcome self.now result }
    {
        self.whole.to_owned(alloc)
    }
}
