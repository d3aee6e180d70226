//! Views of a welcome's entries and of a commit's proposals.

ghost use Rattle.mls_types.specs.Welcome.{encrypted_group_secrets};
ghost use Rattle.mls_types.specs.Commit.{proposal_or_ref};
ghost use Rattle.mls_view.specs.Views.{LendsView, ShowsSpelled};
ghost use Rattle.mls_view.specs.Entries.{ShowsSecrets, ShowsProposalOrRef};

use crate::part::Part;
use mls_leaf::{LeafError, Proposal};
use mls_types::{EncryptedGroupSecrets, ProposalOrRef};
use mls_wire::Reader;

/// The secrets for one new member (RFC 9420, 12.4.3.1), lent from a welcome's bytes.
#[derive(Drop)]
pub struct EncryptedGroupSecretsView<'a> {
    /// The reference of the new member's KeyPackage.
    pub new_member: &'a [u8],
    /// What the key encapsulation puts out.
    pub kem_output: &'a [u8],
    /// The sealed GroupSecrets.
    pub ciphertext: &'a [u8],
}

/// A proposal of a commit (RFC 9420, 12.4), lent from the commit's bytes.
#[derive(Drop)]
pub enum ProposalOrRefView<'a> {
    /// The proposal itself, made by the committer.
    Proposal(Part<'a, Proposal>),
    /// The reference of a proposal that was sent before.
    Reference(&'a [u8]),
}

#[tactic(auto, using(mls_leaf::proofs::Codecs::codecs), unfolding(mls_types::specs::Welcome::encrypted_group_secrets, mls_types::specs::UpdatePath::hpke_ciphertext))]
fn read_secrets<'a>(reader: &mut Reader<'a>) -> Result<EncryptedGroupSecretsView<'a>, LeafError>
    ensures { LendsView encrypted_group_secrets ShowsSecrets reader.old result reader.new }
{
    let new_member = reader.opaque()?;
    let kem_output = reader.opaque()?;
    let ciphertext = reader.opaque()?;
    Ok(EncryptedGroupSecretsView {
        new_member,
        kem_output,
        ciphertext,
    })
}

#[tactic(auto, using(mls_leaf::proofs::Codecs::codecs), unfolding(mls_types::specs::Commit::proposal_or_ref))]
fn read_proposal_or_ref<'a>(reader: &mut Reader<'a>) -> Result<ProposalOrRefView<'a>, LeafError>
    ensures { LendsView proposal_or_ref ShowsProposalOrRef reader.old result reader.new }
{
    match reader.u8()? {
        1 => {
            let proposal = Part::<Proposal>::read(reader)?;
            Ok(ProposalOrRefView::Proposal(proposal))
        }
        2 => {
            let reference = reader.opaque()?;
            Ok(ProposalOrRefView::Reference(reference))
        }
        _ => Err(LeafError::BadTag),
    }
}

impl<'a> EncryptedGroupSecretsView<'a> {
    /// The fields of an entry. It takes no memory.
    pub fn of(entry: &Part<'a, EncryptedGroupSecrets>) -> EncryptedGroupSecretsView<'a>
        ensures { ShowsSpelled encrypted_group_secrets ShowsSecrets entry.now result }
    {
        let mut reader = Reader::new(entry.bytes());
        match read_secrets(&mut reader) {
            Ok(view) => view,
            Err(_) => EncryptedGroupSecretsView {
                new_member: &[],
                kem_output: &[],
                ciphertext: &[],
            },
        }
    }
}

impl<'a> ProposalOrRefView<'a> {
    /// The proposal, or the reference. It takes no memory.
    pub fn of(entry: &Part<'a, ProposalOrRef>) -> ProposalOrRefView<'a>
        ensures { ShowsSpelled proposal_or_ref ShowsProposalOrRef entry.now result }
    {
        let mut reader = Reader::new(entry.bytes());
        match read_proposal_or_ref(&mut reader) {
            Ok(view) => view,
            Err(_) => ProposalOrRefView::Reference(&[]),
        }
    }
}
