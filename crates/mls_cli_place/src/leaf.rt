//! Leaves, key packages and proposals, read past with the place of a fault.

ghost use Rattle.mls_leaf.specs.Leaf.{uint16s};
ghost use Rattle.mls_cli_place.specs.Leaf.{capabilities_walk, credential_walk, key_package_walk, leaf_node_walk, leaf_source_walk, lifetime_walk, proposal_walk};
ghost use Rattle.mls_cli_place.specs.LeafFinding.{capabilities_finds, credential_finds, key_package_finds, leaf_node_finds, leaf_source_finds, proposal_finds};
ghost use Rattle.mls_cli_place.specs.Walk.{Walks, single};

use crate::located::{Located, pass_field, pass_mark_field, pass_no_extensions, pass_one};
use crate::place::Found;
use crate::step::{LeafField, Step};
use mls_leaf::{
    Bytes, Capabilities, Credential, GroupExtensions, Items, KeyPackage, LeafError, LeafNode,
    LeafSource, Proposal,
};
use mls_wire::Reader;

impl Located for Credential {
    ghost walk = { credential_walk };

    ghost finds = { credential_finds };

    #[tactic(auto, unfolding(crate::specs::Leaf::credential_walk))]
    fn locate(reader: &mut Reader<'_>) -> Result<(), Found> {
        let step = Step::Leaf(LeafField::CredentialType);
        pass_mark_field(reader, step, 1, LeafError::UnsupportedCredential)?;
        pass_field::<Bytes>(reader, Step::Leaf(LeafField::Identity))
    }
}

/// Reads past a list of numbers as one field.
fn pass_numbers(reader: &mut Reader<'_>, name: LeafField) -> Result<(), Found>
    ensures { Walks (single (Step.Leaf name) uint16s.pass) reader.old result reader.new }
{
    match pass_one::<Items<u16>>(reader) {
        Ok(()) => Ok(()),
        Err(found) => Err(found.inside(Step::Leaf(name))),
    }
}

impl Located for Capabilities {
    ghost walk = { capabilities_walk };

    ghost finds = { capabilities_finds };

    #[tactic(auto, unfolding(crate::specs::Leaf::capabilities_walk))]
    fn locate(reader: &mut Reader<'_>) -> Result<(), Found> {
        pass_numbers(reader, LeafField::Versions)?;
        pass_numbers(reader, LeafField::CipherSuites)?;
        pass_numbers(reader, LeafField::Extensions)?;
        pass_numbers(reader, LeafField::Proposals)?;
        pass_numbers(reader, LeafField::Credentials)
    }
}

/// Reads past a lifetime.
fn pass_lifetime(reader: &mut Reader<'_>) -> Result<(), Found>
    ensures { Walks lifetime_walk reader.old result reader.new }
{
    pass_field::<u64>(reader, Step::Leaf(LeafField::NotBefore))?;
    pass_field::<u64>(reader, Step::Leaf(LeafField::NotAfter))
}

impl Located for LeafSource {
    ghost walk = { leaf_source_walk };

    ghost finds = { leaf_source_finds };

    #[tactic(auto, unfolding(crate::specs::Leaf::leaf_source_walk))]
    fn locate(reader: &mut Reader<'_>) -> Result<(), Found> {
        let step = Step::Leaf(LeafField::LeafNodeSource);
        let left = reader.rest().len();
        match reader.u8() {
            Ok(1) => match pass_lifetime(reader) {
                Ok(()) => Ok(()),
                Err(found) => Err(found.inside(Step::Leaf(LeafField::Lifetime))),
            },
            Ok(2) => Ok(()),
            Ok(3) => pass_field::<Bytes>(reader, Step::Leaf(LeafField::ParentHash)),
            Ok(_) => Err(Found::at(left, LeafError::BadTag).inside(step)),
            Err(error) => Err(Found::at(left, LeafError::Wire(error)).inside(step)),
        }
    }
}

impl Located for LeafNode {
    ghost walk = { leaf_node_walk };

    ghost finds = { leaf_node_finds };

    #[tactic(auto, unfolding(crate::specs::Leaf::leaf_node_walk))]
    fn locate(reader: &mut Reader<'_>) -> Result<(), Found> {
        pass_field::<Bytes>(reader, Step::Leaf(LeafField::EncryptionKey))?;
        pass_field::<Bytes>(reader, Step::Leaf(LeafField::SignatureKey))?;
        pass_field::<Credential>(reader, Step::Leaf(LeafField::Credential))?;
        pass_field::<Capabilities>(reader, Step::Leaf(LeafField::Capabilities))?;
        LeafSource::locate(reader)?;
        pass_no_extensions(reader, Step::Leaf(LeafField::Extensions))?;
        pass_field::<Bytes>(reader, Step::Leaf(LeafField::Signature))
    }
}

impl Located for KeyPackage {
    ghost walk = { key_package_walk };

    ghost finds = { key_package_finds };

    #[tactic(auto, unfolding(crate::specs::Leaf::key_package_walk))]
    fn locate(reader: &mut Reader<'_>) -> Result<(), Found> {
        let step = Step::Leaf(LeafField::Version);
        pass_mark_field(reader, step, 1, LeafError::BadTag)?;
        pass_field::<u16>(reader, Step::Leaf(LeafField::CipherSuite))?;
        pass_field::<Bytes>(reader, Step::Leaf(LeafField::InitKey))?;
        pass_field::<LeafNode>(reader, Step::Leaf(LeafField::LeafNode))?;
        pass_no_extensions(reader, Step::Leaf(LeafField::Extensions))?;
        pass_field::<Bytes>(reader, Step::Leaf(LeafField::Signature))
    }
}

impl Located for Proposal {
    ghost walk = { proposal_walk };

    ghost finds = { proposal_finds };

    #[tactic(auto, unfolding(crate::specs::Leaf::proposal_walk))]
    fn locate(reader: &mut Reader<'_>) -> Result<(), Found> {
        let step = Step::Leaf(LeafField::ProposalType);
        let left = reader.rest().len();
        match reader.u16() {
            Ok(1) => pass_field::<KeyPackage>(reader, Step::Leaf(LeafField::KeyPackage)),
            Ok(2) => pass_field::<LeafNode>(reader, Step::Leaf(LeafField::LeafNode)),
            Ok(3) => pass_field::<u32>(reader, Step::Leaf(LeafField::Removed)),
            Ok(7) => pass_field::<GroupExtensions>(reader, Step::Leaf(LeafField::Extensions)),
            Ok(_) => Err(Found::at(left, LeafError::UnsupportedProposal).inside(step)),
            Err(error) => Err(Found::at(left, LeafError::Wire(error)).inside(step)),
        }
    }
}
