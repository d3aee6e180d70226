//! Commits and what they hold, read past with the place of a fault.

ghost use Rattle.mls_cli_place.specs.Message.{commit_walk, hpke_ciphertext_walk, proposal_or_ref_walk, update_path_node_walk, update_path_walk};
ghost use Rattle.mls_cli_place.specs.MessageFinding.{commit_finds, hpke_ciphertext_finds, proposal_or_ref_finds, update_path_finds, update_path_node_finds};

use crate::located::{Located, pass_field};
use crate::place::Found;
use crate::step::{LeafField, MessageField, Step};
use mls_leaf::{Bytes, Items, LeafError, LeafNode, Proposal};
use mls_types::{Commit, HpkeCiphertext, ProposalOrRef, UpdatePath, UpdatePathNode};
use mls_wire::Reader;

impl Located for HpkeCiphertext {
    ghost walk = { hpke_ciphertext_walk };

    ghost finds = { hpke_ciphertext_finds };

    #[tactic(auto, unfolding(crate::specs::Message::hpke_ciphertext_walk))]
    fn locate(reader: &mut Reader<'_>) -> Result<(), Found> {
        pass_field::<Bytes>(reader, Step::Message(MessageField::KemOutput))?;
        pass_field::<Bytes>(reader, Step::Message(MessageField::Ciphertext))
    }
}

impl Located for UpdatePathNode {
    ghost walk = { update_path_node_walk };

    ghost finds = { update_path_node_finds };

    #[tactic(auto, unfolding(crate::specs::Message::update_path_node_walk))]
    fn locate(reader: &mut Reader<'_>) -> Result<(), Found> {
        pass_field::<Bytes>(reader, Step::Leaf(LeafField::EncryptionKey))?;
        let step = Step::Message(MessageField::EncryptedPathSecret);
        pass_field::<Items<HpkeCiphertext>>(reader, step)
    }
}

impl Located for UpdatePath {
    ghost walk = { update_path_walk };

    ghost finds = { update_path_finds };

    #[tactic(auto, unfolding(crate::specs::Message::update_path_walk))]
    fn locate(reader: &mut Reader<'_>) -> Result<(), Found> {
        pass_field::<LeafNode>(reader, Step::Leaf(LeafField::LeafNode))?;
        pass_field::<Items<UpdatePathNode>>(reader, Step::Message(MessageField::Nodes))
    }
}

impl Located for ProposalOrRef {
    ghost walk = { proposal_or_ref_walk };

    ghost finds = { proposal_or_ref_finds };

    #[tactic(auto, unfolding(crate::specs::Message::proposal_or_ref_walk))]
    fn locate(reader: &mut Reader<'_>) -> Result<(), Found> {
        let step = Step::Message(MessageField::Type);
        let left = reader.rest().len();
        match reader.u8() {
            Ok(1) => pass_field::<Proposal>(reader, Step::Message(MessageField::Proposal)),
            Ok(2) => pass_field::<Bytes>(reader, Step::Message(MessageField::Reference)),
            Ok(_) => Err(Found::at(left, LeafError::BadTag).inside(step)),
            Err(error) => Err(Found::at(left, LeafError::Wire(error)).inside(step)),
        }
    }
}

impl Located for Commit {
    ghost walk = { commit_walk };

    ghost finds = { commit_finds };

    #[tactic(auto, unfolding(crate::specs::Message::commit_walk))]
    fn locate(reader: &mut Reader<'_>) -> Result<(), Found> {
        pass_field::<Items<ProposalOrRef>>(reader, Step::Leaf(LeafField::Proposals))?;
        pass_field::<Option<UpdatePath>>(reader, Step::Message(MessageField::Path))
    }
}
