//! Welcomes, and what is sealed in them (RFC 9420, 12.4.3.1).

ghost use Rattle.mls_types.specs.Welcome.{encrypted_group_secrets, group_secrets, welcome, encrypted_group_secrets_nonempty, group_secrets_nonempty, welcome_nonempty};
ghost use Rattle.mls_types.specs.GroupReadFaults.{encrypted_group_secrets_faults, group_secrets_faults, welcome_faults};

use crate::update_path::HpkeCiphertext;
use mls_leaf::{Bytes, Codec, Items, LeafError};
use mls_wire::{Reader, Writer};
use std::alloc::Global;

/// The secrets for one new member, sealed to its init key (RFC 9420, 12.4.3.1).
#[derive(Debug, Clone, Drop)]
pub struct EncryptedGroupSecrets {
    /// The reference of the new member's KeyPackage.
    pub new_member: Bytes,
    /// The sealed GroupSecrets.
    pub encrypted_group_secrets: HpkeCiphertext,
}

/// What a new member needs to enter the epoch (RFC 9420, 12.4.3.1).
#[derive(Debug, Clone, Drop)]
pub struct GroupSecrets {
    /// The joiner secret of the epoch.
    pub joiner_secret: Bytes,
    /// The path secret of the lowest node that the new member shares with the committer, if there is one.
    pub path_secret: Option<Bytes>,
    /// The spelled identifiers of pre-shared keys; empty in this profile.
    pub psks: Bytes,
}

/// What a committer sends to new members (RFC 9420, 12.4.3.1).
#[derive(Debug, Clone, Drop)]
pub struct Welcome {
    /// The cipher suite's number.
    pub cipher_suite: u16,
    /// An entry for each new member.
    pub secrets: Items<EncryptedGroupSecrets>,
    /// The sealed GroupInfo.
    pub encrypted_group_info: Bytes,
}

impl Codec for EncryptedGroupSecrets {
    ghost format = { encrypted_group_secrets };

    ghost nonempty = { encrypted_group_secrets_nonempty };

    ghost faults = { encrypted_group_secrets_faults };

    #[tactic(auto, using(mls_leaf::proofs::Codecs::codecs), unfolding(crate::specs::Welcome::encrypted_group_secrets))]
    fn read(alloc: Global, reader: &mut Reader<'_>) -> Result<EncryptedGroupSecrets, LeafError> {
        let new_member = Bytes::read(alloc, reader)?;
        let encrypted_group_secrets = HpkeCiphertext::read(alloc, reader)?;
        Ok(EncryptedGroupSecrets {
            new_member,
            encrypted_group_secrets,
        })
    }

    #[tactic(auto, using(mls_leaf::proofs::Codecs::codecs), unfolding(crate::specs::Welcome::encrypted_group_secrets))]
    fn check(reader: &mut Reader<'_>) -> Result<(), LeafError> {
        Bytes::check(reader)?;
        HpkeCiphertext::check(reader)?;
        Ok(())
    }

    #[tactic(auto, using(mls_leaf::proofs::Codecs::codecs), unfolding(crate::specs::Welcome::encrypted_group_secrets))]
    fn write(&self, alloc: Global, writer: &mut Writer) -> Result<(), LeafError> {
        self.new_member.write(alloc, writer)?;
        self.encrypted_group_secrets.write(alloc, writer)?;
        Ok(())
    }
}

impl Codec for GroupSecrets {
    ghost format = { group_secrets };

    ghost nonempty = { group_secrets_nonempty };

    ghost faults = { group_secrets_faults };

    #[tactic(auto, using(mls_leaf::proofs::Codecs::codecs), unfolding(crate::specs::Welcome::group_secrets))]
    fn read(alloc: Global, reader: &mut Reader<'_>) -> Result<GroupSecrets, LeafError> {
        let joiner_secret = Bytes::read(alloc, reader)?;
        let path_secret = Option::<Bytes>::read(alloc, reader)?;
        let psks = Bytes::read(alloc, reader)?;
        Ok(GroupSecrets {
            joiner_secret,
            path_secret,
            psks,
        })
    }

    #[tactic(auto, using(mls_leaf::proofs::Codecs::codecs), unfolding(crate::specs::Welcome::group_secrets))]
    fn check(reader: &mut Reader<'_>) -> Result<(), LeafError> {
        Bytes::check(reader)?;
        Option::<Bytes>::check(reader)?;
        Bytes::check(reader)?;
        Ok(())
    }

    #[tactic(auto, using(mls_leaf::proofs::Codecs::codecs), unfolding(crate::specs::Welcome::group_secrets))]
    fn write(&self, alloc: Global, writer: &mut Writer) -> Result<(), LeafError> {
        self.joiner_secret.write(alloc, writer)?;
        self.path_secret.write(alloc, writer)?;
        self.psks.write(alloc, writer)?;
        Ok(())
    }
}

impl Codec for Welcome {
    ghost format = { welcome };

    ghost nonempty = { welcome_nonempty };

    ghost faults = { welcome_faults };

    #[tactic(auto, using(mls_leaf::proofs::Codecs::codecs), unfolding(crate::specs::Welcome::welcome))]
    fn read(alloc: Global, reader: &mut Reader<'_>) -> Result<Welcome, LeafError> {
        let cipher_suite = u16::read(alloc, reader)?;
        let secrets = Items::<EncryptedGroupSecrets>::read(alloc, reader)?;
        let encrypted_group_info = Bytes::read(alloc, reader)?;
        Ok(Welcome {
            cipher_suite,
            secrets,
            encrypted_group_info,
        })
    }

    #[tactic(auto, using(mls_leaf::proofs::Codecs::codecs), unfolding(crate::specs::Welcome::welcome))]
    fn check(reader: &mut Reader<'_>) -> Result<(), LeafError> {
        u16::check(reader)?;
        Items::<EncryptedGroupSecrets>::check(reader)?;
        Bytes::check(reader)?;
        Ok(())
    }

    #[tactic(auto, using(mls_leaf::proofs::Codecs::codecs), unfolding(crate::specs::Welcome::welcome))]
    fn write(&self, alloc: Global, writer: &mut Writer) -> Result<(), LeafError> {
        self.cipher_suite.write(alloc, writer)?;
        self.secrets.write(alloc, writer)?;
        self.encrypted_group_info.write(alloc, writer)?;
        Ok(())
    }
}
