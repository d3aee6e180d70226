//! All that can be seen of a member.

use anyhow::Result;
use mls_kdf::Secret;
use mls_schedule::Epoch;
use mls_suite::Glass;
use mls_world::Member;
use std::alloc::{AllocError, Global};

/// Entries one after another, each behind its length.
#[derive(Drop)]
struct Page {
    bytes: Vec<u8>,
}

impl Page {
    fn add_entry(&mut self, bytes: &[u8]) -> Result<(), AllocError> {
        self.bytes.extend_from_slice(&bytes.len().to_be_bytes())?;
        self.bytes.extend_from_slice(bytes)?;
        Ok(())
    }

    fn add_optional(&mut self, bytes: Option<&[u8]>) -> Result<(), AllocError> {
        match bytes {
            Some(bytes) => self.add_entry(bytes),
            None => self.add_entry(b"none"),
        }
    }

    fn add_secrets(&mut self, epoch: &Epoch) -> Result<(), AllocError> {
        let secrets = epoch.secrets();
        for secret in &secrets {
            self.add_entry(secret)?;
        }
        Ok(())
    }

    fn add_numbers(&mut self, member: &Member<Glass>) -> Result<(), AllocError> {
        self.add_entry(&[u8::from(member.is_gone())])?;
        self.add_entry(&member.epoch().to_be_bytes())?;
        self.add_entry(&member.leaf_index().to_be_bytes())
    }

    fn add_public_state(&mut self, member: &Member<Glass>) -> Result<()> {
        self.add_entry(member.group_id())?;
        self.add_entry(member.context_bytes())?;
        self.add_entry(&member.tree_bytes()?)?;
        self.add_entry(member.confirmed_transcript_hash())?;
        self.add_entry(member.interim_transcript_hash())?;
        Ok(())
    }

    fn add_keys(&mut self, member: &Member<Glass>) -> Result<(), AllocError> {
        for (node, key) in member.held_keys()? {
            self.add_entry(&node.to_be_bytes())?;
            self.add_entry(&key)?;
        }
        Ok(())
    }

    fn add_kept(
        &mut self,
        member: &Member<Glass>,
        references: &[Secret],
    ) -> Result<(), AllocError> {
        for reference in references {
            self.add_optional(member.kept_message(reference))?;
        }
        match member.pending_secret() {
            Some(secret) => self.add_entry(secret),
            None => self.add_entry(b"none"),
        }
    }
}

/// The getters and keys of a member, with what it keeps under these references; its kept proposals aside.
pub fn page_of(alloc: Global, member: &Member<Glass>, references: &[Secret]) -> Result<Vec<u8>> {
    let mut page = Page {
        bytes: Vec::new(alloc),
    };
    page.add_numbers(member)?;
    page.add_public_state(member)?;
    page.add_secrets(member.secrets())?;
    page.add_keys(member)?;
    page.add_kept(member, references)?;
    Ok(page.bytes)
}
