//! Views of framed contents (RFC 9420, 6).

ghost use Rattle.std.specs.Prelude.{◌≡◌};
ghost use Rattle.mls_leaf.specs.Faults.{ReadsFrontNow};
ghost use Rattle.mls_types.specs.Content.{sender, content, framed_content};
ghost use Rattle.mls_view.specs.Views.{LendsView};
ghost use Rattle.mls_view.specs.Shown.{ShowsContent, ShowsFramed};

use crate::part::Part;
use mls_leaf::{Items, LeafError, Proposal};
use mls_types::{ProposalOrRef, Sender, UpdatePath};
use mls_wire::Reader;

/// What a message says (RFC 9420, 6), lent from its bytes.
#[derive(Drop)]
pub enum ContentView<'a> {
    /// Data of the application.
    Application(&'a [u8]),
    /// A proposal for a later commit.
    Proposal(Part<'a, Proposal>),
    /// A commit, which ends the epoch.
    Commit {
        /// The proposals, in the committer's order.
        proposals: Part<'a, Items<ProposalOrRef>>,
        /// The committer's new keys.
        path: Part<'a, Option<UpdatePath>>,
    },
}

/// A content with where it belongs and who sent it (RFC 9420, 6), lent from the message's bytes.
#[derive(Drop)]
pub struct FramedContentView<'a> {
    /// The group's identifier.
    pub group_id: &'a [u8],
    /// The epoch in which it is sent.
    pub epoch: u64,
    /// Who sent it.
    pub sender: Sender,
    /// What the sender adds for the application.
    pub authenticated_data: &'a [u8],
    /// What it says.
    pub content: ContentView<'a>,
}

#[tactic(auto, using(mls_leaf::proofs::Codecs::codecs), unfolding(mls_types::specs::Content::sender))]
fn read_sender(reader: &mut Reader<'_>) -> Result<Sender, LeafError>
    ensures { ReadsFrontNow sender reader.old result reader.new }
{
    match reader.u8()? {
        1 => {
            let leaf_index = reader.u32()?;
            Ok(Sender::Member(leaf_index))
        }
        _ => Err(LeafError::BadTag),
    }
}

#[tactic(auto, using(mls_leaf::proofs::Codecs::codecs), unfolding(mls_types::specs::Content::content, mls_types::specs::Commit::commit))]
fn read_content<'a>(reader: &mut Reader<'a>) -> Result<ContentView<'a>, LeafError>
    ensures { LendsView content ShowsContent reader.old result reader.new }
{
    match reader.u8()? {
        1 => {
            let data = reader.opaque()?;
            Ok(ContentView::Application(data))
        }
        2 => {
            let proposal = Part::<Proposal>::read(reader)?;
            Ok(ContentView::Proposal(proposal))
        }
        3 => {
            let proposals = Part::<Items<ProposalOrRef>>::read(reader)?;
            let path = Part::<Option<UpdatePath>>::read(reader)?;
            Ok(ContentView::Commit { proposals, path })
        }
        _ => Err(LeafError::BadTag),
    }
}

/// The framed content at the front. It makes no value and takes no memory.
#[tactic(auto, using(mls_leaf::proofs::Codecs::codecs), unfolding(mls_types::specs::Content::framed_content))]
pub(crate) fn read_framed_content<'a>(
    reader: &mut Reader<'a>,
) -> Result<FramedContentView<'a>, LeafError>
    ensures { LendsView framed_content ShowsFramed reader.old result reader.new }
{
    let group_id = reader.opaque()?;
    let epoch = reader.u64()?;
    let sender = read_sender(reader)?;
    let authenticated_data = reader.opaque()?;
    let content = read_content(reader)?;
    Ok(FramedContentView {
        group_id,
        epoch,
        sender,
        authenticated_data,
        content,
    })
}
