//! Views of what vouches for a content (RFC 9420, 6.1).

ghost use Rattle.mls_view.specs.Shown.{LendsAuthBehind};

use crate::content::ContentView;
use mls_leaf::LeafError;
use mls_wire::Reader;

/// The FramedContentAuthData (RFC 9420, 6.1), lent from the message's bytes.
#[derive(Drop)]
pub struct AuthDataView<'a> {
    /// The sender's signature.
    pub signature: &'a [u8],
    /// For a commit, the tag that shows that its sender knows the new epoch.
    pub confirmation_tag: Option<&'a [u8]>,
}

/// The FramedContentAuthData behind a content. It takes no memory.
pub(crate) fn read_auth_data<'a>(
    content: &ContentView<'_>,
    reader: &mut Reader<'a>,
) -> Result<AuthDataView<'a>, LeafError>
    ensures { LendsAuthBehind content.now reader.old result reader.new }
{
    let signature = reader.opaque()?;
    match content {
        ContentView::Application(_) => Ok(AuthDataView {
            signature,
            confirmation_tag: None,
        }),
        ContentView::Proposal(_) => Ok(AuthDataView {
            signature,
            confirmation_tag: None,
        }),
        ContentView::Commit { .. } => {
            let confirmation_tag = reader.opaque()?;
            Ok(AuthDataView {
                signature,
                confirmation_tag: Some(confirmation_tag),
            })
        }
    }
}
