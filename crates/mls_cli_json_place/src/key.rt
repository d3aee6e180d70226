//! The keys of recordings and of vector files.

ghost use Rattle.std.specs.Prelude.{◌≡◌};
ghost use Rattle.mls_cli_json_place.specs.Text.{key_name};

/// A key of a recording, of its events, or of a vector.
#[derive(Clone, Copy, Debug, PartialEq, Eq)]
pub enum Key {
    Bytes,
    Candidate,
    Context,
    Copath,
    Data,
    DirectPath,
    Events,
    Expect,
    Extensions,
    Final,
    Group,
    HmacKey,
    Identity,
    Ikm,
    Info,
    Items,
    KeyPackage,
    Kind,
    Label,
    Leaf,
    Leaves,
    Length,
    Member,
    Node,
    Okm,
    Op,
    Out,
    Path,
    Prk,
    Refused,
    Salt,
    Secret,
    Seed,
    Suite,
    TreeHash,
    Version,
}

impl Key {
    /// The key as files have it.
    #[tactic(auto, unfolding(crate::specs::Text::key_name))]
    pub fn name(self) -> &'static str
        ensures { result.now ≡ key_name self }
    {
        match self {
            Key::Bytes => "bytes",
            Key::Candidate => "candidate",
            Key::Context => "context",
            Key::Copath => "copath",
            Key::Data => "data",
            Key::DirectPath => "direct_path",
            Key::Events => "events",
            Key::Expect => "expect",
            Key::Extensions => "extensions",
            Key::Final => "final",
            Key::Group => "group",
            Key::HmacKey => "key",
            Key::Identity => "identity",
            Key::Ikm => "ikm",
            Key::Info => "info",
            Key::Items => "items",
            Key::KeyPackage => "key_package",
            Key::Kind => "kind",
            Key::Label => "label",
            Key::Leaf => "leaf",
            Key::Leaves => "leaves",
            Key::Length => "length",
            Key::Member => "member",
            Key::Node => "node",
            Key::Okm => "okm",
            Key::Op => "op",
            Key::Out => "out",
            Key::Path => "path",
            Key::Prk => "prk",
            Key::Refused => "refused",
            Key::Salt => "salt",
            Key::Secret => "secret",
            Key::Seed => "seed",
            Key::Suite => "suite",
            Key::TreeHash => "tree_hash",
            Key::Version => "version",
        }
    }
}
