//! What calls make of their seeds, by DeriveSecret and ExpandWithLabel (RFC 9420, 8) under labels of our own. Nothing
//! here takes memory.

ghost use Rattle.std.specs.Prelude.{◌≡◌};
ghost use Rattle.mls_treekem_model.specs.Seeds.{init_seed, leaf_seed, sign_seed, path_seed, seal_seed};

use mls_kdf::{HmacKey, Secret, Seed, derive_secret};

/// The input key material of a KeyPackage's init key.
#[tactic(auto, unfolding(mls_treekem_model::specs::Seeds::init_seed))]
pub fn init_seed(seed: &Seed) -> Secret
    ensures { result ≡ init_seed seed.now }
{
    derive_secret(seed, "seed init")
}

/// The input key material of a leaf's key.
#[tactic(auto, unfolding(mls_treekem_model::specs::Seeds::leaf_seed))]
pub fn leaf_seed(seed: &Seed) -> Secret
    ensures { result ≡ leaf_seed seed.now }
{
    derive_secret(seed, "seed leaf")
}

/// The private signature key.
#[tactic(auto, unfolding(mls_treekem_model::specs::Seeds::sign_seed))]
pub fn sign_seed(seed: &Seed) -> Secret
    ensures { result ≡ sign_seed seed.now }
{
    derive_secret(seed, "seed sign")
}

/// The first path secret.
#[tactic(auto, unfolding(mls_treekem_model::specs::Seeds::path_seed))]
pub fn path_seed(seed: &Seed) -> Secret
    ensures { result ≡ path_seed seed.now }
{
    derive_secret(seed, "seed path")
}

/// The randomness of seal number `i` of a commit, from 0 on: the seals of its path come first, node by node, the lowest
/// first, and then those of its Welcome in the order of adds.
pub fn seal_seed(seed: &Seed, i: u32) -> Secret
    ensures { result ≡ seal_seed seed.now i }
{
    seal_seed_of(&HmacKey::new(seed), i)
}

/// The randomness of seal number `i` of a commit, from its seed as a key, which is hashed once for all of its seals.
#[tactic(auto, unfolding(mls_treekem_model::specs::Seeds::seal_seed, mls_wire::specs::Reading::uint))]
pub fn seal_seed_of(seed: &HmacKey, i: u32) -> Secret
    ensures { result ≡ seal_seed seed.now i }
{
    let mut out = [0; 32];
    seed.expand_with_label("seed seal", &i.to_be_bytes(), &mut out)
        .unwrap();
    out
}
