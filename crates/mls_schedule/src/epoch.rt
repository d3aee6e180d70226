//! The secrets of an epoch (RFC 9420, 8). A context is the bytes of the epoch's GroupContext, less than
//! 2^30.

ghost use Rattle.std.specs.Prelude.{◌≡◌, ◌<◌, ◌≤◌, ◌^◌, ◌↔◌, length, OnErr};
ghost use Rattle.mls_kdf.specs.Kdf.{joined_pieces, expand_with_label, max_output};
ghost use Rattle.mls_kdf.specs.Outputs.{Fills};
ghost use Rattle.mls_schedule.specs.Faults.{IsTooLong};
ghost use Rattle.mls_schedule.specs.Epoch.{joiner_secret, welcome_secret, welcome_key, welcome_nonce, intermediate_secret, epoch_secret, next_epoch_secret, nine_secrets, ten_secrets, confirmation_tag, membership_tag, export_secret};

use crate::ScheduleError;
use mls_kdf::{HmacKey, Secret, Seed, derive_secret, expand_with_label, extract, hash, hmac};
use std::marker::Model;

/// The secrets of one epoch: the epoch secret, and the nine that are made of it. The external secret and that for
/// resumption, which no call of a member needs, are made where they are asked for.
pub struct Epoch {
    epoch: Secret,
    sender_data: Secret,
    encryption: Secret,
    exporter: Secret,
    confirmation: Secret,
    membership: Secret,
    authenticator: Secret,
    init: Secret,
}

impl Drop for Epoch {
    fn drop(self) {
        let Epoch {
            epoch: _,
            sender_data: _,
            encryption: _,
            exporter: _,
            confirmation: _,
            membership: _,
            authenticator: _,
            init: _,
        } = self;
    }
}

// An epoch is seen as its epoch secret.
impl Model for Epoch {
    ghost use Rattle.std.specs.Prelude.{List, ℕ};

    ghost Value = { List ℕ };

    ghost use Rattle.mls_schedule.specs.EpochFields.{IsOfEpoch};

    ghost view = { λ e. e.epoch };

    ghost invariant = { IsOfEpoch };
}

/// An epoch with the secret that leads to it.
#[derive(Drop)]
pub struct Start {
    /// What a new member is given, to reach the epoch.
    pub joiner: Secret,
    /// The epoch.
    pub epoch: Epoch,
}

/// What a Welcome's GroupInfo is sealed under (RFC 9420, 12.4.3.1).
#[derive(Drop)]
pub struct WelcomeKey {
    /// The key.
    pub key: [u8; 16],
    /// The nonce.
    pub nonce: [u8; 12],
}

/// A secret made under a label and a context.
fn expand_secret(secret: &Secret, label: &str, context: &[u8]) -> Secret
    requires label { length label.now ≤ 200 }
    requires context { length context.now < 2 ^ 30 }
    ensures { result ≡ expand_with_label secret.now label.now context.now 32 }
{
    let mut out = [0; 32];
    expand_with_label(secret, label, context, &mut out).unwrap();
    out
}

/// The joiner secret, with zeros for the pre-shared key that there never is.
#[tactic(auto, unfolding(crate::specs::Epoch::intermediate_secret))]
fn intermediate_secret(joiner: &Secret) -> Secret
    ensures { result ≡ intermediate_secret joiner.now }
{
    extract(joiner, &[0; 32])
}

impl Epoch {
    /// The epoch with this epoch secret, as epoch 0 is made of its creator's seed.
    #[tactic(auto, unfolding(crate::specs::Epoch::sender_data_secret, crate::specs::Epoch::encryption_secret, crate::specs::Epoch::exporter_secret, crate::specs::Epoch::confirmation_key, crate::specs::Epoch::membership_key, crate::specs::Epoch::epoch_authenticator, crate::specs::Epoch::init_secret))]
    pub fn first(seed: &Seed) -> Epoch
        ensures { result ≡ seed.now }
    {
        let key = HmacKey::new(seed);
        Epoch {
            epoch: *seed,
            sender_data: key.derive_secret("sender data"),
            encryption: key.derive_secret("encryption"),
            exporter: key.derive_secret("exporter"),
            confirmation: key.derive_secret("confirm"),
            membership: key.derive_secret("membership"),
            authenticator: key.derive_secret("authentication"),
            init: key.derive_secret("init"),
        }
    }

    /// The epoch after one with this init secret, by a commit with this commit secret. The context is
    /// the new epoch's.
    #[tactic(auto, unfolding(crate::specs::Epoch::joiner_secret, crate::specs::Epoch::next_epoch_secret))]
    pub fn next(init: &Secret, commit_secret: &Secret, context: &[u8]) -> Start
        requires { length context.now < 2 ^ 30 }
        ensures joiner { result.joiner ≡ joiner_secret init.now commit_secret.now context.now }
        ensures epoch { result.epoch ≡ next_epoch_secret init.now commit_secret.now context.now }
    {
        let joiner = expand_secret(&extract(init, commit_secret), "joiner", context);
        Epoch::from_joiner(&joiner, context)
    }

    /// The epoch that a new member reaches from the joiner secret. The context is that epoch's.
    #[tactic(auto, unfolding(crate::specs::Epoch::epoch_secret))]
    pub fn from_joiner(joiner: &Secret, context: &[u8]) -> Start
        requires { length context.now < 2 ^ 30 }
        ensures joiner { result.joiner ≡ joiner.now }
        ensures epoch { result.epoch ≡ epoch_secret joiner.now context.now }
    {
        let epoch = expand_secret(&intermediate_secret(joiner), "epoch", context);
        Start {
            joiner: *joiner,
            epoch: Epoch::first(&epoch),
        }
    }

    /// What the key and the nonce of a Welcome's GroupInfo are made of, from the joiner secret (RFC 9420, 8). Who makes
    /// or opens no Welcome doesn't need it.
    #[tactic(auto, unfolding(crate::specs::Epoch::welcome_secret))]
    pub fn welcome_secret(joiner: &Secret) -> Secret
        ensures { result ≡ welcome_secret joiner.now }
    {
        derive_secret(&intermediate_secret(joiner), "welcome")
    }

    /// The key and the nonce of a Welcome's GroupInfo, from the joiner secret.
    #[tactic(auto, unfolding(crate::specs::Epoch::welcome_key, crate::specs::Epoch::welcome_nonce))]
    pub fn welcome_key(joiner: &Secret) -> WelcomeKey
        ensures key { result.key ≡ welcome_key joiner.now }
        ensures nonce { result.nonce ≡ welcome_nonce joiner.now }
    {
        let secret = Epoch::welcome_secret(joiner);
        let welcome = HmacKey::new(&secret);
        let mut key = [0; 16];
        welcome.expand_with_label("key", &[], &mut key).unwrap();
        let mut nonce = [0; 12];
        welcome.expand_with_label("nonce", &[], &mut nonce).unwrap();
        WelcomeKey { key, nonce }
    }

    /// The epoch secret.
    pub fn epoch_secret(&self) -> &Secret
        ensures { result.now ≡ self.now }
    {
        &self.epoch
    }

    /// The secret of sender data.
    pub fn sender_data_secret(&self) -> &Secret
        ensures { result.now ≡ (nine_secrets self.now).sender_data }
    {
        &self.sender_data
    }

    /// The root of the secret tree.
    pub fn encryption_secret(&self) -> &Secret
        ensures { result.now ≡ (nine_secrets self.now).encryption }
    {
        &self.encryption
    }

    /// The secret that exported secrets are made of.
    pub fn exporter_secret(&self) -> &Secret
        ensures { result.now ≡ (nine_secrets self.now).exporter }
    {
        &self.exporter
    }

    /// The secret of external commits. It is made by each call.
    #[tactic(auto, unfolding(crate::specs::Epoch::external_secret))]
    pub fn external_secret(&self) -> Secret
        ensures { result ≡ (nine_secrets self.now).external }
    {
        derive_secret(&self.epoch, "external")
    }

    /// The key of confirmation tags.
    pub fn confirmation_key(&self) -> &Secret
        ensures { result.now ≡ (nine_secrets self.now).confirmation }
    {
        &self.confirmation
    }

    /// The key of membership tags.
    pub fn membership_key(&self) -> &Secret
        ensures { result.now ≡ (nine_secrets self.now).membership }
    {
        &self.membership
    }

    /// The secret for resumption. It is made by each call.
    #[tactic(auto, unfolding(crate::specs::Epoch::resumption_psk))]
    pub fn resumption_psk(&self) -> Secret
        ensures { result ≡ (nine_secrets self.now).resumption }
    {
        derive_secret(&self.epoch, "resumption")
    }

    /// What members compare to see that they agree.
    pub fn epoch_authenticator(&self) -> &Secret
        ensures { result.now ≡ (nine_secrets self.now).authenticator }
    {
        &self.authenticator
    }

    /// The init secret, from which the next epoch is made.
    pub fn init_secret(&self) -> &Secret
        ensures { result.now ≡ (nine_secrets self.now).init }
    {
        &self.init
    }

    /// The ten secrets, in the order in which RFC 9420, 8 lists them: the epoch secret and the nine that are made of it.
    #[tactic(auto, unfolding(crate::specs::Epoch::ten_secrets))]
    pub fn secrets(&self) -> [Secret; 10]
        ensures { result ≡ ten_secrets self.now }
    {
        [
            self.epoch,
            self.sender_data,
            self.encryption,
            self.exporter,
            self.external_secret(),
            self.confirmation,
            self.membership,
            self.resumption_psk(),
            self.authenticator,
            self.init,
        ]
    }

    /// The tag, of 32 bytes, that confirms a transcript by its confirmed hash (RFC 9420, 6.1).
    #[tactic(auto, unfolding(crate::specs::Epoch::confirmation_tag))]
    pub fn confirmation_tag(&self, confirmed: &[u8]) -> Secret
        ensures { result ≡ confirmation_tag self.now confirmed.now }
    {
        hmac(&self.confirmation, &[confirmed])
    }

    /// The tag, of 32 bytes, by which a member shows that it is one: over what it says, as
    /// AuthenticatedContentTBM, given in pieces, one after another (RFC 9420, 6.2).
    #[tactic(auto, unfolding(crate::specs::Epoch::membership_tag))]
    pub fn membership_tag(&self, said: &[&[u8]]) -> Secret
        ensures { result ≡ membership_tag self.now (joined_pieces said.now) }
    {
        hmac(&self.membership, said)
    }

    /// Fills `out` with a secret exported under a label of at most 200 bytes and a context (RFC 9420,
    /// 8.5). More than 8,160 bytes are refused with `OutputTooLong`, and `out` is as it was.
    #[tactic(auto, unfolding(crate::specs::Epoch::export_secret))]
    pub fn export(&self, label: &str, context: &[u8], out: &mut [u8]) -> Result<(), ScheduleError>
        requires { length label.now ≤ 200 }
        ensures too_long { IsTooLong result ↔ (max_output < length out.old) }
        ensures ok { Fills (export_secret self.now label.now context.now) out.old result out.new }
        ensures err { OnErr result (out.new ≡ out.old) }
    {
        let secret = derive_secret(&self.exporter, label);
        expand_with_label(&secret, "exported", &hash(&[context]), out)?;
        Ok(())
    }
}
