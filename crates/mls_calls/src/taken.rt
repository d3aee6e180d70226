//! What a call takes: what its handle holds, and what it is given.

ghost use Rattle.std.specs.Prelude.{◌≡◌, ◌≤◌, IfOk, length};
ghost use Rattle.mls_kdf.specs.Kdf.{max_output};
ghost use Rattle.mls_wire.specs.Checks.{AnswersOutright};
ghost use Rattle.mls_calls.specs.Calls.{TakesConversation, TakesMember, a_candidate, a_conversation, a_label, a_leaf, a_member, a_seed, an_output, some_bytes};
ghost use Rattle.mls_calls.specs.Given.{text};
ghost use Rattle.mls_calls.specs.Shown.{shown};

use crate::error::MisuseError;
use crate::given::Given;
use crate::held::Held;
use mls::{Candidate, Conversation, Member, Seed, Suite0001};
use mls_kdf::MAX_OUTPUT;
use std::str::from_utf8;

/// The candidate of a handle.
#[tactic(auto, unfolding(crate::specs::Calls::a_candidate))]
pub(crate) fn candidate_of(held: &Held) -> Result<&Candidate<Suite0001>, u32>
    ensures { AnswersOutright (λ k. k.now) (λ n. n) (a_candidate (shown held.now)) result }
{
    match held {
        Held::Candidate(candidate) => Ok(candidate),
        Held::Nothing => Err(MisuseError::NullHandle.number()),
        Held::Bytes(_) | Held::Member(_) | Held::Conversation(_) => {
            Err(MisuseError::OtherHandle.number())
        }
    }
}

/// The member of a handle.
#[tactic(auto, unfolding(crate::specs::Calls::a_member))]
pub(crate) fn member_of(held: &Held) -> Result<&Member<Suite0001>, u32>
    ensures { AnswersOutright (λ m. m.now) (λ n. n) (a_member (shown held.now)) result }
{
    match held {
        Held::Member(member) => Ok(member),
        Held::Nothing => Err(MisuseError::NullHandle.number()),
        Held::Bytes(_) | Held::Candidate(_) | Held::Conversation(_) => {
            Err(MisuseError::OtherHandle.number())
        }
    }
}

/// The conversation of a handle.
#[tactic(auto, unfolding(crate::specs::Calls::a_conversation))]
pub(crate) fn conversation_of(held: &Held) -> Result<&Conversation<Suite0001>, u32>
    ensures { AnswersOutright (λ s. s.now) (λ n. n) (a_conversation (shown held.now)) result }
{
    match held {
        Held::Conversation(conversation) => Ok(conversation),
        Held::Nothing => Err(MisuseError::NullHandle.number()),
        Held::Bytes(_) | Held::Candidate(_) | Held::Member(_) => {
            Err(MisuseError::OtherHandle.number())
        }
    }
}

/// The member that a handle holds, by value, or what it holds and a number.
#[tactic(auto, unfolding(crate::specs::Calls::a_member))]
pub(crate) fn take_member(held: Held) -> Result<Member<Suite0001>, (Held, u32)>
    ensures { TakesMember held result }
{
    match held {
        Held::Member(member) => Ok(member),
        Held::Nothing => Err((held, MisuseError::NullHandle.number())),
        Held::Bytes(_) | Held::Candidate(_) | Held::Conversation(_) => {
            Err((held, MisuseError::OtherHandle.number()))
        }
    }
}

/// The bytes of a handle.
#[tactic(auto, unfolding(crate::specs::Calls::some_bytes))]
pub(crate) fn bytes_of(held: &Held) -> Result<&[u8], u32>
    ensures { AnswersOutright (λ b. b.now) (λ n. n) (some_bytes (shown held.now)) result }
{
    match held {
        Held::Bytes(bytes) => Ok(bytes.as_slice()),
        Held::Nothing => Err(MisuseError::NullHandle.number()),
        Held::Candidate(_) | Held::Member(_) | Held::Conversation(_) => {
            Err(MisuseError::OtherHandle.number())
        }
    }
}

/// Bytes that were given.
pub(crate) fn bytes_in(given: &Given) -> Result<&[u8], u32>
    ensures { AnswersOutright (λ b. b.now) (λ n. n) (text given.now) result }
{
    match &given.bytes {
        Ok(bytes) => Ok(bytes),
        Err(number) => Err(*number),
    }
}

/// A seed that was given.
#[tactic(auto, unfolding(crate::specs::Calls::a_seed))]
pub(crate) fn seed_of(seed: &Given) -> Result<Seed, u32>
    ensures { AnswersOutright (λ s. s) (λ n. n) (a_seed (text seed.now)) result }
{
    let bytes = bytes_in(seed)?;
    match <[u8; 32]>::try_from(bytes) {
        Ok(seed) => Ok(seed),
        Err(_) => Err(MisuseError::SeedLength.number()),
    }
}

/// The conversation that a handle holds, by value, or what it holds and a number.
#[tactic(auto, unfolding(crate::specs::Calls::a_conversation))]
pub(crate) fn take_conversation(held: Held) -> Result<Conversation<Suite0001>, (Held, u32)>
    ensures { TakesConversation held result }
{
    match held {
        Held::Conversation(conversation) => Ok(conversation),
        Held::Nothing => Err((held, MisuseError::NullHandle.number())),
        Held::Bytes(_) | Held::Candidate(_) | Held::Member(_) => {
            Err((held, MisuseError::OtherHandle.number()))
        }
    }
}

// No leaf has an index of 2^32 or more: `NoSuchLeaf`.
pub(crate) const NO_SUCH_LEAF: u32 = 22;

/// The index of a leaf: `NoSuchLeaf` (22) from 2^32 on.
#[tactic(auto, unfolding(crate::specs::Calls::a_leaf))]
pub(crate) fn leaf_of(number: u64) -> Result<u32, u32>
    ensures { AnswersOutright (λ n. n) (λ n. n) (a_leaf number) result }
{
    match u32::try_from(number) {
        Ok(leaf) => Ok(leaf),
        Err(_) => Err(NO_SUCH_LEAF),
    }
}

// A label has at most so many bytes.
const LABEL_LIMIT: usize = 200;

/// A label: `NotLabel` (136) unless it is a text of at most 200 bytes.
#[tactic(auto, using(crate::proofs::Labels::is_text, crate::proofs::Labels::is_no_text), unfolding(crate::specs::Calls::a_label))]
pub(crate) fn label_of(label: &Given) -> Result<&str, u32>
    ensures label { AnswersOutright (λ s. s.now) (λ n. n) (a_label (text label.now)) result }
    ensures short { IfOk result (λ s. length s.now ≤ 200) }
{
    let bytes = bytes_in(label)?;
    if bytes.len() > LABEL_LIMIT {
        return Err(MisuseError::NotLabel.number());
    }
    match from_utf8(bytes) {
        Ok(label) => Ok(label),
        Err(_) => Err(MisuseError::NotLabel.number()),
    }
}

// More bytes aren't exported at once: `OutputTooLong`.
const OUTPUT_TOO_LONG: u32 = 10;

/// The length of an exported secret: `OutputTooLong` (10) above 8,160.
#[tactic(auto, unfolding(crate::specs::Calls::an_output))]
pub(crate) fn output_of(number: u64) -> Result<usize, u32>
    ensures output { AnswersOutright (λ n. n) (λ n. n) (an_output number) result }
    ensures short { IfOk result (λ n. n ≤ max_output) }
{
    if number > MAX_OUTPUT as u64 {
        return Err(OUTPUT_TOO_LONG);
    }
    Ok(number as usize)
}
