//! What a call leaves.

ghost use Rattle.std.specs.Prelude.{◌≡◌, Err};
ghost use Rattle.mls_calls.specs.Parts.{ArePartsOf};
ghost use Rattle.mls_calls.specs.declared.held.Held.TheVariants as variants;

use crate::held::Held;
use mls::{Conversation, Member, Suite0001};

/// What a call makes: what two handles hold, and a number.
#[derive(Drop)]
pub struct Fruit {
    /// What the first handle holds.
    pub made: Option<Box<Held>>,
    /// What the second handle holds.
    pub other: Option<Box<Held>>,
    /// The number.
    pub value: u64,
}

/// What the handle holds after a call, and what the call makes or the number of its refusal.
#[derive(Drop)]
pub struct Done {
    /// What the handle holds.
    pub held: Held,
    /// What the call makes.
    pub outcome: Result<Fruit, u32>,
}

impl Done {
    /// What is left of a call on a member.
    pub(crate) fn of_member(member: Member<Suite0001>, outcome: Result<Fruit, u32>) -> Done
        ensures held { result.held ≡ variants.Member member }
        ensures outcome { result.outcome ≡ outcome }
    {
        Done {
            held: Held::Member(member),
            outcome,
        }
    }

    /// What is left of a call on a conversation.
    pub(crate) fn of_conversation(
        conversation: Conversation<Suite0001>,
        outcome: Result<Fruit, u32>,
    ) -> Done
        ensures held { result.held ≡ variants.Conversation conversation }
        ensures outcome { result.outcome ≡ outcome }
    {
        Done {
            held: Held::Conversation(conversation),
            outcome,
        }
    }

    /// What is left of a call that was refused.
    pub(crate) fn of_refusal(held: Held, number: u32) -> Done
        ensures held { result.held ≡ held }
        ensures outcome { result.outcome ≡ Err number }
    {
        Done {
            held,
            outcome: Err(number),
        }
    }
}

/// What a call writes, and what it answers.
#[derive(Drop)]
pub struct Parts {
    /// What the first handle holds.
    pub made: Option<Box<Held>>,
    /// What the second handle holds.
    pub other: Option<Box<Held>>,
    /// The number.
    pub value: u64,
    /// What the call answers.
    pub answer: u32,
}

/// The parts of an outcome.
pub fn parts_of(outcome: Result<Fruit, u32>) -> Parts
    ensures { ArePartsOf outcome result }
{
    match outcome {
        Ok(fruit) => Parts {
            made: fruit.made,
            other: fruit.other,
            value: fruit.value,
            answer: 0,
        },
        Err(number) => Parts {
            made: None,
            other: None,
            value: 0,
            answer: number,
        },
    }
}
