//! Answers that are kept for repeated requests.

ghost use Rattle.std.specs.Prelude.{◌≡◌};
ghost use Rattle.pldm_exch.specs.Kept.{AreKeptAnswers, answerer_tick, asked_of, kept_tick, kept_with, none_kept, asked_for};

use crate::times::HOLD;
use mctp_reasm::{Message, TAGS};
use std::marker::Model;

/// An answer, the identifier of its request, and the ticks since it was kept.
#[derive(Drop)]
struct Answer {
    identifier: u8,
    reply: Message,
    age: u8,
}

impl Model for Answer {
    ghost use Rattle.pldm_exch.specs.Kept.{KeptAnswer};

    ghost Value = { KeptAnswer };

    ghost view = { λ a. record { identifier = a.identifier; reply = a.reply; age = a.age } };
}

/// Whether a request is new or repeated.
#[derive(Clone, Copy, PartialEq, Eq)]
pub enum Asked<'k> {
    /// The request is new: the node takes it, and keeps its answer.
    New,
    /// The request was repeated: the node sends this kept answer again, and does nothing else.
    Again(&'k Message),
}

/// The kept answers of one direction: at most one for each tag, each for 24 ticks.
#[derive(Drop)]
pub struct Answerer {
    places: [Option<Answer>; TAGS],
}

impl Model for Answerer {
    ghost use Rattle.std.specs.Prelude.{List, Option};
    ghost use Rattle.pldm_exch.specs.Kept.{AreKeptAnswers, KeptAnswer};

    ghost Value = { List (Option KeptAnswer) };

    ghost view = { λ a. a.places };

    ghost invariant = { λ a. AreKeptAnswers a.places };
}

impl Answerer {
    /// Returns an answerer that keeps no answer.
    #[tactic(auto, using(crate::proofs::Keeping::keeping))]
    pub fn new() -> Answerer
        ensures { result ≡ none_kept }
    {
        Answerer {
            places: [None, None, None, None, None, None, None, None],
        }
    }

    /// Takes a request. Returns `Asked::Again` exactly if its tag keeps an answer with its
    /// identifier. A message that is no PLDM message has no identifier, and is new.
    #[tactic(auto, using(crate::proofs::Keeping::keeping))]
    pub fn on_request(&self, request: &Message) -> Asked<'_>
        ensures value { asked_of result ≡ asked_for self.now request.now }
        ensures lawful { AreKeptAnswers self.now }
    {
        let Some(answer) = &self.places[request.tag() as usize] else {
            return Asked::New;
        };
        let Ok((head, _)) = pldm_base::decode(request.bytes()) else {
            return Asked::New;
        };
        if head.instance != answer.identifier {
            return Asked::New;
        }
        Asked::Again(&answer.reply)
    }

    /// Keeps an answer under its tag, replacing the answer that the tag kept. The tag and the
    /// identifier are those of the request. A message that is no PLDM message has no identifier,
    /// and isn't kept.
    #[tactic(auto, using(crate::proofs::Keeping::keeping))]
    pub fn keep(&mut self, answer: &Message)
        ensures { self.new ≡ kept_with self.old answer.now }
    {
        let Ok((head, _)) = pldm_base::decode(answer.bytes()) else {
            return;
        };
        self.places[answer.tag() as usize] = Some(Answer {
            identifier: head.instance,
            reply: answer.again(),
            age: 0,
        });
    }

    /// Counts a tick. An answer is dropped in the 25th tick after it was kept.
    #[tactic(auto, using(crate::proofs::Keeping::keeping))]
    pub fn tick(&mut self)
        ensures { self.new ≡ answerer_tick self.old }
    {
        age_all(self.places.as_mut_slice());
    }
}

/// Counts a tick for each place.
fn age_all(places: &mut [Option<Answer>])
    ensures { places.new ≡ answerer_tick places.old }
{
    for place in places.iter_mut() {
        age(place);
    }
}

/// Counts a tick for a place: its answer grows older, or is dropped.
fn age(place: &mut Option<Answer>)
    ensures { place.new ≡ kept_tick place.old }
{
    if let Some(answer) = place {
        if answer.age < HOLD {
            answer.age += 1;
        } else {
            *place = None;
        }
    }
}
