//! The rules that a schedule can name: of each its name, the name's text, the rule itself, and a letter of its own.
#![tactic(auto)]

ghost use Rattle.std.specs.Prelude.{◌≡◌, List};
ghost use Rattle.std.specs.Borrow.{Array};
ghost use Rattle.std.specs.Mem.{FitsInMemory};
ghost use Rattle.rules.specs.Rule.{Behaviour};
ghost use Rattle.stations.specs.declared.TheConstants.{STATIONS};
ghost use Rattle.catalogue.specs.declared.TheConstants.{LETTERS};
ghost use Rattle.catalogue.specs.Names.{name_in, NamesReadBack};
ghost use Rattle.catalogue.specs.Catalogue.{behaviour_of, states_of, letters_of, new_states, new_letters, ForAllStations};

use last::Last;
use rules::Rule;
use stations::STATIONS;
use std::str::from_utf8;
use third::Third;

// The cells for the letters of a new shed: for each station a row with a letter of each, and one that it holds.
const LETTERS: usize = STATIONS * (STATIONS + 1);

/// The name of a rule.
#[derive(Clone, Copy, Debug, PartialEq, Eq)]
pub enum RuleName {
    /// OneThirdRule.
    Third,
    /// LastVoting.
    Last,
}

// The rule that the text names, or none.
fn named(text: &str) -> Option<RuleName>
    ensures { result ≡ name_in text.now }
{
    match text {
        "third" => Some(RuleName::Third),
        "last" => Some(RuleName::Last),
        _ => None,
    }
}

/// The rule that the bytes name, whole, or none. Bytes that are no text name no rule.
#[tactic(auto, using(crate::proofs::Names::names_read_back))]
pub fn read_name(bytes: &[u8]) -> Option<RuleName>
    ensures reads { result ≡ name_in bytes.now }
    ensures laws { NamesReadBack }
{
    named(from_utf8(bytes).ok()?)
}

/// What is done with a rule, whichever it is.
pub trait WithRule {
    /// What comes of it.
    type Answer;

    // What the answer says of the rule's behaviour, and of the cells as they were lent.
    ghost promises: { Self → {S L : Type 0} → Behaviour S L → List S → List L → Self.Answer → Type 0 };

    /// Does it with the rule, and with the cells of a new shed: each holds the rule's first state, or a letter of its own.
    fn with<R: Rule>(
        self,
        rule: &R,
        states: &mut [R::State],
        letters: &mut [R::Letter],
    ) -> Self::Answer
        ensures { promises self (R.Rule.behaviour rule.now) states.old letters.old result };
}

// With the rule, its first state in every cell for states, and this letter in every cell for letters.
fn with_cells<R: Rule, V: WithRule>(visitor: V, rule: &R, letter: R::Letter) -> V::Answer
    requires states { FitsInMemory (Array R.State.row STATIONS) }
    requires letters { FitsInMemory (Array R.Letter.row LETTERS) }
    ensures { V.promises visitor (R.Rule.behaviour rule.now)
        (new_states (R.Rule.behaviour rule.now)) (new_letters letter) result }
{
    let mut states = [rule.first(1, 0, 0); STATIONS];
    let mut letters = [letter; LETTERS];
    visitor.with(rule, &mut states, &mut letters)
}

/// Does what the visitor does, with the rule of that name.
#[tactic(auto, using(crate::proofs::Catalogued::for_all_stations))]
pub fn with_rule<V: WithRule>(name: RuleName, visitor: V) -> V::Answer
    ensures does { V.promises visitor (behaviour_of name) (states_of name) (letters_of name) result }
    ensures laws { ForAllStations }
{
    match name {
        RuleName::Third => with_cells(visitor, &Third, third::Letter { value: 0 }),
        RuleName::Last => with_cells(visitor, &Last, last::Letter { value: 0, stamp: 0 }),
    }
}
