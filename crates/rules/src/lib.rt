//! What every voting rule offers and shows.
#![tactic(auto)]

ghost use Rattle.std.specs.Prelude.{◌≡◌, ℕ, ◌^◌, ◌<◌, ◌≤◌, Bool, length, is_some, count_by, slice_index};
ghost use Rattle.lists.specs.Lists.{tabulate, put};
ghost use Rattle.rules.specs.Rule.{Behaviour, Interface, Laws, MailboxRoom, Ranges, outside};

/// The last round that a station can be in.
pub const LAST_ROUND: u16 = 4095;

/// A voting rule: stations that write each other letters, round by round, until they show a hull.
///
/// Its functions answer what its `behaviour` says, from their arguments alone. A caller knows a rule by that, by the
/// interface and the four laws that it keeps, and by nothing more. A number of stations, a station, a round or a mailbox
/// may be any: where they speak of no station there is no letter, and the state stays.
pub trait Rule {
    /// What a station keeps from round to round.
    type State: Copy;

    /// What a station writes to another.
    type Letter: Copy;

    /// The most stations, 1 to 16.
    const MAX_STATIONS: usize;

    ghost MAX_STATIONS: { ℕ };

    // the rule as functions
    ghost behaviour: { Self → Behaviour Self.State Self.Letter };

    // the letters whose numbers are within their ranges
    ghost letter_fits: { Self.Letter → Bool };

    /// A station's first state, from its opening value.
    fn first(&self, n: usize, station: usize, value: u16) -> Self::State
        ensures { result ≡ (behaviour self.now).first n station value };

    /// The letter that the sender writes to the receiver in a round, or none.
    fn letter(
        &self,
        n: usize,
        sender: usize,
        round: u16,
        state: &Self::State,
        receiver: usize,
    ) -> Option<Self::Letter>
        ensures { result ≡ (behaviour self.now).letter n sender round state.now receiver };

    /// The state after a round, from the state before it and a mailbox: a letter or nothing for each station.
    fn next(
        &self,
        n: usize,
        station: usize,
        round: u16,
        state: &Self::State,
        mailbox: &[Option<Self::Letter>],
    ) -> Self::State
        ensures { result ≡ (behaviour self.now).next n station round state.now mailbox.now };

    /// The hull that a state shows, or none.
    fn hull(&self, state: &Self::State) -> Option<u16>
        ensures { result ≡ (behaviour self.now).hull state.now };

    /// A letter's packed number, of 44 bits.
    fn pack(&self, letter: &Self::Letter) -> u64
        ensures value { result ≡ (behaviour self.now).pack letter.now }
        ensures bound { result < 2 ^ 44 };

    /// A packed number's letter, or none.
    fn unpack(&self, word: u64) -> Option<Self::Letter>
        ensures { result ≡ (behaviour self.now).unpack word };

    // the constant is the behaviour's most
    ghost most: { (rule : Self) → (behaviour rule).most ≡ MAX_STATIONS };

    // the guards: what a caller may rely on, whatever it asks
    ghost interface: { (rule : Self) → Interface (behaviour rule) };

    // codec, stability, agreement and validity
    ghost laws: { (rule : Self) → Laws (behaviour rule) letter_fits };

    // what is written is within its ranges
    ghost ranges: { (rule : Self) → Ranges (behaviour rule) letter_fits };

    // a mailbox of sixteen places fits in memory
    ghost room: { MailboxRoom Self.Letter.row };
}

/// Writes each station's first state from its opening value, as far as there are cells.
pub fn first_states<R: Rule>(rule: &R, values: &[u16], states: &mut [R::State])
    ensures { states.new ≡ put states.old 0 (tabulate (length values.now)
        (λ p. (R.Rule.behaviour rule.now).first (length values.now) p (slice_index values.now p))) }
{
    for (station, value) in values.iter().enumerate() {
        if station < states.len() {
            states[station] = rule.first(values.len(), station, *value);
        }
    }
}

/// Whether no call speaks of such a station: there are none or too many, none has that number, or the round is past the
/// last.
pub fn is_outside(most: usize, n: usize, station: usize, round: u16) -> bool
    ensures { result ≡ outside most n station round }
{
    n == 0 || n > most || station >= n || round > LAST_ROUND
}

/// How many letters a mailbox has.
pub fn count_letters<L>(mailbox: &[Option<L>]) -> usize
    ensures value { result ≡ count_by is_some mailbox.now }
    ensures bound { result ≤ length mailbox.now }
{
    mailbox.iter().filter(|letter| letter.is_some()).count()
}
