//! What a call is lent beside its rule.

/// The four buffers: a state for each station, a row of letters for each station, and two of words. How long
/// they are, and what lies in them, is the lender's choice. The rule is no part of them: each call may be handed another.
#[derive(Drop)]
pub struct Buffers<'a, S, L> {
    pub states: &'a mut [S],
    pub letters: &'a mut [L],
    pub pool: &'a mut [u64],
    pub book: &'a mut [u64],
}
