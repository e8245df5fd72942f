//! The pool: words of which the first are frames.
ghost use Rattle.std.specs.Prelude.{◌≡◌, ◌<◌, ◌≤◌, cond, length, replicate, IfOk};
ghost use Rattle.rules.specs.declared.TheConstants.{LAST_ROUND};
ghost use Rattle.frames.specs.Pool.{has_place, found, taken_out, added, repeated};

use crate::frame::read_frame;
use rules::Rule;

/// Why the pool refuses. Whatever it refuses leaves its words as they were.
#[derive(Clone, Copy, Debug, PartialEq, Eq)]
pub enum PoolRefusal {
    /// The place is not one of the frames'.
    NoSuchPlace,
    /// The word at the place is no frame of these stations and this rule.
    Unreadable,
    /// There are fewer free places than frames to add.
    Full,
}

// Whether a place is one of the first `count` of a pool that has so many words.
fn check_place(pool: &[u64], count: usize, place: usize) -> Result<(), PoolRefusal>
    ensures { result ≡ cond (has_place pool.now count place) (Ok tt) (Err PoolRefusal.NoSuchPlace) }
{
    if place < count && count <= pool.len() {
        Ok(())
    } else {
        Err(PoolRefusal::NoSuchPlace)
    }
}

/// The sender, the receiver, the round and the letter of the frame at a place, among n stations.
pub fn frame_at<R: Rule>(
    rule: &R,
    n: usize,
    pool: &[u64],
    count: usize,
    place: usize,
) -> Result<(usize, usize, u16, R::Letter), PoolRefusal>
    ensures frame { result ≡ found (R.Rule.behaviour rule.now) n pool.now count place }
    ensures below { IfOk result (λ f. (f.0 < n) × (f.1 < n) × (f.2 ≤ LAST_ROUND)) }
{
    check_place(pool, count, place)?;
    read_frame(rule, n, pool[place]).ok_or(PoolRefusal::Unreadable)
}

/// Takes the frame at a place out of the first `count`: the last of them moves there, and 0 takes its place. Answers how
/// many are left.
#[tactic(auto, unfolding(crate::specs::Pool::take_out))]
pub fn take_out(pool: &mut [u64], count: usize, place: usize) -> Result<usize, PoolRefusal>
    ensures answer { result ≡ (taken_out pool.old count place).0 }
    ensures words { pool.new ≡ (taken_out pool.old count place).1 }
{
    check_place(pool, count, place)?;
    let last = count - 1;
    pool[place] = pool[last];
    pool[last] = 0;
    Ok(last)
}

/// Frames join the first `count` at their end, all or none. Answers how many there are then.
#[tactic(auto, using(crate::proofs::Added::put_part))]
pub fn add(pool: &mut [u64], count: usize, words: &[u64]) -> Result<usize, PoolRefusal>
    ensures answer { result ≡ (added pool.old count words.now).0 }
    ensures words { pool.new ≡ (added pool.old count words.now).1 }
{
    if count > pool.len() || words.len() > pool.len() - count {
        return Err(PoolRefusal::Full);
    }
    pool[count..count + words.len()].copy_from_slice(words);
    Ok(count + words.len())
}

/// A copy of the frame at a place joins the first `count` at their end. Answers the copy's place.
pub fn repeat(pool: &mut [u64], count: usize, place: usize) -> Result<usize, PoolRefusal>
    ensures answer { result ≡ (repeated pool.old count place).0 }
    ensures words { pool.new ≡ (repeated pool.old count place).1 }
{
    check_place(pool, count, place)?;
    if count == pool.len() {
        return Err(PoolRefusal::Full);
    }
    pool[count] = pool[place];
    Ok(count)
}

/// Writes 0 to every word.
pub fn clear(words: &mut [u64])
    ensures { words.new ≡ replicate (length words.old) 0 }
{
    words.fill(0);
}
