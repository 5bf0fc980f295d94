// Where a piece reader stands in a message: its size, the place of the next piece, and whether an empty message's one piece was given.
#![tactic(auto)]

ghost use Rattle.std.specs.Prelude.{◌≡◌, not, ◌||◌, ◌&&◌, ◌≤◌, min, ltb, eqb};
ghost use Rattle.hand_place.specs.Place.{onward};

// How many bytes the piece has, and where the reader stands behind it.
#[derive(Clone, Copy)]
pub struct Onward {
    pub size: usize,
    pub position: usize,
    pub given: bool,
}

// The smaller of two numbers.
fn least(a: usize, b: usize) -> usize
    ensures { result ≡ min a b }
{
    if a < b { a } else { b }
}

// Refusal 0: the message is longer than its buffer, or the position is past the message.
pub fn unsound(room: usize, size: usize, position: usize) -> bool
    ensures { result ≡ (ltb room size || ltb size position) }
{
    if room < size {
        return true;
    }
    size < position
}

// Whether no piece is left.
pub fn finished(size: usize, position: usize, given: bool) -> bool
    ensures { result ≡ (eqb position size && (not (eqb size 0) || given)) }
{
    if position != size {
        return false;
    }
    if size != 0 {
        return true;
    }
    given
}

// The next piece, of at most so many bytes.
pub fn piece(size: usize, position: usize, given: bool, most: usize) -> Onward
    requires { position ≤ size }
    ensures { result ≡ onward size position given most }
{
    let n = least(most, size - position);
    Onward {
        size: n,
        position: position + n,
        given: given | (size == 0),
    }
}
