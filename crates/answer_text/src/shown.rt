// How bytes, flags, marks and lists stand in an answer.
ghost use Rattle.std.specs.Prelude.{◌≤◌};

use data_fields::ChunkPayloadData;
use std::fmt;

// In hexadecimal digits; a dash where there are none.
#[derive(Clone, Copy)]
pub struct Bytes<'a>(pub &'a [u8]);

// So many bytes are spelt at once. Each by {:02x} takes seven times as long.
const AT_ONCE: usize = 32;

impl<'a> fmt::Display for Bytes<'a> {
    fn fmt<W: fmt::Write>(&self, f: &mut fmt::Formatter<W>) -> fmt::Result {
        if self.0.is_empty() {
            return f.write_str("-");
        }
        let mut digits = [0u8; 2 * AT_ONCE];
        for part in self.0.chunks(AT_ONCE) {
            let room = &mut digits[..2 * part.len().min(AT_ONCE)];
            let _ = hex::encode_to_slice(part, room);
            write_digits(f, room)?;
        }
        Ok(())
    }
}

// Each behind a space, as it shows itself.
#[derive(Clone, Copy)]
pub struct Numbers<'a, T>(pub &'a [T]);

impl<'a, T: fmt::Display> fmt::Display for Numbers<'a, T> {
    fn fmt<W: fmt::Write>(&self, f: &mut fmt::Formatter<W>) -> fmt::Result {
        for n in self.0 {
            write!(f, " {n}")?;
        }
        Ok(())
    }
}

// Each behind a space, as the number without a sign, of at most 64 bits, that it turns into.
#[derive(Clone, Copy)]
pub struct Unsigned<'a, T>(pub &'a [T]);

// So many of these are spelt at once. Each by itself, as `Numbers` does, takes three times as long.
const NUMBERS_AT_ONCE: usize = 32;

// The longest number has 20 digits, and a space in front.
const ROOM: usize = 21 * NUMBERS_AT_ONCE;

impl<'a, T: Copy + Into<u64>> fmt::Display for Unsigned<'a, T> {
    fn fmt<W: fmt::Write>(&self, f: &mut fmt::Formatter<W>) -> fmt::Result {
        let mut room = [0u8; ROOM];
        for part in self.0.chunks(NUMBERS_AT_ONCE) {
            let at = spell(part, &mut room);
            write_digits(f, &room[at..])?;
        }
        Ok(())
    }
}

// Puts the first of these numbers at the end of the room, the last one first, each behind a space; where they begin.
fn spell<T: Copy + Into<u64>>(numbers: &[T], room: &mut [u8; ROOM]) -> usize
    ensures { result ≤ 672 }
{
    let mut at = ROOM;
    for i in (0..numbers.len().min(NUMBERS_AT_ONCE)).rev() {
        at = itoa::write_digits(numbers[i].into(), room, at) - 1;
        room[at] = b' ';
    }
    at
}

fn write_digits<W: fmt::Write>(f: &mut fmt::Formatter<W>, digits: &[u8]) -> fmt::Result {
    match str::from_utf8(digits) {
        Ok(text) => f.write_str(text),
        Err(_) => Err(fmt::Error),
    }
}

// Flags, TSN, stream, SSN and payload identifier.
#[derive(Clone, Copy)]
pub struct Fields(pub ChunkPayloadData);

impl fmt::Display for Fields {
    fn fmt<W: fmt::Write>(&self, f: &mut fmt::Formatter<W>) -> fmt::Result {
        let chunk = self.0;
        let flags = [
            ("U", chunk.unordered),
            ("B", chunk.beginning_fragment),
            ("E", chunk.ending_fragment),
            ("I", chunk.immediate_sack),
        ];
        letters(f, &flags)?;
        let tsn = chunk.tsn;
        let stream = chunk.stream_identifier;
        let ssn = chunk.stream_sequence_number;
        let identifier = chunk.payload_type;
        write!(f, " {tsn} {stream} {ssn} {identifier}")
    }
}

// What is marked of a chunk in flight.
#[derive(Clone, Copy)]
pub struct Marks {
    pub acked: bool,
    pub abandoned: bool,
    pub retransmit: bool,
}

impl fmt::Display for Marks {
    fn fmt<W: fmt::Write>(&self, f: &mut fmt::Formatter<W>) -> fmt::Result {
        let marks = [
            ("A", self.acked),
            ("X", self.abandoned),
            ("R", self.retransmit),
        ];
        letters(f, &marks)
    }
}

// The letter of each that is set; a dash where none is.
fn letters<W: fmt::Write>(f: &mut fmt::Formatter<W>, all: &[(&str, bool)]) -> fmt::Result {
    if !all.iter().any(|(_, set)| *set) {
        return f.write_str("-");
    }
    for (letter, set) in all {
        if *set {
            f.write_str(letter)?;
        }
    }
    Ok(())
}

#[cfg(test)]
mod tests {
    use super::*;
    use std::alloc::AllocError;

    #[test]
    fn each_behind_a_space(rt: HostRuntime) -> Result<(), AllocError> {
        let alloc = rt.alloc();
        let none: [bool; 0] = [];
        let flags = [true, false];
        let words = ["one", "two"];
        let signed = [i32::MIN, -1, 0, 17];
        let shown = [
            (format!(in alloc; "{}", Numbers(&none))?, ""),
            (format!(in alloc; "{}", Numbers(&flags))?, " true false"),
            (format!(in alloc; "{}", Numbers(&words))?, " one two"),
            (
                format!(in alloc; "{}", Numbers(&signed))?,
                " -2147483648 -1 0 17",
            ),
        ];
        for (text, want) in &shown {
            assert_eq!(rt; text.as_str(), *want);
        }
        let many = format!(in alloc; "{}", Numbers(&[-1i32; 100]))?;
        assert_eq!(rt; many.len(), 300);
        Ok(())
    }

    #[test]
    fn unsigned_as_each_shows_itself(rt: HostRuntime) -> Result<(), AllocError> {
        let alloc = rt.alloc();
        for (first, n) in [
            (0, 0),
            (9, 1),
            (90, 31),
            (990, 32),
            (0, 100),
            (u64::MAX - 33, 33),
        ] {
            let list: Vec<u64> = (first..first + n).collect(alloc)?;
            let list = list.as_slice();
            let each = format!(in alloc; "{}", Numbers(list))?;
            let at_once = format!(in alloc; "{}", Unsigned(list))?;
            assert_eq!(rt; at_once.as_str(), each.as_str(), "at {first}");
        }
        Ok(())
    }
}
