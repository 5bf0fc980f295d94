// The operands of a call, in their order; what docs/CALLS.md says of one is tested as it is read.
ghost use Rattle.std.specs.Prelude.{◌≤◌, IfOk};

use crate::fault::Malformed;
use data_fields::ChunkPayloadData;

// The most bytes of a raw, of patterned data, or of a lent buffer.
pub const BYTES: usize = 65600;

// The most numbers of a list, lent or given.
pub const NUMBERS: usize = 16400;

// The most places of a lent list of causes, of which a line has four.
pub const CAUSES: usize = 10000;

// What is left of the stream; a number is big-endian.
#[derive(Clone, Copy)]
pub struct Operands<'a> {
    rest: &'a [u8],
}

impl<'a> Operands<'a> {
    pub fn of(stream: &'a [u8]) -> Operands<'a> {
        Operands { rest: stream }
    }

    // How many bytes are not read yet.
    pub fn left(self) -> usize {
        self.rest.len()
    }

    pub fn u8(&mut self) -> Result<u8, Malformed> {
        Ok(u8::from_be_bytes(self.array()?))
    }

    pub fn u16(&mut self) -> Result<u16, Malformed> {
        Ok(u16::from_be_bytes(self.array()?))
    }

    pub fn u32(&mut self) -> Result<u32, Malformed> {
        Ok(u32::from_be_bytes(self.array()?))
    }

    pub fn u64(&mut self) -> Result<u64, Malformed> {
        Ok(u64::from_be_bytes(self.array()?))
    }

    // An index or a place, whatever it is.
    pub fn index(&mut self) -> Result<usize, Malformed> {
        Ok(self.u64()? as usize)
    }

    pub fn raw(&mut self) -> Result<&'a [u8], Malformed> {
        let n = self.size()?;
        self.bytes(n)
    }

    pub fn fields(&mut self) -> Result<ChunkPayloadData, Malformed> {
        let flags = self.u8()?;
        let tsn = self.u32()?;
        let stream = self.u16()?;
        let ssn = self.u16()?;
        Ok(chunk(flags, tsn, stream, ssn, self.u32()?))
    }

    // Patterned data, at the front of what is lent for them.
    pub fn user_data<'b>(&mut self, room: &'b mut [u8; BYTES]) -> Result<&'b [u8], Malformed> {
        let n = self.size()?;
        let seed = self.u8()?;
        let data = &mut room[..n];
        for (i, byte) in data.iter_mut().enumerate() {
            *byte = patterned(seed, i);
        }
        Ok(data)
    }

    // The numbers of a list, at the front of what is lent for them.
    pub fn shorts<'b>(&mut self, list: &'b mut [u16; NUMBERS]) -> Result<&'b [u16], Malformed> {
        let n = self.places(NUMBERS)?;
        let (numbers, _) = self.bytes(2 * n)?.as_chunks::<2>();
        let list = &mut list[..n];
        for (place, number) in list.iter_mut().zip(numbers) {
            *place = u16::from_be_bytes(*number);
        }
        Ok(list)
    }

    pub fn words<'b>(&mut self, list: &'b mut [u32; NUMBERS]) -> Result<&'b [u32], Malformed> {
        let n = self.places(NUMBERS)?;
        let (numbers, _) = self.bytes(4 * n)?.as_chunks::<4>();
        let list = &mut list[..n];
        for (place, number) in list.iter_mut().zip(numbers) {
            *place = u32::from_be_bytes(*number);
        }
        Ok(list)
    }

    // A lent buffer: so many bytes, each of which is what follows.
    pub fn room<'b>(&mut self, room: &'b mut [u8; BYTES]) -> Result<&'b mut [u8], Malformed> {
        let n = self.size()?;
        let fill = self.u8()?;
        let lent = &mut room[..n];
        lent.fill(fill);
        Ok(lent)
    }

    // How many places a lent or given list has.
    pub fn places(&mut self, most: usize) -> Result<usize, Malformed>
        ensures { IfOk result (λ n. n ≤ most) }
    {
        at_most(usize::from(self.u16()?), most)
    }

    // How many bytes.
    pub fn size(&mut self) -> Result<usize, Malformed>
        ensures { IfOk result (λ n. n ≤ 65600) }
    {
        at_most(self.u32()? as usize, BYTES)
    }

    fn bytes(&mut self, n: usize) -> Result<&'a [u8], Malformed> {
        let (first, rest) = self.rest.split_at_checked(n).ok_or(Malformed)?;
        self.rest = rest;
        Ok(first)
    }

    fn array<const N: usize>(&mut self) -> Result<[u8; N], Malformed> {
        let (first, rest) = self.rest.split_first_chunk::<N>().ok_or(Malformed)?;
        self.rest = rest;
        Ok(*first)
    }
}

// A lent list: so many places at the front, each of which is this number.
pub fn lent(list: &mut [u16], n: usize, fill: u16) -> &mut [u16] {
    let n = n.min(list.len());
    let lent = &mut list[..n];
    lent.fill(fill);
    lent
}

fn at_most(n: usize, most: usize) -> Result<usize, Malformed>
    ensures { IfOk result (λ k. k ≤ most) }
{
    if n <= most { Ok(n) } else { Err(Malformed) }
}

// Byte i of patterned data: seed + i + i / 256, modulo 256.
fn patterned(seed: u8, i: usize) -> u8 {
    let low = (i % 256) as u8;
    let high = (i / 256 % 256) as u8;
    seed.wrapping_add(low).wrapping_add(high)
}

// The chunk of these numbers; the upper four bits of the flags are ignored.
fn chunk(flags: u8, tsn: u32, stream: u16, ssn: u16, identifier: u32) -> ChunkPayloadData {
    ChunkPayloadData {
        unordered: flags & 4 != 0,
        beginning_fragment: flags & 2 != 0,
        ending_fragment: flags & 1 != 0,
        immediate_sack: flags & 8 != 0,
        tsn,
        stream_identifier: stream,
        stream_sequence_number: ssn,
        payload_type: identifier,
    }
}

// The chunk of a table's four words: flags, beside a length, in the first, the TSN, stream and SSN, and the identifier.
pub fn record(head: u32, tsn: u32, id: u32, identifier: u32) -> ChunkPayloadData {
    let [flags, _, _, _] = head.to_be_bytes();
    chunk(
        flags,
        tsn,
        (id >> 16) as u16,
        (id & 0xFFFF) as u16,
        identifier,
    )
}
