// The calls that read: headers, DATA, SACK, FORWARD TSN and packets, all from a raw.
use answer_text::answer::Answer;
use answer_text::fault::Malformed;
use answer_text::operands::Operands;
use chunk::chunk_header;
use refusal::Refusal;

pub fn told(number: u8, call: &mut Operands<'_>) -> Result<Answer, Malformed> {
    let raw = call.raw()?;
    Ok(match number {
        5 => header(raw).into(),
        6 => data(raw).into(),
        9 => sack(raw).into(),
        12 => block_at(raw, call.index()?).into(),
        13 => duplicate_at(raw, call.index()?).into(),
        53 => forward(raw).into(),
        55 => stream_at(raw, call.index()?).into(),
        59 => Answer::Number(u64::from(crc32c::crc32c(raw))),
        60 => packet(raw).into(),
        61 => chunk_at(raw, call.index()?).into(),
        _ => return Err(Malformed),
    })
}

fn header(raw: &[u8]) -> Result<Answer, Refusal> {
    let header = chunk_header::unmarshal(raw)?;
    Ok(Answer::Header(header.typ, header.flags, header.length))
}

fn data(raw: &[u8]) -> Result<Answer, Refusal> {
    Ok(Answer::Data(chunk_payload_data::unmarshal(raw)?))
}

fn sack(raw: &[u8]) -> Result<Answer, Refusal> {
    let sack = chunk_selective_ack::unmarshal(raw)?;
    let window = sack.advertised_receiver_window_credit;
    let duplicates = sack.duplicate_tsns;
    Ok(Answer::Sack(
        sack.cumulative_tsn_ack,
        window,
        sack.gap_ack_blocks,
        duplicates,
    ))
}

fn block_at(part: &[u8], i: usize) -> Result<Answer, Refusal> {
    let block = chunk_selective_ack::gap_ack_block_at(part, i)?;
    Ok(Answer::Block(block.start, block.end))
}

fn duplicate_at(part: &[u8], i: usize) -> Result<Answer, Refusal> {
    Ok(Answer::Tsn(chunk_selective_ack::duplicate_tsn_at(part, i)?))
}

fn forward(raw: &[u8]) -> Result<Answer, Refusal> {
    let forward = chunk_forward_tsn::unmarshal(raw)?;
    Ok(Answer::Forward(forward.new_cumulative_tsn, forward.streams))
}

fn stream_at(part: &[u8], i: usize) -> Result<Answer, Refusal> {
    let stream = chunk_forward_tsn::stream_at(part, i)?;
    Ok(Answer::Stream(stream.identifier, stream.sequence))
}

fn packet(raw: &[u8]) -> Result<Answer, Refusal> {
    let header = packet::unmarshal(raw)?;
    let tag = header.verification_tag;
    Ok(Answer::Packet(header.source_port, header.destination_port, tag))
}

fn chunk_at(packet: &[u8], place: usize) -> Result<Answer, Refusal> {
    Ok(match packet_chunks::chunk_at(packet, place)? {
        Some(found) => Answer::Chunk(found.end, found.next),
        None => Answer::Nothing,
    })
}
