// The calls of numbers that wrap.
use answer_text::answer::Answer;
use answer_text::fault::Malformed;
use answer_text::operands::Operands;

pub fn told(number: u8, call: &mut Operands<'_>) -> Result<Answer, Malformed> {
    Ok(match number {
        1 => Answer::Ordered(tsns(call.u32()?, call.u32()?)),
        2 => Answer::Ordered(ssns(call.u16()?, call.u16()?)),
        3 => Answer::Distance(serial_distance::tsn_distance(call.u32()?, call.u32()?)),
        4 => {
            let distance = serial_distance::ssn_distance(call.u16()?, call.u16()?);
            Answer::Distance(i64::from(distance))
        }
        67 => Answer::Order(serial_compare::tsn_compare(call.u32()?, call.u32()?)),
        68 => Answer::Order(serial_compare::ssn_compare(call.u16()?, call.u16()?)),
        _ => return Err(Malformed),
    })
}

// Whether the first is before, at or before, after, at or after the second.
fn tsns(a: u32, b: u32) -> [bool; 4] {
    [
        serial_tsns::sna32lt(a, b),
        serial_tsns::sna32lte(a, b),
        serial_tsns_after::sna32gt(a, b),
        serial_tsns_after::sna32gte(a, b),
    ]
}

fn ssns(a: u16, b: u16) -> [bool; 4] {
    [
        serial_ssns::sna16lt(a, b),
        serial_ssns::sna16lte(a, b),
        serial_ssns_after::sna16gt(a, b),
        serial_ssns_after::sna16gte(a, b),
    ]
}
