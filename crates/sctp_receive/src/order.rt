// Numbers that wrap: TSNs of 32 bits, SSNs of 16.
ghost use Rattle.std.specs.Prelude.{◌≡◌, eqb};
ghost use Rattle.serial_model.specs.Serial.{before, at_or_before, after, at_or_after, compared, order_number};

use sctp_receive_order::number;

// Is the TSN i1 before i2?
#[unsafe(no_mangle)]
pub extern "C" fn sctp_receive_sna32lt(i1: u32, i2: u32) -> bool
    ensures { result ≡ before 32 i1 i2 }
{
    serial_tsns::sna32lt(i1, i2)
}

// Is the TSN i1 at or before i2?
#[unsafe(no_mangle)]
pub extern "C" fn sctp_receive_sna32lte(i1: u32, i2: u32) -> bool
    ensures { result ≡ at_or_before 32 i1 i2 }
{
    serial_tsns::sna32lte(i1, i2)
}

// Is the TSN i1 after i2?
#[unsafe(no_mangle)]
pub extern "C" fn sctp_receive_sna32gt(i1: u32, i2: u32) -> bool
    ensures { result ≡ after 32 i1 i2 }
{
    serial_tsns_after::sna32gt(i1, i2)
}

// Is the TSN i1 at or after i2?
#[unsafe(no_mangle)]
pub extern "C" fn sctp_receive_sna32gte(i1: u32, i2: u32) -> bool
    ensures { result ≡ at_or_after 32 i1 i2 }
{
    serial_tsns_after::sna32gte(i1, i2)
}

// Are the TSNs i1 and i2 the same?
#[unsafe(no_mangle)]
pub extern "C" fn sctp_receive_sna32eq(i1: u32, i2: u32) -> bool
    ensures { result ≡ eqb i1 i2 }
{
    serial_tsns_after::sna32eq(i1, i2)
}

// Is the SSN i1 before i2?
#[unsafe(no_mangle)]
pub extern "C" fn sctp_receive_sna16lt(i1: u16, i2: u16) -> bool
    ensures { result ≡ before 16 i1 i2 }
{
    serial_ssns::sna16lt(i1, i2)
}

// Is the SSN i1 at or before i2?
#[unsafe(no_mangle)]
pub extern "C" fn sctp_receive_sna16lte(i1: u16, i2: u16) -> bool
    ensures { result ≡ at_or_before 16 i1 i2 }
{
    serial_ssns::sna16lte(i1, i2)
}

// Is the SSN i1 after i2?
#[unsafe(no_mangle)]
pub extern "C" fn sctp_receive_sna16gt(i1: u16, i2: u16) -> bool
    ensures { result ≡ after 16 i1 i2 }
{
    serial_ssns_after::sna16gt(i1, i2)
}

// Is the SSN i1 at or after i2?
#[unsafe(no_mangle)]
pub extern "C" fn sctp_receive_sna16gte(i1: u16, i2: u16) -> bool
    ensures { result ≡ at_or_after 16 i1 i2 }
{
    serial_ssns_after::sna16gte(i1, i2)
}

// Are the SSNs i1 and i2 the same?
#[unsafe(no_mangle)]
pub extern "C" fn sctp_receive_sna16eq(i1: u16, i2: u16) -> bool
    ensures { result ≡ eqb i1 i2 }
{
    serial_ssns_after::sna16eq(i1, i2)
}

// How the TSN a stands to b: 0 earlier, 1 same, 2 later, 3 opposite.
#[unsafe(no_mangle)]
pub extern "C" fn sctp_receive_tsn_compare(a: u32, b: u32) -> u8
    ensures { result ≡ order_number (compared 32 a b) }
{
    number(serial_compare::tsn_compare(a, b))
}

// How the SSN a stands to b: 0 earlier, 1 same, 2 later, 3 opposite.
#[unsafe(no_mangle)]
pub extern "C" fn sctp_receive_ssn_compare(a: u16, b: u16) -> u8
    ensures { result ≡ order_number (compared 16 a b) }
{
    number(serial_compare::ssn_compare(a, b))
}
