// A call read: its op says which, and its body the rest.
use crate::refusal::{Refusal, UNKNOWN};
use product::{HeldParts, ProductInfo};
use texts::{TEXT_MAX, Text};
use transcript::Body;

// kept: no plainer: what carries one out is handed the output and a product info apart, since `FirmwareIn` tells of another info.
#[derive(Clone, Copy)]
pub(crate) enum Request<'a> {
    Record { command: u8, payload: &'a [u8] },
    Reply(&'a [u8]),
    Mode(&'a [u8]),
    Startup(&'a [u8]),
    Response(&'a [u8]),
    // Another product info: PROD_RESET and PROD_RAW.
    Replace(ProductInfo),
    // Takes in the reply of a payload, or is refused with it.
    Add(&'a [u8]),
    // Takes in the sequence and data of a payload, 0 and none where it is refused.
    Take(&'a [u8]),
    Look,
    Firmware,
    // The firmware of another product info.
    FirmwareIn(ProductInfo),
}

// Parts as bits 1 to 5.
// kept: no plainer: the bits are those of FORMAT.md, each of a field of its own.
fn parts_of(bits: u8) -> HeldParts {
    HeldParts {
        numbers: bits & 2 != 0,
        model: bits & 4 != 0,
        software: bits & 8 != 0,
        hardware: bits & 16 != 0,
        serial: bits & 32 != 0,
    }
}

// So many 'x', kept to the text's 32 bytes; the count as given.
// kept: a rule of the project (fixed memory) needs it: a text is 32 bytes and a count, and here the count may pass them.
fn letters(count: u8) -> Text {
    let mut bytes = [0u8; TEXT_MAX];
    let count = usize::from(count);
    bytes[..count.min(TEXT_MAX)].fill(b'x');
    Text { bytes, count }
}

// The product info that PROD_RAW makes.
fn raw(body: &mut Body<'_>) -> ProductInfo {
    let parts = parts_of(body.take());
    ProductInfo {
        model: letters(body.take()),
        software_version: letters(body.take()),
        hardware_version: letters(body.take()),
        serial_number: letters(body.take()),
        parts,
        ..ProductInfo::new()
    }
}

// The product info that FIRMWARE_IN makes: a software text of any count and bytes.
// kept: as `letters`
fn with_software(body: &mut Body<'_>) -> ProductInfo {
    let count = usize::from(body.take::<u8>());
    let mut bytes = [0u8; TEXT_MAX];
    for (place, &b) in bytes.iter_mut().zip(body.rest()) {
        *place = b;
    }
    ProductInfo {
        software_version: Text { bytes, count },
        ..ProductInfo::new()
    }
}

impl<'a> Request<'a> {
    pub(crate) fn read(op: u8, body: &mut Body<'a>) -> Result<Self, Refusal> {
        match op {
            0x22 => Ok(Request::Record {
                command: body.take(),
                payload: body.rest(),
            }),
            0x30 => Ok(Request::Reply(body.rest())),
            0x31 => Ok(Request::Mode(body.rest())),
            0x32 => Ok(Request::Startup(body.rest())),
            0x33 => Ok(Request::Response(body.rest())),
            0x38 => Ok(Request::Replace(ProductInfo::new())),
            0x39 => Ok(Request::Add(body.rest())),
            0x3A => Ok(Request::Replace(raw(body))),
            0x3B => Ok(Request::Look),
            0x3C => Ok(Request::Firmware),
            0x3D => Ok(Request::Take(body.rest())),
            0x3E => Ok(Request::FirmwareIn(with_software(body))),
            _ => Err(UNKNOWN),
        }
    }
}
