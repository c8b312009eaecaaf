//! `receive` over the longest inputs, with ample memory: the largest datagram, the longest location and its line,
//! and more than a thousand datagrams.
use crate::receive_tests::*;
use mb_base::{DATAGRAM_MAX, Memory, trace_bytes};
use std::alloc::Global;
use std::process::Abort;
use std::test::Fail;

/// The bytes of the longest payload that fits a datagram behind a header of four words and a FEC payload ID.
const PAYLOAD: usize = 65_515;

/// The bytes of the longest location.
const LOCATION: usize = 2_048;

/// How many datagrams that are no packets come between the text and the file.
const BETWEEN: usize = 1_100;

const BEFORE_LOCATION: &str = "<File Content-Location=\"";

const BEHIND_LOCATION: &str =
    "\" TOI=\"5\" Content-Length=\"65515\" FEC-OTI-FEC-Encoding-ID=\"0\" FEC-OTI-Maximum-Source-Block-Length=\"64\" FEC-OTI-Encoding-Symbol-Length=\"65535\"/>\n";

fn location_in(alloc: Global) -> Result<String, Memory> {
    let mut location = String::new(alloc);
    for _ in 0..LOCATION {
        location.push('x')?;
    }
    Ok(location)
}

fn payload_in(alloc: Global) -> Result<Vec<u8>, Memory> {
    let mut payload = Vec::new(alloc);
    for i in 0..PAYLOAD {
        payload.push((i % 251) as u8)?;
    }
    Ok(payload)
}

fn longest_text(alloc: Global, location: &[u8]) -> Result<Vec<u8>, Memory> {
    let mut text = HEAD.as_bytes().to_vec(alloc)?;
    text.extend_from_slice(BEFORE_LOCATION.as_bytes())?;
    text.extend_from_slice(location)?;
    text.extend_from_slice(BEHIND_LOCATION.as_bytes())?;
    text.extend_from_slice(END.as_bytes())?;
    Ok(text)
}

fn push_record(rt: &impl Abort, datagram: &[u8], trace: &mut Vec<u8>) -> Result<(), Memory> {
    assert!(rt; datagram.len() <= DATAGRAM_MAX);
    trace_bytes(NOW, datagram, trace)
}

fn longest_trace(
    rt: &impl Abort,
    alloc: Global,
    location: &[u8],
    payload: &[u8],
) -> Result<Vec<u8>, Memory> {
    let mut trace = Vec::new(alloc);
    let text = text_packet(alloc, &longest_text(alloc, location)?)?;
    push_record(rt, &text, &mut trace)?;
    for _ in 0..BETWEEN {
        push_record(rt, b"\0", &mut trace)?;
    }
    let file = packet_of(alloc, &[0x10a0_0400, 0, 1, 5, 0], payload)?;
    push_record(rt, &file, &mut trace)?;
    Ok(trace)
}

#[test]
fn the_longest_inputs_find_room(rt: HostRuntime) -> Result<(), Fail> {
    let alloc = rt.alloc();
    let location = location_in(alloc)?;
    let payload = payload_in(alloc)?;
    let trace = longest_trace(&rt, alloc, location.as_bytes(), &payload)?;
    let left = received(&rt, &TSI_1, &trace, [&[], &[], &[]])?;
    let stored = format!(in alloc; "stored 5 65515 {location}")?;
    let printed = [
        FDT1,
        stored.as_str(),
        "end ended 3899999000 datagrams 1102",
        "dropped short 1100",
    ];
    assert_left(&rt, &left, &printed, 0, &[(5, location.as_str(), &payload)])?;
    Ok(())
}
