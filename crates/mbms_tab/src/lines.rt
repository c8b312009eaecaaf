ghost use Rattle.std.specs.Prelude.{◌≡◌, ◌++◌, Some, OnOk, string_bytes};
ghost use Rattle.mb_alc.specs.PacketView.{packet_seen};
ghost use Rattle.mbms_tab.specs.Lines as line;
ghost use Rattle.mbms_tab.specs.Show.{break_text};

use mb_alc::{Packet, read_packet};
use mb_program::broken_line;
use std::alloc::{AllocError, Global};
use std::fmt;

/// A number, which is printed as a dash where there is none.
#[derive(Clone, Copy)]
struct OrDash(Option<u128>);

impl fmt::Display for OrDash {
    ghost output = { λ number. Some (line.or_dash number.0) };

    fn fmt<W: fmt::Write>(&self, f: &mut fmt::Formatter<W>) -> fmt::Result {
        match self.0 {
            Some(number) => write!(f, "{number}"),
            None => write!(f, "-"),
        }
    }
}

/// Appends the line of a record: what its datagram says, or why it is no packet.
pub fn push_record(lines: &mut String, at: u64, datagram: &[u8]) -> Result<(), AllocError>
    ensures { OnOk result (string_bytes lines.new
        ≡ string_bytes lines.old ++ line.record_line (record { at = at; bytes = datagram.now })) }
{
    match read_packet(datagram) {
        Ok(packet) => push_packet(lines, at, &packet),
        Err(fault) => {
            let word = fault.word();
            write!(lines, "at {at} fault {word}\n")
        }
    }
}

fn push_packet(lines: &mut String, at: u64, packet: &Packet<'_>) -> Result<(), AllocError>
    ensures { OnOk result (string_bytes lines.new
        ≡ string_bytes lines.old ++ line.packet_line at (packet_seen packet.now)) }
{
    let tsi = packet.lct.tsi;
    let toi = OrDash(packet.lct.toi);
    let body = packet.body;
    let sbn = OrDash(body.map(|body| u128::from(body.sbn)));
    let esi = OrDash(body.map(|body| u128::from(body.esi)));
    let bytes = OrDash(body.map(|body| body.payload.len() as u128));
    write!(
        lines,
        "at {at} tsi {tsi} toi {toi} sbn {sbn} esi {esi} bytes {bytes}\n"
    )
}

/// Appends the line of a trace that ends inside a record, if it does.
pub fn push_end(alloc: Global, lines: &mut String, broken: Option<u64>) -> Result<(), AllocError>
    ensures { OnOk result (string_bytes lines.new ≡ string_bytes lines.old ++ break_text broken) }
{
    match broken {
        Some(place) => lines.push_str(broken_line(alloc, place)?.as_str()),
        None => Ok(()),
    }
}
