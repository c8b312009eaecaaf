ghost use Rattle.std.specs.Prelude.{◌≡◌};
ghost use Rattle.mb_rx.specs.Receiver.{counted_fault};
ghost use Rattle.mb_rx.specs.Run.{fault_count};

use mb_alc::FaultKind;

/// How many datagrams were no packet, by the kind of their fault. A count stands still at the last value of
/// its type.
#[derive(Clone, Copy)]
pub struct Faults {
    pub short: u64,
    pub version: u64,
    pub header_length: u64,
    pub no_tsi: u64,
    pub overrun: u64,
    pub zero_length: u64,
    pub fti_length: u64,
    pub flute_version: u64,
    pub code_point: u64,
    pub no_payload_id: u64,
}

impl Faults {
    pub const NONE: Faults = Faults {
        short: 0,
        version: 0,
        header_length: 0,
        no_tsi: 0,
        overrun: 0,
        zero_length: 0,
        fti_length: 0,
        flute_version: 0,
        code_point: 0,
        no_payload_id: 0,
    };

    /// These counts with one more for the kind.
    pub fn counted(self, kind: FaultKind) -> Faults
        ensures { result ≡ counted_fault kind self }
    {
        let mut faults = self;
        match kind {
            FaultKind::Short => faults.short = faults.short.saturating_add(1),
            FaultKind::Version => faults.version = faults.version.saturating_add(1),
            FaultKind::HeaderLength => faults.header_length = faults
                .header_length
                .saturating_add(1),
            FaultKind::NoTsi => faults.no_tsi = faults.no_tsi.saturating_add(1),
            FaultKind::Overrun => faults.overrun = faults.overrun.saturating_add(1),
            FaultKind::ZeroLength => faults.zero_length = faults.zero_length.saturating_add(1),
            FaultKind::FtiLength => faults.fti_length = faults.fti_length.saturating_add(1),
            FaultKind::FluteVersion => faults.flute_version = faults
                .flute_version
                .saturating_add(1),
            FaultKind::CodePoint => faults.code_point = faults.code_point.saturating_add(1),
            FaultKind::NoPayloadId => faults.no_payload_id = faults.no_payload_id.saturating_add(1),
        }
        faults
    }

    /// How many had a fault of the kind.
    pub fn count(self, kind: FaultKind) -> u64
        ensures { result ≡ fault_count self kind }
    {
        match kind {
            FaultKind::Short => self.short,
            FaultKind::Version => self.version,
            FaultKind::HeaderLength => self.header_length,
            FaultKind::NoTsi => self.no_tsi,
            FaultKind::Overrun => self.overrun,
            FaultKind::ZeroLength => self.zero_length,
            FaultKind::FtiLength => self.fti_length,
            FaultKind::FluteVersion => self.flute_version,
            FaultKind::CodePoint => self.code_point,
            FaultKind::NoPayloadId => self.no_payload_id,
        }
    }
}
