ghost use Rattle.mb_alc.specs.Laws.{ExtensionsAreFound, ExtensionFaultsAreFirst, PacketsAreFound, PacketFaultsAreFirst, PacketsAreWritten, PacketsAreReadBack};

/// The laws of packets (RFC 3450, RFC 3926): an area is extensions and a datagram is a packet exactly where
/// `exts_of` and `packet_of` find them, each fault comes exactly where it is the first, and what
/// `write_packet` writes is the packet, and is read back. It does nothing.
pub fn packets_are_read()
    ensures extensions { ExtensionsAreFound }
    ensures extension_faults { ExtensionFaultsAreFirst }
    ensures packets { PacketsAreFound }
    ensures packet_faults { PacketFaultsAreFirst }
    ensures written { PacketsAreWritten }
    ensures read_back { PacketsAreReadBack }
{}
