// The laws of house records that are read back.
ghost use Rattle.replay.specs.Laws.{EachPacketsHouseRecordIsLawful, NoTwoPacketsHaveOneHouseRecord, EachLawfulHouseRecordIsAPackets, AFrameComesBack};

// Packets and lawful house records are one to one.
pub fn house_records_are_packets()
    ensures lawful { EachPacketsHouseRecordIsLawful }
    ensures one { NoTwoPacketsHaveOneHouseRecord }
    ensures onto { EachLawfulHouseRecordIsAPackets }
    ensures back { AFrameComesBack }
{}
